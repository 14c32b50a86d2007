// Tests of the crates between the syntax tree and the assembly.
//
// They call what these crates make public, and nothing else. Each crate has its modules here, so that it is proved once,
// without its tests. The expected values are worked by hand.
//
// `types` has sizes, alignments, offsets and limits of types, `data` the places and the image of a unit made by hand
// (both `c_types`).
#![tactic(auto)]

#[cfg(test)]
mod data;
#[cfg(test)]
mod types;
