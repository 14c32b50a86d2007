// Tests of the interpreter, with units made by hand.
//
// They call what `c_interpreter` and `c_types` make public, and nothing else. The expected values are worked by hand from
// C99; the numbers of turns and depths are those of this project's rules.
//
// `build` makes the nodes of typed trees, `units` the units, `rows` runs them, and `faults` runs one over a sink that
// fails. `specs/Units.antt` has each unit under its C text, and `proofs/FitsLaws.antt` that it is well made.
#![tactic(auto)]

#[cfg(test)]
mod build;
#[cfg(test)]
mod faults;
#[cfg(test)]
mod rows;
#[cfg(test)]
mod units;
