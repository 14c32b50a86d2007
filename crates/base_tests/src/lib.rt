// Tests of the crates that the others stand on.
//
// They call what `cp_base` and `cp_first` make public, and nothing else. Each crate has a module here, so
// that it is proved once, without its tests.
//
// The tests have what no clause says: that the calls succeed where there is memory, and that the clauses
// mean what they should. The expected values are worked by hand.
//
// `outside` has lists, names, files and sinks in memory, decimal numbers and layouts (`cp_base`);
// `first_form` has units of the first form (`cp_first`).
#![tactic(auto)]

#[cfg(test)]
mod first_form;
#[cfg(test)]
mod outside;
