// What a typed unit means: its runs by C99 in this project's profile, over a number of turns and at a depth.
//
// In comes nothing and out goes nothing: the crate has definitions, and laws of them. `specs/Steps.antt` has the steps of a
// run, `specs/Meaning.antt` the step that each expression and each statement is, and `specs/Runs.antt` the run of a unit,
// with its outcome and its output. The operators of C are those of `c_types`.
//
// The idea: a meaning is a function of the tree and of the state, and it recurses on the turns and then on the tree.
// An interpreter and the translation to graphs are both to stand on it.
//
// The invariant: the output only grows, and the turns left only fall.
//
// The theorem: with more turns, or at a greater depth, a run is the same where it was not cut off, and else goes on from
// the same output. `laws.rt` says it.
//
// Source: C99 6.5 and 6.8, each construct under its section. A meaning by a recursion on a number of turns is as in
// Owens, Myreen, Kumar and Tan, Functional Big-Step Semantics (2016).
#![tactic(auto)]

mod laws;

pub use laws::{bound_of_turns, more_depth, more_turns, output_grows, turns_fall};
