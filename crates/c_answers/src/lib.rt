// What the checker's functions answer for a node: what it means, or why it is refused.
//
// The idea: the rules give each node a judgement, which is a meaning or a list of faults. An answer is a value, or the first of
// the faults. Want of memory says nothing of the rules.
//
// The definitions stand in `specs/Answers.antt`: `Settles` of a list of faults, `Answers` of a judgement.
//
// Source: C99 5.1.1.3.
#![tactic(auto)]

mod refusal;

pub use refusal::{Refusal, too_big};
