// What the nodes of a syntax tree mean, as the checker has it while it goes on from node to node.
//
// In come judgements, each for the next node of the table. Out goes what an earlier node means: once, where it is owned, as
// the code of an expression is; again and again, where it is a type or a word.
//
// The idea: one vector, with a slot a node. What is owned is taken out of its slot by the one node that it is a part of.
//
// The invariant: the slots are the judgements of the rules, but those that were taken (`AreJudged` of `specs/Judged.antt`).
//
// The theorem, on each call: for all judgements that the slots are, the answer is what `c_typing` finds at that node.
//
// Source: C99 5.1.1.3; the table is that of `c_syntax`.
#![tactic(auto)]

mod judged;

pub use judged::{Item, Judged, Judgements, Members};
