// The types and the judgements of the nodes of a syntax tree, from node to node.
//
// In comes one node after the other, kids before their parents, with what it means. Out goes what the kids of a node mean,
// once, where it is owned, as the code of an expression is; what was asked of a node that breaks a rule is nothing.
//
// The idea: the table of types and the judgements go together, since what a node means names types. A row, which is a
// function that judges one kind of node, takes what its kids mean, from the first to the last, and answers what the node
// means or the first rule that it breaks.
//
// The invariant: before a node is judged all nodes before it are, as the rules say (`IsReady` of `specs/Meanings.antt`), and
// what this node or a later one may want is there.
//
// The theorem: `IsRow` says when a row is right; `push` goes on to the next node after one.
//
// `meanings` has them, `answers` what a row answers, `conditions` what is asked of a condition.
//
// Source: C99 5.1.1.3; the table is that of `c_syntax`.
#![tactic(auto)]

mod answers;
mod conditions;
mod meanings;

pub use answers::{expressed, performed};
pub use conditions::is_scalar_value;
pub use meanings::Meanings;
