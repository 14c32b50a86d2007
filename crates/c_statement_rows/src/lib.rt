// What the nodes of a syntax tree that are statements do: one row a kind.
//
// In come the table of a tree, the number of a node, and what the nodes before it mean. Out goes what the node does, or the
// first rule that it breaks.
//
// The idea: a row asks first what can be asked where parts have no meaning, then takes what the kids mean, from the first to
// the last, and makes a statement of it.
//
// The theorem, on each row: `IsRow` of `c_meanings`, where the node is of the row's kind.
//
// `simple` has statements without parts that are statements, `loops` those with a condition and parts, `fors` `for`, `jumps`
// `break` and `continue`, `returns` `return`, `blocks` blocks.
//
// Source: C99 6.8.
#![tactic(auto)]

mod blocks;
mod fors;
mod jumps;
mod loops;
mod returns;
mod simple;

pub use blocks::block;
pub use fors::for_loop;
pub use jumps::{break_out, go_on};
pub use loops::{conditional, do_loop, while_loop};
pub use returns::return_from;
pub use simple::{empty, expression};
