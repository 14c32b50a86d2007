// The nodes and the blocks of a graph, as they are kept.
//
// In come operations with operands, and ends; out go the nodes and the blocks by their numbers, which are counted from 0 and never
// used again.
//
// The idea: `Nodes` has a row for each node, and its operands in a table of uses, so that the users of a node are at hand; what is now
// in the place of a node stands in another such table, so that both change together when one node is put in the place of another.
// Each block has a list of its nodes, and a hint for each node where it stands there; constants and addresses are listed by their
// operation and block besides. `Blocks` has a row for each block, and the predecessors in lists that grow; it has a flag for each
// node that an end has named.
//
// The invariant: each node and each block has its lists, and what is not yet a node or a block has none; each block lists its nodes
// once, and each constant is listed with its operation.
//
// The theorem: contracts see the lists of nodes and of blocks of a graph, and each call changes them by one equation. After a refusal
// both are as before.
#![tactic(auto)]

mod blocks;
mod leaves;
mod members;
mod named;
mod nodes;
mod uses;

pub use blocks::Blocks;
pub use nodes::{Node, Nodes};
