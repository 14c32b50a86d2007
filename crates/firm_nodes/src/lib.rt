// The graph of one function, which is made and changed by calls.
//
// In come blocks, nodes and ends; out go their names, by which they are read and changed. A name is never used again.
//
// The idea: the nodes and the blocks stand in the tables of `firm_tables`, and the graph has the order of the blocks besides. Contracts
// see the graph as data, as `firm_rules` has it. A pure node is shared: an equal one is sought among the users of the operand that has
// the fewest, or, where it has none, among the nodes of its block with that operation.
//
// The invariant: each block of the order, and each target of an end, is a block that was made.
//
// The theorem: each call changes the graph by one equation, which names what changes; all else is as before. After a refusal the graph is
// as it was.
//
// Source: Braun, Buchwald and Zwinkau, Firm: A Graph-Based Intermediate Representation (2011).
#![tactic(auto)]

mod edges;
mod graph;
mod likes;

pub use firm_rules::{BlockId, FirmEnd, Mode, NodeId, NodeOp};
pub use firm_tables::Node;
pub use graph::Graph;
