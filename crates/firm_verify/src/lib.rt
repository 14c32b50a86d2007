// The tests of a graph against the rules.
//
// In comes a graph; out goes the first rule that it breaks, with the node or the block, or none.
//
// The idea: the nodes are listed once, and so are the places of the blocks in their order. Then each rule is tested in turn, and a later
// test may rest on the rules before it. Operands are tested by a table of modes. Cycles of operands are sought by one search in depth,
// which looks at each node twice. Where an operand is defined is read off a tree of the blocks, in which each block stands below the
// nearest one that is above all its earlier predecessors: where the rules on the order and on loops hold, each walk to a block visits
// exactly what is above it.
//
// Memory: by the node whose memory it takes, each node that acts follows another one or begins the chain of its block; where each of
// these is alone, the nodes of a block form one chain. Then it is told of each block which memory comes there along walks: none, that
// of one node, or more than one. This is found by looks at all blocks in their order, each taking what the predecessors bring, until one
// finds nothing new; no block is told of more than twice, so the looks end. What takes memory is then compared with what comes. So
// nothing is asked where nothing takes it.
//
// The invariant: of the search for cycles, each way from a node that is ended ends at a Phi or at a node without operands, and the
// others stand on the path, each an operand of the one before. Of the tree, what is above a block is above each earlier predecessor.
// Of the memory that comes to a block, each that is told comes along some walk.
//
// The theorem, on `verify`: what is found is broken there, and the rules before it hold; where nothing is found, the graph obeys all
// rules. `rules_are_all`: the eight rules, as they are tested, together are what a graph obeys, and one that is broken contradicts that.
//
// Source: Braun, Buchwald and Zwinkau, Firm: A Graph-Based Intermediate Representation (2011); the tree is that of Cooper, Harvey and
// Kennedy, A Simple, Fast Dominance Algorithm (2001), which is exact after one pass here.
#![tactic(auto)]

mod all;
mod broken;
mod chains;
mod coming;
mod counts;
mod cycles;
mod defined;
mod edges;
mod first;
mod laws;
mod lists;
mod loops;
mod memory;
mod phis;
mod takes;
mod tree;

pub use all::verify;
pub use broken::Broken;
pub use laws::rules_are_all;
