// The text of a graph.
//
// In comes a graph; out go bytes, in lines: the graph's name and number of parameters, and for each block in the order its number,
// its predecessors, its nodes and its end.
//
// The idea: blocks are numbered by their places in the order, which a table has for each number of a block, and the nodes of a block
// are sorted. `specs/Text.antt` is the text.
//
// The invariant: what was printed is the text of what came so far.
//
// The theorem, on `firm_text`: the bytes are exactly the text of the graph.
//
// Source: the form of the text is this project's.
#![tactic(auto)]

mod blocks;
mod numbers;
mod ops;

pub use blocks::firm_text;
