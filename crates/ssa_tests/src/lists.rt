// Lists of blocks and values.
ghost use Rattle.ssa_tests.specs.Edges.{EdgesAreThere};

use std::alloc::Global;

/// What a value is.
#[derive(Clone, Copy, PartialEq, Eq)]
pub enum Tag {
    Gone,
    Unknown,
    Phi,
    Other,
}

/// A value that stands in a block, with the operands of a Phi, and what is now in its place.
#[derive(Drop)]
pub struct ListValue {
    pub tag: Tag,
    pub operands: Vec<usize>,
    pub block: usize,
    pub current: usize,
}

/// A block, as its predecessors.
#[derive(Drop)]
pub struct ListBlock {
    pub preds: Vec<usize>,
}

/// Blocks and values.
#[derive(Drop)]
pub struct ListTarget {
    pub alloc: Global,
    pub blocks: Vec<ListBlock>,
    pub values: Vec<ListValue>,
    ghost edges_there: { EdgesAreThere blocks.items },
}
