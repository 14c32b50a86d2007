// What the nodes and ends of a graph are.
use cp_base::{Kind, Op};

/// A block, by its number.
#[derive(Clone, Copy, Debug, PartialEq, Eq)]
pub struct BlockId {
    pub number: usize,
}

/// A node, by its number.
#[derive(Clone, Copy, Debug, PartialEq, Eq)]
pub struct NodeId {
    pub number: usize,
}

/// What a node gives: a word, the state of memory, or both.
#[derive(Clone, Copy, Debug, PartialEq, Eq)]
pub enum Mode {
    Word,
    Memory,
    Tuple,
}

/// What a node does.
#[derive(Clone, Copy, Debug, PartialEq, Eq)]
pub enum NodeOp {
    /// The memory that the graph is entered with.
    Start,
    /// The argument of this number.
    Param(usize),
    Const(u32),
    /// The address of the data at this offset.
    Addr(u32),
    /// A word that no one wrote.
    Unknown,
    /// An operation on words.
    Apply(Op),
    Load(Kind),
    Store(Kind),
    /// A call of the program's graph of this number.
    Call(usize),
    /// Takes a byte of the input.
    Get,
    /// Writes a byte to the output.
    Put,
    /// The memory of a tuple.
    ProjM,
    /// The word of a tuple.
    ProjR,
    /// What comes by the edge that the block was entered by.
    Phi(Mode),
}

/// How a block ends.
#[derive(Clone, Copy, Debug, PartialEq, Eq)]
pub enum FirmEnd {
    Jump(BlockId),
    /// To the first block where the word is not 0, else to the second.
    Branch(NodeId, BlockId, BlockId),
    /// With this memory, and a word or none.
    Return(NodeId, Option<NodeId>),
}
