// What a test finds.
use firm_nodes::{BlockId, NodeId};

/// The rule of this number is broken, at the node or else at the block.
#[derive(Clone, Copy, Debug, PartialEq, Eq)]
pub struct Broken {
    pub rule: u8,
    pub node: Option<NodeId>,
    pub block: BlockId,
}
