// Equal nodes.
ghost use Rattle.std.specs.Prelude.{◌≡◌, ◌<◌, [], ℕ, true, length, IfSome, IfNone, MatchBool, slice_index};
ghost use Rattle.firm_uses.specs.Counts.{times};
ghost use Rattle.firm_rules.specs.Graphs.{is_pure as op_is_pure};
ghost use Rattle.firm_tables.specs.Nodes.{numbers, IsLike};

use firm_rules::{NodeId, NodeOp};
use firm_tables::Nodes;

// Where the operation is pure, a node of the block that has it and these operands, if there is one.
pub(crate) fn like(nodes: &Nodes, op: NodeOp, block: usize, operands: &[NodeId]) -> Option<NodeId>
    requires { (index : ℕ) → index < length operands.now → slice_index (numbers operands.now) index < length nodes.now }
    ensures some { IfSome result (λ node. IsLike nodes.now op block (numbers operands.now) node.number) }
    ensures pure { IfSome result (λ node. op_is_pure op ≡ true) }
    ensures none { IfNone result (op_is_pure op ≡ true → (m : ℕ) → IsLike nodes.now op block (numbers operands.now) m → ⊥) }
{
    if !is_pure(op) {
        return None;
    }
    match rarest(nodes, operands) {
        Some(rare) => like_among(nodes, nodes.users(rare.number), op, block, operands),
        None => like_in(nodes, nodes.alike(op, block), op, block),
    }
}

// Of the operands one with the fewest users.
fn rarest(nodes: &Nodes, operands: &[NodeId]) -> Option<NodeId>
    requires { (index : ℕ) → index < length operands.now → slice_index (numbers operands.now) index < length nodes.now }
    ensures within { IfSome result (λ rare. rare.number < length nodes.now) }
    ensures among { IfSome result (λ rare. 0 < times rare.number (numbers operands.now)) }
    ensures none { IfNone result (numbers operands.now ≡ []) }
{
    let mut rare = match operands.first() {
        Some(first) => *first,
        None => return None,
    };
    for operand in operands {
        if nodes.users(operand.number).len() < nodes.users(rare.number).len() {
            rare = *operand;
        }
    }
    Some(rare)
}

// Where some of the users is such a node, one that is.
fn like_among(
    nodes: &Nodes,
    users: &[usize],
    op: NodeOp,
    block: usize,
    operands: &[NodeId],
) -> Option<NodeId>
    requires { (index : ℕ) → index < length users.now → slice_index users.now index < length nodes.now }
    ensures some { IfSome result (λ node. IsLike nodes.now op block (numbers operands.now) node.number) }
    ensures none { IfNone result ((index : ℕ) → index < length users.now → IsLike nodes.now op block (numbers operands.now) (slice_index users.now index) → ⊥) }
{
    for user in users {
        if nodes.is_like(*user, op, block, operands) {
            return Some(NodeId { number: *user });
        }
    }
    None
}

// The same without operands, among these.
fn like_in(nodes: &Nodes, alike: &[NodeId], op: NodeOp, block: usize) -> Option<NodeId>
    ensures some { IfSome result (λ node. IsLike nodes.now op block [] node.number) }
    ensures none { IfNone result ((index : ℕ) → index < length alike.now → IsLike nodes.now op block [] (slice_index (numbers alike.now) index) → ⊥) }
{
    for node in alike {
        if is_like(nodes, *node, op, block) {
            return Some(*node);
        }
    }
    None
}

// Whether there is such a node, and it is like that.
fn is_like(nodes: &Nodes, node: NodeId, op: NodeOp, block: usize) -> bool
    ensures { MatchBool result (IsLike nodes.now op block [] node.number) (IsLike nodes.now op block [] node.number → ⊥) }
{
    if node.number >= nodes.len() {
        return false;
    }
    nodes.is_like(node.number, op, block, &[])
}

fn is_pure(op: NodeOp) -> bool
    ensures { result ≡ op_is_pure op }
{
    matches!(
        op,
        NodeOp::Param(_) | NodeOp::Const(_) | NodeOp::Addr(_) | NodeOp::Unknown | NodeOp::Apply(_)
    )
}
