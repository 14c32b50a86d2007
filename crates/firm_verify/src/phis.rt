// Rule 2.
ghost use Rattle.std.specs.Prelude.{◌≡◌, true, length, IfSome, IfNone, MatchBool};
ghost use Rattle.firm_rules.specs.Rules.{is_phi as op_is_phi, IsWhole, PhiIsFull};
ghost use Rattle.firm_tables.specs.Nodes.{numbers, node_of};
ghost use Rattle.firm_nodes.specs.Calls.{IsNode};
ghost use Rattle.firm_verify.specs.Broken.{Rule2, IsBroken};
ghost use Rattle.firm_verify.specs.Tables.{AreNodes};

use crate::broken::Broken;
use firm_nodes::{Graph, NodeId, NodeOp};

// Each Phi has an operand for each predecessor of its block.
pub(crate) fn check_phis(graph: &Graph, nodes: &[NodeId]) -> Option<Broken>
    requires whole { IsWhole graph.now }
    requires nodes { AreNodes graph.now (numbers nodes.now) }
    ensures some { IfSome result (λ broken. IsBroken graph.now broken.rule broken.node broken.block.number) }
    ensures some_rule { IfSome result (λ broken. broken.rule ≡ 2) }
    ensures none { IfNone result (Rule2 graph.now) }
{
    for node in nodes {
        if !is_full(graph, *node) {
            return Some(Broken {
                rule: 2,
                node: Some(*node),
                block: graph.node(*node).block,
            });
        }
    }
    None
}

fn is_full(graph: &Graph, node: NodeId) -> bool
    requires whole { IsWhole graph.now }
    requires node { IsNode graph.now node.number }
    ensures { MatchBool result (PhiIsFull graph.now (node_of graph.now.nodes node.number)) (PhiIsFull graph.now (node_of graph.now.nodes node.number) → ⊥) }
{
    let read = graph.node(node);
    if !is_phi(read.op) {
        return true;
    }
    graph.operands(node).len() == graph.preds(read.block).len()
}

pub(crate) fn is_phi(op: NodeOp) -> bool
    ensures { result ≡ op_is_phi op }
{
    matches!(op, NodeOp::Phi(_))
}
