// Rule 5.
ghost use Rattle.std.specs.Prelude.{◌≡◌, ◌≢◌, ◌<◌, ℕ, length, if◌then◌else◌, IfSome, IfNone, MatchBool};
ghost use Rattle.firm_uses.specs.Counts.{times};
ghost use Rattle.firm_rules.specs.Lookups.{IsBlock, rank};
ghost use Rattle.firm_rules.specs.Rules.{is_phi as op_is_phi, is_start as op_is_start, IsWhole, FirstFits, OtherFits};
ghost use Rattle.firm_tables.specs.Nodes.{numbers, node_of, stands_in};
ghost use Rattle.firm_verify.specs.Broken.{Rule5, PlaceFits, IsBroken};
ghost use Rattle.firm_verify.specs.Tables.{AreRanks, AreMembers, passing, HasEarlier};

use crate::broken::Broken;
use crate::lists::rank_of;
use crate::phis::is_phi;
use firm_nodes::{BlockId, Graph, NodeId, NodeOp};

// The first block has no predecessor and no Phi, and alone has `Start`, once; each other block has an earlier predecessor.
pub(crate) fn check_first(graph: &Graph, ranks: &[usize]) -> Option<Broken>
    requires ranks { AreRanks graph.now ranks.now }
    ensures some { IfSome result (λ broken. IsBroken graph.now broken.rule broken.node broken.block.number) }
    ensures some_rule { IfSome result (λ broken. broken.rule ≡ 5) }
    ensures none { IfNone result (Rule5 graph.now) }
{
    for block in graph.blocks() {
        if !place_fits(graph, ranks, *block) {
            return Some(Broken {
                rule: 5,
                node: None,
                block: *block,
            });
        }
    }
    None
}

fn place_fits(graph: &Graph, ranks: &[usize], block: BlockId) -> bool
    requires ranks { AreRanks graph.now ranks.now }
    requires block { IsBlock graph.now block.number }
    ensures { MatchBool result (PlaceFits graph.now block.number) (PlaceFits graph.now block.number → ⊥) }
{
    if rank_of(graph, ranks, block.number) == 0 {
        first_fits(graph, block)
    } else {
        other_fits(graph, ranks, block)
    }
}

fn first_fits(graph: &Graph, block: BlockId) -> bool
    requires block { IsBlock graph.now block.number }
    ensures { MatchBool result (FirstFits graph.now block.number) (FirstFits graph.now block.number → ⊥) }
{
    if !graph.preds(block).is_empty() {
        return false;
    }
    let nodes = graph.nodes(block);
    count_phis(graph, nodes, block) == 0 && count_starts(graph, nodes, block) == 1
}

fn other_fits(graph: &Graph, ranks: &[usize], block: BlockId) -> bool
    requires ranks { AreRanks graph.now ranks.now }
    requires block { IsBlock graph.now block.number }
    ensures { MatchBool result (OtherFits graph.now block.number) (OtherFits graph.now block.number → ⊥) }
{
    if count_starts(graph, graph.nodes(block), block) != 0 {
        return false;
    }
    has_earlier(
        graph,
        ranks,
        rank_of(graph, ranks, block.number),
        graph.preds(block),
    )
}

// One of the blocks stands earlier than the place.
fn has_earlier(graph: &Graph, ranks: &[usize], place: usize, blocks: &[usize]) -> bool
    requires ranks { AreRanks graph.now ranks.now }
    ensures { MatchBool result (HasEarlier graph.now place blocks.now) (HasEarlier graph.now place blocks.now → ⊥) }
{
    for block in blocks {
        if rank_of(graph, ranks, *block) < place {
            return true;
        }
    }
    false
}

fn count_starts(graph: &Graph, nodes: &[NodeId], block: BlockId) -> usize
    requires { AreMembers graph.now block.number (numbers nodes.now) }
    ensures { result ≡ passing graph.now op_is_start (numbers nodes.now) }
{
    let mut count = 0;
    for node in nodes {
        if is_start(graph.node(*node).op) {
            count += 1;
        }
    }
    count
}

fn count_phis(graph: &Graph, nodes: &[NodeId], block: BlockId) -> usize
    requires { AreMembers graph.now block.number (numbers nodes.now) }
    ensures { result ≡ passing graph.now op_is_phi (numbers nodes.now) }
{
    let mut count = 0;
    for node in nodes {
        if is_phi(graph.node(*node).op) {
            count += 1;
        }
    }
    count
}

pub(crate) fn is_start(op: NodeOp) -> bool
    ensures { result ≡ op_is_start op }
{
    matches!(op, NodeOp::Start)
}
