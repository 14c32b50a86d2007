// Rule 6.
ghost use Rattle.std.specs.Prelude.{◌≡◌, ◌<◌, ◌≤◌, ◌+◌, ℕ, length, IfSome, IfNone, MatchBool};
ghost use Rattle.firm_uses.specs.Counts.{times};
ghost use Rattle.firm_rules.specs.Lookups.{IsBlock, preds_of, rank};
ghost use Rattle.firm_rules.specs.Rules.{IsWhole};
ghost use Rattle.firm_verify.specs.Broken.{Rule6, IsBroken, AtBlocks};
ghost use Rattle.firm_verify.specs.Tables.{AreRanks, HasOutside, HasSideEntry, IsBadLoop, NoBadLoop};

use crate::broken::Broken;
use crate::lists::rank_of;
use firm_nodes::{BlockId, Graph};

// The blocks from the target of an edge back to its source are entered from outside by the target alone.
pub(crate) fn check_loops(graph: &Graph, ranks: &[usize]) -> Option<Broken>
    requires whole { IsWhole graph.now }
    requires ranks { AreRanks graph.now ranks.now }
    ensures some { IfSome result (λ broken. IsBroken graph.now broken.rule broken.node broken.block.number) }
    ensures some_rule { IfSome result (λ broken. broken.rule ≡ 6) }
    ensures none { IfNone result (Rule6 graph.now) }
{
    for head in graph.blocks() {
        if let Some(block) = bad_source(graph, ranks, *head) {
            return Some(Broken {
                rule: 6,
                node: None,
                block,
            });
        }
    }
    None
}

// The source of an edge back to the block, where the blocks from this to that are entered otherwise.
fn bad_source(graph: &Graph, ranks: &[usize], head: BlockId) -> Option<BlockId>
    requires ranks { AreRanks graph.now ranks.now }
    requires head { IsBlock graph.now head.number }
    ensures some { IfSome result (λ last. IsBadLoop graph.now head.number last.number) }
    ensures none { IfNone result (NoBadLoop graph.now head.number) }
{
    for last in graph.preds(head) {
        if is_bad_loop(graph, ranks, head.number, *last) {
            return Some(BlockId { number: *last });
        }
    }
    None
}

fn is_bad_loop(graph: &Graph, ranks: &[usize], head: usize, last: usize) -> bool
    requires ranks { AreRanks graph.now ranks.now }
    requires edge { 0 < times last (preds_of graph.now head) }
    ensures { MatchBool result (IsBadLoop graph.now head last) (IsBadLoop graph.now head last → ⊥) }
{
    let low = rank_of(graph, ranks, head);
    let high = rank_of(graph, ranks, last);
    if high < low {
        return false;
    }
    if high >= graph.blocks().len() {
        return false;
    }
    has_side_entry(graph, ranks, low, high)
}

// The blocks behind the lower place up to the higher one are entered from outside of the two.
fn has_side_entry(graph: &Graph, ranks: &[usize], low: usize, high: usize) -> bool
    requires ranks { AreRanks graph.now ranks.now }
    requires high { high < length graph.now.order }
    ensures { MatchBool result (HasSideEntry graph.now low high) (HasSideEntry graph.now low high → ⊥) }
{
    let order = graph.blocks();
    for place in low..high {
        if has_outside(graph, ranks, graph.preds(order[place + 1]), low, high) {
            return true;
        }
    }
    false
}

// One of the blocks stands before the lower place or after the higher one.
fn has_outside(graph: &Graph, ranks: &[usize], blocks: &[usize], low: usize, high: usize) -> bool
    requires ranks { AreRanks graph.now ranks.now }
    ensures { MatchBool result (HasOutside graph.now low high blocks.now) (HasOutside graph.now low high blocks.now → ⊥) }
{
    for block in blocks {
        let place = rank_of(graph, ranks, *block);
        if place < low {
            return true;
        }
        if high < place {
            return true;
        }
    }
    false
}
