// Rule 8.
ghost use Rattle.std.specs.Prelude.{◌≡◌, ◌<◌, ◌≤◌, ◌+◌, ◌==◌, ℕ, length, slice_index, if◌then◌else◌, None, IfSome, IfNone, MatchBool};
ghost use Rattle.firm_uses.specs.Counts.{times};
ghost use Rattle.firm_rules.specs.Lookups.{IsBlock, end_of as block_end, preds_of, rank, targets};
ghost use Rattle.firm_verify.specs.Broken.{Rule8, IsBroken, AtBlocks};
ghost use Rattle.firm_verify.specs.Tables.{AreRanks, AreBlocks, EdgesWithin, TargetsAlike, PredsAlike, IsUnlike};

use crate::broken::Broken;
use crate::lists::rank_of;
use firm_nodes::{BlockId, FirmEnd, Graph};

// The lists of predecessors are exactly the edges of the ends.
pub(crate) fn check_edges(graph: &Graph, ranks: &[usize]) -> Option<Broken>
    requires ranks { AreRanks graph.now ranks.now }
    ensures some { IfSome result (λ broken. IsBroken graph.now broken.rule broken.node broken.block.number) }
    ensures some_rule { IfSome result (λ broken. broken.rule ≡ 8) }
    ensures none { IfNone result (Rule8 graph.now) }
{
    let block = unfit_block(graph, ranks)?;
    Some(Broken {
        rule: 8,
        node: None,
        block,
    })
}

fn unfit_block(graph: &Graph, ranks: &[usize]) -> Option<BlockId>
    requires ranks { AreRanks graph.now ranks.now }
    ensures some { IfSome result (λ block. IsBroken graph.now 8 None block.number) }
    ensures none { IfNone result (Rule8 graph.now) }
{
    if let Some(block) = edge_to_nothing(graph, ranks) {
        return Some(block);
    }
    if let Some(block) = unlike_target(graph) {
        return Some(block);
    }
    unlike_pred(graph)
}

// A block with an edge from or to what is no block.
fn edge_to_nothing(graph: &Graph, ranks: &[usize]) -> Option<BlockId>
    requires ranks { AreRanks graph.now ranks.now }
    ensures block { IfSome result (λ block. IsBlock graph.now block.number) }
    ensures some { IfSome result (λ block. EdgesWithin graph.now block.number → ⊥) }
    ensures none { IfNone result (AtBlocks graph.now (EdgesWithin graph.now)) }
{
    for block in graph.blocks() {
        if !edges_within(graph, ranks, *block) {
            return Some(*block);
        }
    }
    None
}

fn edges_within(graph: &Graph, ranks: &[usize], block: BlockId) -> bool
    requires ranks { AreRanks graph.now ranks.now }
    requires block { IsBlock graph.now block.number }
    ensures { MatchBool result (EdgesWithin graph.now block.number) (EdgesWithin graph.now block.number → ⊥) }
{
    if !are_blocks(graph, ranks, graph.preds(block)) {
        return false;
    }
    targets_within(graph, ranks, block)
}

fn are_blocks(graph: &Graph, ranks: &[usize], blocks: &[usize]) -> bool
    requires ranks { AreRanks graph.now ranks.now }
    ensures { MatchBool result (AreBlocks graph.now blocks.now) (AreBlocks graph.now blocks.now → ⊥) }
{
    for block in blocks {
        if !is_block(graph, ranks, *block) {
            return false;
        }
    }
    true
}

fn targets_within(graph: &Graph, ranks: &[usize], block: BlockId) -> bool
    requires ranks { AreRanks graph.now ranks.now }
    requires block { IsBlock graph.now block.number }
    ensures { MatchBool result (AreBlocks graph.now (targets (block_end graph.now block.number))) (AreBlocks graph.now (targets (block_end graph.now block.number)) → ⊥) }
{
    match graph.end_of(block) {
        Some(FirmEnd::Jump(to)) => are_blocks(graph, ranks, &[to.number]),
        Some(FirmEnd::Branch(_, first, second)) => {
            are_blocks(graph, ranks, &[first.number, second.number])
        }
        Some(FirmEnd::Return(_, _)) | None => true,
    }
}

fn is_block(graph: &Graph, ranks: &[usize], block: usize) -> bool
    requires ranks { AreRanks graph.now ranks.now }
    ensures { MatchBool result (IsBlock graph.now block) (IsBlock graph.now block → ⊥) }
{
    rank_of(graph, ranks, block) < graph.blocks().len()
}

// A block that is not as often a predecessor of a target as it leads there.
fn unlike_target(graph: &Graph) -> Option<BlockId>
    requires { AtBlocks graph.now (EdgesWithin graph.now) }
    ensures block { IfSome result (λ block. IsBlock graph.now block.number) }
    ensures some { IfSome result (λ block. TargetsAlike graph.now block.number → ⊥) }
    ensures none { IfNone result (AtBlocks graph.now (TargetsAlike graph.now)) }
{
    for block in graph.blocks() {
        if !targets_alike(graph, *block) {
            return Some(*block);
        }
    }
    None
}

fn targets_alike(graph: &Graph, block: BlockId) -> bool
    requires within { EdgesWithin graph.now block.number }
    requires block { IsBlock graph.now block.number }
    ensures { MatchBool result (TargetsAlike graph.now block.number) (TargetsAlike graph.now block.number → ⊥) }
{
    match graph.end_of(block) {
        Some(FirmEnd::Jump(to)) => alike(graph, block, to),
        Some(FirmEnd::Branch(_, first, second)) => {
            alike(graph, block, first) && alike(graph, block, second)
        }
        Some(FirmEnd::Return(_, _)) | None => true,
    }
}

fn alike(graph: &Graph, block: BlockId, to: BlockId) -> bool
    requires block { IsBlock graph.now block.number }
    requires to { IsBlock graph.now to.number }
    ensures { result ≡ (times block.number (preds_of graph.now to.number) == times to.number (targets (block_end graph.now block.number))) }
{
    pred_count(graph.preds(to), block.number) == target_count(graph.end_of(block), to.number)
}

// A block that a block has as a predecessor, though it does not lead there.
fn unlike_pred(graph: &Graph) -> Option<BlockId>
    requires { AtBlocks graph.now (EdgesWithin graph.now) }
    ensures some { IfSome result (λ from. IsUnlike graph.now from.number) }
    ensures none { IfNone result (AtBlocks graph.now (PredsAlike graph.now)) }
{
    for block in graph.blocks() {
        let found = unlike_pred_of(graph, *block);
        if found.is_some() {
            return found;
        }
    }
    None
}

fn unlike_pred_of(graph: &Graph, to: BlockId) -> Option<BlockId>
    requires within { EdgesWithin graph.now to.number }
    requires to { IsBlock graph.now to.number }
    ensures some { IfSome result (λ from. IsUnlike graph.now from.number) }
    ensures none { IfNone result (PredsAlike graph.now to.number) }
{
    for from in graph.preds(to) {
        let from = BlockId { number: *from };
        if target_count(graph.end_of(from), to.number) == 0 {
            return Some(from);
        }
    }
    None
}

// How often the end leads to the block.
fn target_count(end: Option<FirmEnd>, to: usize) -> usize
    ensures { result ≡ times to (targets end) }
{
    match end {
        Some(FirmEnd::Jump(only)) => one(only.number == to),
        Some(FirmEnd::Branch(_, first, second)) => {
            one(first.number == to) + one(second.number == to)
        }
        Some(FirmEnd::Return(_, _)) | None => 0,
    }
}

fn one(counts: bool) -> usize
    ensures is { result ≡ (if counts then 1 else 0) }
    ensures small { result ≤ 1 }
{
    if counts { 1 } else { 0 }
}

// How often the block is among the predecessors.
fn pred_count(preds: &[usize], from: usize) -> usize
    ensures { result ≡ times from preds.now }
{
    let mut count = 0;
    for pred in preds {
        if *pred == from {
            count += 1;
        }
    }
    count
}
