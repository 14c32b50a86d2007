// All tests, in the order of the rules.
ghost use Rattle.std.specs.Prelude.{◌<◌, length, IfOk, IfSome, IfNone};
ghost use Rattle.firm_rules.specs.Rules.{IsWhole, Obeys};
ghost use Rattle.firm_tables.specs.Nodes.{numbers};
ghost use Rattle.firm_verify.specs.Broken.{Rule4, IsFirstBroken, HoldAtNodes, HoldAll};
ghost use Rattle.firm_verify.specs.Tables.{AreNodes, AreRanks};

use crate::broken::Broken;
use crate::counts::check_counts;
use crate::cycles::check_cycles;
use crate::defined::check_defined;
use crate::edges::check_edges;
use crate::first::check_first;
use crate::lists::{all_nodes, ranks_of};
use crate::loops::check_loops;
use crate::phis::check_phis;
use crate::takes::check_memory;
use firm_nodes::{Graph, NodeId};
use std::alloc::{AllocError, Global};

/// The first rule that the graph breaks, and where; none where it obeys all.
pub fn verify(alloc: Global, graph: &Graph) -> Result<Option<Broken>, AllocError>
    requires whole { IsWhole graph.now }
    requires some_block { 0 < length graph.now.order }
    ensures some { IfOk result (λ found. IfSome found (λ broken. IsFirstBroken graph.now broken.rule broken.node broken.block.number)) }
    ensures none { IfOk result (λ found. IfNone found (Obeys graph.now)) }
{
    let nodes = all_nodes(alloc, graph)?;
    let ranks = ranks_of(alloc, graph)?;
    let found = check_early(alloc, graph, &nodes)?;
    if found.is_some() {
        return Ok(found);
    }
    let late = check_blocks(alloc, graph, &nodes, &ranks)?;
    Ok(late)
}

// Rules 1 to 4.
fn check_early(alloc: Global, graph: &Graph, nodes: &[NodeId]) -> Result<Option<Broken>, AllocError>
    requires some_block { 0 < length graph.now.order }
    requires whole { IsWhole graph.now }
    requires nodes { AreNodes graph.now (numbers nodes.now) }
    ensures some { IfOk result (λ found. IfSome found (λ broken. IsFirstBroken graph.now broken.rule broken.node broken.block.number)) }
    ensures nodes { IfOk result (λ found. IfNone found (HoldAtNodes graph.now)) }
    ensures memory { IfOk result (λ found. IfNone found (Rule4 graph.now)) }
{
    let found = check_nodes(alloc, graph, nodes)?;
    if found.is_some() {
        return Ok(found);
    }
    let unfit = check_memory(alloc, graph, nodes)?;
    Ok(unfit)
}

// Rules 1 to 3.
fn check_nodes(alloc: Global, graph: &Graph, nodes: &[NodeId]) -> Result<Option<Broken>, AllocError>
    requires whole { IsWhole graph.now }
    requires nodes { AreNodes graph.now (numbers nodes.now) }
    ensures some { IfOk result (λ found. IfSome found (λ broken. IsFirstBroken graph.now broken.rule broken.node broken.block.number)) }
    ensures none { IfOk result (λ found. IfNone found (HoldAtNodes graph.now)) }
{
    let misfit = check_counts(alloc, graph, nodes)?;
    if misfit.is_some() {
        return Ok(misfit);
    }
    let short = check_phis(graph, nodes);
    if short.is_some() {
        return Ok(short);
    }
    let cycle = check_cycles(alloc, graph, nodes)?;
    Ok(cycle)
}

// Rules 5 to 8.
fn check_blocks(
    alloc: Global,
    graph: &Graph,
    nodes: &[NodeId],
    ranks: &[usize],
) -> Result<Option<Broken>, AllocError>
    requires some_block { 0 < length graph.now.order }
    requires whole { IsWhole graph.now }
    requires nodes { AreNodes graph.now (numbers nodes.now) }
    requires ranks { AreRanks graph.now ranks.now }
    requires at_nodes { HoldAtNodes graph.now }
    requires memory { Rule4 graph.now }
    ensures some { IfOk result (λ found. IfSome found (λ broken. IsFirstBroken graph.now broken.rule broken.node broken.block.number)) }
    ensures none { IfOk result (λ found. IfNone found (HoldAll graph.now)) }
{
    let misplaced = check_first(graph, ranks);
    if misplaced.is_some() {
        return Ok(misplaced);
    }
    let entered = check_loops(graph, ranks);
    if entered.is_some() {
        return Ok(entered);
    }
    let undefined = check_defined(alloc, graph, nodes, ranks)?;
    if undefined.is_some() {
        return Ok(undefined);
    }
    Ok(check_edges(graph, ranks))
}
