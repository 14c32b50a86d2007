// Rule 4: what takes memory takes that which comes along each walk.
ghost use Rattle.std.specs.Prelude.{◌≡◌, ◌<◌, length, IfOk, IfSome, IfNone, MatchBool};
ghost use Rattle.firm_rules.specs.Lookups.{IsBlock};
ghost use Rattle.firm_rules.specs.Rules.{IsWhole, MemoryFits};
ghost use Rattle.firm_tables.specs.Nodes.{numbers};
ghost use Rattle.firm_verify.specs.Broken.{Rule1, Rule3, Rule4, IsBroken};
ghost use Rattle.firm_verify.specs.Tables.{AreNodes};
ghost use Rattle.firm_verify.specs.Trees.{AllThere};
ghost use Rattle.firm_verify.specs.Memory.{AreOwners, AreChains, AreComing, fits as coming_fits, FirstTakes, PhiTakes, ReturnTakes, EachTakes};
ghost use Rattle.firm_verify.specs.declared.memory.Sort.TheVariants.{Begins, Follows, MemoryPhi};

use crate::broken::Broken;
use crate::chains::{Chains, first_start, lasts_of};
use crate::coming::{Coming, coming_of, leaving};
use crate::lists::get_at;
use crate::memory::{any_rival, giver_of, taken};
use firm_nodes::{BlockId, FirmEnd, Graph, NodeId};
use std::alloc::{AllocError, Global};

// In each block the nodes that take memory form one chain, and what takes memory takes that which comes along each walk.
pub(crate) fn check_memory(
    alloc: Global,
    graph: &Graph,
    nodes: &[NodeId],
) -> Result<Option<Broken>, AllocError>
    requires some_block { 0 < length graph.now.order }
    requires whole { IsWhole graph.now }
    requires nodes { AreNodes graph.now (numbers nodes.now) }
    requires rule1 { Rule1 graph.now }
    requires rule3 { Rule3 graph.now }
    ensures some { IfOk result (λ found. IfSome found (λ broken. IsBroken graph.now broken.rule broken.node broken.block.number)) }
    ensures some_rule { IfOk result (λ found. IfSome found (λ broken. broken.rule ≡ 4)) }
    ensures none { IfOk result (λ found. IfNone found (Rule4 graph.now)) }
{
    let mut firsts = Vec::new(alloc);
    let mut nexts = Vec::new(alloc);
    let mut phis = Vec::new(alloc);
    if let Some(node) = any_rival(graph, nodes, &mut firsts, &mut nexts, &mut phis)? {
        return Ok(Some(Broken {
            rule: 4,
            node: None,
            block: graph.node(node).block,
        }));
    }
    check_walks(alloc, graph, nodes, firsts, &nexts, phis)
}

// By the owners of each sort.
fn check_walks(
    alloc: Global,
    graph: &Graph,
    nodes: &[NodeId],
    firsts: Vec<Option<usize>>,
    nexts: &[Option<usize>],
    phis: Vec<Option<usize>>,
) -> Result<Option<Broken>, AllocError>
    requires some_block { 0 < length graph.now.order }
    requires whole { IsWhole graph.now }
    requires nodes { AreNodes graph.now (numbers nodes.now) }
    requires rule1 { Rule1 graph.now }
    requires rule3 { Rule3 graph.now }
    requires firsts { AreOwners graph.now Begins firsts.items }
    requires nexts { AreOwners graph.now Follows nexts.now }
    requires phis { AreOwners graph.now MemoryPhi phis.items }
    ensures some { IfOk result (λ found. IfSome found (λ broken. IsBroken graph.now broken.rule broken.node broken.block.number)) }
    ensures some_rule { IfOk result (λ found. IfSome found (λ broken. broken.rule ≡ 4)) }
    ensures none { IfOk result (λ found. IfNone found (Rule4 graph.now)) }
{
    let lasts = lasts_of(alloc, graph, nodes, nexts)?;
    let chains = Chains {
        firsts,
        lasts,
        phis,
        start: first_start(graph, nodes),
    };
    let coming = coming_of(alloc, graph, &chains)?;
    Ok(unfit_memory(graph, &chains, &coming))
}

fn unfit_memory(graph: &Graph, chains: &Chains, coming: &[Coming]) -> Option<Broken>
    requires whole { IsWhole graph.now }
    requires rule1 { Rule1 graph.now }
    requires chains { AreChains graph.now chains.now }
    requires coming { AreComing graph.now coming.now }
    ensures some { IfSome result (λ broken. IsBroken graph.now broken.rule broken.node broken.block.number) }
    ensures some_rule { IfSome result (λ broken. broken.rule ≡ 4) }
    ensures none { IfNone result (Rule4 graph.now) }
{
    for block in graph.blocks() {
        if !memory_fits(graph, chains, coming, *block) {
            return Some(Broken {
                rule: 4,
                node: None,
                block: *block,
            });
        }
    }
    None
}

fn memory_fits(graph: &Graph, chains: &Chains, coming: &[Coming], block: BlockId) -> bool
    requires whole { IsWhole graph.now }
    requires rule1 { Rule1 graph.now }
    requires chains { AreChains graph.now chains.now }
    requires coming { AreComing graph.now coming.now }
    requires block { IsBlock graph.now block.number }
    ensures { MatchBool result (MemoryFits graph.now block.number) (MemoryFits graph.now block.number → ⊥) }
{
    if !first_takes(graph, chains, coming, block) {
        return false;
    }
    if !phi_takes(graph, chains, coming, block) {
        return false;
    }
    return_takes(graph, chains, coming, block)
}

// The first node of the chain.
fn first_takes(graph: &Graph, chains: &Chains, coming: &[Coming], block: BlockId) -> bool
    requires rule1 { Rule1 graph.now }
    requires chains { AreChains graph.now chains.now }
    requires coming { AreComing graph.now coming.now }
    ensures { MatchBool result (FirstTakes graph.now block.number) (FirstTakes graph.now block.number → ⊥) }
{
    let Some(number) = get_at(&chains.firsts, block.number, None) else {
        return true;
    };
    fits(
        get_at(coming, block.number, Coming::Nothing),
        taken(graph, NodeId { number }),
    )
}

// The Phi of memory.
fn phi_takes(graph: &Graph, chains: &Chains, coming: &[Coming], block: BlockId) -> bool
    requires rule1 { Rule1 graph.now }
    requires chains { AreChains graph.now chains.now }
    requires coming { AreComing graph.now coming.now }
    requires block { IsBlock graph.now block.number }
    ensures { MatchBool result (PhiTakes graph.now block.number) (PhiTakes graph.now block.number → ⊥) }
{
    let Some(number) = get_at(&chains.phis, block.number, None) else {
        return true;
    };
    each_takes(
        graph,
        chains,
        coming,
        graph.operands(NodeId { number }),
        graph.preds(block),
    )
}

// Each operand is the memory that leaves the predecessor at its place.
fn each_takes(
    graph: &Graph,
    chains: &Chains,
    coming: &[Coming],
    operands: &[usize],
    preds: &[usize],
) -> bool
    requires rule1 { Rule1 graph.now }
    requires chains { AreChains graph.now chains.now }
    requires coming { AreComing graph.now coming.now }
    requires operands { AllThere graph.now operands.now }
    ensures { MatchBool result (EachTakes graph.now operands.now preds.now) (EachTakes graph.now operands.now preds.now → ⊥) }
{
    for index in 0..operands.len() {
        if index >= preds.len() {
            return true;
        }
        if !fits(
            leaving(chains, coming, preds[index]),
            giver_of(graph, operands[index]),
        ) {
            return false;
        }
    }
    true
}

// The return.
fn return_takes(graph: &Graph, chains: &Chains, coming: &[Coming], block: BlockId) -> bool
    requires rule1 { Rule1 graph.now }
    requires chains { AreChains graph.now chains.now }
    requires coming { AreComing graph.now coming.now }
    requires block { IsBlock graph.now block.number }
    ensures { MatchBool result (ReturnTakes graph.now block.number) (ReturnTakes graph.now block.number → ⊥) }
{
    let Some(FirmEnd::Return(memory, _)) = graph.end_of(block) else {
        return true;
    };
    fits(
        leaving(chains, coming, block.number),
        giver_of(graph, memory.number),
    )
}

// Nothing comes but what this node gives.
fn fits(coming: Coming, node: usize) -> bool
    ensures { result ≡ coming_fits coming node }
{
    match coming {
        Coming::Nothing => true,
        Coming::One(number) => number == node,
        Coming::Many => false,
    }
}
