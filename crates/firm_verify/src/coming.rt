// Rule 4: which memory comes to each block along walks.
ghost use Rattle.std.specs.Prelude.{◌≡◌, ◌<◌, ◌≤◌, ◌+◌, ℕ, false, nat_lt, length, if◌then◌else◌, IfOk, OnOk};
ghost use Rattle.firm_rules.specs.Lookups.{IsBlock, preds_of};
ghost use Rattle.firm_rules.specs.Rules.{IsWhole};
ghost use Rattle.firm_verify.specs.Broken.{AtBlocks};
ghost use Rattle.firm_verify.specs.Memory.{AreChains, AreSeen, AreComing, Told, Brings, Within, Receives, IsClosedAt, through as coming_through, joined as coming_joined, room as coming_room, rooms, leaving as coming_leaving, brought as coming_brought, coming_at};
ghost use Rattle.firm_verify.specs.declared.coming.Coming.TheVariants.{One};

use crate::chains::Chains;
use crate::lists::{get_at, set_at};
use firm_nodes::{BlockId, Graph};
use std::alloc::{AllocError, Global};

// By the nodes that give it: none comes, this one, or more than one.
#[derive(Clone, Copy, Debug)]
pub(crate) enum Coming {
    Nothing,
    One(usize),
    Many,
}

// By the number of each block.
pub(crate) fn coming_of(
    alloc: Global,
    graph: &Graph,
    chains: &Chains,
) -> Result<Vec<Coming>, AllocError>
    requires some_block { 0 < length graph.now.order }
    requires whole { IsWhole graph.now }
    requires chains { AreChains graph.now chains.now }
    ensures { IfOk result (λ coming. AreComing graph.now coming.items) }
{
    let mut coming = Vec::new(alloc);
    let first = graph.blocks()[0].number;
    set_at(
        &mut coming,
        first,
        Coming::One(chains.start),
        Coming::Nothing,
    )?;
    let mut is_open = true;
    while is_open {
        is_open = look(graph, chains, &mut coming)?;
    }
    Ok(coming)
}

// Looks once at each block; whether more comes than was known.
fn look(graph: &Graph, chains: &Chains, coming: &mut Vec<Coming>) -> Result<bool, AllocError>
    requires chains { AreChains graph.now chains.now }
    requires seen { AreSeen graph.now coming.old.items }
    ensures seen { OnOk result (AreSeen graph.now coming.new.items) }
    ensures less { IfOk result (λ more. rooms coming.new.items graph.now.order + (if more then 1 else 0) ≤ rooms coming.old.items graph.now.order) }
    ensures closed { IfOk result (λ more. more ≡ false → AtBlocks graph.now (IsClosedAt graph.now chains.now coming.new.items)) }
{
    let mut more = false;
    for block in graph.blocks() {
        let found = coming_to(graph, chains, coming, *block);
        if more_comes(coming, block.number, found) {
            set_at(coming, block.number, found, Coming::Nothing)?;
            more = true;
        }
    }
    Ok(more)
}

// More than is known of the block.
fn more_comes(coming: &[Coming], block: usize, found: Coming) -> bool
    ensures { result ≡ nat_lt (coming_room found) (coming_room (coming_at coming.now block)) }
{
    room(found) < room(get_at(coming, block, Coming::Nothing))
}

// What is known to come to the block, and what its predecessors bring.
fn coming_to(graph: &Graph, chains: &Chains, coming: &[Coming], block: BlockId) -> Coming
    requires chains { AreChains graph.now chains.now }
    requires seen { AreSeen graph.now coming.now }
    requires block { IsBlock graph.now block.number }
    ensures seen { Told (Brings graph.now block.number) result }
    ensures known { Within (coming_at coming.now block.number) result }
    ensures received { Receives chains.now coming.now block.number (preds_of graph.now block.number) result }
{
    let mut found = get_at(coming, block.number, Coming::Nothing);
    for pred in graph.preds(block) {
        found = joined(found, brought(chains, coming, *pred, block.number));
    }
    found
}

fn brought(chains: &Chains, coming: &[Coming], from: usize, block: usize) -> Coming
    ensures { result ≡ coming_brought chains.now coming.now from block }
{
    through(
        get_at(&chains.phis, block, None),
        leaving(chains, coming, from),
    )
}

// What leaves the block.
pub(crate) fn leaving(chains: &Chains, coming: &[Coming], block: usize) -> Coming
    ensures { result ≡ coming_leaving chains.now coming.now block }
{
    through(
        get_at(&chains.lasts, block, None),
        get_at(coming, block, Coming::Nothing),
    )
}

// If something comes, the node takes its place.
fn through(node: Option<usize>, coming: Coming) -> Coming
    ensures { result ≡ coming_through node coming }
{
    match coming {
        Coming::Nothing => Coming::Nothing,
        Coming::One(_) | Coming::Many => match node {
            Some(number) => Coming::One(number),
            None => coming,
        },
    }
}

fn joined(first: Coming, second: Coming) -> Coming
    ensures { result ≡ coming_joined first second }
{
    match first {
        Coming::Nothing => second,
        Coming::Many => Coming::Many,
        Coming::One(number) => match second {
            Coming::Nothing => first,
            Coming::Many => Coming::Many,
            Coming::One(other) => one_or_many(number, other),
        },
    }
}

fn one_or_many(number: usize, other: usize) -> Coming
    ensures { result ≡ coming_joined (One number) (One other) }
{
    if number == other {
        Coming::One(number)
    } else {
        Coming::Many
    }
}

// How often more can come.
fn room(coming: Coming) -> usize
    ensures { result ≡ coming_room coming }
{
    match coming {
        Coming::Nothing => 2,
        Coming::One(_) => 1,
        Coming::Many => 0,
    }
}
