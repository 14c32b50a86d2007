// What each use of a name denotes.
ghost use Rattle.std.specs.Prelude.{◌≡◌, ◌<◌, [], None, OnOk, IfOk, length, false};
ghost use Rattle.std.specs.List.{AllByRecursion};
ghost use Rattle.c_typing.specs.Places.{kind_at, text_at};
ghost use Rattle.c_nodes.specs.Parents.{nodes_in};
ghost use Rattle.c_names.specs.Chains.{chains_of};
ghost use Rattle.c_names.specs.Denoted as denoted;
ghost use Rattle.c_names.specs.Denoted.{AreDenoted, IsStep, Sees};

use crate::chain::{Entry, enter, visible};
use crate::scoped::ScopedNodes;
use c_syntax::SynKind;
use std::alloc::{AllocError, Global};

/// For each identifier in an expression or among specifiers, the node that declares what it denotes; for others, none.
pub fn denoted(alloc: Global, scoped: &ScopedNodes) -> Result<Vec<Option<usize>>, AllocError>
    ensures { IfOk result (λ found. AreDenoted scoped.now found.items) }
{
    let mut chains = empty_chains(alloc, scoped.len())?;
    denoted_by(alloc, scoped, &mut chains)
}

// With a chain for each text.
fn denoted_by(
    alloc: Global,
    scoped: &ScopedNodes,
    chains: &mut [Vec<Entry>],
) -> Result<Vec<Option<usize>>, AllocError>
    requires long { length chains.old ≡ length scoped.now }
    requires empty { AllByRecursion (λ chain. chain.items ≡ []) chains.old }
    ensures { IfOk result (λ found. AreDenoted scoped.now found.items) }
{
    let mut found = Vec::new(alloc);
    for number in 0..scoped.len() {
        found.push(denoted_at(scoped, chains, number))?;
        enter_begun(scoped, chains, number)?;
    }
    Ok(found)
}

fn empty_chains(alloc: Global, count: usize) -> Result<Vec<Vec<Entry>>, AllocError>
    ensures long { IfOk result (λ chains. length chains.items ≡ count) }
    ensures empty { IfOk result (λ chains. AllByRecursion (λ chain. chain.items ≡ []) chains.items) }
{
    let mut chains = Vec::new(alloc);
    for _ in 0..count {
        chains.push(Vec::new(alloc))?;
    }
    Ok(chains)
}

// An identifier that denotes something.
fn is_use(kind: SynKind) -> bool
    ensures { result ≡ denoted.is_use kind }
{
    matches!(kind, SynKind::Var | SynKind::Word)
}

// What the chains say that a node denotes.
fn denoted_at(scoped: &ScopedNodes, chains: &[Vec<Entry>], number: usize) -> Option<usize>
    requires within { number < length scoped.now }
    requires chains { length chains.now ≡ length scoped.now }
    ensures sees { Sees scoped.now number (chains_of chains.now) result }
    ensures other { denoted.is_use (kind_at (nodes_in scoped.now) number) ≡ false → result ≡ None }
{
    if !is_use(scoped.kind_at(number)) {
        return None;
    }
    visible(&chains[scoped.text(number)], number)
}

// Enters the name whose scope begins behind a node.
fn enter_begun(
    scoped: &ScopedNodes,
    chains: &mut [Vec<Entry>],
    number: usize,
) -> Result<(), AllocError>
    requires within { number < length scoped.now }
    requires chains { length chains.old ≡ length scoped.now }
    ensures { OnOk result (IsStep scoped.now number (chains_of chains.old) (chains_of chains.new)) }
{
    let Some(node) = scoped.begun(number) else {
        return Ok(());
    };
    let Some(scope) = scoped.scope(node) else {
        return Ok(());
    };
    enter(
        &mut chains[scoped.text(node)],
        number,
        Entry { node, scope },
    )
}
