// How many automatic objects stand before a node, and in a function.
ghost use Rattle.std.specs.Prelude.{◌≡◌, ◌<◌, ◌≤◌, ◌+◌, IfOk, length};
ghost use Rattle.c_typing.specs.Places.{node_at};
ghost use Rattle.c_typing.specs.Names.{automatics_in, named_locals};
ghost use Rattle.c_nodes.specs.Parents.{nodes_in};
ghost use Rattle.c_nodes.specs.Declarators.{AreNext};
ghost use Rattle.c_names.specs.Denoted.{IsOfTokens, places_in};
ghost use Rattle.c_names.specs.Names.{AreNames};
ghost use Rattle.c_locals.specs.Locals as locals;
ghost use Rattle.c_locals.specs.Locals.{AreCounts};

use crate::functions::parameters;
use c_names::{DeclaredName, Entity};
use c_nodes::Nodes;
use std::alloc::{AllocError, Global};

/// For each node, and for the number of nodes, how many automatic objects with names stand before it.
pub fn automatic_counts(
    alloc: Global,
    nodes: &Nodes,
    names: &[Option<DeclaredName>],
) -> Result<Vec<usize>, AllocError>
    requires tokens { IsOfTokens nodes.now }
    requires names { AreNames nodes.now names.now }
    ensures { IfOk result (λ counts. AreCounts nodes.now counts.items) }
{
    let mut counts = Vec::new(alloc);
    let mut count = 0;
    counts.push(count)?;
    for number in 0..nodes.len() {
        if is_automatic(names[number]) {
            count += 1;
        }
        counts.push(count)?;
    }
    Ok(counts)
}

/// The name is that of an automatic object.
pub(crate) fn is_automatic(name: Option<DeclaredName>) -> bool
    ensures { result ≡ locals.declares_automatic name }
{
    match name {
        Some(name) => matches!(name.entity, Entity::Automatic),
        None => false,
    }
}

/// How many automatic objects with names stand in a function.
pub fn automatic_count(nodes: &Nodes, counts: &[usize], function: usize) -> usize
    requires within { function < length nodes.now }
    requires counts { AreCounts nodes.now counts.now }
    ensures is { result ≡ length (automatics_in (places_in nodes.now) (node_at (nodes_in nodes.now) function)) }
    ensures few { result ≤ function + 1 }
{
    counts[function + 1] - counts[nodes.first(function)]
}

/// How many locals with names a function has, and parameters without.
pub fn local_count(nodes: &Nodes, next: &[usize], counts: &[usize], function: usize) -> usize
    requires within { function < length nodes.now }
    requires next { AreNext nodes.now next.now }
    requires counts { AreCounts nodes.now counts.now }
    ensures { result ≡ named_locals (places_in nodes.now) (node_at (nodes_in nodes.now) function) }
{
    parameters(nodes, next, function).len() + automatic_count(nodes, counts, function)
}
