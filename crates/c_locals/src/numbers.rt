// The numbers of locals among those of their functions.
ghost use Rattle.std.specs.Prelude.{◌≡◌, ◌<◌, ℕ, IfOk, Some, get_or, length};
ghost use Rattle.c_typing.specs.Names.{Name, is_automatic, local_number, name_of};
ghost use Rattle.c_nodes.specs.Declarators.{AreNext};
ghost use Rattle.c_names.specs.Denoted.{IsOfTokens, places_in};
ghost use Rattle.c_names.specs.Names.{AreNames};
ghost use Rattle.c_locals.specs.Locals.{AreCounts, AreNumbers, AreOwners, DeclaresAutomatic, number_of};

use crate::functions::parameters;
use c_names::{DeclaredName, Entity};
use c_nodes::Nodes;
use std::alloc::{AllocError, Global};

/// For each node that declares a parameter or an automatic object, its number among the locals of its function.
pub fn local_numbers(
    alloc: Global,
    nodes: &Nodes,
    next: &[usize],
    owners: &[usize],
    counts: &[usize],
    names: &[Option<DeclaredName>],
) -> Result<Vec<Option<usize>>, AllocError>
    requires tokens { IsOfTokens nodes.now }
    requires next { AreNext nodes.now next.now }
    requires owners { AreOwners nodes.now owners.now }
    requires counts { AreCounts nodes.now counts.now }
    requires names { AreNames nodes.now names.now }
    ensures { IfOk result (λ found. AreNumbers nodes.now found.items) }
{
    let mut found = Vec::new(alloc);
    for number in 0..nodes.len() {
        found.push(local_number(nodes, next, owners, counts, names, number))?;
    }
    Ok(found)
}

fn local_number(
    nodes: &Nodes,
    next: &[usize],
    owners: &[usize],
    counts: &[usize],
    names: &[Option<DeclaredName>],
    number: usize,
) -> Option<usize>
    requires tokens { IsOfTokens nodes.now }
    requires next { AreNext nodes.now next.now }
    requires owners { AreOwners nodes.now owners.now }
    requires counts { AreCounts nodes.now counts.now }
    requires names { AreNames nodes.now names.now }
    requires within { number < length nodes.now }
    ensures { result ≡ number_of (places_in nodes.now) (name_of (places_in nodes.now) number) }
{
    let Some(name) = names[number] else {
        return None;
    };
    match name.entity {
        Entity::Parameter(index) => Some(index),
        Entity::Automatic => Some(automatic_number(nodes, next, owners, counts, number)),
        _ => None,
    }
}

// The number of the automatic object that a node declares.
fn automatic_number(
    nodes: &Nodes,
    next: &[usize],
    owners: &[usize],
    counts: &[usize],
    number: usize,
) -> usize
    requires tokens { IsOfTokens nodes.now }
    requires next { AreNext nodes.now next.now }
    requires owners { AreOwners nodes.now owners.now }
    requires counts { AreCounts nodes.now counts.now }
    requires within { number < length nodes.now }
    requires automatic { DeclaresAutomatic nodes.now number }
    ensures { (e : Name) → name_of (places_in nodes.now) number ≡ Some e → result ≡ local_number (places_in nodes.now) e }
{
    let function = owners[number];
    let before = counts[number] - counts[nodes.first(function)];
    parameters(nodes, next, function).len() + before
}
