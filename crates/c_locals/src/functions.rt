// The functions that nodes stand in, and their parameters.
ghost use Rattle.std.specs.Prelude.{◌≡◌, ◌<◌, IfOk, drop, length};
ghost use Rattle.c_typing.specs.Places.{node_at, numbers};
ghost use Rattle.c_typing.specs.Names.{parameters_of};
ghost use Rattle.c_nodes.specs.Parents.{nodes_in};
ghost use Rattle.c_nodes.specs.Declarators.{AreNext};
ghost use Rattle.c_names.specs.Denoted.{places_in};
ghost use Rattle.c_locals.specs.Locals.{AreOwners};

use c_nodes::{Kinds, Nodes, enclosing, own_takes};
use c_syntax::SynId;
use std::alloc::{AllocError, Global};

/// For each node, the function that it stands in; where there is none, the number of nodes.
pub fn functions_around(alloc: Global, nodes: &Nodes) -> Result<Vec<usize>, AllocError>
    ensures { IfOk result (λ found. AreOwners nodes.now found.items) }
{
    enclosing(alloc, nodes, Kinds::Function)
}

/// The parameters of a function that is defined, named or not.
pub fn parameters<'a>(nodes: &'a Nodes<'a>, next: &[usize], function: usize) -> &'a [SynId]
    requires within { function < length nodes.now }
    requires next { AreNext nodes.now next.now }
    ensures { numbers result.now ≡ parameters_of (places_in nodes.now) (node_at (nodes_in nodes.now) function) }
{
    match own_takes(nodes, next, function) {
        Some(takes) => but_first(nodes.kids(takes)),
        None => &[],
    }
}

fn but_first(ids: &[SynId]) -> &[SynId]
    ensures { result.now ≡ drop 1 ids.now }
{
    if ids.is_empty() { ids } else { &ids[1..] }
}
