// The declarators of names: all nodes of one begin with its name, or with the place of an absent one.
ghost use Rattle.std.specs.Prelude.{◌≡◌, IfOk, length, replicate};
ghost use Rattle.c_typing.specs.Places as places;
ghost use Rattle.c_nodes.specs.Declarators.{AreNext, AreWholes};

use crate::nodes::Nodes;
use c_syntax::SynKind;
use std::alloc::{AllocError, Global};

/// The node is a declarator or a part of one.
pub fn is_declarator(kind: SynKind) -> bool
    ensures { result ≡ places.is_declarator kind }
{
    match kind {
        SynKind::Ident | SynKind::NoName | SynKind::Paren => true,
        _ => is_step(kind),
    }
}

/// The node is a part of a declarator that makes a type of another.
pub fn is_step(kind: SynKind) -> bool
    ensures { result ≡ places.is_step kind }
{
    matches!(kind, SynKind::Pointer | SynKind::ArrayOf | SynKind::Takes)
}

/// For each node, the whole declarator that begins with it; where there is none, the number of nodes.
pub fn whole_declarators(alloc: Global, nodes: &Nodes) -> Result<Vec<usize>, AllocError>
    ensures { IfOk result (λ found. AreWholes nodes.now found.items) }
{
    let mut found = Vec::new(alloc);
    found.resize(nodes.len(), nodes.len())?;
    put_wholes(&mut found, nodes);
    Ok(found)
}

fn put_wholes(found: &mut [usize], nodes: &Nodes)
    requires { found.old ≡ replicate (length nodes.now) (length nodes.now) }
    ensures { AreWholes nodes.now found.new }
{
    for number in 0..nodes.len() {
        if is_declarator(nodes.node(number).kind) {
            found[nodes.first(number)] = number;
        }
    }
}

/// For each node, the part that stands next to it in the declarator that begins with it, parentheses aside; where there
/// is none, the number of nodes.
pub fn next_parts(alloc: Global, nodes: &Nodes) -> Result<Vec<usize>, AllocError>
    ensures { IfOk result (λ found. AreNext nodes.now found.items) }
{
    let mut found = Vec::new(alloc);
    found.resize(nodes.len(), nodes.len())?;
    put_nexts(&mut found, nodes);
    Ok(found)
}

fn put_nexts(found: &mut [usize], nodes: &Nodes)
    requires { found.old ≡ replicate (length nodes.now) (length nodes.now) }
    ensures { AreNext nodes.now found.new }
{
    let mut number = nodes.len();
    while number > 0 {
        number -= 1;
        if is_step(nodes.node(number).kind) {
            found[nodes.first(number)] = number;
        }
    }
}
