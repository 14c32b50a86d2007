// The nodes that are called.
ghost use Rattle.std.specs.Prelude.{◌≡◌, ◌<◌, ◌+◌, IfOk, false, length, replicate};
ghost use Rattle.c_typing.specs.Expressions as rules;
ghost use Rattle.c_nodes.specs.Parents.{nodes_in};
ghost use Rattle.c_names.specs.Denoted.{places_in};
ghost use Rattle.c_contexts.specs.Contexts.{AreCalled, AreCalledFrom};

use c_nodes::Nodes;
use c_syntax::SynKind;
use std::alloc::{AllocError, Global};

/// For each node, that it is called, parentheses aside.
pub fn called_nodes(alloc: Global, nodes: &Nodes) -> Result<Vec<bool>, AllocError>
    ensures { IfOk result (λ found. AreCalled nodes.now found.items) }
{
    let mut found = Vec::new(alloc);
    found.resize(nodes.len(), false)?;
    put_called(nodes, &mut found);
    Ok(found)
}

// Parents come before their kids.
fn put_called(nodes: &Nodes, found: &mut [bool])
    requires { found.old ≡ replicate (length nodes.now) false }
    ensures { AreCalled nodes.now found.new }
{
    let mut number = nodes.len();
    while number > 0 {
        number -= 1;
        let called = is_called(nodes, found, number);
        found[number] = called;
    }
}

fn is_called(nodes: &Nodes, found: &[bool], number: usize) -> bool
    requires within { number < length nodes.now }
    requires found { AreCalledFrom nodes.now (number + 1) found.now }
    ensures { result ≡ rules.is_called (places_in nodes.now) (length (nodes_in nodes.now)) number }
{
    let parent = nodes.parent(number);
    match nodes.kind_at(parent) {
        SynKind::Call => nodes.kid(parent, 0) == number,
        SynKind::Paren => found[parent],
        _ => false,
    }
}
