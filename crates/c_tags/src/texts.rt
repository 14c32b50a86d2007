// The texts of names, each by the first node that has it.
ghost use Rattle.std.specs.Prelude.{◌≡◌, ◌<◌, ◌+◌, ℕ, List, IfOk, Some, OnOk, take, length};
ghost use Rattle.c_typing.specs.Places.{node_at};
ghost use Rattle.c_nodes.specs.Parents.{nodes_in};
ghost use Rattle.c_names.specs.Texts as texts;
ghost use Rattle.c_names.specs.Texts.{AreTexts, Says, IsFirst};

use c_nodes::Nodes;
use c_syntax::SynKind;
use indexmap::IndexMap;
use std::alloc::{AllocError, Global};

/// The text of such a node is a name.
pub(crate) fn has_name(kind: SynKind) -> bool
    ensures { result ≡ texts.has_name kind }
{
    match kind {
        SynKind::Ident | SynKind::Enumer | SynKind::Var | SynKind::Word => true,
        SynKind::StructSpec | SynKind::EnumSpec => true,
        _ => false,
    }
}

/// For each node with a name, the first one with the same name.
pub(crate) fn same_texts(alloc: Global, nodes: &Nodes) -> Result<Vec<usize>, AllocError>
    ensures { IfOk result (λ found. AreTexts nodes.now found.items) }
{
    let mut found = Vec::new(alloc);
    let mut firsts = IndexMap::new(alloc);
    for number in 0..nodes.len() {
        found.push(first_with(&mut firsts, nodes, number)?)?;
    }
    Ok(found)
}

// The first node with the text of this one, where it has a name; it is put into the map where it is the first.
fn first_with<'a>(
    firsts: &mut IndexMap<&'a str, usize>,
    nodes: &'a Nodes,
    number: usize,
) -> Result<usize, AllocError>
    requires within { number < length nodes.now }
    requires nodes { length (nodes_in nodes.now) ≡ length nodes.now }
    requires says { Says firsts.old (take number (nodes_in nodes.now)) }
    ensures says { OnOk result (Says firsts.new (take (number + 1) (nodes_in nodes.now))) }
    ensures is { IfOk result (IsFirst (nodes_in nodes.now) number) }
{
    let node = nodes.node(number);
    if !has_name(node.kind) {
        return Ok(number);
    }
    let text = node.text.as_slice();
    match firsts.get(text) {
        Some(first) => Ok(*first),
        None => {
            firsts.insert(text, number)?;
            Ok(number)
        }
    }
}
