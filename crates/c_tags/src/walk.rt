// The tags of all nodes, in the order of the first tokens.
ghost use Rattle.std.specs.Prelude.{◌≡◌, ◌<◌, ◌+◌, [], IfOk, OnOk, Option, None, Some, if◌then◌else◌, length, option_map, replicate, slice_set, true};
ghost use Rattle.std.specs.List.{AllByRecursion};
ghost use Rattle.c_typing.specs.Names as rules;
ghost use Rattle.c_typing.specs.Places.{node_at};
ghost use Rattle.c_nodes.specs.Parents.{nodes_in};
ghost use Rattle.c_tags.specs.Order.{order_in};
ghost use Rattle.c_tags.specs.Chains.{chains_of, entry_of, met_of, seen_at};
ghost use Rattle.c_tags.specs.Tags as tags;
ghost use Rattle.c_tags.specs.Tags.{AreTags, Stand, tag_here};

use crate::chain::{Entry, MetTag, enter, innermost, met};
use crate::order::by_first_token;
use crate::tag::Tag;
use crate::tagged::TaggedNodes;
use c_nodes::Nodes;
use c_syntax::SynKind;
use std::alloc::{AllocError, Global};

/// For each node its tag, where it has one.
pub fn tags_of(alloc: Global, nodes: &Nodes) -> Result<Vec<Option<Tag>>, AllocError>
    ensures { IfOk result (λ found. AreTags nodes.now found.items) }
{
    let order = by_first_token(alloc, nodes)?;
    let tagged = TaggedNodes::of(alloc, nodes)?;
    tags_by(alloc, &tagged, &order)
}

fn tags_by(
    alloc: Global,
    nodes: &TaggedNodes,
    order: &[usize],
) -> Result<Vec<Option<Tag>>, AllocError>
    requires { order.now ≡ order_in nodes.now }
    ensures { IfOk result (λ found. AreTags nodes.now found.items) }
{
    let mut chains = empty_chains(alloc, nodes.len())?;
    let mut found = Vec::new(alloc);
    found.resize(nodes.len(), None)?;
    put_tags(alloc, nodes, order, &mut chains, &mut found)?;
    Ok(found)
}

fn empty_chains(alloc: Global, count: usize) -> Result<Vec<Vec<Entry>>, AllocError>
    ensures long { IfOk result (λ chains. length chains.items ≡ count) }
    ensures empty { IfOk result (λ chains. AllByRecursion (λ chain. chain.items ≡ []) chains.items) }
{
    let mut chains = Vec::new(alloc);
    for _ in 0..count {
        chains.push(Vec::new(alloc))?;
    }
    Ok(chains)
}

fn put_tags(
    alloc: Global,
    nodes: &TaggedNodes,
    order: &[usize],
    chains: &mut [Vec<Entry>],
    found: &mut [Option<Tag>],
) -> Result<(), AllocError>
    requires order { order.now ≡ order_in nodes.now }
    requires long { length chains.old ≡ length nodes.now }
    requires empty { AllByRecursion (λ chain. chain.items ≡ []) chains.old }
    requires start { found.old ≡ replicate (length nodes.now) None }
    ensures { OnOk result (AreTags nodes.now found.new) }
{
    let mut bodies = Vec::new(alloc);
    bodies.resize(nodes.len(), false)?;
    for place in 0..nodes.len() {
        put_at(nodes, order, place, chains, &mut bodies, found)?;
    }
    Ok(())
}

// Notes the tag of the node at a place of the order, where it has one.
fn put_at(
    nodes: &TaggedNodes,
    order: &[usize],
    place: usize,
    chains: &mut [Vec<Entry>],
    bodies: &mut [bool],
    found: &mut [Option<Tag>],
) -> Result<(), AllocError>
    requires order { order.now ≡ order_in nodes.now }
    requires within { place < length nodes.now }
    requires stand { Stand nodes.now place (chains_of chains.old) bodies.old found.old }
    ensures { OnOk result (Stand nodes.now (place + 1) (chains_of chains.new) bodies.new found.new) }
{
    let number = order[place];
    let Some(is_enum) = tag_kind(nodes.kind_at(number)) else {
        return Ok(());
    };
    if nodes.is_nameless(number) {
        return Ok(());
    }
    let text = nodes.text(number);
    let met = met_at(nodes, number, is_enum, &chains[text]);
    put_tag(met, nodes.has_kid(number, 0), number, bodies, found);
    enter(&mut chains[text], nodes.first(number), met.entry)
}

// The tag of a node, by the chain of its text.
fn met_at(nodes: &TaggedNodes, number: usize, is_enum: bool, chain: &[Entry]) -> MetTag
    requires within { number < length nodes.now }
    requires numbered { (node_at (nodes_in nodes.now) number).id ≡ number }
    ensures { (e : Option rules.Tag) → seen_at chain.now number ≡ option_map entry_of e → result ≡ met_of (tag_here nodes.now number is_enum e) }
{
    let declares = nodes.has_kid(number, 0) || (!is_enum && nodes.is_lone(number));
    met(
        number,
        is_enum,
        nodes.scope(number),
        declares,
        innermost(chain, number),
    )
}

fn put_tag(
    met: MetTag,
    has_body: bool,
    number: usize,
    bodies: &mut [bool],
    found: &mut [Option<Tag>],
)
    requires within { number < length found.old }
    requires names { met.entry.names < length bodies.old }
    ensures found { found.new ≡ slice_set found.old number (Some (tags.noted met has_body bodies.old)) }
    ensures bodies { bodies.new ≡ (if has_body then slice_set bodies.old met.entry.names true else bodies.old) }
{
    let names = met.entry.names;
    found[number] = Some(Tag {
        names,
        is_new: met.is_new,
        clashes: met.clashes,
        has_second_body: has_body && bodies[names],
    });
    if has_body {
        bodies[names] = true;
    }
}

fn tag_kind(kind: SynKind) -> Option<bool>
    ensures { result ≡ tags.tag_kind kind }
{
    match kind {
        SynKind::StructSpec => Some(false),
        SynKind::EnumSpec => Some(true),
        _ => None,
    }
}
