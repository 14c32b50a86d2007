// The scopes of a tree (C99 6.2.1), inner ones first.
ghost use Rattle.std.specs.Prelude.{[], ◌≡◌, ◌<◌, ◌∷◌, ◌++◌, ℕ, IfOk, IfSome, OnOk, length, map};
ghost use Rattle.c_typing.specs.Places as places;
ghost use Rattle.c_typing.specs.Places.{node_at, scopes_of, takes_before, whole_declarator};
ghost use Rattle.c_nodes.specs.Parents.{nodes_in};
ghost use Rattle.c_nodes.specs.Declarators.{AreNext, AreWholes};
ghost use Rattle.c_nodes.specs.Spans.{AreWithin};
ghost use Rattle.c_nodes.specs.Scopes.{IsInside, NodeAt, listed, plain_span, scope_of};

use crate::nodes::Nodes;
use crate::spans::Span;
use c_syntax::SynKind;
use std::alloc::{AllocError, Global};

/// The scopes of a tree, for each node where one ends.
pub fn scopes(
    alloc: Global,
    nodes: &Nodes,
    wholes: &[usize],
    next: &[usize],
) -> Result<Vec<Span>, AllocError>
    requires wholes { AreWholes nodes.now wholes.now }
    requires next { AreNext nodes.now next.now }
    ensures are { IfOk result (λ spans. map scope_of spans.items ≡ scopes_of (nodes_in nodes.now)) }
    ensures within { IfOk result (λ spans. AreWithin (length nodes.now) spans.items) }
{
    let mut spans = Vec::new(alloc);
    for number in 0..nodes.len() {
        append(&mut spans, scope_by(nodes, wholes, next, number))?;
    }
    Ok(spans)
}

fn append(spans: &mut Vec<Span>, found: Option<Span>) -> Result<(), AllocError>
    ensures are { OnOk result (map scope_of spans.new.items ≡ map scope_of spans.old.items ++ listed found) }
    ensures within { OnOk result ((count : ℕ) → AreWithin count spans.old.items → IfSome found (IsInside count) → AreWithin count spans.new.items) }
{
    if let Some(span) = found {
        spans.push(span)?;
    }
    Ok(())
}

// The scope that ends at a node.
fn scope_by(nodes: &Nodes, wholes: &[usize], next: &[usize], number: usize) -> Option<Span>
    requires within { number < length nodes.now }
    requires wholes { AreWholes nodes.now wholes.now }
    requires next { AreNext nodes.now next.now }
    ensures is { listed result ≡ places.scope_by (nodes_in nodes.now) (node_at (nodes_in nodes.now) number) (node_at (nodes_in nodes.now) number).label.kind }
    ensures inside { IfSome result (λ span. IsInside (length nodes.now) span) }
{
    let first = nodes.first(number);
    match nodes.node(number).kind {
        SynKind::Unit | SynKind::For => Some(plain(number, first)),
        SynKind::Block => Some(block_scope(nodes, next, number)),
        SynKind::Switch => Some(plain(number, nodes.kid(number, 0) + 1)),
        SynKind::Takes if belongs_to_block(nodes, wholes, next, number) => None,
        SynKind::Takes => Some(plain(number, nodes.kid(number, 0) + 1)),
        _ => None,
    }
}

// The nodes from this one up to the one that the scope belongs to.
fn plain(node: usize, from: usize) -> Span
    ensures { result ≡ plain_span node from }
{
    Span {
        node,
        from,
        to: node,
        more_from: 1,
        more_to: 0,
    }
}

// The scope of a block; of that of a function, the one that begins with the parameters.
fn block_scope(nodes: &Nodes, next: &[usize], block: usize) -> Span
    requires within { block < length nodes.now }
    requires next { AreNext nodes.now next.now }
    ensures is { scope_of result ∷ [] ≡ places.block_scope (node_at (nodes_in nodes.now) block) (takes_before (nodes_in nodes.now) (node_at (nodes_in nodes.now) block)) }
    ensures inside { IsInside (length nodes.now) result }
{
    let first = nodes.first(block);
    match takes_before(nodes, next, block) {
        Some(takes) => Span {
            node: takes,
            from: nodes.kid(takes, 0) + 1,
            to: takes,
            more_from: first,
            more_to: block,
        },
        None => plain(block, first),
    }
}

// The parameters of the function that a block belongs to.
fn takes_before(nodes: &Nodes, next: &[usize], block: usize) -> Option<usize>
    requires within { block < length nodes.now }
    requires next { AreNext nodes.now next.now }
    ensures { NodeAt (nodes_in nodes.now) result (places.takes_before (nodes_in nodes.now) (node_at (nodes_in nodes.now) block)) }
{
    let parent = nodes.parent(block);
    match nodes.kind_at(parent) {
        SynKind::Function => own_takes(nodes, next, parent),
        _ => None,
    }
}

/// The parameter list next to the name of a function that is defined.
pub fn own_takes(nodes: &Nodes, next: &[usize], function: usize) -> Option<usize>
    requires within { function < length nodes.now }
    requires next { AreNext nodes.now next.now }
    ensures { NodeAt (nodes_in nodes.now) result (places.own_takes (nodes_in nodes.now) (node_at (nodes_in nodes.now) function)) }
{
    let part = next[nodes.first(nodes.kid(function, 1))];
    match nodes.kind_at(part) {
        SynKind::Takes => Some(part),
        _ => None,
    }
}

// A parameter list stands next to the name of a function that is defined.
fn belongs_to_block(nodes: &Nodes, wholes: &[usize], next: &[usize], takes: usize) -> bool
    requires within { takes < length nodes.now }
    requires wholes { AreWholes nodes.now wholes.now }
    requires next { AreNext nodes.now next.now }
    ensures { result ≡ places.belongs_to_block (nodes_in nodes.now) (node_at (nodes_in nodes.now) takes) }
{
    let first = nodes.first(takes);
    let owner = owner_of(nodes, wholes, first);
    next[first] == takes && is_function(nodes.kind_at(owner))
}

fn is_function(kind: SynKind) -> bool
    ensures { result ≡ places.is_function kind }
{
    matches!(kind, SynKind::Function)
}

/// The parent of the whole declarator that begins with a node; where there is none, 0.
pub fn owner_of(nodes: &Nodes, wholes: &[usize], first: usize) -> usize
    requires within { first < length nodes.now }
    requires wholes { AreWholes nodes.now wholes.now }
    ensures { result ≡ (whole_declarator (nodes_in nodes.now) first).parent }
{
    let whole = wholes[first];
    if whole < nodes.len() {
        nodes.parent(whole)
    } else {
        0
    }
}
