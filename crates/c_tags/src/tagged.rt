// Nodes with their scopes and their texts.
ghost use Rattle.std.specs.Prelude.{◌≡◌, ◌<◌, ◌==◌, [], List, IfOk, Some, length, true};
ghost use Rattle.c_typing.specs.Places.{has_kid, kind_at, node_at, scope_at, scopes_of, text_at};
ghost use Rattle.c_typing.specs.Names as rules;
ghost use Rattle.c_nodes.specs.Parents.{AreNumbered, nodes_in};
ghost use Rattle.c_nodes.specs.Scopes.{scope_of};
ghost use Rattle.c_names.specs.Texts as texts;
ghost use Rattle.c_names.specs.Texts.{first_of};
ghost use Rattle.c_tags.specs.Tagged.{AreSpans};

use crate::texts::same_texts;
use c_nodes::{Nodes, Span, innermost, next_parts, scopes, whole_declarators};
use c_syntax::SynKind;
use std::alloc::{AllocError, Global};
use std::marker::Model;

/// The nodes of a tree with their scopes and texts, which contracts see as their table.
#[derive(Drop)]
pub(crate) struct TaggedNodes<'a> {
    nodes: &'a Nodes<'a>,
    spans: Vec<Span>,
    inner: Vec<usize>,
    texts: Vec<usize>,
}

impl<'a> Model for TaggedNodes<'a> {
    ghost use Rattle.std.specs.Prelude.{List};
    ghost use Rattle.c_syntax.specs.declared.syntax.SynNode as node;
    ghost use Rattle.c_tags.specs.Tagged.{IsTagged};

    ghost Value = { List node.SynNode };

    ghost view = { λ s. s.nodes.now };

    ghost invariant = { λ s. IsTagged s.nodes.now s.spans.items s.inner.items s.texts.items };
}

impl<'a> TaggedNodes<'a> {
    pub(crate) fn of(alloc: Global, nodes: &'a Nodes<'a>) -> Result<TaggedNodes<'a>, AllocError>
        ensures { IfOk result (λ tagged. tagged ≡ nodes.now) }
    {
        let spans = spans_of(alloc, nodes)?;
        let inner = innermost(alloc, &spans, nodes.len())?;
        let texts = same_texts(alloc, nodes)?;
        Ok(TaggedNodes {
            nodes,
            spans,
            inner,
            texts,
        })
    }

    pub(crate) fn len(&self) -> usize
        ensures is { result ≡ length self.now }
        ensures nodes { length (nodes_in self.now) ≡ length self.now }
        ensures numbered { AreNumbered (nodes_in self.now) }
    {
        self.nodes.len()
    }

    pub(crate) fn kind_at(&self, number: usize) -> SynKind
        ensures { result ≡ kind_at (nodes_in self.now) number }
    {
        self.nodes.kind_at(number)
    }

    pub(crate) fn first(&self, number: usize) -> usize
        requires { number < length self.now }
        ensures { result ≡ (node_at (nodes_in self.now) number).first }
    {
        self.nodes.first(number)
    }

    /// The node has a kid of this index.
    pub(crate) fn has_kid(&self, number: usize, index: usize) -> bool
        requires { number < length self.now }
        ensures { result ≡ has_kid (node_at (nodes_in self.now) number) index }
    {
        self.nodes.has_kid(number, index)
    }

    /// The text of the node is that of an absent name.
    pub(crate) fn is_nameless(&self, number: usize) -> bool
        requires { number < length self.now }
        ensures { result ≡ (length (text_at (nodes_in self.now) number) == 0) }
    {
        self.nodes.node(number).text.as_slice().len() == 0
    }

    /// The first node with the same name.
    pub(crate) fn text(&self, number: usize) -> usize
        requires within { number < length self.now }
        requires named { texts.has_name (kind_at (nodes_in self.now) number) ≡ true }
        ensures is { first_of (nodes_in self.now) (text_at (nodes_in self.now) number) ≡ Some result }
        ensures there { result < length self.now }
    {
        self.texts[number]
    }

    /// The innermost scope that a node stands in; where there is none, one that no node stands in.
    pub(crate) fn scope(&self, number: usize) -> Span
        requires { number < length self.now }
        ensures { scope_of result ≡ scope_at (scopes_of (nodes_in self.now)) number }
    {
        let index = self.inner[number];
        if index < self.spans.len() {
            self.spans[index]
        } else {
            Span {
                node: 0,
                from: 1,
                to: 0,
                more_from: 1,
                more_to: 0,
            }
        }
    }

    /// The tag of the node is all of a declaration.
    pub(crate) fn is_lone(&self, number: usize) -> bool
        requires { number < length self.now }
        ensures { result ≡ rules.is_lone (nodes_in self.now) (node_at (nodes_in self.now) number) }
    {
        let specs = self.nodes.parent(number);
        if !self.has_one_kid(specs) {
            return false;
        }
        let declaration = self.parent(specs);
        is_declaration(self.nodes.kind_at(declaration)) && self.has_one_kid(declaration)
    }

    // The parent of a node; where there is no such node, 0.
    fn parent(&self, number: usize) -> usize
        ensures { result ≡ (node_at (nodes_in self.now) number).parent }
    {
        if number < self.nodes.len() {
            self.nodes.parent(number)
        } else {
            0
        }
    }

    fn has_one_kid(&self, number: usize) -> bool
        ensures { result ≡ (length (node_at (nodes_in self.now) number).kids == 1) }
    {
        if number < self.nodes.len() {
            self.nodes.kids(number).len() == 1
        } else {
            false
        }
    }
}

fn spans_of(alloc: Global, nodes: &Nodes) -> Result<Vec<Span>, AllocError>
    ensures { IfOk result (λ spans. AreSpans nodes.now spans.items) }
{
    let wholes = whole_declarators(alloc, nodes)?;
    let next = next_parts(alloc, nodes)?;
    scopes(alloc, nodes, &wholes, &next)
}

fn is_declaration(kind: SynKind) -> bool
    ensures { result ≡ rules.is_declaration kind }
{
    matches!(kind, SynKind::Declaration)
}
