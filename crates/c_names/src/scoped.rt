// The nodes of a tree, each with its scope, its declarator and its text.
ghost use Rattle.std.specs.Prelude.{◌≡◌, ◌<◌, ◌≤◌, List, IfOk, Some, false, length, true};
ghost use Rattle.c_typing.specs.Places as places;
ghost use Rattle.c_typing.specs.Places.{Node, has_kid, index_in, kid, kind_at, node_at, numbers, other_kids, scope_at, scopes_of, specs_by, text_at};
ghost use Rattle.c_typing.specs.Names.{Name, declares_function, says_function};
ghost use Rattle.c_typing.specs.ShapesOfNodes.{in_table};
ghost use Rattle.c_nodes.specs.Parents.{IsWithin};
ghost use Rattle.c_nodes.specs.Scopes.{scope_of};
ghost use Rattle.c_nodes.specs.Declarators.{AreNext, AreWholes, Points, whole_of};
ghost use Rattle.c_nodes.specs.Parents.{nodes_in};
ghost use Rattle.c_names.specs.Texts as texts;
ghost use Rattle.c_names.specs.Texts.{first_of};
ghost use Rattle.c_names.specs.Functions.{name_text};
ghost use Rattle.c_names.specs.Denoted as denoted;
ghost use Rattle.c_names.specs.Denoted.{IsBegun, IsDerived, IsOfTokens, IsScopeAt};

use crate::texts::same_texts;
use c_nodes::{Nodes, Span, innermost, next_parts, scopes, whole_declarators};
use c_syntax::{SynId, SynKind, SynNode};
use std::alloc::{AllocError, Global};
use std::marker::Model;

/// The nodes of a tree with their scopes, which contracts see as their table.
#[derive(Drop)]
pub struct ScopedNodes<'a> {
    nodes: &'a Nodes<'a>,
    wholes: Vec<usize>,
    next: Vec<usize>,
    texts: Vec<usize>,
    scopes: Vec<Span>,
    inner: Vec<usize>,
}

impl<'a> Model for ScopedNodes<'a> {
    ghost use Rattle.std.specs.Prelude.{List};
    ghost use Rattle.c_syntax.specs.declared.syntax.SynNode as node;
    ghost use Rattle.c_names.specs.Denoted.{IsScoped};

    ghost Value = { List node.SynNode };

    ghost view = { λ s. s.nodes.now };

    ghost invariant = { λ s. IsScoped s.nodes.now s.wholes.items s.next.items s.texts.items s.scopes.items s.inner.items };
}

impl<'a> ScopedNodes<'a> {
    /// The nodes of a tree that some tokens derive.
    pub fn of(alloc: Global, nodes: &'a Nodes<'a>) -> Result<ScopedNodes<'a>, AllocError>
        requires { IsOfTokens nodes.now }
        ensures { IfOk result (λ scoped. scoped ≡ nodes.now) }
    {
        let wholes = whole_declarators(alloc, nodes)?;
        let next = next_parts(alloc, nodes)?;
        ScopedNodes::with_declarators(alloc, nodes, wholes, next)
    }

    fn with_declarators(
        alloc: Global,
        nodes: &'a Nodes<'a>,
        wholes: Vec<usize>,
        next: Vec<usize>,
    ) -> Result<ScopedNodes<'a>, AllocError>
        requires tokens { IsOfTokens nodes.now }
        requires wholes { AreWholes nodes.now wholes.items }
        requires next { AreNext nodes.now next.items }
        ensures { IfOk result (λ scoped. scoped ≡ nodes.now) }
    {
        let scopes = scopes(alloc, nodes, &wholes, &next)?;
        let inner = innermost(alloc, &scopes, nodes.len())?;
        let texts = same_texts(alloc, nodes)?;
        Ok(ScopedNodes {
            nodes,
            wholes,
            next,
            texts,
            scopes,
            inner,
        })
    }

    /// How many nodes there are.
    pub fn len(&self) -> usize
        ensures is { result ≡ length self.now }
        ensures nodes { length (nodes_in self.now) ≡ length self.now }
        ensures derived { IsDerived self.now }
    {
        self.nodes.len()
    }

    /// The kind of a node.
    pub fn kind_at(&self, number: usize) -> SynKind
        ensures { result ≡ kind_at (nodes_in self.now) number }
    {
        self.nodes.kind_at(number)
    }

    /// The innermost scope that a node stands in.
    pub(crate) fn scope(&self, number: usize) -> Option<Span>
        requires { number < length self.now }
        ensures { IsScopeAt self.now number result }
    {
        let index = self.inner[number];
        if index < self.scopes.len() {
            Some(self.scopes[index])
        } else {
            None
        }
    }

    /// The same, where it has none a scope that no node stands in.
    pub(crate) fn scope_or_none(&self, number: usize) -> Span
        requires { number < length self.now }
        ensures { scope_of result ≡ scope_at (scopes_of (nodes_in self.now)) number }
    {
        match self.scope(number) {
            Some(scope) => scope,
            None => Span {
                node: 0,
                from: 1,
                to: 0,
                more_from: 1,
                more_to: 0,
            },
        }
    }

    /// The node of this number.
    pub fn node(&self, number: usize) -> &SynNode
        requires { number < length self.now }
        ensures { result.now ≡ in_table (node_at (nodes_in self.now) number) }
    {
        self.nodes.node(number)
    }

    /// The kids of a node, which stand before it.
    pub fn kids(&self, number: usize) -> &[SynId]
        requires { number < length self.now }
        ensures are { numbers result.now ≡ (node_at (nodes_in self.now) number).kids }
        ensures before { IsWithin number result.now }
    {
        self.nodes.kids(number)
    }

    /// The parent of a node; of the root, a number that no node has.
    pub(crate) fn parent(&self, number: usize) -> usize
        requires { number < length self.now }
        ensures { result ≡ (node_at (nodes_in self.now) number).parent }
    {
        self.nodes.parent(number)
    }

    /// The first kid of a node; where there is none, the first node.
    pub(crate) fn first_kid(&self, number: usize) -> usize
        ensures is { result ≡ kid (node_at (nodes_in self.now) number) 0 }
        ensures there { 0 < length self.now → result < length self.now }
    {
        if number < self.nodes.len() {
            self.nodes.kid(number, 0)
        } else {
            0
        }
    }

    /// The node has a kid of this index.
    pub fn has_kid(&self, number: usize, index: usize) -> bool
        ensures { result ≡ has_kid (node_at (nodes_in self.now) number) index }
    {
        if number < self.nodes.len() {
            self.nodes.has_kid(number, index)
        } else {
            false
        }
    }

    /// The first node with the name of a function that is defined.
    pub(crate) fn function_text(&self, function: usize) -> usize
        requires within { function < length self.now }
        requires kind { places.is_function (kind_at (nodes_in self.now) function) ≡ true }
        ensures is { first_of (nodes_in self.now) (name_text (nodes_in self.now) function) ≡ Some result }
        ensures there { result < length self.now }
    {
        self.text(self.nodes.first(self.nodes.kid(function, 1)))
    }

    /// The specs of what a declarator belongs to.
    pub fn specs(&self, owner: usize) -> usize
        requires { owner < length self.now }
        ensures is { result ≡ specs_by (nodes_in self.now) (node_at (nodes_in self.now) owner) (kind_at (nodes_in self.now) owner) }
        ensures there { result < length self.now }
    {
        match self.nodes.kind_at(owner) {
            SynKind::InitDecl => self.first_kid(self.nodes.parent(owner)),
            _ => self.first_kid(owner),
        }
    }

    /// The declarator of a name declares a function, behind specs that say a function type or do not.
    pub(crate) fn declares_function(&self, name: usize, by_specs: bool) -> bool
        requires { name < length self.now }
        ensures { (names : List Name) (specs : Node) → by_specs ≡ says_function (nodes_in self.now) names specs →
            result ≡ declares_function (nodes_in self.now) names name specs }
    {
        let part = self.next[name];
        if part < self.nodes.len() {
            is_takes(self.nodes.kind_at(part))
        } else {
            by_specs
        }
    }

    /// The index of a node among the kids of its parent but the first.
    pub(crate) fn other_index(&self, number: usize) -> usize
        requires { number < length self.now }
        ensures { result ≡ index_in (other_kids (node_at (nodes_in self.now) (node_at (nodes_in self.now) number).parent)) number }
    {
        self.nodes.index(number).saturating_sub(1)
    }

    /// The first node with the same name.
    pub(crate) fn text(&self, number: usize) -> usize
        requires within { number < length self.now }
        requires named { texts.has_name (kind_at (nodes_in self.now) number) ≡ true }
        ensures is { first_of (nodes_in self.now) (text_at (nodes_in self.now) number) ≡ Some result }
        ensures there { result < length self.now }
    {
        self.texts[number]
    }

    /// The node of the name whose scope begins behind a node: that of the whole declarator, or of the enumerator.
    pub fn begun(&self, number: usize) -> Option<usize>
        requires { number < length self.now }
        ensures { IsBegun self.now number result }
    {
        if is_enumerator(self.nodes.kind_at(number)) {
            return Some(number);
        }
        let first = self.nodes.first(number);
        if self.wholes[first] == number {
            self.declared_by(number, first)
        } else {
            None
        }
    }

    // The name that a whole declarator begins with, where it declares one.
    fn declared_by(&self, whole: usize, first: usize) -> Option<usize>
        requires within { whole < length self.now }
        requires first { first ≡ (node_at (nodes_in self.now) whole).first }
        requires low { first ≤ whole }
        requires whole { Points (nodes_in self.now) whole (whole_of (nodes_in self.now) first) }
        requires other { denoted.is_enumerator (kind_at (nodes_in self.now) whole) ≡ false }
        ensures { IsBegun self.now whole result }
    {
        if !is_identifier(self.nodes.kind_at(first)) {
            return None;
        }
        if declares(self.nodes.kind_at(self.nodes.parent(whole))) {
            Some(first)
        } else {
            None
        }
    }
}

pub(crate) fn is_enumerator(kind: SynKind) -> bool
    ensures { result ≡ denoted.is_enumerator kind }
{
    matches!(kind, SynKind::Enumer)
}

fn is_takes(kind: SynKind) -> bool
    ensures { result ≡ places.is_takes kind }
{
    matches!(kind, SynKind::Takes)
}

fn is_identifier(kind: SynKind) -> bool
    ensures { result ≡ denoted.is_identifier kind }
{
    matches!(kind, SynKind::Ident)
}

// The names of its declarators are ordinary ones (6.2.3).
fn declares(kind: SynKind) -> bool
    ensures { result ≡ denoted.declares kind }
{
    matches!(kind, SynKind::InitDecl | SynKind::Function | SynKind::Param)
}
