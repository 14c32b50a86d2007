// The nodes of a tree, each with its parent, its index among the kids of it, and its first node.
ghost use Rattle.std.specs.Prelude.{◌≡◌, ◌+◌, ◌<◌, ◌≤◌, ◌∷◌, IfOk, drop, length, replicate};
ghost use Rattle.c_syntax.specs.Trees.{Tree};
ghost use Rattle.c_syntax.specs.Tables.{IsInOrder, table_of};
ghost use Rattle.c_typing.specs.Places.{has_kid, index_in, kid, kind_at, node_at, numbers, parent_of};
ghost use Rattle.c_typing.specs.ShapesOfNodes.{in_table};
ghost use Rattle.c_nodes.specs.Parents.{AreNumbered, IsWithin, adopted, all_adopted, kid_of, nodes_in};

use c_syntax::{SynId, SynKind, SynNode, Syntax};
use std::alloc::{AllocError, Global};
use std::marker::Model;

// The parent of a node; of the root, the number of nodes.
#[derive(Clone, Copy)]
struct Parent {
    number: usize,
    // The index of the node among the kids of its parent; of the root, 0.
    index: usize,
}

/// The nodes of a tree, which contracts see as their table.
#[derive(Drop)]
pub struct Nodes<'a> {
    syntax: &'a Syntax,
    parents: Vec<Parent>,
}

impl<'a> Model for Nodes<'a> {
    ghost use Rattle.std.specs.Prelude.{List};
    ghost use Rattle.c_syntax.specs.declared.syntax.SynNode as node;
    ghost use Rattle.c_nodes.specs.Parents.{IsKept};

    ghost Value = { List node.SynNode };

    ghost view = { λ s. s.syntax.now };

    ghost invariant = { λ s. IsKept s.syntax.now s.parents.items };
}

impl<'a> Nodes<'a> {
    /// The nodes of a whole tree.
    pub fn of(alloc: Global, syntax: &'a Syntax) -> Result<Nodes<'a>, AllocError>
        requires { (t : Tree) × (syntax.now ≡ table_of t) }
        ensures { IfOk result (λ nodes. nodes ≡ syntax.now) }
    {
        let parents = parents_of(alloc, syntax.nodes())?;
        Ok(Nodes { syntax, parents })
    }

    /// How many there are.
    pub fn len(&self) -> usize
        ensures is { result ≡ length self.now }
        ensures nodes { length (nodes_in self.now) ≡ length self.now }
        ensures numbered { AreNumbered (nodes_in self.now) }
    {
        self.parents.len()
    }

    /// The node of this number.
    pub fn node(&self, number: usize) -> &SynNode
        requires { number < length self.now }
        ensures is { result.now ≡ in_table (node_at (nodes_in self.now) number) }
        ensures numbered { (node_at (nodes_in self.now) number).id ≡ number }
        ensures later { drop number (nodes_in self.now) ≡ node_at (nodes_in self.now) number ∷ drop (number + 1) (nodes_in self.now) }
    {
        self.syntax.node(SynId { number })
    }

    /// The kind of the node of this number; where there is none, `Empty`.
    pub fn kind_at(&self, number: usize) -> SynKind
        ensures { result ≡ kind_at (nodes_in self.now) number }
    {
        if number < self.len() {
            self.node(number).kind
        } else {
            SynKind::Empty
        }
    }

    /// The kids of a node, which stand before it.
    pub fn kids(&self, number: usize) -> &[SynId]
        requires { number < length self.now }
        ensures are { numbers result.now ≡ (node_at (nodes_in self.now) number).kids }
        ensures before { IsWithin number result.now }
    {
        self.syntax.nodes()[number].kids.as_slice()
    }

    /// The kid of this index; where there is none, the first node.
    pub fn kid(&self, number: usize, index: usize) -> usize
        requires { number < length self.now }
        ensures is { result ≡ kid (node_at (nodes_in self.now) number) index }
        ensures there { result < length self.now }
    {
        match self.kids(number).get(index) {
            Some(kid) => kid.number,
            None => 0,
        }
    }

    /// The node has a kid of this index.
    pub fn has_kid(&self, number: usize, index: usize) -> bool
        requires { number < length self.now }
        ensures { result ≡ has_kid (node_at (nodes_in self.now) number) index }
    {
        index < self.kids(number).len()
    }

    /// The parent of a node; of the root, a number that no node has.
    pub fn parent(&self, number: usize) -> usize
        requires { number < length self.now }
        ensures { result ≡ (node_at (nodes_in self.now) number).parent }
    {
        self.parents[number].number
    }

    /// The index of a node among the kids of its parent; of the root, 0.
    pub fn index(&self, number: usize) -> usize
        requires { number < length self.now }
        ensures { result ≡ index_in (parent_of (nodes_in self.now) number).kids number }
    {
        self.parents[number].index
    }

    /// The lowest node of the subtree of a node.
    pub fn first(&self, number: usize) -> usize
        requires { number < length self.now }
        ensures is { result ≡ (node_at (nodes_in self.now) number).first }
        ensures low { result ≤ number }
    {
        self.syntax.first(SynId { number }).number
    }
}

fn parents_of(alloc: Global, nodes: &[SynNode]) -> Result<Vec<Parent>, AllocError>
    requires { (t : Tree) × (nodes.now ≡ table_of t) }
    ensures { IfOk result (λ parents. parents.items ≡ all_adopted 0 nodes.now (replicate (length nodes.now) (kid_of (length nodes.now) 0))) }
{
    let none = Parent {
        number: nodes.len(),
        index: 0,
    };
    let mut parents = Vec::new(alloc);
    parents.resize(nodes.len(), none)?;
    adopt_all(&mut parents, nodes);
    Ok(parents)
}

// Makes each node the parent of its kids.
fn adopt_all(parents: &mut [Parent], nodes: &[SynNode])
    requires order { IsInOrder nodes.now }
    requires long { length parents.old ≡ length nodes.now }
    ensures { parents.new ≡ all_adopted 0 nodes.now parents.old }
{
    for (number, node) in nodes.iter().enumerate() {
        adopt(parents, number, node.kids.as_slice());
    }
}

// Makes a node the parent of its kids.
fn adopt(parents: &mut [Parent], number: usize, kids: &[SynId])
    requires { IsWithin (length parents.old) kids.now }
    ensures { parents.new ≡ adopted number 0 kids.now parents.old }
{
    for (index, kid) in kids.iter().enumerate() {
        parents[kid.number] = Parent { number, index };
    }
}
