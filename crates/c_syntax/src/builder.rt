// The table of a syntax tree while it is written.
ghost use Rattle.std.specs.Prelude.{◌≡◌, [], ◌∷◌, take, drop, reverse, length, OnOk, OnErr};
ghost use Rattle.c_syntax.specs.Trees.{Tree, constant_node, forest_of, string_node, text_node};
ghost use Rattle.c_syntax.specs.Tables.{stack_of, table_of, IsWhole, node_of};

use crate::kind::SynKind;
use crate::label::Label;
use crate::syntax::{SynId, SynIds, SynNode, Syntax};
use cp_base::{Bytes, Items, Name};
use std::alloc::{AllocError, Global};
use std::marker::Model;

/// A table that is being written, which contracts see as its nodes: those of the trees so far, which stand on a
/// stack, the last tree first.
#[derive(Drop)]
pub struct SyntaxBuilder {
    alloc: Global,
    nodes: Vec<SynNode>,
    // For each node the lowest id below it.
    firsts: Vec<usize>,
    // The roots of the trees so far.
    roots: Vec<SynId>,
}

impl Model for SyntaxBuilder {
    ghost use Rattle.std.specs.Prelude.{List};
    ghost use Rattle.c_syntax.specs.declared.syntax.SynNode as node;
    ghost use Rattle.c_syntax.specs.Tables.{IsBegun};

    ghost Value = { List node.SynNode };

    ghost view = { λ b. b.nodes.items };

    ghost invariant = { λ b. IsBegun b.nodes.items b.firsts.items b.roots.items };
}

impl SyntaxBuilder {
    pub fn new(alloc: Global) -> SyntaxBuilder
        ensures { result ≡ [] }
    {
        SyntaxBuilder {
            alloc,
            nodes: Vec::new(alloc),
            firsts: Vec::new(alloc),
            roots: Vec::new(alloc),
        }
    }

    /// The number of trees so far.
    pub fn len(&self) -> usize
        ensures { result ≡ length (stack_of self.now) }
    {
        self.roots.len()
    }

    /// Puts a node above so many of the last trees, or above all where they are fewer.
    pub fn push(&mut self, label: Label, kids: usize) -> Result<(), AllocError>
        ensures tree { OnOk result (stack_of self.new ≡ record { label = label; kids = forest_of (reverse (take kids (stack_of self.old))) } ∷ drop kids (stack_of self.old)) }
        ensures kept { OnErr result (self.new ≡ self.old) }
    {
        let number = self.nodes.len();
        let below = self.roots.len().saturating_sub(kids);
        let kids = SynIds::from_slice(self.alloc, &self.roots[below..])?;
        self.roots.reserve(1)?;
        self.firsts.reserve(1)?;
        let first = if below == 0 {
            0
        } else {
            self.roots[below - 1].number + 1
        };
        self.nodes.push(node_of(label, kids))?;
        let _ = self.firsts.push(first);
        self.roots.truncate(below);
        let _ = self.roots.push(SynId { number });
        Ok(())
    }

    /// The same of a node with a text, or with an empty one.
    pub fn push_text(
        &mut self,
        kind: SynKind,
        text: &str,
        start: usize,
        kids: usize,
    ) -> Result<(), AllocError>
        ensures tree { OnOk result (stack_of self.new ≡ text_node kind text.now start (forest_of (reverse (take kids (stack_of self.old)))) ∷ drop kids (stack_of self.old)) }
        ensures kept { OnErr result (self.new ≡ self.old) }
    {
        let mut name = Name::new(self.alloc);
        name.push_all(text)?;
        let label = Label {
            kind,
            text: name,
            bytes: Bytes::new(self.alloc),
            value: 0,
            start,
        };
        self.push(label, kids)
    }

    /// Puts a number or a character behind the trees.
    pub fn push_constant(
        &mut self,
        kind: SynKind,
        value: u32,
        start: usize,
    ) -> Result<(), AllocError>
        ensures tree { OnOk result (stack_of self.new ≡ constant_node kind value start ∷ stack_of self.old) }
        ensures kept { OnErr result (self.new ≡ self.old) }
    {
        let label = Label {
            kind,
            text: Name::new(self.alloc),
            bytes: Bytes::new(self.alloc),
            value,
            start,
        };
        self.push(label, 0)
    }

    /// Puts a string with these bytes behind the trees.
    pub fn push_string(&mut self, bytes: Bytes, start: usize) -> Result<(), AllocError>
        ensures tree { OnOk result (stack_of self.new ≡ string_node bytes start ∷ stack_of self.old) }
        ensures kept { OnErr result (self.new ≡ self.old) }
    {
        let label = Label {
            kind: SynKind::Str,
            text: Name::new(self.alloc),
            bytes,
            value: 0,
            start,
        };
        self.push(label, 0)
    }

    /// The table of the one tree that there is, of this height.
    pub fn finish(self, height: usize) -> Syntax
        requires { IsWhole (stack_of self) height }
        ensures { (tree : Tree) → stack_of self ≡ tree ∷ [] → result ≡ table_of tree }
    {
        let SyntaxBuilder {
            alloc: _,
            nodes,
            firsts,
            roots: _,
        } = self;
        Syntax {
            nodes: Items::from_vec(nodes),
            firsts,
            height,
        }
    }
}

fn node_of(label: Label, kids: SynIds) -> SynNode
    ensures { result ≡ node_of label kids }
{
    let Label {
        kind,
        text,
        bytes,
        value,
        start,
    } = label;
    SynNode {
        kind,
        text,
        bytes,
        value,
        start,
        kids,
    }
}
