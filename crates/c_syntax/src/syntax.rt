// The syntax tree as a table of nodes.
ghost use Rattle.std.specs.Prelude.{◌≡◌, ◌+◌, ◌<◌, ◌≤◌, List, ℕ, length, slice_get, Some};
ghost use Rattle.c_syntax.specs.Trees as trees;
ghost use Rattle.c_syntax.specs.Trees.{one};
ghost use Rattle.c_syntax.specs.Tables.{IsInOrder, StandsFor, StandsWithin, size, table_of};

use crate::kind::SynKind;
use cp_base::{Bytes, Items, Name};
use std::marker::Model;

/// The greatest height of a syntax tree.
pub const MAX_HEIGHT: usize = 500;

/// The place of a node in its table.
#[derive(Clone, Copy, Debug, PartialEq, Eq)]
pub struct SynId {
    pub number: usize,
}

pub type SynIds = Items<SynId>;

/// A node of the syntax tree.
#[derive(Debug, Drop)]
pub struct SynNode {
    pub kind: SynKind,
    /// An identifier, a word or an operator; empty where the kind has none.
    pub text: Name,
    /// The bytes of a string, without the zero at its end.
    pub bytes: Bytes,
    /// The value of an `Int` or `Char`; else 0.
    pub value: u32,
    /// The byte offset of its first token; for a node without one, that of the token behind its place.
    pub start: usize,
    /// Its kids, in source order.
    pub kids: SynIds,
}

/// A syntax tree, which contracts see as its table: the nodes in post-order, kids before their parents.
#[derive(Drop)]
pub struct Syntax {
    pub(crate) nodes: Items<SynNode>,
    // For each node the lowest id below it.
    pub(crate) firsts: Vec<usize>,
    pub(crate) height: usize,
}

impl Model for Syntax {
    ghost use Rattle.std.specs.Prelude.{List};
    ghost use Rattle.c_syntax.specs.declared.syntax.SynNode as node;
    ghost use Rattle.c_syntax.specs.Tables.{IsTable};

    ghost Value = { List node.SynNode };

    ghost view = { λ s. s.nodes };

    ghost invariant = { λ s. IsTable s.nodes s.firsts.items s.height };
}

impl Syntax {
    pub fn node(&self, id: SynId) -> &SynNode
        requires { id.number < length self.now }
        ensures { slice_get self.now id.number ≡ Some result.now }
    {
        &self.nodes.as_slice()[id.number]
    }

    /// All nodes.
    pub fn nodes(&self) -> &[SynNode]
        ensures all { result.now ≡ self.now }
        ensures order { IsInOrder result.now }
    {
        self.nodes.as_slice()
    }

    /// The root, which is the last node. What recurses from it over the tree goes no deeper than the limit.
    pub fn root(&self) -> SynId
        ensures last { result.number + 1 ≡ length self.now }
        ensures low { StandsWithin self.now result 0 }
    {
        SynId {
            number: self.nodes.len() - 1,
        }
    }

    /// The first node of the tree that this one is the root of. The nodes from there up to this one are that tree.
    pub fn first(&self, id: SynId) -> SynId
        requires { id.number < length self.now }
        ensures { (tree : trees.Tree) → StandsFor self.now id tree → result.number + size (one tree) ≡ id.number + 1 }
    {
        SynId {
            number: self.firsts[id.number],
        }
    }

    /// The greatest number of nodes on a walk from the root down, both ends counted.
    pub fn height(&self) -> usize
        ensures height { (tree : trees.Tree) → self.now ≡ table_of tree → result ≡ trees.height tree }
        ensures low { result ≤ MAX_HEIGHT }
    {
        self.height
    }
}
