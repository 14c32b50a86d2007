// Declarators, and what they declare.
#![tactic(auto, unfolding(c_grammar::specs::Reading::has_name, c_grammar::specs::Reading::needs_name, c_grammar::specs::Reading::is_absent_by))]

ghost use Rattle.std.specs.Prelude.{◌≡◌, ◌<◌, ◌^◌, ◌+◌, List, length, max, IfOk, IfErr};
ghost use Rattle.c_syntax.specs.declared.kind.SynKind.TheVariants as kind;
ghost use Rattle.c_syntax.specs.Trees.{Tree, none, one, ◌then◌, forest_of, text_node, plain_node};
ghost use Rattle.c_syntax.specs.Tables.{stack_of};
ghost use Rattle.c_grammar.specs.Reading as reading;
ghost use Rattle.c_parts.specs.Kinds.{mode_of, suffix_kind};
ghost use Rattle.c_parts.specs.declared.budget.Stop.TheVariants as stop;
ghost use Rattle.c_parts.specs.Pushed.{IsPushed, ArePushed, PushesDeclarator};
ghost use Rattle.c_parts.specs.Says.{IsDeclarator};

use crate::budget::Stop;
use crate::part::{Part, above, above_first, leaf};
use c_syntax::{SynKind, SyntaxBuilder};

/// Whether a declarator has a name.
#[derive(Clone, Copy)]
pub enum Mode {
    Named,
    Unnamed,
    Either,
}

impl Mode {
    /// It may have one.
    pub fn has_name(self) -> bool
        ensures { result ≡ reading.has_name (mode_of self) }
    {
        !matches!(self, Mode::Unnamed)
    }

    /// It must have one.
    pub fn needs_name(self) -> bool
        ensures { result ≡ reading.needs_name (mode_of self) }
    {
        matches!(self, Mode::Named)
    }
}

/// A declarator on the builder's stack, and what it declares.
#[derive(Clone, Copy)]
pub struct Declarator<'a> {
    pub part: Part,
    /// Its name; empty where it has none.
    pub name: &'a str,
    pub is_named: bool,
    /// It is a name alone, in parentheses or not.
    pub is_bare: bool,
}

/// What stands behind a declarator.
#[derive(Clone, Copy)]
pub enum Suffix {
    Array,
    Takes,
}

impl Suffix {
    pub fn kind(self) -> SynKind
        ensures { result ≡ suffix_kind self }
    {
        match self {
            Suffix::Array => SynKind::ArrayOf,
            Suffix::Takes => SynKind::Takes,
        }
    }
}

/// The kind of the place of an absent name.
pub fn is_absent(kind: SynKind) -> bool
    ensures { result ≡ reading.is_absent_by kind }
{
    matches!(kind, SynKind::NoName)
}

impl<'a> Declarator<'a> {
    /// A name.
    pub fn named(
        trees: &mut SyntaxBuilder,
        name: &'a str,
        start: usize,
    ) -> Result<Declarator<'a>, Stop>
        ensures tree { PushesDeclarator (text_node kind.Ident name.now start none) (stack_of trees.old) (stack_of trees.new) result }
        ensures height { IfOk result (λ x. x.part.height ≡ 1) }
    {
        Ok(Declarator {
            part: leaf(trees, SynKind::Ident, name, start)?,
            name,
            is_named: true,
            is_bare: true,
        })
    }

    /// The place of an absent name.
    pub fn absent(trees: &mut SyntaxBuilder, start: usize) -> Result<Declarator<'a>, Stop>
        ensures tree { PushesDeclarator (plain_node kind.NoName start none) (stack_of trees.old) (stack_of trees.new) result }
        ensures height { IfOk result (λ x. x.part.height ≡ 1) }
    {
        Ok(Declarator {
            part: leaf(trees, SynKind::NoName, "", start)?,
            name: "",
            is_named: false,
            is_bare: false,
        })
    }

    /// A pointer to what the last tree declares; `start` is the place of its `*`.
    pub fn pointer(
        trees: &mut SyntaxBuilder,
        start: usize,
        inner: Declarator<'a>,
    ) -> Result<Declarator<'a>, Stop>
        requires { inner.part.height + 1 < 2 ^ 64 }
        ensures tree { (t : Tree) (under : List Tree) → IsPushed t under (stack_of trees.old) inner.entry.part → IsDeclarator t inner.entry → PushesDeclarator (plain_node kind.Pointer start (one t)) under (stack_of trees.new) result }
        ensures height { IfOk result (λ y. y.part.height ≡ inner.entry.part.height + 1) }
    {
        let part = above(trees, SynKind::Pointer, "", start, inner.part)?;
        let is_bare = false;
        Ok(Declarator {
            part,
            is_bare,
            ..inner
        })
    }

    /// The last tree in parentheses; `start` is the place of the first one.
    pub fn enclosed(
        trees: &mut SyntaxBuilder,
        start: usize,
        inner: Declarator<'a>,
    ) -> Result<Declarator<'a>, Stop>
        requires { inner.part.height + 1 < 2 ^ 64 }
        ensures tree { (t : Tree) (under : List Tree) → IsPushed t under (stack_of trees.old) inner.entry.part → IsDeclarator t inner.entry → PushesDeclarator (plain_node kind.Paren start (one t)) under (stack_of trees.new) result }
        ensures height { IfOk result (λ y. y.part.height ≡ inner.entry.part.height + 1) }
    {
        let part = above(trees, SynKind::Paren, "", start, inner.part)?;
        Ok(Declarator { part, ..inner })
    }

    /// An array or a function of what a tree declares, with the trees behind it: the tree is the last of the first
    /// `mark` ones, and `height` is the greatest of the others'.
    pub fn suffixed(
        trees: &mut SyntaxBuilder,
        suffix: Suffix,
        inner: Declarator<'a>,
        mark: usize,
        height: usize,
    ) -> Result<Declarator<'a>, Stop>
        requires { max inner.part.height height + 1 < 2 ^ 64 }
        ensures tree { (t : Tree) (ts under behind : List Tree) → mark ≡ length behind → IsPushed t under behind inner.entry.part → IsDeclarator t inner.entry → ArePushed ts behind (stack_of trees.old) height → PushesDeclarator (plain_node (suffix_kind suffix) t.label.start (t then forest_of ts)) under (stack_of trees.new) result }
        ensures refused { IfErr result (λ s. s ≡ stop.OutOfMemory) }
        ensures height { IfOk result (λ y. y.part.height ≡ max inner.entry.part.height height + 1) }
    {
        let kind = suffix.kind();
        let part = above_first(trees, kind, inner.part.start, inner.part, mark, height)?;
        let is_bare = false;
        Ok(Declarator {
            part,
            is_bare,
            ..inner
        })
    }
}
