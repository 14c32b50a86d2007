// Parts of a unit that have been read.
ghost use Rattle.std.specs.Prelude.{◌≡◌, ◌+◌, ◌<◌, ◌^◌, [], List, length, max, IfOk, IfErr};
ghost use Rattle.c_syntax.specs.Trees.{Tree, forest_of, none, ◌then◌, one, two, three, text_node, constant_node, string_node};
ghost use Rattle.c_syntax.specs.Tables.{stack_of};
ghost use Rattle.c_parts.specs.declared.budget.Stop.TheVariants as stop;
ghost use Rattle.c_parts.specs.Pushed.{IsPushed, ArePushed, Pushes, PushesAbove};

use crate::budget::Stop;
use c_syntax::{SynKind, SyntaxBuilder};
use cp_base::Bytes;

/// A tree on the builder's stack: what is asked of it again and again.
#[derive(Clone, Copy)]
pub struct Part {
    pub height: usize,
    pub kind: SynKind,
    pub start: usize,
}

/// A node without kids.
pub fn leaf(
    trees: &mut SyntaxBuilder,
    kind: SynKind,
    text: &str,
    start: usize,
) -> Result<Part, Stop>
    ensures tree { Pushes (text_node kind text.now start none) (stack_of trees.old) (stack_of trees.new) result }
    ensures height { IfOk result (λ part. part.height ≡ 1) }
{
    above_last(trees, kind, text, start, 0, 0)
}

/// A number or a character.
pub fn constant(
    trees: &mut SyntaxBuilder,
    kind: SynKind,
    value: u32,
    start: usize,
) -> Result<Part, Stop>
    ensures tree { Pushes (constant_node kind value start) (stack_of trees.old) (stack_of trees.new) result }
    ensures height { IfOk result (λ part. part.height ≡ 1) }
{
    trees.push_constant(kind, value, start)?;
    Ok(Part {
        height: 1,
        kind,
        start,
    })
}

/// A string literal.
pub fn literal(trees: &mut SyntaxBuilder, bytes: Bytes, start: usize) -> Result<Part, Stop>
    ensures tree { Pushes (string_node bytes start) (stack_of trees.old) (stack_of trees.new) result }
    ensures height { IfOk result (λ part. part.height ≡ 1) }
{
    trees.push_string(bytes, start)?;
    Ok(Part {
        height: 1,
        kind: SynKind::Str,
        start,
    })
}

/// A node above the last tree.
pub fn above(
    trees: &mut SyntaxBuilder,
    kind: SynKind,
    text: &str,
    start: usize,
    kid: Part,
) -> Result<Part, Stop>
    requires { kid.height + 1 < 2 ^ 64 }
    ensures tree { (t : Tree) (under : List Tree) → IsPushed t under (stack_of trees.old) kid → Pushes (text_node kind text.now start (one t)) under (stack_of trees.new) result }
    ensures height { IfOk result (λ part. part.height ≡ kid.height + 1) }
{
    above_last(trees, kind, text, start, 1, kid.height)
}

/// A node above the last two trees.
pub fn above_two(
    trees: &mut SyntaxBuilder,
    kind: SynKind,
    text: &str,
    start: usize,
    first: Part,
    second: Part,
) -> Result<Part, Stop>
    requires { max first.height second.height + 1 < 2 ^ 64 }
    ensures tree { (t u : Tree) (under behind : List Tree) → IsPushed t under behind first → IsPushed u behind (stack_of trees.old) second → Pushes (text_node kind text.now start (two t u)) under (stack_of trees.new) result }
    ensures height { IfOk result (λ part. part.height ≡ max first.height second.height + 1) }
{
    let height = first.height.max(second.height);
    above_last(trees, kind, text, start, 2, height)
}

/// A node above the last three trees.
pub fn above_three(
    trees: &mut SyntaxBuilder,
    kind: SynKind,
    start: usize,
    first: Part,
    second: Part,
    third: Part,
) -> Result<Part, Stop>
    requires { max first.height (max second.height third.height) + 1 < 2 ^ 64 }
    ensures tree { (t u v : Tree) (under behind last : List Tree) → IsPushed t under behind first → IsPushed u behind last second → IsPushed v last (stack_of trees.old) third → Pushes (text_node kind [] start (three t u v)) under (stack_of trees.new) result }
    ensures height { IfOk result (λ part. part.height ≡ max first.height (max second.height third.height) + 1) }
{
    let height = first.height.max(second.height.max(third.height));
    above_last(trees, kind, "", start, 3, height)
}

/// A node above the last four trees.
pub fn above_four(
    trees: &mut SyntaxBuilder,
    kind: SynKind,
    start: usize,
    first: Part,
    second: Part,
    third: Part,
    fourth: Part,
) -> Result<Part, Stop>
    requires { max first.height (max second.height (max third.height fourth.height)) + 1 < 2 ^ 64 }
    ensures tree { (t u v w : Tree) (under behind middle last : List Tree) → IsPushed t under behind first → IsPushed u behind middle second → IsPushed v middle last third → IsPushed w last (stack_of trees.old) fourth → Pushes (text_node kind [] start (t then three u v w)) under (stack_of trees.new) result }
    ensures height { IfOk result (λ part. part.height ≡ max first.height (max second.height (max third.height fourth.height)) + 1) }
{
    let below = second.height.max(third.height.max(fourth.height));
    let height = first.height.max(below);
    above_last(trees, kind, "", start, 4, height)
}

/// A node above the trees behind the first `mark` ones; `height` is the greatest of theirs.
pub fn above_row(
    trees: &mut SyntaxBuilder,
    kind: SynKind,
    text: &str,
    start: usize,
    mark: usize,
    height: usize,
) -> Result<Part, Stop>
    requires { height + 1 < 2 ^ 64 }
    ensures tree { (ts under : List Tree) → mark ≡ length under → ArePushed ts under (stack_of trees.old) height → Pushes (text_node kind text.now start (forest_of ts)) under (stack_of trees.new) result }
    ensures refused { IfErr result (λ s. s ≡ stop.OutOfMemory) }
    ensures height { IfOk result (λ part. part.height ≡ height + 1) }
{
    let kids = trees.len().saturating_sub(mark);
    above_last(trees, kind, text, start, kids, height)
}

/// A node above a tree and the trees behind it: it is the last of the first `mark` ones, and `height` is the greatest
/// of the others'.
pub fn above_first(
    trees: &mut SyntaxBuilder,
    kind: SynKind,
    start: usize,
    first: Part,
    mark: usize,
    height: usize,
) -> Result<Part, Stop>
    requires { max first.height height + 1 < 2 ^ 64 }
    ensures tree { (t : Tree) (ts under behind : List Tree) → mark ≡ length behind → IsPushed t under behind first → ArePushed ts behind (stack_of trees.old) height → Pushes (text_node kind [] start (t then forest_of ts)) under (stack_of trees.new) result }
    ensures refused { IfErr result (λ s. s ≡ stop.OutOfMemory) }
    ensures height { IfOk result (λ part. part.height ≡ max first.height height + 1) }
{
    let height = first.height.max(height);
    above_row(trees, kind, "", start, mark.saturating_sub(1), height)
}

// A node above so many of the last trees; `height` is the greatest of theirs.
fn above_last(
    trees: &mut SyntaxBuilder,
    kind: SynKind,
    text: &str,
    start: usize,
    kids: usize,
    height: usize,
) -> Result<Part, Stop>
    requires { height + 1 < 2 ^ 64 }
    ensures tree { PushesAbove kind text.now start kids height (stack_of trees.old) (stack_of trees.new) result }
    ensures height { IfOk result (λ part. part.height ≡ height + 1) }
{
    trees.push_text(kind, text, start, kids)?;
    Ok(Part {
        height: height + 1,
        kind,
        start,
    })
}

/// A statement, and whether it ends in an `if` without an `else`.
#[derive(Clone, Copy)]
pub struct Statement {
    pub part: Part,
    pub ends_open: bool,
}
