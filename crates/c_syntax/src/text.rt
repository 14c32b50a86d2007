// The text of a syntax tree.
ghost use Rattle.std.specs.Prelude.{◌≡◌, ◌++◌, ◌*◌, ◌≤◌, codes, replicate, IfOk, OnOk};
ghost use Rattle.c_syntax.specs.Trees as trees;
ghost use Rattle.c_syntax.specs.Tables.{StandsFor, StandsWithin, label_of, table_of};
ghost use Rattle.c_syntax.specs.TreeText.{behind, line, text_behind, tree_lines, tree_text};

use crate::kind::{SynKind, kind_word};
use crate::syntax::{MAX_HEIGHT, SynId, SynNode, Syntax};
use cp_base::Bytes;
use std::alloc::{AllocError, Global};

// Two blanks for each level that a tree can have.
static BLANKS: [u8; 2 * MAX_HEIGHT] = [b' '; 2 * MAX_HEIGHT];

/// A line for each node, the root first, with two blanks of indent for each level: the word of its
/// kind, and then its text or number; for a string its length.
#[tactic(auto, unfolding(crate::specs::TreeText::tree_text))]
pub fn tree_text(alloc: Global, syntax: &Syntax) -> Result<Bytes, AllocError>
    ensures { IfOk result (λ text. (tree : trees.Tree) → syntax.now ≡ table_of tree → text ≡ tree_text tree) }
{
    let mut out = Bytes::new(alloc);
    put_tree(&mut out, syntax.nodes(), syntax.root(), 0)?;
    Ok(out)
}

// The lines of a node and of all below it. The recursion is as deep as the tree is high, which is within the limit.
fn put_tree(out: &mut Bytes, table: &[SynNode], id: SynId, level: usize) -> Result<(), AllocError>
    requires { StandsWithin table.now id level }
    ensures { OnOk result ((tree : trees.Tree) → StandsFor table.now id tree → out.new ≡ out.old ++ tree_lines level tree) }
{
    let node = &table[id.number];
    put_line(out, node, level)?;
    for kid in node.kids.as_slice() {
        put_tree(out, table, *kid, level + 1)?;
    }
    Ok(())
}

fn put_line(out: &mut Bytes, node: &SynNode, level: usize) -> Result<(), AllocError>
    requires { level ≤ MAX_HEIGHT }
    ensures { OnOk result (out.new ≡ out.old ++ line level (label_of node.now)) }
{
    put_indent(out, level)?;
    out.push_all(kind_word(node.kind).as_bytes())?;
    put_behind(out, node)?;
    out.push_all(b"\n")
}

// Two blanks for each level.
fn put_indent(out: &mut Bytes, level: usize) -> Result<(), AllocError>
    requires { level ≤ MAX_HEIGHT }
    ensures { OnOk result (out.new ≡ out.old ++ replicate (2 * level) 32) }
{
    out.push_all(&BLANKS[..2 * level])
}

// What stands behind the word of the kind.
fn put_behind(out: &mut Bytes, node: &SynNode) -> Result<(), AllocError>
    ensures { OnOk result (out.new ≡ out.old ++ behind node.now.kind (label_of node.now)) }
{
    match node.kind {
        SynKind::Int(_) | SynKind::Char => {
            out.push_all(b" ")?;
            out.push_number(node.value)
        }
        SynKind::Str => {
            out.push_all(b" ")?;
            out.push_number(node.bytes.as_slice().len())
        }
        _ => put_text(out, node.text.as_slice()),
    }
}

// A text after a blank, where there is one.
fn put_text(out: &mut Bytes, text: &str) -> Result<(), AllocError>
    ensures { OnOk result (out.new ≡ out.old ++ text_behind text.now) }
{
    if text.is_empty() {
        return Ok(());
    }
    out.push_all(b" ")?;
    out.push_all(text.as_bytes())
}
