// Blocks (C99 6.8.2).
ghost use Rattle.std.specs.Prelude.{◌≡◌, ◌<◌, ◌∷◌, ℕ, List, [], IfOk, Some, true, false, flat_map, length, map};
ghost use Rattle.std.specs.Option.{is_some};
ghost use Rattle.c_syntax.specs.declared.kind.SynKind.TheVariants as kind;
ghost use Rattle.c_types.specs.declared.tree.Stmt.{Stmt as TypedStmt};
ghost use Rattle.c_typing.specs.Judgements.{all_of, code_at};
ghost use Rattle.c_typing.specs.Places.{is_braces};
ghost use Rattle.c_typing.specs.Statements.{block_of};
ghost use Rattle.c_meanings.specs.Meanings.{AreLeft, IsReady, IsRow, judged_to, node_in};

use c_answers::Refusal;
use c_judgements::Judged;
use c_meanings::{Meanings, performed};
use c_nodes::Nodes;
use c_statements::one;
use c_types::{Stmt, Stmts};
use cp_base::Items;
use std::alloc::{AllocError, Global};

/// A block.
pub fn block(
    alloc: Global,
    nodes: &Nodes,
    node: usize,
    meanings: &mut Meanings,
) -> Result<Judged, Refusal>
    requires within { node < length nodes.now }
    requires kind { (node_in nodes.now node).label.kind ≡ kind.Block }
    requires ready { IsReady nodes.now node 0 meanings.old }
    ensures { IsRow nodes.now node meanings.old meanings.new result }
{
    if !have_code(nodes, node, meanings) {
        return Ok(Judged::Waits);
    }
    performed(take_block(alloc, nodes, node, meanings))
}

// Each kid of the node is a statement with a meaning.
fn have_code(nodes: &Nodes, node: usize, meanings: &Meanings) -> bool
    requires within { node < length nodes.now }
    requires ready { IsReady nodes.now node 0 meanings.now }
    ensures { result ≡ is_some (all_of (map (code_at (judged_to nodes.now node)) (node_in nodes.now node).kids)) }
{
    for index in 0..nodes.kids(node).len() {
        if !meanings.has_code(nodes, node, index) {
            return false;
        }
    }
    true
}

// What the kids of the node do, one after the other.
fn take_block(
    alloc: Global,
    nodes: &Nodes,
    node: usize,
    meanings: &mut Meanings,
) -> Result<Stmts, AllocError>
    requires within { node < length nodes.now }
    requires other { is_braces (node_in nodes.now node).label.kind ≡ false }
    requires ready { IsReady nodes.now node 0 meanings.old }
    requires there { is_some (all_of (map (code_at (judged_to nodes.now node)) (node_in nodes.now node).kids)) ≡ true }
    ensures is { IfOk result (λ ss. (parts : List (List TypedStmt)) → all_of (map (code_at (judged_to nodes.now node)) (node_in nodes.now node).kids) ≡ Some parts → ss ≡ block_of (flat_map (λ ps. ps) parts) ∷ []) }
    ensures ready { (low : ℕ) × IsReady nodes.now node low meanings.new }
    ensures left { AreLeft nodes.now node meanings.old meanings.new }
    ensures types { meanings.new.types ≡ meanings.old.types }
{
    let mut whole = Items::new(alloc);
    for index in 0..nodes.kids(node).len() {
        whole.append(meanings.take_code(nodes, node, index))?;
    }
    one(alloc, as_block(whole))
}

pub(crate) fn as_block(stmts: Stmts) -> Stmt
    ensures { result ≡ block_of stmts }
{
    Stmt::Block(stmts)
}
