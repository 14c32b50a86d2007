// `for` (C99 6.8.5.3).
ghost use Rattle.std.specs.Prelude.{◌≡◌, ◌<◌, ◌∷◌, ℕ, [], suc, Option, IfOk, Some, false, is_some, length, true};
ghost use Rattle.c_syntax.specs.declared.kind.SynKind.TheVariants as kind;
ghost use Rattle.c_types.specs.Forms as forms;
ghost use Rattle.c_typing.specs.Places.{is_braces, kind_at};
ghost use Rattle.c_typing.specs.Judgements as rules;
ghost use Rattle.c_typing.specs.Conversions as conversions;
ghost use Rattle.c_typing.specs.Statements.{block_of, code_in};
ghost use Rattle.c_typing.specs.Statements as statements;
ghost use Rattle.c_nodes.specs.Parents.{nodes_in};
ghost use Rattle.c_meanings.specs.Meanings.{AreLeft, HasKids, IsReady, IsRow, MayTake, judged_to, kid_in, node_in};
ghost use Rattle.c_statement_rows.specs.Parts.{IsFor, IsTest, first_at, is_empty, part_at};

use crate::blocks::as_block;
use crate::loops::{Condition, condition_at};
use c_answers::Refusal;
use c_judgements::Judged;
use c_meanings::{Meanings, performed};
use c_nodes::Nodes;
use c_statements::{as_one, expression, loop_before, one};
use c_syntax::SynKind;
use c_types::{Expr, Stmt, Stmts};
use cp_base::Items;
use std::alloc::{AllocError, Global};

/// `for`.
pub fn for_loop(
    alloc: Global,
    nodes: &Nodes,
    node: usize,
    meanings: &mut Meanings,
) -> Result<Judged, Refusal>
    requires within { node < length nodes.now }
    requires kind { (node_in nodes.now node).label.kind ≡ kind.For }
    requires ready { IsReady nodes.now node 0 meanings.old }
    ensures { IsRow nodes.now node meanings.old meanings.new result }
{
    match test_at(nodes, node, meanings) {
        Condition::Absent => return Ok(Judged::Waits),
        Condition::NotScalar => return Err(Refusal::Broken { rule: 13, node }),
        Condition::Scalar => (),
    }
    if !has_first(nodes, node, meanings) {
        return Ok(Judged::Waits);
    }
    if !has_part(nodes, node, 2, meanings) {
        return Ok(Judged::Waits);
    }
    if !meanings.has_code(nodes, node, 3) {
        return Ok(Judged::Waits);
    }
    performed(take_for(alloc, nodes, node, meanings))
}

// What a `for` does whose parts have meanings.
fn take_for(
    alloc: Global,
    nodes: &Nodes,
    node: usize,
    meanings: &mut Meanings,
) -> Result<Stmts, AllocError>
    requires within { node < length nodes.now }
    requires kids { HasKids nodes.now node 4 }
    requires other { is_braces (node_in nodes.now node).label.kind ≡ false }
    requires ready { IsReady nodes.now node 0 meanings.old }
    requires test { is_some (part_at nodes.now node 1) ≡ true }
    requires first { is_some (first_at nodes.now node) ≡ true }
    requires step { is_some (part_at nodes.now node 2) ≡ true }
    requires body { is_some (rules.code_at (judged_to nodes.now node) (kid_in nodes.now node 3)) ≡ true }
    ensures is { IfOk result (IsFor nodes.now node) }
    ensures ready { (low : ℕ) × IsReady nodes.now node low meanings.new }
    ensures left { AreLeft nodes.now node meanings.old meanings.new }
{
    let first = take_first(alloc, nodes, node, meanings)?;
    let test = take_part(alloc, nodes, node, 1, meanings)?;
    let step = take_part(alloc, nodes, node, 2, meanings)?;
    let body = meanings.take_code(nodes, node, 3);
    for_of(alloc, first, test, step, body)
}

// Nothing stands at the kid of this index.
fn is_absent(nodes: &Nodes, node: usize, index: usize) -> bool
    requires within { node < length nodes.now }
    ensures { result ≡ is_empty (kind_at (nodes_in nodes.now) (kid_in nodes.now node index)) }
{
    matches!(nodes.kind_at(nodes.kid(node, index)), SynKind::Empty)
}

// What is found of the test; where there is none, nothing is wrong with it.
fn test_at(nodes: &Nodes, node: usize, meanings: &Meanings) -> Condition
    requires within { node < length nodes.now }
    requires kids { HasKids nodes.now node 2 }
    requires ready { MayTake nodes.now node 1 meanings.now }
    ensures { IsTest result (part_at nodes.now node 1) }
{
    if is_absent(nodes, node, 1) {
        return Condition::Scalar;
    }
    condition_at(nodes, node, 1, meanings)
}

// The part of this index has a meaning, or is absent.
fn has_part(nodes: &Nodes, node: usize, index: usize, meanings: &Meanings) -> bool
    requires within { node < length nodes.now }
    requires kids { HasKids nodes.now node (suc index) }
    requires ready { MayTake nodes.now node index meanings.now }
    ensures { result ≡ is_some (part_at nodes.now node index) }
{
    if is_absent(nodes, node, index) {
        return true;
    }
    meanings.operand_at(nodes, node, index).is_some()
}

// The first part has a meaning, or is absent.
fn has_first(nodes: &Nodes, node: usize, meanings: &Meanings) -> bool
    requires within { node < length nodes.now }
    requires kids { HasKids nodes.now node 1 }
    requires ready { MayTake nodes.now node 0 meanings.now }
    ensures { result ≡ is_some (first_at nodes.now node) }
{
    match nodes.kind_at(nodes.kid(node, 0)) {
        SynKind::Declaration => meanings.has_code(nodes, node, 0),
        SynKind::Empty => true,
        _ => meanings.operand_at(nodes, node, 0).is_some(),
    }
}

// The code of the part of this index; of an absent one, none.
fn take_part(
    alloc: Global,
    nodes: &Nodes,
    node: usize,
    index: usize,
    meanings: &mut Meanings,
) -> Result<Option<Expr>, AllocError>
    requires within { node < length nodes.now }
    requires kids { HasKids nodes.now node (suc (suc index)) }
    requires other { is_braces (node_in nodes.now node).label.kind ≡ false }
    requires ready { MayTake nodes.now node index meanings.old }
    requires there { is_some (part_at nodes.now node index) ≡ true }
    ensures is { IfOk result (λ code. (v : Option rules.Typing) → part_at nodes.now node index ≡ Some v → code ≡ code_in v) }
    ensures ready { MayTake nodes.now node (suc index) meanings.new }
    ensures left { AreLeft nodes.now node meanings.old meanings.new }
{
    if is_absent(nodes, node, index) {
        return Ok(None);
    }
    let value = meanings.take_value(alloc, nodes, node, index)?;
    Ok(Some(value.code))
}

// What the first part does; an absent one does nothing.
fn take_first(
    alloc: Global,
    nodes: &Nodes,
    node: usize,
    meanings: &mut Meanings,
) -> Result<Stmt, AllocError>
    requires within { node < length nodes.now }
    requires kids { HasKids nodes.now node 2 }
    requires other { is_braces (node_in nodes.now node).label.kind ≡ false }
    requires ready { MayTake nodes.now node 0 meanings.old }
    requires there { is_some (first_at nodes.now node) ≡ true }
    ensures is { IfOk result (λ s. first_at nodes.now node ≡ Some s) }
    ensures ready { MayTake nodes.now node 1 meanings.new }
    ensures left { AreLeft nodes.now node meanings.old meanings.new }
{
    match nodes.kind_at(nodes.kid(node, 0)) {
        SynKind::Declaration => Ok(as_one(meanings.take_code(nodes, node, 0))),
        SynKind::Empty => Ok(as_one(Items::new(alloc))),
        _ => take_dropped(alloc, nodes, node, meanings),
    }
}

// What the first part does, an expression whose value is dropped.
fn take_dropped(
    alloc: Global,
    nodes: &Nodes,
    node: usize,
    meanings: &mut Meanings,
) -> Result<Stmt, AllocError>
    requires within { node < length nodes.now }
    requires kids { HasKids nodes.now node 2 }
    requires other { is_braces (node_in nodes.now node).label.kind ≡ false }
    requires ready { MayTake nodes.now node 0 meanings.old }
    requires there { is_some (rules.typing_at (judged_to nodes.now node) (kid_in nodes.now node 0)) ≡ true }
    ensures is { IfOk result (λ s. (y : rules.Typing) → rules.typing_at (judged_to nodes.now node) (kid_in nodes.now node 0) ≡ Some y → s ≡ forms.drop_expr (conversions.value_of y).code) }
    ensures ready { MayTake nodes.now node 1 meanings.new }
    ensures left { AreLeft nodes.now node meanings.old meanings.new }
{
    let value = meanings.take_value(alloc, nodes, node, 0)?;
    dropped(alloc, value.code)
}

fn dropped(alloc: Global, value: Expr) -> Result<Stmt, AllocError>
    ensures { IfOk result (λ s. s ≡ forms.drop_expr value) }
{
    Ok(as_one(expression(alloc, value)?))
}

fn for_of(
    alloc: Global,
    first: Stmt,
    test: Option<Expr>,
    step: Option<Expr>,
    body: Stmts,
) -> Result<Stmts, AllocError>
    ensures { IfOk result (λ ss. ss ≡ block_of (first ∷ forms.loop test step (statements.as_one body) ∷ []) ∷ []) }
{
    let turns = loop_before(alloc, test, step, as_one(body))?;
    let mut both = Items::new(alloc);
    both.push(first)?;
    both.push(turns)?;
    one(alloc, as_block(both))
}
