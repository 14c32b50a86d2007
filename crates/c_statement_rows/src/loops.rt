// Statements with a condition and parts that are statements (C99 6.8.4.1, 6.8.5).
ghost use Rattle.std.specs.Prelude.{◌≡◌, ◌<◌, ◌+◌, ◌∷◌, ◌&&◌, ℕ, [], suc, IfOk, Some, None, length, is_some, true, false};
ghost use Rattle.c_syntax.specs.declared.kind.SynKind.TheVariants as kind;
ghost use Rattle.c_types.specs.Forms as forms;
ghost use Rattle.c_typing.specs.Statements as rules;
ghost use Rattle.c_typing.specs.Places.{is_braces};
ghost use Rattle.c_typing.specs.Judgements.{code_at};
ghost use Rattle.c_meanings.specs.Meanings.{AreLeft, HasKids, IsReady, IsRow, MayTake, judged_to, kid_in, node_in};
ghost use Rattle.c_statement_rows.specs.Conditions.{IsCondition, other_at};
ghost use Rattle.c_typing.specs.Judgements.{typing_at};

use c_answers::Refusal;
use c_judgements::Judged;
use c_meanings::{Meanings, is_scalar_value, performed};
use c_nodes::Nodes;
use c_statements as statements;
use c_statements::{as_one, loop_after, loop_before, one};
use c_types::{Expr, Stmt, Stmts};
use cp_base::Items;
use std::alloc::{AllocError, Global};

/// What is found of the condition of a statement.
#[derive(Clone, Copy, Debug, PartialEq, Eq)]
pub(crate) enum Condition {
    /// It has no meaning.
    Absent,
    /// Its value is not scalar.
    NotScalar,
    Scalar,
}

// The condition that the kid of this index is.
pub(crate) fn condition_at(
    nodes: &Nodes,
    node: usize,
    index: usize,
    meanings: &Meanings,
) -> Condition
    requires within { node < length nodes.now }
    requires kids { HasKids nodes.now node (suc index) }
    requires ready { MayTake nodes.now node index meanings.now }
    ensures { IsCondition result (typing_at (judged_to nodes.now node) (kid_in nodes.now node index)) }
{
    match meanings.operand_at(nodes, node, index) {
        None => Condition::Absent,
        Some(operand) => {
            if is_scalar_value(&meanings.types, operand) {
                Condition::Scalar
            } else {
                Condition::NotScalar
            }
        }
    }
}

/// `while`.
pub fn while_loop(
    alloc: Global,
    nodes: &Nodes,
    node: usize,
    meanings: &mut Meanings,
) -> Result<Judged, Refusal>
    requires within { node < length nodes.now }
    requires kind { (node_in nodes.now node).label.kind ≡ kind.While }
    requires ready { IsReady nodes.now node 0 meanings.old }
    ensures { IsRow nodes.now node meanings.old meanings.new result }
{
    match condition_at(nodes, node, 0, meanings) {
        Condition::Absent => return Ok(Judged::Waits),
        Condition::NotScalar => return Err(Refusal::Broken { rule: 13, node }),
        Condition::Scalar => (),
    }
    if !meanings.has_code(nodes, node, 1) {
        return Ok(Judged::Waits);
    }
    let condition = meanings.take_value(alloc, nodes, node, 0)?;
    let body = meanings.take_code(nodes, node, 1);
    performed(while_of(alloc, condition.code, body))
}

fn while_of(alloc: Global, condition: Expr, body: Stmts) -> Result<Stmts, AllocError>
    ensures { IfOk result (λ ss. ss ≡ forms.loop (Some condition) None (rules.as_one body) ∷ []) }
{
    let stmt = loop_before(alloc, Some(condition), None, as_one(body))?;
    one(alloc, stmt)
}

/// `do`.
pub fn do_loop(
    alloc: Global,
    nodes: &Nodes,
    node: usize,
    meanings: &mut Meanings,
) -> Result<Judged, Refusal>
    requires within { node < length nodes.now }
    requires kind { (node_in nodes.now node).label.kind ≡ kind.Do }
    requires ready { IsReady nodes.now node 0 meanings.old }
    ensures { IsRow nodes.now node meanings.old meanings.new result }
{
    match condition_at(nodes, node, 1, meanings) {
        Condition::Absent => return Ok(Judged::Waits),
        Condition::NotScalar => return Err(Refusal::Broken { rule: 13, node }),
        Condition::Scalar => (),
    }
    if !meanings.has_code(nodes, node, 0) {
        return Ok(Judged::Waits);
    }
    let body = meanings.take_code(nodes, node, 0);
    let condition = meanings.take_value(alloc, nodes, node, 1)?;
    performed(loop_after(alloc, as_one(body), condition.code))
}

/// `if`.
pub fn conditional(
    alloc: Global,
    nodes: &Nodes,
    node: usize,
    meanings: &mut Meanings,
) -> Result<Judged, Refusal>
    requires within { node < length nodes.now }
    requires kind { (node_in nodes.now node).label.kind ≡ kind.If }
    requires ready { IsReady nodes.now node 0 meanings.old }
    ensures { IsRow nodes.now node meanings.old meanings.new result }
{
    match condition_at(nodes, node, 0, meanings) {
        Condition::Absent => return Ok(Judged::Waits),
        Condition::NotScalar => return Err(Refusal::Broken { rule: 13, node }),
        Condition::Scalar => (),
    }
    if !has_branches(nodes, node, meanings) {
        return Ok(Judged::Waits);
    }
    let condition = meanings.take_value(alloc, nodes, node, 0)?;
    let then = meanings.take_code(nodes, node, 1);
    let other = take_other(alloc, nodes, node, meanings);
    performed(statements::conditional(alloc, condition.code, as_one(then), other))
}

// The statement of an `if` has a meaning, and that behind `else`, where there is one.
fn has_branches(nodes: &Nodes, node: usize, meanings: &Meanings) -> bool
    requires within { node < length nodes.now }
    requires kids { HasKids nodes.now node 2 }
    requires ready { IsReady nodes.now node 0 meanings.now }
    ensures { result ≡ (is_some (code_at (judged_to nodes.now node) (kid_in nodes.now node 1)) && is_some (other_at nodes.now node)) }
{
    meanings.has_code(nodes, node, 1)
        && (!nodes.has_kid(node, 2) || meanings.has_code(nodes, node, 2))
}

// The statement behind `else`; where there is none, one that does nothing.
fn take_other(alloc: Global, nodes: &Nodes, node: usize, meanings: &mut Meanings) -> Stmt
    requires within { node < length nodes.now }
    requires kids { HasKids nodes.now node 2 }
    requires other { is_braces (node_in nodes.now node).label.kind ≡ false }
    requires ready { IsReady nodes.now node (kid_in nodes.now node 1 + 1) meanings.old }
    requires there { is_some (other_at nodes.now node) ≡ true }
    ensures is { other_at nodes.now node ≡ Some result }
    ensures ready { (low : ℕ) × IsReady nodes.now node low meanings.new }
    ensures left { AreLeft nodes.now node meanings.old meanings.new }
    ensures types { meanings.new.types ≡ meanings.old.types }
{
    if nodes.has_kid(node, 2) {
        as_one(meanings.take_code(nodes, node, 2))
    } else {
        as_one(Items::new(alloc))
    }
}
