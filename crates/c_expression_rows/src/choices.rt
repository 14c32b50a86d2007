// `?:` (C99 6.5.15).
ghost use Rattle.std.specs.Prelude.{◌≡◌, ◌<◌, ◌&&◌, ℕ, IfOk, Some, length, is_some, true, false};
ghost use Rattle.c_syntax.specs.declared.kind.SynKind.TheVariants as kind;
ghost use Rattle.c_typing.specs.Places.{is_braces};
ghost use Rattle.c_typing.specs.Judgements as rules;
ghost use Rattle.c_typing.specs.Judgements.{typing_at};
ghost use Rattle.c_typing.specs.Conversions.{value_of};
ghost use Rattle.c_type_ids.specs.Ids.{Grows};
ghost use Rattle.c_values.specs.Typings.{Is};
ghost use Rattle.c_meanings.specs.Meanings.{AreLeft, HasKids, IsReady, IsRow, judged_to, kid_in, node_in};
ghost use Rattle.c_expression_rows.specs.Choices.{IsFound};

use c_answers::Refusal;
use c_judgements::Judged;
use c_meanings::{Meanings, expressed, is_scalar_value};
use c_nodes::Nodes;
use c_operations as operations;
use c_values::Typing;
use std::alloc::{AllocError, Global};

/// What is found of the condition and the operands of `?:`.
#[derive(Clone, Copy)]
enum Found {
    /// One that is wanted has no meaning.
    Waits,
    /// The condition is not scalar.
    NotScalar,
    /// Each has a meaning.
    Whole,
}

/// A condition, and two operands of which one is evaluated.
pub fn conditional(
    alloc: Global,
    nodes: &Nodes,
    node: usize,
    meanings: &mut Meanings,
) -> Result<Judged, Refusal>
    requires within { node < length nodes.now }
    requires kind { (node_in nodes.now node).label.kind ≡ kind.Cond }
    requires ready { IsReady nodes.now node 0 meanings.old }
    ensures { IsRow nodes.now node meanings.old meanings.new result }
{
    match found_of(nodes, node, meanings) {
        Found::Waits => return Ok(Judged::Waits),
        Found::NotScalar => return Err(Refusal::Broken { rule: 13, node }),
        Found::Whole => (),
    }
    let (decides, first, second) = take_parts(alloc, nodes, node, meanings)?;
    expressed(operations::conditional(alloc, &mut meanings.types, node, decides, first, second))
}

fn found_of(nodes: &Nodes, node: usize, meanings: &Meanings) -> Found
    requires within { node < length nodes.now }
    requires kids { HasKids nodes.now node 3 }
    requires ready { IsReady nodes.now node 0 meanings.now }
    ensures { IsFound result nodes.now node }
{
    let Some(decides) = meanings.operand_at(nodes, node, 0) else {
        return Found::Waits;
    };
    if !is_scalar_value(&meanings.types, decides) {
        return Found::NotScalar;
    }
    if are_choices(nodes, node, meanings) {
        Found::Whole
    } else {
        Found::Waits
    }
}

// The two operands behind the condition have a meaning.
fn are_choices(nodes: &Nodes, node: usize, meanings: &Meanings) -> bool
    requires within { node < length nodes.now }
    requires kids { HasKids nodes.now node 3 }
    requires ready { IsReady nodes.now node 0 meanings.now }
    ensures { result ≡ (is_some (typing_at (judged_to nodes.now node) (kid_in nodes.now node 1)) && is_some (typing_at (judged_to nodes.now node) (kid_in nodes.now node 2))) }
{
    meanings.operand_at(nodes, node, 1).is_some() && meanings.operand_at(nodes, node, 2).is_some()
}

// The values of the condition and of both operands, which are parts of the node from now on.
fn take_parts(
    alloc: Global,
    nodes: &Nodes,
    node: usize,
    meanings: &mut Meanings,
) -> Result<(Typing, Typing, Typing), AllocError>
    requires within { node < length nodes.now }
    requires kids { HasKids nodes.now node 3 }
    requires other { is_braces (node_in nodes.now node).label.kind ≡ false }
    requires ready { IsReady nodes.now node 0 meanings.old }
    requires decides { is_some (typing_at (judged_to nodes.now node) (kid_in nodes.now node 0)) ≡ true }
    requires first { is_some (typing_at (judged_to nodes.now node) (kid_in nodes.now node 1)) ≡ true }
    requires second { is_some (typing_at (judged_to nodes.now node) (kid_in nodes.now node 2)) ≡ true }
    ensures is { IfOk result (λ parts. (c x y : rules.Typing) → typing_at (judged_to nodes.now node) (kid_in nodes.now node 0) ≡ Some c →
        typing_at (judged_to nodes.now node) (kid_in nodes.now node 1) ≡ Some x → typing_at (judged_to nodes.now node) (kid_in nodes.now node 2) ≡ Some y →
        Is meanings.new.types parts.0 (value_of c) × Is meanings.new.types parts.1 (value_of x) × Is meanings.new.types parts.2 (value_of y)) }
    ensures ready { (low : ℕ) × IsReady nodes.now node low meanings.new }
    ensures left { AreLeft nodes.now node meanings.old meanings.new }
    ensures grows { Grows meanings.old.types meanings.new.types }
{
    let decides = meanings.take_value(alloc, nodes, node, 0)?;
    let first = meanings.take_value(alloc, nodes, node, 1)?;
    let second = meanings.take_value(alloc, nodes, node, 2)?;
    Ok((decides, first, second))
}
