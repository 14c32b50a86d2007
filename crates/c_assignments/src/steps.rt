// `++` and `--` (C99 6.5.2.4, 6.5.3.1).
ghost use Rattle.std.specs.Prelude.{◌≡◌, ◌+◌, ◌<◌, ◌^◌, List, IfOk, unwrap_or};
ghost use Rattle.c_typing.specs.Types as types;
ghost use Rattle.c_typing.specs.Types.{CType, Layout};
ghost use Rattle.c_typing.specs.Places.{Node};
ghost use Rattle.c_typing.specs.Names.{Places};
ghost use Rattle.c_typing.specs.Judgements as rules;
ghost use Rattle.c_typing.specs.Judgements.{layouts};
ghost use Rattle.c_typing.specs.Conversions as conversions;
ghost use Rattle.c_typing.specs.Expressions as expressions;
ghost use Rattle.c_type_ids.specs.Ids.{AreLaid, Grows};
ghost use Rattle.c_values.specs.Typings.{Is, IsType};
ghost use Rattle.c_values.specs.Operators.{Same};
ghost use Rattle.c_answers.specs.Answers.{Answers, Expresses};
ghost use Rattle.c_assignments.specs.Assignments.{kept_of, operation_type};

use crate::compounds::compound_by;
use crate::faults::compound_type;
use crate::writes::{kept_value, new_value, written_before};
use c_answers::Refusal;
use c_operations::{Coded, code_of, number_of_type, operand_of};
use c_type_ids::{Integer, TypeTable};
use c_types::COp;
use c_values::{Class, Operator, Type, Typing};
use std::alloc::{AllocError, Global};

/// `++` or `--` before its operand. It has this text, and stands at this node; the first of its hidden locals has this number.
pub fn prefix_step(
    alloc: Global,
    table: &mut TypeTable,
    node: usize,
    hidden: usize,
    text: &str,
    value: Typing,
) -> Result<Typing, Refusal>
    requires { (x : rules.Typing) × Is table.old value x }
    ensures is { (p : Places) (js : List rules.Judgement) (n : Node) (x : rules.Typing) → n.id ≡ node → n.label.text ≡ text.now →
        expressions.hidden_before p js ≡ hidden → AreLaid table.old (layouts js) → Is table.old value x →
        Answers (Expresses table.new (expressions.hidden_for x.form 0)) result (expressions.prefix_step p js n x) }
    ensures grows { Grows table.old table.new }
{
    let one = number_of_type(table, Integer::Int, 1)?;
    compound_by(alloc, table, node, hidden, step_operator(text), value, one)
}

/// The same behind its operand, whose old value is the result.
pub fn postfix_step(
    alloc: Global,
    table: &mut TypeTable,
    node: usize,
    hidden: usize,
    text: &str,
    value: Typing,
) -> Result<Typing, Refusal>
    requires value { (x : rules.Typing) × Is table.old value x }
    requires room { hidden + 1 < 2 ^ 64 }
    ensures is { (p : Places) (js : List rules.Judgement) (n : Node) (x : rules.Typing) → n.id ≡ node → n.label.text ≡ text.now →
        expressions.hidden_before p js ≡ hidden → AreLaid table.old (layouts js) → Is table.old value x →
        Answers (Expresses table.new (expressions.hidden_for x.form 1)) result (expressions.postfix_step p js n x) }
    ensures grows { Grows table.old table.new }
{
    let one = number_of_type(table, Integer::Int, 1)?;
    kept_step(alloc, table, node, hidden, step_operator(text), value, one)
}

// `+` or `-`.
fn step_operator(text: &str) -> Operator
    ensures { Same result (expressions.step_operator text.now) }
{
    match text {
        "++" => Operator {
            class: Class::Additive,
            signed: COp::AddS,
            unsigned: COp::AddU,
        },
        _ => Operator {
            class: Class::Subtractive,
            signed: COp::SubS,
            unsigned: COp::SubU,
        },
    }
}

// By this operator, with 1 on the right.
fn kept_step(
    alloc: Global,
    table: &mut TypeTable,
    node: usize,
    hidden: usize,
    operator: Operator,
    value: Typing,
    one: Typing,
) -> Result<Typing, Refusal>
    requires value { (x : rules.Typing) × Is table.old value x }
    requires one { Is table.old one (expressions.number_of_type types.int 1) }
    requires room { hidden + 1 < 2 ^ 64 }
    ensures is { (p : Places) (js : List rules.Judgement) (n : Node) (x : rules.Typing) → n.id ≡ node → Same operator (expressions.step_operator n.label.text) →
        expressions.hidden_before p js ≡ hidden → AreLaid table.old (layouts js) → Is table.old value x →
        Answers (Expresses table.new (expressions.hidden_for x.form 1)) result (expressions.postfix_step p js n x) }
    ensures grows { Grows table.old table.new }
{
    let kind = compound_type(table, node, operator, &value, operand_of(&one))?;
    Ok(stepped(alloc, table, hidden, operator, kind, value, code_of(one))?)
}

// The value, where the operation has this type.
fn stepped(
    alloc: Global,
    table: &TypeTable,
    hidden: usize,
    operator: Operator,
    kind: Type,
    value: Typing,
    one: Coded,
) -> Result<Typing, AllocError>
    requires value { (x : rules.Typing) × Is table.now value x }
    requires one { (u : CType) × IsType table.now one.kind u }
    requires room { hidden + 1 < 2 ^ 64 }
    ensures { IfOk result (λ v. (ls : List Layout) (o : conversions.Operator) (x y : rules.Typing) → AreLaid table.now ls → Same operator o →
        IsType table.now kind (unwrap_or (operation_type ls o x.type (kept_of hidden x.form) y) x.type) →
        Is table.now value x → IsType table.now one.kind y.type → one.code ≡ y.code →
        Is table.now v (conversions.result x.type (expressions.written_before hidden x (expressions.compound_new ls o x y) x.form) rules.no_constant)) }
{
    let old = Coded {
        kind: value.kind,
        code: kept_value(hidden, value.form),
    };
    let changed = new_value(alloc, table, operator, kind, old, one)?;
    written_before(alloc, table, hidden, value, changed)
}
