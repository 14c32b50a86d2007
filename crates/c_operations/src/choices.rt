// Conditions, and the operators `?:` and `,` (C99 6.5.15, 6.5.17).
ghost use Rattle.std.specs.Prelude.{◌≡◌, ◌&&◌, ◌||◌, List, Some, None, IfOk, unwrap_or, if◌then◌else◌};
ghost use Rattle.std.specs.Option.{is_some};
ghost use Rattle.c_types.specs.Forms as forms;
ghost use Rattle.c_typing.specs.Types as types;
ghost use Rattle.c_typing.specs.Types.{CType, Layout};
ghost use Rattle.c_typing.specs.Places.{Node};
ghost use Rattle.c_typing.specs.Judgements as rules;
ghost use Rattle.c_typing.specs.Judgements.{besides, layouts};
ghost use Rattle.c_typing.specs.Rules as faults;
ghost use Rattle.c_typing.specs.Constants as constants;
ghost use Rattle.c_typing.specs.Conversions as conversions;
ghost use Rattle.c_typing.specs.Expressions as expressions;
ghost use Rattle.c_type_ids.specs.Ids.{AreLaid, Grows, Known};
ghost use Rattle.c_values.specs.Typings.{Is, IsType, ShownAs};
ghost use Rattle.c_values.specs.Operators.{IsOperand, ResultIs};
ghost use Rattle.c_answers.specs.Answers.{Allows, Answers, Expresses, Settles};
ghost use Rattle.c_operations.specs.Operations.{common_integer, compared, of_pointers};

use crate::operator_codes::common_integer;
use crate::results::{form_of_result, operand_of, type_of_result};
use c_answers::Refusal;
use c_constants::{Constant, chosen_constant, is_null};
use c_type_ids::{Kind, TypeTable};
use c_values::{
    Operand, ResultType, Shown, Type, Typing, are_comparable, choose, is_pointer, is_same,
    is_scalar, kind_of, points_to_void, seq,
};
use std::alloc::{AllocError, Global};

/// `,`: the left operand is evaluated, and the right one is the result.
pub fn comma(
    alloc: Global,
    table: &TypeTable,
    left: Typing,
    right: Typing,
) -> Result<Typing, Refusal>
    requires { (y : rules.Typing) × Is table.now right y }
    ensures { (k : Known) (x y : rules.Typing) → Is k left x → Is table.now right y →
        Answers (Expresses table.now 0) result (expressions.comma x y) }
{
    Ok(Typing {
        kind: right.kind,
        form: form_of_result(table, right.kind),
        constant: Constant::None,
        code: seq(alloc, left.code, right.code)?,
    })
}

/// A condition has a scalar type. What it decides stands at this node.
pub fn condition(table: &TypeTable, kind: Type, node: usize) -> Result<(), Refusal>
    requires { (t : CType) × IsType table.now kind t }
    ensures { (t : CType) → IsType table.now kind t → Allows result (faults.bad_operand (types.is_scalar t) node) }
{
    if is_scalar(kind_of(table, kind)) {
        Ok(())
    } else {
        Err(Refusal::Broken { rule: 13, node })
    }
}

/// `?:`, which stands at this node: a condition, and two operands of which one is evaluated.
pub fn conditional(
    alloc: Global,
    table: &mut TypeTable,
    node: usize,
    decides: Typing,
    first: Typing,
    second: Typing,
) -> Result<Typing, Refusal>
    requires decides { (c : rules.Typing) × Is table.old decides c }
    requires first { (x : rules.Typing) × Is table.old first x }
    requires second { (y : rules.Typing) × Is table.old second y }
    ensures is { (js : List rules.Judgement) (n : Node) (c x y : rules.Typing) → n.id ≡ node → AreLaid table.old (layouts js) →
        Is table.old decides c → Is table.old first x → Is table.old second y →
        Answers (Expresses table.new 0) result (besides (faults.bad_operand (types.is_scalar c.type) n.id) (expressions.conditional js n c x y)) }
    ensures grows { Grows table.old table.new }
{
    condition(table, decides.kind, node)?;
    choice(alloc, table, node, decides, first, second)
}

// The same, where the condition is scalar.
fn choice(
    alloc: Global,
    table: &mut TypeTable,
    node: usize,
    decides: Typing,
    first: Typing,
    second: Typing,
) -> Result<Typing, Refusal>
    requires first { (x : rules.Typing) × Is table.old first x }
    requires second { (y : rules.Typing) × Is table.old second y }
    ensures is { (js : List rules.Judgement) (n : Node) (c x y : rules.Typing) → n.id ≡ node → AreLaid table.old (layouts js) →
        Is table.old decides c → Is table.old first x → Is table.old second y →
        Answers (Expresses table.new 0) result (expressions.conditional js n c x y) }
    ensures grows { Grows table.old table.new }
{
    let kind = type_of_choice(table, node, operand_of(&first), operand_of(&second))?;
    Ok(chosen(alloc, table, kind, decides, first, second)?)
}

// The type of the result, where the operands are allowed.
fn type_of_choice(
    table: &mut TypeTable,
    node: usize,
    left: Operand,
    right: Operand,
) -> Result<Type, Refusal>
    requires left { (t : CType) × IsType table.old left.kind t }
    requires right { (u : CType) × IsType table.old right.kind u }
    ensures is { (ls : List Layout) (x y : rules.Typing) → IsOperand table.old left x → IsOperand table.old right y →
        Settles (λ kind. IsType table.new kind (unwrap_or (conversions.choice_type ls x y) x.type)) result
        (faults.bad_operand (is_some (conversions.choice_type ls x y)) node) }
    ensures grows { Grows table.old table.new }
{
    let found = choice_type(table, left, right);
    type_of_result(table, found, left.kind, right.kind, node)
}

// The value, which has this type.
fn chosen(
    alloc: Global,
    table: &TypeTable,
    kind: Type,
    decides: Typing,
    first: Typing,
    second: Typing,
) -> Result<Typing, AllocError>
    requires { (t : CType) × IsType table.now kind t }
    ensures { IfOk result (λ v. (k : Known) (t : CType) (c x y : rules.Typing) → IsType table.now kind t → Is k decides c → Is k first x → Is k second y →
        Is table.now v (conversions.result t (forms.choose c.code x.code y.code) (constants.chosen_constant c.constant x.constant y.constant))) }
{
    Ok(Typing {
        kind,
        form: form_of_result(table, kind),
        constant: chosen_constant(decides.constant, first.constant, second.constant),
        code: choose(alloc, decides.code, first.code, second.code)?,
    })
}

fn choice_type(table: &TypeTable, left: Operand, right: Operand) -> ResultType
    requires left { (t : CType) × IsType table.now left.kind t }
    requires right { (u : CType) × IsType table.now right.kind u }
    ensures { (ls : List Layout) (x y : rules.Typing) → IsOperand table.now left x → IsOperand table.now right y →
        ResultIs result (conversions.choice_type ls x y) x.type y.type }
{
    match common_integer(table, left.kind, right.kind) {
        Some(integer) => ResultType::Integer(integer),
        None => other_choice(table, left, right),
    }
}

// The same, where not both are integers: two of type `void`, or of one struct, or what pointers are compared with.
fn other_choice(table: &TypeTable, left: Operand, right: Operand) -> ResultType
    requires left { (t : CType) × IsType table.now left.kind t }
    requires right { (u : CType) × IsType table.now right.kind u }
    ensures { (ls : List Layout) (x y : rules.Typing) → IsOperand table.now left x → IsOperand table.now right y → common_integer x.type y.type ≡ None →
        ResultIs result (conversions.choice_type ls x y) x.type y.type }
{
    if are_alike(table, left.kind, right.kind) {
        ResultType::Left
    } else {
        compared(table, left, right)
    }
}

fn are_alike(table: &TypeTable, left: Type, right: Type) -> bool
    requires { (t : CType) × IsType table.now left t }
    ensures { (t u : CType) → IsType table.now left t → IsType table.now right u → result ≡ ((types.is_void t || types.is_struct t) && types.same t u) }
{
    is_void_or_struct(kind_of(table, left)) && is_same(table, left, right)
}

fn is_void_or_struct(shown: Shown) -> bool
    ensures { (k : Known) (t : CType) → ShownAs k shown t → result ≡ (types.is_void t || types.is_struct t) }
{
    matches!(shown, Shown::Kind(Kind::Void | Kind::Struct(_)))
}

// What pointers are compared with.
fn compared(table: &TypeTable, left: Operand, right: Operand) -> ResultType
    requires left { (t : CType) × IsType table.now left.kind t }
    requires right { (u : CType) × IsType table.now right.kind u }
    ensures { (ls : List Layout) (x y : rules.Typing) → IsOperand table.now left x → IsOperand table.now right y →
        ResultIs result (compared ls x y) x.type y.type }
{
    if are_comparable(table, left, right) {
        one_of(takes_left(table, left, right))
    } else {
        ResultType::None
    }
}

fn one_of(is_left: bool) -> ResultType
    ensures { (t u : CType) → ResultIs result (Some (if is_left then t else u)) t u }
{
    if is_left {
        ResultType::Left
    } else {
        ResultType::Right
    }
}

// The result has the left operand's type: the right one is no pointer, or a null pointer constant, or the left one is a
// `void *` and no such constant.
fn takes_left(table: &TypeTable, left: Operand, right: Operand) -> bool
    requires left { (t : CType) × IsType table.now left.kind t }
    requires right { (u : CType) × IsType table.now right.kind u }
    ensures { (ls : List Layout) (x y : rules.Typing) → IsOperand table.now left x → IsOperand table.now right y →
        (if result then x.type else y.type) ≡ of_pointers ls x y }
{
    let left_kind = kind_of(table, left.kind);
    let right_kind = kind_of(table, right.kind);
    is_pointer(left_kind)
        && (!is_pointer(right_kind)
            || is_null(right.constant)
            || (!is_null(left.constant) && points_to_void(table, left_kind)))
}
