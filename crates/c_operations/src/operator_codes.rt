// The code of operators of two operands, and the operators on words that it has (C99 6.5.5 to 6.5.12).
ghost use Rattle.std.specs.Prelude.{◌≡◌, List, [], IfOk, option_map};
ghost use Rattle.c_types.specs.Forms as forms;
ghost use Rattle.c_typing.specs.Types as types;
ghost use Rattle.c_typing.specs.Types.{CType, Layout};
ghost use Rattle.c_typing.specs.Conversions as conversions;
ghost use Rattle.c_type_ids.specs.Ids.{AreLaid};
ghost use Rattle.c_type_ids.specs.Integers.{integer_of};
ghost use Rattle.c_values.specs.Typings.{IsType};
ghost use Rattle.c_values.specs.Operators.{Same};
ghost use Rattle.c_operations.specs.Operations.{target_size, integer_in, common_integer, plain_operator};

use c_type_ids::{Integer, Kind, TypeTable, common, promoted, traits_of};
use c_types::{COp, Expr};
use c_values::{Class, Operator, Shown, Type, Typing, binary, kind_of};
use std::alloc::{AllocError, Global};

/// An operand by its type and its code.
#[derive(Drop)]
pub struct Coded {
    pub kind: Type,
    pub code: Expr,
}

/// The type and the code of an operand.
pub fn code_of(typing: Typing) -> Coded
    ensures { result ≡ record { kind = typing.kind; code = typing.code } }
{
    Coded {
        kind: typing.kind,
        code: typing.code,
    }
}

/// The code of an operator with these operands.
pub fn operator_code(
    alloc: Global,
    table: &TypeTable,
    operator: Operator,
    left: Coded,
    right: Coded,
) -> Result<Expr, AllocError>
    requires left { (t : CType) × IsType table.now left.kind t }
    requires right { (u : CType) × IsType table.now right.kind u }
    ensures { IfOk result (λ e. (o : conversions.Operator) (t u : CType) (ls : List Layout) → Same operator o → AreLaid table.now ls →
        IsType table.now left.kind t → IsType table.now right.kind u → e ≡ conversions.operator_code ls o.class t u o left.code right.code) }
{
    match operator.class {
        Class::Additive => sum_code(alloc, table, operator, left, right),
        Class::Subtractive => difference_code(alloc, table, operator, left, right),
        Class::Shift => {
            let on_words = shift_operator(table, operator, left.kind);
            binary(alloc, on_words, left.code, right.code)
        }
        _ => plain_code(alloc, table, operator, left, right),
    }
}

// With a pointer on one side, the other side counts elements.
fn sum_code(
    alloc: Global,
    table: &TypeTable,
    operator: Operator,
    left: Coded,
    right: Coded,
) -> Result<Expr, AllocError>
    requires left { (t : CType) × IsType table.now left.kind t }
    requires right { (u : CType) × IsType table.now right.kind u }
    ensures { IfOk result (λ e. (o : conversions.Operator) (t u : CType) (ls : List Layout) → Same operator o → AreLaid table.now ls →
        IsType table.now left.kind t → IsType table.now right.kind u → e ≡ conversions.sum_code ls t u o left.code right.code) }
{
    match (
        target_size(table, left.kind),
        target_size(table, right.kind),
    ) {
        (Some(size), _) => {
            let bytes = scaled(alloc, right.code, size)?;
            binary(alloc, COp::AddU, left.code, bytes)
        }
        (None, Some(size)) => {
            let bytes = scaled(alloc, left.code, size)?;
            binary(alloc, COp::AddU, bytes, right.code)
        }
        (None, None) => plain_code(alloc, table, operator, left, right),
    }
}

// Of two pointers, the number of elements between them.
fn difference_code(
    alloc: Global,
    table: &TypeTable,
    operator: Operator,
    left: Coded,
    right: Coded,
) -> Result<Expr, AllocError>
    requires left { (t : CType) × IsType table.now left.kind t }
    requires right { (u : CType) × IsType table.now right.kind u }
    ensures { IfOk result (λ e. (o : conversions.Operator) (t u : CType) (ls : List Layout) → Same operator o → AreLaid table.now ls →
        IsType table.now left.kind t → IsType table.now right.kind u → e ≡ conversions.difference_code ls t u o left.code right.code) }
{
    match (
        target_size(table, left.kind),
        target_size(table, right.kind),
    ) {
        (Some(size), Some(_)) => {
            let bytes = binary(alloc, COp::SubU, left.code, right.code)?;
            binary(alloc, COp::DivS, bytes, Expr::Const(size))
        }
        (Some(size), None) => {
            let bytes = scaled(alloc, right.code, size)?;
            binary(alloc, COp::SubU, left.code, bytes)
        }
        (None, _) => plain_code(alloc, table, operator, left, right),
    }
}

// So many elements of this size, in bytes.
fn scaled(alloc: Global, count: Expr, size: u32) -> Result<Expr, AllocError>
    ensures { IfOk result (λ e. e ≡ forms.binary COp.MulU count (forms.const size)) }
{
    binary(alloc, COp::MulU, count, Expr::Const(size))
}

fn plain_code(
    alloc: Global,
    table: &TypeTable,
    operator: Operator,
    left: Coded,
    right: Coded,
) -> Result<Expr, AllocError>
    requires left { (t : CType) × IsType table.now left.kind t }
    requires right { (u : CType) × IsType table.now right.kind u }
    ensures { IfOk result (λ e. (o : conversions.Operator) (t u : CType) → Same operator o →
        IsType table.now left.kind t → IsType table.now right.kind u → e ≡ forms.binary (plain_operator o t u) left.code right.code) }
{
    let on_words = plain_operator(table, operator, left.kind, right.kind);
    binary(alloc, on_words, left.code, right.code)
}

/// The size of what a pointer points to, 0 where it has none; of another type none.
pub fn target_size(table: &TypeTable, kind: Type) -> Option<u32>
    requires { (t : CType) × IsType table.now kind t }
    ensures { (t : CType) (ls : List Layout) → IsType table.now kind t → AreLaid table.now ls → result ≡ target_size ls t }
{
    match kind_of(table, kind) {
        Shown::Kind(Kind::Pointer(target)) => Some(table.size(target).unwrap_or(0)),
        Shown::ToUnsized(_) => Some(0),
        _ => None,
    }
}

/// The operator on words of a shift, whose left operand has this type.
pub fn shift_operator(table: &TypeTable, operator: Operator, left: Type) -> COp
    requires { (t : CType) × IsType table.now left t }
    ensures { (o : conversions.Operator) (t : CType) → Same operator o → IsType table.now left t →
        result ≡ conversions.signs [] (types.promoted (types.integer_of t)) o }
{
    match integer_in(table, left) {
        Some(integer) => signs(promoted(integer), operator),
        None => operator.signed,
    }
}

/// The operator on words of another operator, whose operands have these types.
pub fn plain_operator(table: &TypeTable, operator: Operator, left: Type, right: Type) -> COp
    requires left { (t : CType) × IsType table.now left t }
    requires right { (u : CType) × IsType table.now right u }
    ensures { (o : conversions.Operator) (t u : CType) → Same operator o → IsType table.now left t → IsType table.now right u →
        result ≡ plain_operator o t u }
{
    match common_integer(table, left, right) {
        Some(integer) => signs(integer, operator),
        None => operator.unsigned,
    }
}

/// The type that two integers are converted to.
pub fn common_integer(table: &TypeTable, left: Type, right: Type) -> Option<Integer>
    requires left { (t : CType) × IsType table.now left t }
    requires right { (u : CType) × IsType table.now right u }
    ensures { (t u : CType) → IsType table.now left t → IsType table.now right u → option_map (λ i. integer_of i) result ≡ common_integer t u }
{
    let left = integer_in(table, left)?;
    let right = integer_in(table, right)?;
    Some(common(left, right))
}

/// The type, where it is an integer type.
pub fn integer_in(table: &TypeTable, kind: Type) -> Option<Integer>
    requires { (t : CType) × IsType table.now kind t }
    ensures { (t : CType) → IsType table.now kind t → option_map (λ i. integer_of i) result ≡ integer_in t }
{
    match kind_of(table, kind) {
        Shown::Kind(Kind::Integer(integer)) => Some(integer),
        _ => None,
    }
}

/// The operator on words of this type.
pub fn signs(integer: Integer, operator: Operator) -> COp
    ensures { (o : conversions.Operator) → operator.signed ≡ o.signed → operator.unsigned ≡ o.unsigned → result ≡ conversions.signs [] (integer_of integer) o }
{
    if traits_of(integer).is_signed {
        operator.signed
    } else {
        operator.unsigned
    }
}
