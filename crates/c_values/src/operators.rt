// The operators of two operands (C99 6.5.5 to 6.5.15): which operands they take, the type of the result, and its code.
ghost use Rattle.std.specs.Prelude.{◌≡◌, ◌&&◌, ◌||◌, List, if◌then◌else◌};
ghost use Rattle.c_types.specs.Tables.{IsThere};
ghost use Rattle.c_typing.specs.Types as types;
ghost use Rattle.c_typing.specs.Types.{Layout};
ghost use Rattle.c_typing.specs.Judgements as rules;
ghost use Rattle.c_typing.specs.Conversions as conversions;
ghost use Rattle.c_type_ids.specs.Ids.{AreLaid, Known, Names, Shows};
ghost use Rattle.c_type_ids.specs.Integers.{integer_of};
ghost use Rattle.c_values.specs.Typings.{IsType, ShownAs};
ghost use Rattle.c_values.specs.Operators.{IsOperand, IsOperator, ResultIs, class_of, none};

use crate::conversions::{Shown, is_same, is_void, kind_of};
use crate::typings::Type;
use c_constants::{Constant, is_null};
use c_type_ids::{Integer, Kind, TypeTable, common, promoted, traits_of};
use c_types::{COp, TypeId};

#[derive(Clone, Copy, Debug, PartialEq, Eq)]
pub enum Class {
    Multiplicative,
    Additive,
    Subtractive,
    Shift,
    Relational,
    Equality,
    Bitwise,
    AndThen,
    OrElse,
}

/// An operator with operands that have a sign, and without.
#[derive(Clone, Copy, Debug, PartialEq, Eq)]
pub struct Operator {
    pub class: Class,
    pub signed: COp,
    pub unsigned: COp,
}

/// The type of a result: none where the operands are not allowed, an integer type, or the type of an operand.
#[derive(Clone, Copy, Debug, PartialEq, Eq)]
pub enum ResultType {
    None,
    Integer(Integer),
    Left,
    Right,
}

/// The operator of this text.
pub fn operator_of(text: &str) -> Option<Operator>
    ensures { IsOperator result (conversions.operator_of text.now) }
{
    Some(match text {
        "*" => told(Class::Multiplicative, COp::MulS, COp::MulU),
        "/" => told(Class::Multiplicative, COp::DivS, COp::DivU),
        "%" => told(Class::Multiplicative, COp::RemS, COp::RemU),
        "+" => told(Class::Additive, COp::AddS, COp::AddU),
        "-" => told(Class::Subtractive, COp::SubS, COp::SubU),
        "<<" => told(Class::Shift, COp::ShlS, COp::ShlU),
        ">>" => told(Class::Shift, COp::ShrS, COp::ShrU),
        "<" => told(Class::Relational, COp::LtS, COp::LtU),
        ">" => told(Class::Relational, COp::GtS, COp::GtU),
        "<=" => told(Class::Relational, COp::LeS, COp::LeU),
        ">=" => told(Class::Relational, COp::GeS, COp::GeU),
        "==" => told(Class::Equality, COp::Eq, COp::Eq),
        "!=" => told(Class::Equality, COp::Ne, COp::Ne),
        "&" => told(Class::Bitwise, COp::And, COp::And),
        "^" => told(Class::Bitwise, COp::Xor, COp::Xor),
        "|" => told(Class::Bitwise, COp::Or, COp::Or),
        "&&" => told(Class::AndThen, COp::And, COp::And),
        "||" => told(Class::OrElse, COp::Or, COp::Or),
        _ => return None,
    })
}

fn told(class: Class, signed: COp, unsigned: COp) -> Operator
    ensures { result ≡ record { class = class; signed = signed; unsigned = unsigned } }
{
    Operator {
        class,
        signed,
        unsigned,
    }
}

// Two integers.
fn common_type(left: Shown, right: Shown) -> ResultType
    ensures { (k : Known) (t u : types.CType) → ShownAs k left t → ShownAs k right u → (ls : List Layout) → ResultIs result (conversions.common_type ls t u) t u }
{
    match left {
        Shown::Kind(left) => common_type_by(left, right),
        Shown::Unsized(_) | Shown::ToUnsized(_) => ResultType::None,
    }
}

fn common_type_by(left: Kind, right: Shown) -> ResultType
    ensures { (k : Known) (t u : types.CType) → Shows k left t → ShownAs k right u → (ls : List Layout) → ResultIs result (conversions.common_type ls t u) t u }
{
    match left {
        Kind::Integer(left) => common_with(left, right),
        _ => ResultType::None,
    }
}

fn common_with(left: Integer, right: Shown) -> ResultType
    ensures { (k : Known) (u : types.CType) → ShownAs k right u → (ls : List Layout) →
        ResultIs result (conversions.common_type ls (types.integer (integer_of left)) u) (types.integer (integer_of left)) u }
{
    match right {
        Shown::Kind(Kind::Integer(right)) => ResultType::Integer(common(left, right)),
        _ => ResultType::None,
    }
}

fn shift_type(left: Shown, right: Shown) -> ResultType
    ensures { (k : Known) (t u : types.CType) → ShownAs k left t → ShownAs k right u → (ls : List Layout) → ResultIs result (conversions.shift_type ls t u) t u }
{
    match left {
        Shown::Kind(left) => shift_type_by(left, right),
        Shown::Unsized(_) | Shown::ToUnsized(_) => ResultType::None,
    }
}

fn shift_type_by(left: Kind, right: Shown) -> ResultType
    ensures { (k : Known) (t u : types.CType) → Shows k left t → ShownAs k right u → (ls : List Layout) → ResultIs result (conversions.shift_type ls t u) t u }
{
    match left {
        Kind::Integer(left) => shifted_by(left, right),
        _ => ResultType::None,
    }
}

fn shifted_by(left: Integer, right: Shown) -> ResultType
    ensures { (k : Known) (u : types.CType) → ShownAs k right u → (ls : List Layout) →
        ResultIs result (conversions.shift_type ls (types.integer (integer_of left)) u) (types.integer (integer_of left)) u }
{
    match right {
        Shown::Kind(Kind::Integer(_)) => ResultType::Integer(promoted(left)),
        _ => ResultType::None,
    }
}

// Two integers, or a pointer to a type with a size and an integer in either order.
fn sum_type(table: &TypeTable, left: Shown, right: Shown) -> ResultType
    requires left { (t : types.CType) × ShownAs table.now left t }
    requires right { (u : types.CType) × ShownAs table.now right u }
    ensures { (t u : types.CType) → ShownAs table.now left t → ShownAs table.now right u → (ls : List Layout) → AreLaid table.now ls → ResultIs result (conversions.sum_type ls t u) t u }
{
    match left {
        Shown::Kind(Kind::Integer(left)) => sum_with(table, left, right),
        Shown::Kind(Kind::Pointer(target)) => pointer_sum(table, target, right),
        _ => ResultType::None,
    }
}

fn sum_with(table: &TypeTable, left: Integer, right: Shown) -> ResultType
    requires { (u : types.CType) × ShownAs table.now right u }
    ensures { (u : types.CType) → ShownAs table.now right u → (ls : List Layout) → AreLaid table.now ls →
        ResultIs result (conversions.sum_type ls (types.integer (integer_of left)) u) (types.integer (integer_of left)) u }
{
    match right {
        Shown::Kind(Kind::Integer(right)) => ResultType::Integer(common(left, right)),
        Shown::Kind(Kind::Pointer(target)) => where_sized(table, target, ResultType::Right),
        _ => ResultType::None,
    }
}

fn pointer_sum(table: &TypeTable, target: TypeId, right: Shown) -> ResultType
    requires { IsThere table.now.table target }
    ensures { (t u : types.CType) → Names table.now target t → ShownAs table.now right u → (ls : List Layout) → AreLaid table.now ls →
        ResultIs result (conversions.sum_type ls (types.pointer t) u) (types.pointer t) u }
{
    match right {
        Shown::Kind(Kind::Integer(_)) => where_sized(table, target, ResultType::Left),
        _ => ResultType::None,
    }
}

// A result, where a type has a size.
fn where_sized(table: &TypeTable, id: TypeId, found: ResultType) -> ResultType
    requires { IsThere table.now.table id }
    ensures { (t : types.CType) → Names table.now id t → (ls : List Layout) → AreLaid table.now ls → result ≡ (if types.has_size ls t then found else none) }
{
    match table.size(id) {
        Some(_) => found,
        None => ResultType::None,
    }
}

// Two integers, a pointer to a type with a size and an integer, or two pointers to one type with a size.
fn difference_type(table: &TypeTable, left: Shown, right: Shown) -> ResultType
    requires left { (t : types.CType) × ShownAs table.now left t }
    requires right { (u : types.CType) × ShownAs table.now right u }
    ensures { (t u : types.CType) → ShownAs table.now left t → ShownAs table.now right u → (ls : List Layout) → AreLaid table.now ls → ResultIs result (conversions.difference_type ls t u) t u }
{
    match left {
        Shown::Kind(left) => difference_type_by(table, left, right),
        Shown::Unsized(_) | Shown::ToUnsized(_) => ResultType::None,
    }
}

fn difference_type_by(table: &TypeTable, left: Kind, right: Shown) -> ResultType
    requires left { (t : types.CType) × Shows table.now left t }
    requires right { (u : types.CType) × ShownAs table.now right u }
    ensures { (t u : types.CType) → Shows table.now left t → ShownAs table.now right u → (ls : List Layout) → AreLaid table.now ls → ResultIs result (conversions.difference_type ls t u) t u }
{
    match left {
        Kind::Integer(left) => difference_with(left, right),
        Kind::Pointer(target) => pointer_difference(table, target, right),
        _ => ResultType::None,
    }
}

fn difference_with(left: Integer, right: Shown) -> ResultType
    ensures { (k : Known) (u : types.CType) → ShownAs k right u → (ls : List Layout) →
        ResultIs result (conversions.difference_type ls (types.integer (integer_of left)) u) (types.integer (integer_of left)) u }
{
    match right {
        Shown::Kind(Kind::Integer(right)) => ResultType::Integer(common(left, right)),
        _ => ResultType::None,
    }
}

fn pointer_difference(table: &TypeTable, target: TypeId, right: Shown) -> ResultType
    requires { IsThere table.now.table target }
    ensures { (t u : types.CType) → Names table.now target t → ShownAs table.now right u → (ls : List Layout) → AreLaid table.now ls →
        ResultIs result (conversions.difference_type ls (types.pointer t) u) (types.pointer t) u }
{
    match right {
        Shown::Kind(Kind::Integer(_)) => where_sized(table, target, ResultType::Left),
        Shown::Kind(Kind::Pointer(other)) if table.is_same(target, other) => {
            where_sized(table, target, ResultType::Integer(Integer::Int))
        }
        Shown::ToUnsized(_) => ResultType::None,
        _ => ResultType::None,
    }
}

// 1 or 0, where the operands are allowed.
fn truth(allowed: bool) -> ResultType
    ensures { (t u : types.CType) (ls : List Layout) → ResultIs result (conversions.truth ls allowed) t u }
{
    if allowed {
        ResultType::Integer(Integer::Int)
    } else {
        ResultType::None
    }
}

pub fn is_integer(shown: Shown) -> bool
    ensures { (k : Known) (t : types.CType) → ShownAs k shown t → result ≡ types.is_integer t }
{
    matches!(shown, Shown::Kind(Kind::Integer(_)))
}

pub fn is_pointer(shown: Shown) -> bool
    ensures { (k : Known) (t : types.CType) → ShownAs k shown t → result ≡ types.is_pointer t }
{
    matches!(shown, Shown::Kind(Kind::Pointer(_)) | Shown::ToUnsized(_))
}

pub fn is_scalar(shown: Shown) -> bool
    ensures { (k : Known) (t : types.CType) → ShownAs k shown t → result ≡ types.is_scalar t }
{
    is_integer(shown) || is_pointer(shown)
}

fn are_scalar(left: Shown, right: Shown) -> bool
    ensures { (k : Known) (t u : types.CType) → ShownAs k left t → ShownAs k right u → result ≡ (types.is_scalar t && types.is_scalar u) }
{
    is_scalar(left) && is_scalar(right)
}

/// A pointer to `void`.
pub fn points_to_void(table: &TypeTable, shown: Shown) -> bool
    requires { (t : types.CType) × ShownAs table.now shown t }
    ensures { (t : types.CType) → ShownAs table.now shown t → result ≡ conversions.points_to_void t }
{
    match shown {
        Shown::Kind(Kind::Pointer(target)) => is_void(table, target),
        _ => false,
    }
}

/// The type of an operand, and what it is as a constant.
#[derive(Clone, Copy, Debug, PartialEq, Eq)]
pub struct Operand {
    pub kind: Type,
    pub constant: Constant,
}

/// The type of the result, where the operands are allowed.
pub fn result_type(table: &TypeTable, class: Class, left: Operand, right: Operand) -> ResultType
    requires left { (t : types.CType) × IsType table.now left.kind t }
    requires right { (u : types.CType) × IsType table.now right.kind u }
    ensures { (x y : rules.Typing) → IsOperand table.now left x → IsOperand table.now right y → (ls : List Layout) → AreLaid table.now ls →
        ResultIs result (conversions.result_type ls (class_of class) x y) x.type y.type }
{
    let left_kind = kind_of(table, left.kind);
    let right_kind = kind_of(table, right.kind);
    match class {
        Class::Multiplicative => common_type(left_kind, right_kind),
        Class::Bitwise => common_type(left_kind, right_kind),
        Class::Additive => sum_type(table, left_kind, right_kind),
        Class::Subtractive => difference_type(table, left_kind, right_kind),
        Class::Shift => shift_type(left_kind, right_kind),
        Class::Relational => truth(are_ordered(table, left, right)),
        Class::Equality => truth(are_equated(table, left, right)),
        Class::AndThen => truth(are_scalar(left_kind, right_kind)),
        Class::OrElse => truth(are_scalar(left_kind, right_kind)),
    }
}

// Two integers, or two pointers to one type.
fn are_ordered(table: &TypeTable, left: Operand, right: Operand) -> bool
    requires left { (t : types.CType) × IsType table.now left.kind t }
    requires right { (u : types.CType) × IsType table.now right.kind u }
    ensures { (x y : rules.Typing) → IsOperand table.now left x → IsOperand table.now right y →
        result ≡ ((types.is_integer x.type && types.is_integer y.type) || (types.is_pointer x.type && types.same x.type y.type)) }
{
    let left_kind = kind_of(table, left.kind);
    let right_kind = kind_of(table, right.kind);
    (is_integer(left_kind) && is_integer(right_kind))
        || (is_pointer(left_kind) && is_same(table, left.kind, right.kind))
}

// Two integers, or what pointers are compared with.
fn are_equated(table: &TypeTable, left: Operand, right: Operand) -> bool
    requires left { (t : types.CType) × IsType table.now left.kind t }
    requires right { (u : types.CType) × IsType table.now right.kind u }
    ensures { (x y : rules.Typing) → IsOperand table.now left x → IsOperand table.now right y →
        result ≡ ((types.is_integer x.type && types.is_integer y.type) || conversions.are_comparable x y) }
{
    let left_kind = kind_of(table, left.kind);
    let right_kind = kind_of(table, right.kind);
    (is_integer(left_kind) && is_integer(right_kind)) || are_comparable(table, left, right)
}

/// Two pointers to one type, a pointer and a null pointer constant, or a pointer and a `void *`.
pub fn are_comparable(table: &TypeTable, left: Operand, right: Operand) -> bool
    requires left { (t : types.CType) × IsType table.now left.kind t }
    requires right { (u : types.CType) × IsType table.now right.kind u }
    ensures { (x y : rules.Typing) → IsOperand table.now left x → IsOperand table.now right y → result ≡ conversions.are_comparable x y }
{
    let left_kind = kind_of(table, left.kind);
    let right_kind = kind_of(table, right.kind);
    let are_pointers = is_pointer(left_kind) && is_pointer(right_kind);
    (are_pointers && are_same_or_void(table, left.kind, right.kind))
        || (is_pointer(left_kind) && is_null(right.constant))
        || (is_null(left.constant) && is_pointer(right_kind))
}

fn are_same_or_void(table: &TypeTable, left: Type, right: Type) -> bool
    requires left { (t : types.CType) × IsType table.now left t }
    requires right { (u : types.CType) × IsType table.now right u }
    ensures { (t u : types.CType) → IsType table.now left t → IsType table.now right u →
        result ≡ (types.same t u || conversions.points_to_void t || conversions.points_to_void u) }
{
    is_same(table, left, right)
        || points_to_void(table, kind_of(table, left))
        || points_to_void(table, kind_of(table, right))
}
