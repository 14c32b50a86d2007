// What an expression is as a constant (C99 6.6).
ghost use Rattle.std.specs.Prelude.{◌≡◌, ◌+◌, ◌-◌, ◌*◌, ◌%◌, ◌^◌};
ghost use Rattle.c_typing.specs.Types as types;
ghost use Rattle.c_typing.specs.Judgements.{number};
ghost use Rattle.c_typing.specs.Constants as constants;
ghost use Rattle.c_typing.specs.Conversions as conversions;
ghost use Rattle.c_typing.specs.Rules as rules;
ghost use Rattle.c_type_ids.specs.Integers.{integer_of};
ghost use Rattle.c_constants.specs.Constants.{constant_of};

use c_operators::operate;
use c_type_ids::{Integer, traits_of};
use c_types::COp;
use cp_base::{Op, apply};

#[derive(Clone, Copy, Debug, PartialEq, Eq)]
pub enum Constant {
    None,
    /// It is formed as an integer constant, but the part at this node has no defined value.
    Undefined(usize),
    Number(u32),
    /// A null pointer constant of type `void *`; another null pointer.
    NullPointer,
    ZeroPointer,
    /// The address of an object, plus an addend.
    AddressOf(usize, u32),
    /// It is formed as such an address, but the part at this node has no defined value.
    UndefinedAddress(usize),
    /// An lvalue at that address; whether it is the name of an object, or a string literal.
    PlaceAt(usize, u32, bool),
}

/// An integer constant, with a value or without.
pub fn is_constant(constant: Constant) -> bool
    ensures { result ≡ rules.is_constant (constant_of constant) }
{
    matches!(constant, Constant::Number(_) | Constant::Undefined(_))
}

/// A null pointer constant.
pub fn is_null(constant: Constant) -> bool
    ensures { result ≡ conversions.is_null (constant_of constant) }
{
    matches!(constant, Constant::Number(0) | Constant::NullPointer)
}

/// An operator of two integer constants; an operand without a value comes first.
pub fn operated(operator: COp, node: usize, left: Constant, right: Constant) -> Constant
    ensures { constant_of result ≡ constants.operated operator node (constant_of left) (constant_of right) }
{
    match left {
        Constant::Number(a) => operated_on(operator, node, a, right),
        Constant::Undefined(part) => where_formed(right, Constant::Undefined(part)),
        _ => Constant::None,
    }
}

// The same where the left operand has a value.
fn operated_on(operator: COp, node: usize, left: u32, right: Constant) -> Constant
    ensures { constant_of result ≡ constants.operated operator node (number left) (constant_of right) }
{
    match right {
        Constant::Number(right) => evaluated(node, operate(operator, left, right)),
        Constant::Undefined(part) => Constant::Undefined(part),
        _ => Constant::None,
    }
}

fn evaluated(node: usize, word: Option<u32>) -> Constant
    ensures { constant_of result ≡ constants.evaluated node word }
{
    match word {
        Some(word) => Constant::Number(word),
        None => Constant::Undefined(node),
    }
}

fn where_formed(tested: Constant, constant: Constant) -> Constant
    ensures { constant_of result ≡ constants.where_formed (constant_of tested) (constant_of constant) }
{
    if is_constant(tested) {
        constant
    } else {
        Constant::None
    }
}

fn truth_of(constant: Constant) -> Constant
    ensures { constant_of result ≡ constants.truth_of (constant_of constant) }
{
    match constant {
        Constant::Number(word) => Constant::Number(u32::from(word != 0)),
        Constant::Undefined(part) => Constant::Undefined(part),
        _ => Constant::None,
    }
}

/// `&&`: the right operand is evaluated only where the left one does not decide.
pub fn both_constant(left: Constant, right: Constant) -> Constant
    ensures { constant_of result ≡ constants.both_constant (constant_of left) (constant_of right) }
{
    match left {
        Constant::Number(0) => where_formed(right, Constant::Number(0)),
        Constant::Number(_) => truth_of(right),
        Constant::Undefined(part) => where_formed(right, Constant::Undefined(part)),
        _ => Constant::None,
    }
}

/// `||`
pub fn either_constant(left: Constant, right: Constant) -> Constant
    ensures { constant_of result ≡ constants.either_constant (constant_of left) (constant_of right) }
{
    match left {
        Constant::Number(0) => truth_of(right),
        Constant::Number(_) => where_formed(right, Constant::Number(1)),
        Constant::Undefined(part) => where_formed(right, Constant::Undefined(part)),
        _ => Constant::None,
    }
}

/// `?:`: one of the two is evaluated.
pub fn chosen_constant(condition: Constant, then: Constant, other: Constant) -> Constant
    ensures { constant_of result ≡ constants.chosen_constant (constant_of condition) (constant_of then) (constant_of other) }
{
    let chosen = match condition {
        Constant::Number(0) => other,
        Constant::Number(_) => then,
        Constant::Undefined(part) => Constant::Undefined(part),
        _ => return Constant::None,
    };
    where_formed(then, where_formed(other, chosen))
}

/// An address constant and a constant of elements of this size, by `+`.
pub fn moved_up(size: u32, address: Constant, index: Constant) -> Constant
    ensures { constant_of result ≡ constants.moved_up size (constant_of address) (constant_of index) }
{
    match (address, index) {
        (Constant::AddressOf(object, addend), Constant::Number(word)) => {
            Constant::AddressOf(object, behind(addend, word, size))
        }
        (Constant::AddressOf(..), Constant::Undefined(part)) => Constant::UndefinedAddress(part),
        (Constant::UndefinedAddress(part), _) => {
            where_formed(index, Constant::UndefinedAddress(part))
        }
        _ => Constant::None,
    }
}

/// The same by `-`.
pub fn moved_down(size: u32, address: Constant, index: Constant) -> Constant
    ensures { constant_of result ≡ constants.moved_down size (constant_of address) (constant_of index) }
{
    match (address, index) {
        (Constant::AddressOf(object, addend), Constant::Number(word)) => {
            Constant::AddressOf(object, before(addend, word, size))
        }
        (Constant::AddressOf(..), Constant::Undefined(part)) => Constant::UndefinedAddress(part),
        (Constant::UndefinedAddress(part), _) => {
            where_formed(index, Constant::UndefinedAddress(part))
        }
        _ => Constant::None,
    }
}

// So many elements behind an addend.
fn behind(addend: u32, count: u32, size: u32) -> u32
    ensures { result ≡ (addend + count * size) % 2 ^ 32 }
{
    addend.wrapping_add(count.wrapping_mul(size))
}

fn before(addend: u32, count: u32, size: u32) -> u32
    ensures { result ≡ (addend + (2 ^ 32 - count * size % 2 ^ 32)) % 2 ^ 32 }
{
    addend.wrapping_sub(count.wrapping_mul(size))
}

/// A part of an object, at a constant place.
pub fn part_at(offset: u32, place: Constant) -> Constant
    ensures { constant_of result ≡ constants.part_at offset (constant_of place) }
{
    match place {
        Constant::PlaceAt(object, addend, _) => {
            Constant::PlaceAt(object, addend.wrapping_add(offset), false)
        }
        Constant::UndefinedAddress(part) => Constant::UndefinedAddress(part),
        _ => Constant::None,
    }
}

/// An element of this size.
pub fn element_at(size: u32, place: Constant, index: Constant) -> Constant
    ensures { constant_of result ≡ constants.element_at size (constant_of place) (constant_of index) }
{
    match (place, index) {
        (Constant::PlaceAt(object, addend, _), Constant::Number(word)) => {
            Constant::PlaceAt(object, behind(addend, word, size), false)
        }
        (Constant::PlaceAt(..), Constant::Undefined(part)) => Constant::UndefinedAddress(part),
        (Constant::UndefinedAddress(part), _) => {
            where_formed(index, Constant::UndefinedAddress(part))
        }
        _ => Constant::None,
    }
}

/// `&` of it.
pub fn address_constant(place: Constant) -> Constant
    ensures { constant_of result ≡ constants.address_constant (constant_of place) }
{
    match place {
        Constant::PlaceAt(object, addend, _) => Constant::AddressOf(object, addend),
        Constant::UndefinedAddress(part) => Constant::UndefinedAddress(part),
        _ => Constant::None,
    }
}

/// The address that the name of an array, or a string literal, is as a value.
pub fn address_in(place: Constant) -> Constant
    ensures { constant_of result ≡ conversions.address_in (constant_of place) }
{
    match place {
        Constant::PlaceAt(object, addend, true) => Constant::AddressOf(object, addend),
        _ => Constant::None,
    }
}

/// A cast to an integer type.
pub fn integer_cast(integer: Integer, constant: Constant) -> Constant
    ensures { constant_of result ≡ constants.integer_cast (types.integer (integer_of integer)) (constant_of constant) }
{
    match constant {
        Constant::Number(word) => Constant::Number(converted_word(integer, word)),
        Constant::Undefined(part) => Constant::Undefined(part),
        _ => Constant::None,
    }
}

/// A word as a value of an integer type.
pub fn converted_word(integer: Integer, word: u32) -> u32
    ensures { result ≡ conversions.converted_word (types.integer (integer_of integer)) word }
{
    match traits_of(integer).narrowing {
        Some(to) => apply(Op::Conv(to), word, 0),
        None => word,
    }
}

/// A cast to a pointer type, that to `void` or another one.
pub fn pointer_cast(is_to_void: bool, constant: Constant) -> Constant
    ensures { (t : types.CType) → conversions.points_to_void t ≡ is_to_void → constant_of result ≡ constants.pointer_cast t (constant_of constant) }
{
    match constant {
        Constant::Number(0) if is_to_void => Constant::NullPointer,
        Constant::Number(0) | Constant::NullPointer | Constant::ZeroPointer =>
            Constant::ZeroPointer,
        Constant::AddressOf(..) | Constant::UndefinedAddress(_) => constant,
        _ => Constant::None,
    }
}
