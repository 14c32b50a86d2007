// Scalars (C99 6.7.8, 4 and 11).
ghost use Rattle.std.specs.Prelude.{◌≡◌, ◌≢◌, ◌++◌, ◌∷◌, [], Err, List, true, if◌then◌else◌};
ghost use Rattle.c_typing.specs.Types as types;
ghost use Rattle.c_typing.specs.Types.{Layout};
ghost use Rattle.c_typing.specs.Judgements as rules;
ghost use Rattle.c_typing.specs.Rules as faults;
ghost use Rattle.c_typing.specs.Initializers as initializers;
ghost use Rattle.c_type_ids.specs.Ids.{AreLaid, Known, Names, Shows};
ghost use Rattle.c_constants.specs.Constants.{constant_of};
ghost use Rattle.c_values.specs.Operators.{IsOperand};
ghost use Rattle.c_type_ids.specs.Integers.{integer_of};
ghost use Rattle.c_answers.specs.Answers.{Allows};
ghost use Rattle.c_initializers.specs.Cells as cells;

use c_answers::Refusal;
use c_constants::{Constant, converted_word, is_constant, is_null};
use c_type_ids::{Integer, Kind, TypeTable, traits_of};
use c_types::{Cell, CellValue, TypeId};
use c_values::{Operand, Type, is_assignable};

/// A value, which stands at this node, may be initial for a scalar of this type; for a static one it is a constant.
pub fn check_scalar(
    table: &TypeTable,
    scalar: TypeId,
    value: Operand,
    is_static: bool,
    node: usize,
) -> Result<(), Refusal>
    requires scalar { (t : types.CType) × Names table.now scalar t }
    requires value { (x : rules.Typing) × IsOperand table.now value x }
    ensures decides { result ≢ Err Refusal.OutOfMemory }
    ensures is { (t : types.CType) (x : rules.Typing) → Names table.now scalar t → IsOperand table.now value x →
        Allows result (faults.bad_conversion t x node ++ (if is_static then faults.not_constant_for t x.constant node ++ faults.out_of_range x.constant else [])) }
{
    let is_null = is_null(value.constant);
    if !is_assignable(table, Type::Known(scalar), value.kind, is_null) {
        return Err(Refusal::Broken { rule: 14, node });
    }
    if is_static {
        return check_constant(table.kind(scalar), value.constant, node);
    }
    Ok(())
}

// It is a constant for a scalar of this kind, with a value.
fn check_constant(scalar: Kind, constant: Constant, node: usize) -> Result<(), Refusal>
    ensures decides { result ≢ Err Refusal.OutOfMemory }
    ensures is { (k : Known) (t : types.CType) (c : rules.Constant) → Shows k scalar t → constant_of constant ≡ c →
        Allows result (faults.not_constant_for t c node ++ faults.out_of_range c) }
{
    if !is_constant_for(scalar, constant) {
        return Err(Refusal::Broken { rule: 8, node });
    }
    match constant {
        Constant::Undefined(part) | Constant::UndefinedAddress(part) => Err(Refusal::Broken {
            rule: 9,
            node: part,
        }),
        _ => Ok(()),
    }
}

fn is_constant_for(scalar: Kind, constant: Constant) -> bool
    ensures { (k : Known) (t : types.CType) → Shows k scalar t → result ≡ faults.is_constant_for t (constant_of constant) }
{
    match scalar {
        Kind::Pointer(_) => is_constant_for_pointer(constant),
        Kind::Integer(Integer::Bool) => is_constant(constant) || is_null_pointer(constant),
        _ => is_constant(constant),
    }
}

fn is_constant_for_pointer(constant: Constant) -> bool
    ensures { (t : types.CType) → result ≡ faults.is_constant_for (types.pointer t) (constant_of constant) }
{
    match constant {
        Constant::AddressOf(..) | Constant::UndefinedAddress(_) => true,
        _ => is_constant(constant) || is_null_pointer(constant),
    }
}

fn is_null_pointer(constant: Constant) -> bool
    ensures { result ≡ cells.is_null_pointer (constant_of constant) }
{
    matches!(constant, Constant::NullPointer | Constant::ZeroPointer)
}

/// The cell of a static scalar with this initial constant.
pub fn scalar_cell(table: &TypeTable, scalar: TypeId, constant: Constant) -> Cell
    requires { (t : types.CType) × Names table.now scalar t }
    ensures { (ls : List Layout) (t : types.CType) (c : rules.Constant) → Names table.now scalar t → types.is_scalar t ≡ true → constant_of constant ≡ c →
        initializers.constant_cell t 0 (types.size_of ls t) c ≡ result ∷ [] }
{
    match table.kind(scalar) {
        Kind::Integer(integer) => integer_cell(integer, constant),
        _ => cell_of(4, value_of(constant)),
    }
}

fn integer_cell(integer: Integer, constant: Constant) -> Cell
    ensures { (ls : List Layout) (c : rules.Constant) → constant_of constant ≡ c →
        initializers.constant_cell (types.integer (integer_of integer)) 0 (types.size_of ls (types.integer (integer_of integer))) c ≡ result ∷ [] }
{
    let value = match constant {
        Constant::Number(word) => CellValue::Number(converted_word(integer, word)),
        _ => value_of(constant),
    };
    cell_of(width_of(integer), value)
}

fn width_of(integer: Integer) -> u8
    ensures { result ≡ (types.traits_of (integer_of integer)).size }
{
    match integer {
        Integer::Bool | Integer::Char | Integer::SChar | Integer::UChar => 1,
        Integer::Short | Integer::UShort => 2,
        _ => 4,
    }
}

fn value_of(constant: Constant) -> CellValue
    ensures { result ≡ cells.unconverted (constant_of constant) }
{
    match constant {
        Constant::Number(word) => CellValue::Number(word),
        Constant::AddressOf(object, addend) => CellValue::Address(object, addend),
        _ => CellValue::Number(0),
    }
}

fn cell_of(width: u8, value: CellValue) -> Cell
    ensures { result ≡ record { offset = 0; width = width; value = value } }
{
    Cell {
        offset: 0,
        width,
        value,
    }
}
