// Constants and string literals (C99 6.4.4, 6.4.5).
ghost use Rattle.std.specs.Prelude.{◌≡◌, ◌+◌, ◌≤◌, ◌<◌, ℕ, List, IfOk, length};
ghost use Rattle.c_types.specs.declared.kind.TheConstants.{MAX_SIZE};
ghost use Rattle.c_typing.specs.Types.{array, char, int, integer};
ghost use Rattle.c_typing.specs.Judgements.{Judgement, means, verdict};
ghost use Rattle.c_typing.specs.Names.{Places, objects_of};
ghost use Rattle.c_typing.specs.Rules.{size_fault};
ghost use Rattle.c_typing.specs.Expressions as productions;
ghost use Rattle.c_typing.specs.Expressions.{expression, literals_before, number_of_type};
ghost use Rattle.c_type_ids.specs.Integers.{integer_of};
ghost use Rattle.c_type_ids.specs.Ids.{Grows, Names};
ghost use Rattle.c_places.specs.Places.{IsAnswer};

use crate::names::object;
use c_answers::{Refusal, too_big};
use c_constants::Constant;
use c_lexer::IntType;
use c_type_ids::{Integer, TypeTable};
use c_types::{Expr, MAX_SIZE, TypeId};
use c_values::{Form, Type, Typing};
use std::alloc::AllocError;

/// An integer constant.
pub fn integer_constant(table: &mut TypeTable, kind: IntType, word: u32) -> Result<Typing, Refusal>
    ensures is { IsAnswer table.new result (means (expression (number_of_type (productions.integer_type kind) word))) }
    ensures grows { Grows table.old table.new }
{
    let integer = match kind {
        IntType::Int => Integer::Int,
        IntType::UInt => Integer::UInt,
        IntType::Long => Integer::Long,
        IntType::ULong => Integer::ULong,
    };
    number(table, integer, word)
}

/// A character constant, or an enumerator, of this value.
pub fn int_constant(table: &mut TypeTable, word: u32) -> Result<Typing, Refusal>
    ensures is { IsAnswer table.new result (means (expression (number_of_type int word))) }
    ensures grows { Grows table.old table.new }
{
    number(table, Integer::Int, word)
}

fn number(table: &mut TypeTable, integer: Integer, word: u32) -> Result<Typing, Refusal>
    ensures is { IsAnswer table.new result (means (expression (number_of_type (integer_of integer) word))) }
    ensures grows { Grows table.old table.new }
{
    let id = table.integer(integer)?;
    Ok(Typing {
        kind: Type::Known(id),
        form: Form::Value,
        constant: Constant::Number(word),
        code: Expr::Const(word),
    })
}

/// A string literal of so many bytes, without the zero behind them, which is the object of this number.
pub fn literal(
    table: &mut TypeTable,
    node: usize,
    bytes: usize,
    number: usize,
) -> Result<Typing, Refusal>
    ensures is { (p : Places) (js : List Judgement) (text : List ℕ) → length text ≡ bytes → length (objects_of p) + literals_before p js ≡ number →
        IsAnswer table.new result (verdict (size_fault (length text + 1) node) (expression (productions.literal p js text))) }
    ensures grows { Grows table.old table.new }
{
    if bytes >= MAX_SIZE as usize {
        return Err(too_big(node, (bytes as u64).saturating_add(1)));
    }
    let id = char_array(table, bytes as u32 + 1)?;
    Ok(object(Type::Known(id), number))
}

// The type of an array of so many characters.
fn char_array(table: &mut TypeTable, count: u32) -> Result<TypeId, AllocError>
    ensures is { IfOk result (λ id. Names table.new id (array (integer char) count)) }
    ensures grows { Grows table.old table.new }
{
    let element = table.integer(Integer::Char)?;
    match table.array(element, count) {
        Ok(id) => Ok(id),
        Err(_) => Err(AllocError),
    }
}
