// The lengths of arrays and the values of enumerators (C99 6.7.5.2, 6.7.2.2).
ghost use Rattle.std.specs.Prelude.{◌≡◌, ◌++◌, ◌==◌, nat_le, ◌+◌, ◌-◌, ◌%◌, ◌^◌, ℕ, None, Some, Ok};
ghost use Rattle.c_typing.specs.Types as types;
ghost use Rattle.c_typing.specs.Judgements as rules;
ghost use Rattle.c_typing.specs.Rules as faults;
ghost use Rattle.c_typing.specs.Declarators as declarators;
ghost use Rattle.c_constants.specs.Constants.{constant_of};
ghost use Rattle.c_values.specs.Typings.{IsType};
ghost use Rattle.c_values.specs.Operators.{IsOperand};
ghost use Rattle.c_answers.specs.Answers.{Settles};

use c_answers::Refusal;
use c_constants::Constant;
use c_type_ids::{Kind, TypeTable, traits_of};
use c_values::{Operand, Shown, Type, kind_of};

/// The length of an array, by the expression between its brackets, which stands at a node of its own.
pub fn length_of(
    table: &TypeTable,
    length: Operand,
    length_node: usize,
    node: usize,
) -> Result<u32, Refusal>
    requires { (x : rules.Typing) × IsOperand table.now length x }
    ensures { (x : rules.Typing) → IsOperand table.now length x →
        Settles (λ w. w ≡ declarators.word_in x.constant) result (declarators.length_faults x length_node node) }
{
    let word = constant_word(length.constant, length_node)?;
    if is_bad_length(table, length.kind, word) {
        return Err(Refusal::Broken { rule: 7, node });
    }
    Ok(word)
}

/// The value of an enumerator, by its expression, which stands at this node.
pub fn enumerator_value(table: &TypeTable, value: Operand, node: usize) -> Result<u32, Refusal>
    requires { (x : rules.Typing) × IsOperand table.now value x }
    ensures { (x : rules.Typing) → IsOperand table.now value x →
        Settles (λ w. w ≡ declarators.word_in x.constant) result
        (faults.not_constant x.constant node ++ faults.out_of_range x.constant ++ faults.no_int x.type x.constant node) }
{
    let word = constant_word(value.constant, node)?;
    if is_no_int(table, value.kind, word) {
        return Err(Refusal::Broken { rule: 9, node });
    }
    Ok(word)
}

/// The value of an enumerator without an expression: one more than that of the one before it, or 0 for the first one.
pub fn enumerator_after(before: Option<u32>, node: usize) -> Result<u32, Refusal>
    ensures first { before ≡ None → result ≡ Ok 0 }
    ensures next { (w : ℕ) → before ≡ Some w → Settles (λ v. v ≡ (w + 1) % 2 ^ 32) result (faults.broken_if (w == 2 ^ 31 - 1) 9 node) }
{
    match before {
        None => Ok(0),
        Some(0x7fff_ffff) => Err(Refusal::Broken { rule: 9, node }),
        Some(word) => Ok(word.wrapping_add(1)),
    }
}

/// The word of an integer constant that stands at this node.
pub fn constant_word(constant: Constant, node: usize) -> Result<u32, Refusal>
    ensures { (c : rules.Constant) → constant_of constant ≡ c →
        Settles (λ w. c ≡ rules.number w) result (faults.not_constant c node ++ faults.out_of_range c) }
{
    match constant {
        Constant::Number(word) => Ok(word),
        Constant::Undefined(part) => Err(Refusal::Broken {
            rule: 9,
            node: part,
        }),
        _ => Err(Refusal::Broken { rule: 8, node }),
    }
}

// A word of this type is 0 or below.
fn is_bad_length(table: &TypeTable, kind: Type, word: u32) -> bool
    requires { (t : types.CType) × IsType table.now kind t }
    ensures { (t : types.CType) → IsType table.now kind t → result ≡ faults.is_bad_length t (rules.number word) }
{
    word == 0 || (is_signed(table, kind) && is_high(word))
}

// A word of this type is above the greatest `int`.
fn is_no_int(table: &TypeTable, kind: Type, word: u32) -> bool
    requires { (t : types.CType) × IsType table.now kind t }
    ensures { (t : types.CType) → IsType table.now kind t → result ≡ faults.is_no_int t (rules.number word) }
{
    !is_signed(table, kind) && is_high(word)
}

// The integer type has a sign; so has `int`, which stands for all other types.
fn is_signed(table: &TypeTable, kind: Type) -> bool
    requires { (t : types.CType) × IsType table.now kind t }
    ensures { (t : types.CType) → IsType table.now kind t → result ≡ (types.traits_of (types.integer_of t)).is_signed }
{
    match kind_of(table, kind) {
        Shown::Kind(Kind::Integer(integer)) => traits_of(integer).is_signed,
        _ => true,
    }
}

fn is_high(word: u32) -> bool
    ensures { result ≡ nat_le (2 ^ 31) word }
{
    word >= 0x8000_0000
}
