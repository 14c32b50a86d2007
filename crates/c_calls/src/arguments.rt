// Arguments, each converted to the type of its parameter (C99 6.5.2.2, 7).
ghost use Rattle.std.specs.Prelude.{◌≡◌, ◌++◌, ◌∷◌, [], ◌<◌, ℕ, List, OnOk, drop, length, map, reverse};
ghost use Rattle.c_typing.specs.Types.{CType, CTypes, function, listed};
ghost use Rattle.c_typing.specs.Judgements as rules;
ghost use Rattle.c_typing.specs.Rules.{bad_conversion};
ghost use Rattle.c_typing.specs.Conversions as conversions;
ghost use Rattle.c_typing.specs.Expressions as productions;
ghost use Rattle.c_type_ids.specs.Ids.{Grows, Names};
ghost use Rattle.c_values.specs.Typings.{Is};
ghost use Rattle.c_answers.specs.Answers.{Settles};
ghost use Rattle.c_calls.specs.Arguments.{AreTypings};

use c_answers::Refusal;
use c_constants::is_null;
use c_type_ids::TypeTable;
use c_types::{Expr, TypeId};
use c_values::{Type, Typing, converted, is_assignable, value_of};
use std::alloc::{AllocError, Global};

/// The codes of the arguments of a function, of which the first one stands last.
pub fn pass_all(
    alloc: Global,
    table: &mut TypeTable,
    id: TypeId,
    mut arguments: Vec<Typing>,
    nodes: &[usize],
) -> Result<Vec<Expr>, Refusal>
    requires function { (r : CType) × (ts : CTypes) × Names table.old id (function r ts) × (length (listed ts) ≡ length nodes.now) }
    requires arguments { (xs : List rules.Typing) × AreTypings table.old (reverse arguments.items) xs }
    requires one_each { length arguments.items ≡ length nodes.now }
    ensures is { (r : CType) (ts : CTypes) (xs : List rules.Typing) → Names table.old id (function r ts) → length (listed ts) ≡ length nodes.now → AreTypings table.old (reverse arguments.items) xs →
        Settles (λ codes. codes.items ≡ map productions.passed (productions.arguments (listed ts) (map conversions.value_of xs) nodes.now)) result
        (productions.argument_faults (productions.arguments (listed ts) (map conversions.value_of xs) nodes.now)) }
    ensures grows { Grows table.old table.new }
{
    let mut codes = Vec::new(alloc);
    while let Some(argument) = arguments.pop() {
        let place = codes.len();
        let parameter = parameter_at(table, id, place);
        let code = pass_one(alloc, table, parameter, argument, nodes[place])?;
        add(&mut codes, code)?;
    }
    Ok(codes)
}

fn add(codes: &mut Vec<Expr>, code: Expr) -> Result<(), AllocError>
    ensures { OnOk result (codes.new.items ≡ codes.old.items ++ code ∷ []) }
{
    codes.push(code)?;
    Ok(())
}

// The type of the parameter at this place.
fn parameter_at(table: &TypeTable, id: TypeId, place: usize) -> TypeId
    requires { (r : CType) × (ts : CTypes) × Names table.now id (function r ts) × (place < length (listed ts)) }
    ensures { (r : CType) (ts : CTypes) (t : CType) (rest : List CType) → Names table.now id (function r ts) → drop place (listed ts) ≡ t ∷ rest → Names table.now result t }
{
    table.parameters(id)[place]
}

// The code of an argument at this node, as a value of the parameter's type.
fn pass_one(
    alloc: Global,
    table: &mut TypeTable,
    parameter: TypeId,
    argument: Typing,
    node: usize,
) -> Result<Expr, Refusal>
    requires parameter { (t : CType) × Names table.old parameter t }
    requires argument { (x : rules.Typing) × Is table.old argument x }
    ensures is { (t : CType) (x : rules.Typing) → Names table.old parameter t → Is table.old argument x →
        Settles (λ code. code ≡ conversions.converted_to t (conversions.value_of x)) result (bad_conversion t (conversions.value_of x) node) }
    ensures grows { Grows table.old table.new }
{
    let value = value_of(alloc, table, argument)?;
    let to = Type::Known(parameter);
    if !is_assignable(table, to, value.kind, is_null(value.constant)) {
        return Err(Refusal::Broken { rule: 14, node });
    }
    Ok(converted(alloc, table, value.kind, to, value.code)?)
}
