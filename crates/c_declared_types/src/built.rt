// The type of a declarator: built from the specs' type inwards (C99 6.7.5).
ghost use Rattle.std.specs.Prelude.{◌≡◌, ℕ, List, [], IfOk, Ok};
ghost use Rattle.c_types.specs.Sizes.{IsSized};
ghost use Rattle.c_types.specs.Tables.{IsThere};
ghost use Rattle.c_typing.specs.Types.{CType, Layout, array, function};
ghost use Rattle.c_typing.specs.Types as types;
ghost use Rattle.c_typing.specs.Judgements as rules;
ghost use Rattle.c_typing.specs.Rules as faults;
ghost use Rattle.c_typing.specs.Declarators as declarators;
ghost use Rattle.c_type_ids.specs.Ids.{AreLaid, Grows, Names, NamesAll};
ghost use Rattle.c_values.specs.Typings.{IsType};
ghost use Rattle.c_answers.specs.Answers.{Settles};
ghost use Rattle.c_declared_types.specs.Steps.{ArePlaced, AreSteps, IsBuilt, IsBuiltId, IsStep};

use crate::steps::{PlacedStep, Step, Steps};
use c_answers::{Refusal, too_big};
use c_type_ids::{Kind, TypeTable};
use c_types::{TypeFault, TypeId, TypeList};
use c_values::Type;

/// The type of a name with these steps, where the specs have this type.
pub fn build(table: &mut TypeTable, base: TypeId, steps: Steps) -> Result<Type, Refusal>
    requires base { IsThere table.old.table base }
    requires steps { (ss : List rules.PlacedStep) × AreSteps table.old steps ss }
    ensures is { (ls : List Layout) (t : CType) (ss : List rules.PlacedStep) → AreLaid table.old ls → Names table.old base t → AreSteps table.old steps ss →
        IsBuilt table.new result (declarators.build ls t ss) }
    ensures there { (id : TypeId) → result ≡ Ok (Type.Known id) → IsThere table.new.table id }
    ensures grows { Grows table.old table.new }
{
    let id = built_on(table, base, steps.outer)?;
    match steps.without_length {
        Some(node) => without_length(table, node, id),
        None => Ok(Type::Known(id)),
    }
}

// The type of an array whose initializer is to give its length, and of which these are the elements.
fn without_length(table: &TypeTable, node: usize, id: TypeId) -> Result<Type, Refusal>
    requires { IsThere table.now.table id }
    ensures is { (ls : List Layout) (t : CType) → AreLaid table.now ls → Names table.now id t →
        IsBuilt table.now result (declarators.stepped_type ls rules.of_unsized node t) }
    ensures lengthless { IfOk result (λ kind. kind ≡ Type.Unsized id) }
{
    match table.size(id) {
        Some(_) => Ok(Type::Unsized(id)),
        None => Err(Refusal::Broken { rule: 5, node }),
    }
}

// The same where all arrays have lengths.
fn built_on(
    table: &mut TypeTable,
    base: TypeId,
    mut steps: Vec<PlacedStep>,
) -> Result<TypeId, Refusal>
    requires base { IsThere table.old.table base }
    requires steps { (ss : List rules.PlacedStep) × ArePlaced table.old steps.items ss }
    ensures is { (ls : List Layout) (t : CType) (ss : List rules.PlacedStep) → AreLaid table.old ls → Names table.old base t → ArePlaced table.old steps.items ss →
        IsBuiltId table.new result (declarators.build ls t ss) }
    ensures there { IfOk result (IsThere table.new.table) }
    ensures grows { Grows table.old table.new }
{
    let mut id = base;
    while let Some(placed) = steps.pop() {
        id = stepped(table, placed, id)?;
    }
    Ok(id)
}

// A type made of another one.
fn stepped(table: &mut TypeTable, placed: PlacedStep, id: TypeId) -> Result<TypeId, Refusal>
    requires there { IsThere table.old.table id }
    requires step { (s : rules.Step) × IsStep table.old placed.step s }
    ensures is { (ls : List Layout) (t : CType) (s : rules.Step) → AreLaid table.old ls → Names table.old id t → IsStep table.old placed.step s →
        IsBuiltId table.new result (declarators.stepped_type ls s placed.node t) }
    ensures there { IfOk result (IsThere table.new.table) }
    ensures grows { Grows table.old table.new }
{
    let PlacedStep { node, step } = placed;
    match step {
        Step::ToPointer => pointer_to(table, id),
        Step::OfArray(count) => array_of(table, node, id, count),
        Step::OfParameter => parameter_of(table, node, id),
        Step::OfFunction(takes) => function_to(table, node, id, takes),
    }
}

fn pointer_to(table: &mut TypeTable, id: TypeId) -> Result<TypeId, Refusal>
    requires { IsThere table.old.table id }
    ensures is { (t : CType) → Names table.old id t → Settles (λ made. Names table.new made (types.pointer t)) result [] }
    ensures there { IfOk result (IsThere table.new.table) }
    ensures grows { Grows table.old table.new }
{
    match table.pointer(id) {
        Ok(made) => Ok(made),
        Err(_) => Err(Refusal::OutOfMemory),
    }
}

// An array of elements that have a size, within the limit.
fn array_of(table: &mut TypeTable, node: usize, id: TypeId, count: u32) -> Result<TypeId, Refusal>
    requires { IsThere table.old.table id }
    ensures is { (ls : List Layout) (t : CType) → AreLaid table.old ls → Names table.old id t →
        Settles (λ made. Names table.new made (array t count)) result (declarators.array_faults ls t count node) }
    ensures there { IfOk result (IsThere table.new.table) }
    ensures grows { Grows table.old table.new }
{
    match table.size(id) {
        Some(_) => limited_array_of(table, node, id, count),
        None => Err(Refusal::Broken { rule: 5, node }),
    }
}

// An array within the limit.
fn limited_array_of(
    table: &mut TypeTable,
    node: usize,
    id: TypeId,
    count: u32,
) -> Result<TypeId, Refusal>
    requires { IsSized table.old.table id }
    ensures is { (ls : List Layout) (t : CType) → AreLaid table.old ls → Names table.old id t →
        Settles (λ made. Names table.new made (array t count)) result (declarators.array_faults ls t count node) }
    ensures there { IfOk result (IsThere table.new.table) }
    ensures grows { Grows table.old table.new }
{
    match table.array(id, count) {
        Ok(made) => Ok(made),
        Err(TypeFault::TooBig { size }) => Err(too_big(node, size)),
        Err(TypeFault::OutOfMemory) => Err(Refusal::OutOfMemory),
    }
}

// An array that is a parameter: a pointer to its elements, which have a size.
fn parameter_of(table: &mut TypeTable, node: usize, id: TypeId) -> Result<TypeId, Refusal>
    requires { IsThere table.old.table id }
    ensures is { (ls : List Layout) (t : CType) → AreLaid table.old ls → Names table.old id t →
        Settles (λ made. Names table.new made (types.pointer t)) result (faults.incomplete_type ls t node) }
    ensures there { IfOk result (IsThere table.new.table) }
    ensures grows { Grows table.old table.new }
{
    match table.size(id) {
        Some(_) => pointer_to(table, id),
        None => Err(Refusal::Broken { rule: 5, node }),
    }
}

// A function, which gives no struct, array or function.
fn function_to(
    table: &mut TypeTable,
    node: usize,
    gives: TypeId,
    takes: TypeList,
) -> Result<TypeId, Refusal>
    requires gives { IsThere table.old.table gives }
    requires takes { (ts : types.CTypes) × NamesAll table.old takes ts }
    ensures is { (t : CType) (ts : types.CTypes) → Names table.old gives t → NamesAll table.old takes ts →
        Settles (λ made. Names table.new made (function t ts)) result (faults.bad_result t node) }
    ensures there { IfOk result (IsThere table.new.table) }
    ensures grows { Grows table.old table.new }
{
    if is_bad_result(table, gives) {
        return Err(Refusal::Broken { rule: 21, node });
    }
    match table.function(gives, takes) {
        Ok(made) => Ok(made),
        Err(_) => Err(Refusal::OutOfMemory),
    }
}

fn is_bad_result(table: &TypeTable, id: TypeId) -> bool
    requires { IsThere table.now.table id }
    ensures { (t : CType) (n : ℕ) → Names table.now id t → faults.bad_result t n ≡ faults.broken_if result 21 n }
{
    matches!(
        table.kind(id),
        Kind::Struct(_) | Kind::Array(..) | Kind::Function(_)
    )
}
