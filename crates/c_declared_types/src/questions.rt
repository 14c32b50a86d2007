// What is asked of a declarator by its type.
ghost use Rattle.std.specs.Prelude.{◌≡◌, ℕ, true, false, List, [], ◌∷◌, Some, None, IfOk, IfSome, IfNone, if◌then◌else◌, bytes_eq, codes};
ghost use Rattle.c_types.specs.Sizes.{IsSized};
ghost use Rattle.c_typing.specs.Types as types;
ghost use Rattle.c_typing.specs.Types.{CType, Layout};
ghost use Rattle.c_typing.specs.Rules as faults;
ghost use Rattle.c_typing.specs.Declarators as declarators;
ghost use Rattle.c_type_ids.specs.Ids.{AreLaid, Grows, Names};
ghost use Rattle.c_values.specs.Typings.{IsType};

use c_type_ids::{Integer, Kind, TypeTable};
use c_types::{TypeId, TypeList};
use c_values::{Shown, Type, is_same, kind_of};
use std::alloc::{AllocError, Global};

/// The type has no size (rule 5).
pub fn is_incomplete(table: &TypeTable, kind: Type) -> bool
    requires { (t : CType) × IsType table.now kind t }
    ensures is { (ls : List Layout) (t : CType) (n : ℕ) → AreLaid table.now ls → IsType table.now kind t →
        faults.incomplete_type ls t n ≡ faults.broken_if result 5 n }
    ensures sized { (id : TypeId) → kind ≡ Type.Known id → result ≡ false → IsSized table.now.table id }
{
    match kind {
        Type::Known(id) => table.size(id).is_none(),
        Type::Unsized(_) => true,
        Type::ToUnsized(_) => false,
    }
}

/// The same of an object, which may have an array's type whose length is to come.
pub fn is_incomplete_object(table: &TypeTable, kind: Type) -> bool
    requires { (t : CType) × IsType table.now kind t }
    ensures { (ls : List Layout) (t : CType) (n : ℕ) → AreLaid table.now ls → IsType table.now kind t →
        declarators.object_size ls t n ≡ faults.broken_if result 5 n }
{
    match kind {
        Type::Known(id) => table.size(id).is_none(),
        Type::Unsized(_) | Type::ToUnsized(_) => false,
    }
}

/// The same of a parameter, whose type is adjusted.
pub fn is_incomplete_parameter(table: &TypeTable, kind: Type) -> bool
    requires { (t : CType) × IsType table.now kind t }
    ensures { (t : CType) (n : ℕ) → IsType table.now kind t → declarators.parameter_size t n ≡ faults.broken_if result 5 n }
{
    matches!(kind_of(table, kind), Shown::Kind(Kind::Void))
}

/// An array or a struct, which no local may have (rule 10).
pub fn is_array_or_struct(table: &TypeTable, kind: Type) -> bool
    requires { (t : CType) × IsType table.now kind t }
    ensures { (t : CType) (n : ℕ) → IsType table.now kind t → faults.local_array_or_struct t n ≡ faults.broken_if result 10 n }
{
    matches!(
        kind_of(table, kind),
        Shown::Kind(Kind::Array(..) | Kind::Struct(_)) | Shown::Unsized(_)
    )
}

/// Two types of one object agree: where one has no length yet, the elements are compared.
pub fn agree(table: &TypeTable, left: Type, right: Type) -> bool
    requires left { (t : CType) × IsType table.now left t }
    requires right { (u : CType) × IsType table.now right u }
    ensures { (t u : CType) → IsType table.now left t → IsType table.now right u → result ≡ faults.agree t u }
{
    match (left, right) {
        (Type::Unsized(element), _) => match element_of(table, right) {
            Some(other) => table.is_same(element, other),
            None => false,
        },
        (_, Type::Unsized(element)) => match element_of(table, left) {
            Some(other) => table.is_same(other, element),
            None => false,
        },
        _ => is_same(table, left, right),
    }
}

// The elements, where the type is an array's.
fn element_of(table: &TypeTable, kind: Type) -> Option<TypeId>
    requires { (t : CType) × IsType table.now kind t }
    ensures some { IfSome result (λ id. (t : CType) → IsType table.now kind t → Names table.now id (types.element_of t) × (types.is_array t ≡ true)) }
    ensures none { IfNone result ((t : CType) → IsType table.now kind t → types.is_array t ≡ false) }
{
    match kind_of(table, kind) {
        Shown::Kind(Kind::Array(element, _)) => Some(element),
        Shown::Unsized(element) => Some(element),
        _ => None,
    }
}

/// A function of this name must not have this type: `main` is `int` without parameters (rule 22).
pub fn is_bad_main(
    alloc: Global,
    table: &mut TypeTable,
    name: &str,
    kind: Type,
) -> Result<bool, AllocError>
    ensures is { IfOk result (λ bad. (t : CType) (n : ℕ) → IsType table.old kind t → faults.bad_main name.now t n ≡ faults.broken_if bad 22 n) }
    ensures grows { Grows table.old table.new }
{
    if !is_main(name) {
        return Ok(false);
    }
    let wanted = function_to_int(alloc, table, false)?;
    Ok(!is_same(table, kind, Type::Known(wanted)))
}

fn is_main(name: &str) -> bool
    ensures { result ≡ bytes_eq name.now (codes "main") }
{
    name == "main"
}

/// `getchar` and `putchar` are the names of the functions of the library alone (rule 23).
pub fn is_bad_library_name(
    alloc: Global,
    table: &mut TypeTable,
    name: &str,
    declares_function: bool,
    kind: Type,
) -> Result<bool, AllocError>
    ensures is { IfOk result (λ bad. (t : CType) (n : ℕ) → IsType table.old kind t →
        faults.bad_library_name name.now declares_function t n ≡ faults.broken_if bad 23 n) }
    ensures grows { Grows table.old table.new }
{
    let Some(takes_int) = library_function(name) else {
        return Ok(false);
    };
    if !declares_function {
        return Ok(true);
    }
    let wanted = function_to_int(alloc, table, takes_int)?;
    Ok(!is_same(table, kind, Type::Known(wanted)))
}

// Whether the function of the library of this name takes an `int`.
fn library_function(name: &str) -> Option<bool>
    ensures { result ≡ (if faults.is_getchar name.now then Some false else if faults.is_putchar name.now then Some true else None) }
{
    match name {
        "getchar" => Some(false),
        "putchar" => Some(true),
        _ => None,
    }
}

// The type of functions that give `int`, and take nothing or one `int`.
fn function_to_int(
    alloc: Global,
    table: &mut TypeTable,
    takes_int: bool,
) -> Result<TypeId, AllocError>
    ensures is { IfOk result (λ id. Names table.new id (faults.gives_int (if takes_int then types.integer types.int ∷ [] else []))) }
    ensures grows { Grows table.old table.new }
{
    let int = table.integer(Integer::Int)?;
    let takes = list_of(alloc, takes_int, int)?;
    table.function(int, takes)
}

// The type alone, or nothing.
fn list_of(alloc: Global, is_there: bool, id: TypeId) -> Result<TypeList, AllocError>
    ensures { IfOk result (λ ids. ids ≡ (if is_there then id ∷ [] else [])) }
{
    let mut ids = TypeList::new(alloc);
    if is_there {
        ids.push(id)?;
    }
    Ok(ids)
}
