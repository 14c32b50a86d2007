// Values, and their conversions (C99 6.3).
ghost use Rattle.std.specs.Prelude.{◌≡◌, ℕ, Bool, IfOk, Some};
ghost use Rattle.c_types.specs.Forms as forms;
ghost use Rattle.c_types.specs.Tables.{IsThere};
ghost use Rattle.c_typing.specs.Types as types;
ghost use Rattle.c_typing.specs.Judgements as rules;
ghost use Rattle.c_typing.specs.Conversions as conversions;
ghost use Rattle.c_type_ids.specs.Ids.{Grows, Known, Names, Shows, struct_by};
ghost use Rattle.c_type_ids.specs.Integers.{integer_of};
ghost use Rattle.c_values.specs.Typings.{Is, IsType, ShownAs};

use crate::codes::{convert, load};
use crate::typings::{Form, Type, Typing};
use c_constants::{Constant, address_in};
use c_type_ids::{Integer, Kind, TypeTable, traits_of};
use c_types::{Expr, StructId, TypeId};
use cp_base::{Kind as Access, To};
use std::alloc::{AllocError, Global};

/// What a type is; of an array without a length, and of a pointer to it, its elements.
#[derive(Clone, Copy)]
pub enum Shown {
    Kind(Kind),
    Unsized(TypeId),
    ToUnsized(TypeId),
}

pub fn kind_of(table: &TypeTable, kind: Type) -> Shown
    requires { (t : types.CType) × IsType table.now kind t }
    ensures { (t : types.CType) → IsType table.now kind t → ShownAs table.now result t }
{
    match kind {
        Type::Known(id) => Shown::Kind(table.kind(id)),
        Type::Unsized(element) => Shown::Unsized(element),
        Type::ToUnsized(element) => Shown::ToUnsized(element),
    }
}

/// How a value of a type is read from memory.
pub fn access_of(shown: Kind) -> Access
    ensures { (k : Known) (t : types.CType) → Shows k shown t → result ≡ conversions.access_of t }
{
    match shown {
        Kind::Integer(integer) => traits_of(integer).access,
        _ => Access::W32,
    }
}

/// The value of an expression: an lvalue is read, an array is a pointer to its first element, and a struct stays at its
/// place.
pub fn value_of(alloc: Global, table: &mut TypeTable, typing: Typing) -> Result<Typing, AllocError>
    requires { (y : rules.Typing) × Is table.old typing y }
    ensures is { IfOk result (λ value. (y : rules.Typing) → Is table.old typing y → Is table.new value (conversions.value_of y)) }
    ensures grows { Grows table.old table.new }
{
    match typing.form {
        Form::InLocal(_) => Ok(Typing {
            form: Form::Value,
            constant: Constant::None,
            ..typing
        }),
        Form::InMemory | Form::Temporary => read(alloc, table, typing),
        _ => Ok(typing),
    }
}

// The value of what stands in memory.
fn read(alloc: Global, table: &mut TypeTable, typing: Typing) -> Result<Typing, AllocError>
    requires { (y : rules.Typing) × Is table.old typing y }
    ensures is { IfOk result (λ value. (y : rules.Typing) → Is table.old typing y → Is table.new value (conversions.read_by y.type y)) }
    ensures grows { Grows table.old table.new }
{
    match kind_of(table, typing.kind) {
        Shown::Unsized(element) => pointed(table, element, typing),
        Shown::Kind(Kind::Array(element, _)) => pointed(table, element, typing),
        Shown::Kind(Kind::Struct(_)) => Ok(Typing {
            form: Form::Temporary,
            constant: Constant::None,
            ..typing
        }),
        Shown::Kind(kind) => loaded(alloc, access_of(kind), typing),
        Shown::ToUnsized(_) => loaded(alloc, Access::W32, typing),
    }
}

// An array is a pointer to its first element, which has this type.
fn pointed(table: &mut TypeTable, element: TypeId, typing: Typing) -> Result<Typing, AllocError>
    requires { IsThere table.old.table element }
    ensures is { IfOk result (λ value. (t : types.CType) (y : rules.Typing) → Names table.old element t → Is table.old typing y →
        Is table.new value (conversions.valued (types.pointer t) y.code (conversions.address_in y.constant))) }
    ensures grows { Grows table.old table.new }
{
    let pointer = table.pointer(element)?;
    Ok(Typing {
        kind: Type::Known(pointer),
        form: Form::Value,
        constant: address_in(typing.constant),
        code: typing.code,
    })
}

// What stands at a place is read.
fn loaded(alloc: Global, access: Access, typing: Typing) -> Result<Typing, AllocError>
    ensures { IfOk result (λ value. (k : Known) (y : rules.Typing) → Is k typing y → Is k value (conversions.valued y.type (forms.load access y.code) rules.no_constant)) }
{
    Ok(Typing {
        kind: typing.kind,
        form: Form::Value,
        constant: Constant::None,
        code: load(alloc, access, typing.code)?,
    })
}

/// Two types are the same, qualifiers aside.
pub fn is_same(table: &TypeTable, left: Type, right: Type) -> bool
    ensures { (t u : types.CType) → IsType table.now left t → IsType table.now right u → result ≡ types.same t u }
{
    match (left, right) {
        (Type::Known(left), Type::Known(right)) => table.is_same(left, right),
        (Type::Unsized(left), Type::Unsized(right)) => table.is_same(left, right),
        (Type::ToUnsized(left), Type::ToUnsized(right)) => table.is_same(left, right),
        _ => false,
    }
}

/// The code of a value of one type, as a value of another: what is narrower is made so.
pub fn converted(
    alloc: Global,
    table: &TypeTable,
    from: Type,
    to: Type,
    code: Expr,
) -> Result<Expr, AllocError>
    requires { (u : types.CType) × IsType table.now to u }
    ensures { IfOk result (λ e. (t u : types.CType) → IsType table.now from t → IsType table.now to u → e ≡ conversions.converted_code t u code) }
{
    match kind_of(table, to) {
        Shown::Kind(Kind::Integer(integer)) => {
            if is_same(table, from, to) {
                Ok(code)
            } else {
                narrowed(alloc, traits_of(integer).narrowing, code)
            }
        }
        _ => Ok(code),
    }
}

fn narrowed(alloc: Global, narrowing: Option<To>, code: Expr) -> Result<Expr, AllocError>
    ensures { IfOk result (λ e. e ≡ conversions.narrowed narrowing code) }
{
    match narrowing {
        Some(to) => convert(alloc, to, code),
        None => Ok(code),
    }
}

/// A value of this type, which may be a null pointer constant, may be assigned to an object of that type.
pub fn is_assignable(table: &TypeTable, to: Type, from: Type, is_null: bool) -> bool
    requires to { (t : types.CType) × IsType table.now to t }
    requires from { (u : types.CType) × IsType table.now from u }
    ensures { (t u : types.CType) → IsType table.now to t → IsType table.now from u → result ≡ conversions.is_assignable_by t u is_null }
{
    let source = kind_of(table, from);
    match kind_of(table, to) {
        Shown::Kind(kind) => takes(table, kind, source, is_null),
        Shown::Unsized(_) => false,
        Shown::ToUnsized(element) => unsized_pointer_takes(table, element, source, is_null),
    }
}

fn takes(table: &TypeTable, to: Kind, from: Shown, is_null: bool) -> bool
    requires to { (t : types.CType) × Shows table.now to t }
    requires from { (u : types.CType) × ShownAs table.now from u }
    ensures { (t u : types.CType) → Shows table.now to t → ShownAs table.now from u → result ≡ conversions.is_assignable_by t u is_null }
{
    match to {
        Kind::Integer(integer) => integer_takes(integer, from),
        Kind::Pointer(target) => pointer_takes(table, target, from, is_null),
        Kind::Struct(s) => struct_takes(table, s, from),
        _ => false,
    }
}

fn integer_takes(to: Integer, from: Shown) -> bool
    ensures { (k : Known) (u : types.CType) (is_null : Bool) → ShownAs k from u → result ≡ conversions.is_assignable_by (types.integer (integer_of to)) u is_null }
{
    match from {
        Shown::Kind(Kind::Integer(_)) => true,
        Shown::Kind(Kind::Pointer(_)) | Shown::ToUnsized(_) => matches!(to, Integer::Bool),
        _ => false,
    }
}

fn pointer_takes(table: &TypeTable, target: TypeId, from: Shown, is_null: bool) -> bool
    requires target { IsThere table.now.table target }
    requires from { (u : types.CType) × ShownAs table.now from u }
    ensures { (t u : types.CType) → Names table.now target t → ShownAs table.now from u → result ≡ conversions.is_assignable_by (types.pointer t) u is_null }
{
    match from {
        Shown::Kind(Kind::Pointer(source)) => {
            table.is_same(target, source)
                || is_void(table, target)
                || is_void(table, source)
                || is_null
        }
        Shown::ToUnsized(_) => is_void(table, target) || is_null,
        _ => is_null,
    }
}

// A pointer to an array without a length, which has these elements.
fn unsized_pointer_takes(table: &TypeTable, element: TypeId, from: Shown, is_null: bool) -> bool
    requires { (u : types.CType) × ShownAs table.now from u }
    ensures { (t u : types.CType) → Names table.now element t → ShownAs table.now from u →
        result ≡ conversions.is_assignable_by (types.pointer (types.unsized t)) u is_null }
{
    match from {
        Shown::ToUnsized(other) => table.is_same(element, other) || is_null,
        Shown::Kind(Kind::Pointer(source)) => is_void(table, source) || is_null,
        _ => is_null,
    }
}

fn struct_takes(table: &TypeTable, to: StructId, from: Shown) -> bool
    ensures { (node : ℕ) (u : types.CType) (is_null : Bool) → struct_by table.now.structs node ≡ Some to → ShownAs table.now from u →
        result ≡ conversions.is_assignable_by (types.struct node) u is_null }
{
    match from {
        Shown::Kind(Kind::Struct(s)) => table.is_same_struct(to, s),
        _ => false,
    }
}

/// The type is `void`.
pub fn is_void(table: &TypeTable, id: TypeId) -> bool
    requires { IsThere table.now.table id }
    ensures { (t : types.CType) → Names table.now id t → result ≡ types.is_void t }
{
    matches!(table.kind(id), Kind::Void)
}
