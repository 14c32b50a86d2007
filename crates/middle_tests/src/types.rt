// Sizes, alignments and offsets, given to the calls of `c_types`.
ghost use Rattle.std.specs.Prelude.{IfOk, OnOk};
ghost use Rattle.c_types.specs.Sizes.{IsSized, Table};
ghost use Rattle.c_types.specs.Tables.{IsStruct, IsThere, PartsAreThere};

use c_types::{StructId, TypeFault, TypeId, TypeKind, TypeList, Types};
use cp_base::Name;
use std::alloc::{AllocError, Global};
use std::test::Fail;

fn name_of(alloc: Global, text: &str) -> Result<Name, AllocError> {
    let mut name = Name::new(alloc);
    name.push_all(text)?;
    Ok(name)
}

// So many `char`s.
fn chars(types: &mut Types, count: u32) -> Result<TypeId, TypeFault>
    ensures there { IfOk result (λ id. IsThere types.new id) }
    ensures sized { IfOk result (λ id. IsSized types.new id) }
{
    let element = types.add(TypeKind::Char)?;
    let id = types.add(TypeKind::Array(element, count))?;
    Ok(id)
}

fn size_of_chars(alloc: Global, count: u32) -> Result<Option<u32>, TypeFault> {
    let mut types = Types::new(alloc);
    let id = chars(&mut types, count)?;
    Ok(types.size(id))
}

#[test]
fn arrays_up_to_the_limit(rt: HostRuntime) {
    let alloc = rt.alloc();
    assert!(rt; matches!(size_of_chars(alloc, 10), Ok(Some(10))));
    assert!(rt; matches!(size_of_chars(alloc, 16_777_216), Ok(Some(16_777_216))));
    assert!(rt;
        matches!(
            size_of_chars(alloc, 16_777_217),
            Err(TypeFault::TooBig { size: 16_777_217 })
        )
    );
    assert!(rt;
        matches!(
            size_of_chars(alloc, 4_294_967_295),
            Err(TypeFault::TooBig {
                size: 4_294_967_295
            })
        )
    );
}

// A struct with members `a`, `b` and `c` of these types.
fn struct_of(
    alloc: Global,
    types: &mut Types,
    a: TypeId,
    b: TypeId,
    c: TypeId,
) -> Result<StructId, TypeFault>
    requires a { IsSized types.old a }
    requires b { IsSized types.old b }
    requires c { IsSized types.old c }
    ensures { IfOk result (λ s. IsStruct types.new s) }
{
    let names = (
        name_of(alloc, "a")?,
        name_of(alloc, "b")?,
        name_of(alloc, "c")?,
    );
    let s = types.open_struct()?;
    let (one, two, three) = names;
    types.close_struct(s, &[(one, a), (two, b), (three, c)])?;
    Ok(s)
}

fn member_is(types: &Types, s: StructId, name: &str, wanted: Option<(u32, TypeId)>) -> bool
    requires { IsStruct types.now s }
{
    types.member(s, name) == wanted
}

// The struct of row 30: `struct s { char c; int i; short s; }`.
fn struct_size_is_12(alloc: Global) -> Result<bool, TypeFault> {
    let mut types = Types::new(alloc);
    let (c, i, s) = (
        types.add(TypeKind::Char)?,
        types.add(TypeKind::Int)?,
        types.add(TypeKind::Short)?,
    );
    let made = struct_of(alloc, &mut types, c, i, s)?;
    let members = member_is(&types, made, "a", Some((0, c)))
        && member_is(&types, made, "b", Some((4, i)))
        && member_is(&types, made, "c", Some((8, s)))
        && member_is(&types, made, "d", None);
    let id = types.add(TypeKind::Struct(made))?;
    Ok(members && types.size(id) == Some(12))
}

#[test]
fn struct_size(rt: HostRuntime) {
    assert!(rt; matches!(struct_size_is_12(rt.alloc()), Ok(true)));
}

// A struct of so many `char`s, and two more.
fn limit_struct(alloc: Global, count: u32) -> Result<(), TypeFault> {
    let mut types = Types::new(alloc);
    let many = chars(&mut types, count)?;
    let one = types.add(TypeKind::Char)?;
    struct_of(alloc, &mut types, many, one, one)?;
    Ok(())
}

#[test]
fn structs_up_to_the_limit(rt: HostRuntime) {
    assert!(rt; matches!(limit_struct(rt.alloc(), 16_777_214), Ok(())));
    assert!(rt;
        matches!(
            limit_struct(rt.alloc(), 16_777_215),
            Err(TypeFault::TooBig { size: 16_777_217 })
        )
    );
    assert!(rt;
        matches!(
            limit_struct(rt.alloc(), 16_777_216),
            Err(TypeFault::TooBig { size: 16_777_218 })
        )
    );
}

#[derive(Clone, Copy)]
enum Plain {
    Void,
    Bool,
    Char,
    SChar,
    UChar,
    Short,
    UShort,
    Int,
    UInt,
    Long,
    ULong,
}

fn kind_of(plain: Plain) -> TypeKind
    ensures { (t : Table) → PartsAreThere t result }
{
    match plain {
        Plain::Void => TypeKind::Void,
        Plain::Bool => TypeKind::Bool,
        Plain::Char => TypeKind::Char,
        Plain::SChar => TypeKind::SChar,
        Plain::UChar => TypeKind::UChar,
        Plain::Short => TypeKind::Short,
        Plain::UShort => TypeKind::UShort,
        Plain::Int => TypeKind::Int,
        Plain::UInt => TypeKind::UInt,
        Plain::Long => TypeKind::Long,
        Plain::ULong => TypeKind::ULong,
    }
}

// The size and the alignment of a type of this kind.
fn measured(alloc: Global, plain: Plain) -> Option<(u32, u32)> {
    let mut types = Types::new(alloc);
    let id = types.add(kind_of(plain)).ok()?;
    let size = types.size(id)?;
    Some((size, types.align(id)))
}

static PLAIN: [(Plain, Option<(u32, u32)>); 11] = [
    (Plain::Void, None),
    (Plain::Bool, Some((1, 1))),
    (Plain::Char, Some((1, 1))),
    (Plain::SChar, Some((1, 1))),
    (Plain::UChar, Some((1, 1))),
    (Plain::Short, Some((2, 2))),
    (Plain::UShort, Some((2, 2))),
    (Plain::Int, Some((4, 4))),
    (Plain::UInt, Some((4, 4))),
    (Plain::Long, Some((4, 4))),
    (Plain::ULong, Some((4, 4))),
];

#[test]
fn plain_types(rt: HostRuntime) {
    for (plain, wanted) in &PLAIN {
        assert!(rt; measured(rt.alloc(), *plain) == *wanted);
    }
}

// Types of one kind are one type, of different kinds they are two.
fn ids_are_shared(alloc: Global) -> Result<bool, TypeFault> {
    let mut types = Types::new(alloc);
    let a = types.add(TypeKind::Int)?;
    let b = types.add(TypeKind::Pointer(a))?;
    let again = types.add(TypeKind::Pointer(a))?;
    let is_pointer = matches!(types.kind(b), TypeKind::Pointer(to) if *to == a);
    Ok(a != b && again == b && is_pointer)
}

// The types of functions that take one `int`, one `int`, and nothing.
fn functions_are_shared(alloc: Global) -> Result<bool, TypeFault> {
    let mut types = Types::new(alloc);
    let int = types.add(TypeKind::Int)?;
    let mut takes = TypeList::new(alloc);
    takes.push(int)?;
    let mut same = TypeList::new(alloc);
    same.push(int)?;
    let one = types.add(TypeKind::Function(int, takes))?;
    let two = types.add(TypeKind::Function(int, same))?;
    let three = types.add(TypeKind::Function(int, TypeList::new(alloc)))?;
    Ok(one == two && one != three && types.size(three).is_none())
}

fn open_struct_has_no_size(alloc: Global) -> Result<bool, TypeFault> {
    let mut types = Types::new(alloc);
    let s = types.open_struct()?;
    let none = types.member(s, "a").is_none();
    let id = types.add(TypeKind::Struct(s))?;
    Ok(none && types.size(id).is_none())
}

#[test]
fn equal_kinds(rt: HostRuntime) {
    assert!(rt; matches!(ids_are_shared(rt.alloc()), Ok(true)));
    assert!(rt; matches!(functions_are_shared(rt.alloc()), Ok(true)));
    assert!(rt; matches!(open_struct_has_no_size(rt.alloc()), Ok(true)));
}
