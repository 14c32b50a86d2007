// Types by their ids, codes, and values.

use c_constants::Constant;
use c_type_ids::{Integer, TypeTable};
use c_types::{Expr, TypeFault, TypeList};
use c_values::{
    Form, Type, Typing, binary, both, choose, convert, converted, copy, either, load, seq,
    set_local, store, value_of,
};
use cp_base::{Kind as Access, To};
use std::alloc::{AllocError, Global};

// The size of a pointer to a function that takes nothing and gives nothing.
fn size_of_pointer(alloc: Global) -> Result<Option<u32>, AllocError> {
    let mut table = TypeTable::new(alloc, 1)?;
    let void = table.void()?;
    let function = table.function(void, TypeList::new(alloc))?;
    let pointer = table.pointer(function)?;
    Ok(table.size(pointer))
}

#[test]
fn pointers(rt: HostRuntime) {
    assert!(rt; matches!(size_of_pointer(rt.alloc()), Ok(Some(4))));
}

fn size_of_struct(alloc: Global) -> Result<Option<u32>, AllocError> {
    let mut table = TypeTable::new(alloc, 1)?;
    let id = table.structure(0)?;
    Ok(table.size(id))
}

#[test]
fn structs_without_members(rt: HostRuntime) {
    assert!(rt; matches!(size_of_struct(rt.alloc()), Ok(None)));
}

// The size of three `short`s.
fn size_of_array(alloc: Global) -> Result<Option<u32>, TypeFault> {
    let mut table = TypeTable::new(alloc, 0)?;
    let short = table.integer(Integer::Short)?;
    if table.size(short).is_none() {
        return Ok(None);
    }
    let array = table.array(short, 3)?;
    Ok(table.size(array))
}

#[test]
fn arrays(rt: HostRuntime) {
    assert!(rt; matches!(size_of_array(rt.alloc()), Ok(Some(6))));
}

// The value of a `short` in memory.
fn read(alloc: Global) -> Result<Typing, AllocError> {
    let mut table = TypeTable::new(alloc, 0)?;
    let short = table.integer(Integer::Short)?;
    let typing = Typing {
        kind: Type::Known(short),
        form: Form::InMemory,
        constant: Constant::None,
        code: Expr::Address(0, 2),
    };
    value_of(alloc, &mut table, typing)
}

#[test]
fn a_value_is_read(rt: HostRuntime) {
    assert!(rt;
        matches!(
            read(rt.alloc()),
            Ok(Typing {
                form: Form::Value,
                code: Expr::Load(Access::I16, _),
                ..
            })
        )
    );
}

// The code of an `int` that becomes a `short`.
fn narrowed(alloc: Global) -> Result<Expr, AllocError> {
    let mut table = TypeTable::new(alloc, 0)?;
    let int = table.integer(Integer::Int)?;
    let short = table.integer(Integer::Short)?;
    converted(
        alloc,
        &table,
        Type::Known(int),
        Type::Known(short),
        Expr::Local(0),
    )
}

#[test]
fn a_value_is_narrowed(rt: HostRuntime) {
    assert!(rt; matches!(narrowed(rt.alloc()), Ok(Expr::Convert(To::I16, _))));
}

// An expression of each form that is made of parts.
fn all_forms(alloc: Global) -> Result<Expr, AllocError> {
    let sum = binary(alloc, c_types::COp::AddU, Expr::Local(0), Expr::Const(1))?;
    let narrow = convert(alloc, To::U8, sum)?;
    let kept = set_local(alloc, 1, narrow)?;
    let stored = store(alloc, Access::W32, Expr::Address(0, 0), kept)?;
    let loaded = load(alloc, Access::W32, Expr::Address(0, 0))?;
    let pair = seq(alloc, stored, loaded)?;
    let test = both(alloc, Expr::Local(0), Expr::Local(1))?;
    let tests = either(alloc, test, Expr::Local(2))?;
    let copied = copy(alloc, 4, 4, Expr::Address(0, 0), Expr::Address(1, 0))?;
    choose(alloc, tests, pair, copied)
}

#[test]
fn forms(rt: HostRuntime) {
    assert!(rt; matches!(all_forms(rt.alloc()), Ok(Expr::Choose(..))));
}
