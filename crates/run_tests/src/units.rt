// The units of the rows.
ghost use Rattle.std.specs.Prelude.{◌≡◌, IfOk, OnOk, [], ◌∷◌, ◌++◌};
ghost use Rattle.run_tests.specs.Units as units;

use crate::build::{
    binary, boxed, call, constant, function, give, local, name_of, raise, set, start_at,
};
use c_types::{
    COp, Cell, CellValue, Cells, Expr, Func, Funcs, Group, Groups, Kind, Object, Objects, Stmt,
    Stmts, Unit, Words,
};
use sqlite_items::Boxed;
use std::alloc::{AllocError, Global};

#[derive(Clone, Copy)]
pub enum Row {
    EndlessX,
    SignedOverflow,
    Echo,
    EmptyMain,
    NullLoad,
    UnsetLocal,
    Factorial,
    SwitchFallsThrough,
    StructCopy,
}

pub fn unit_of(alloc: Global, row: Row) -> Result<Unit, AllocError>
    ensures { IfOk result units.Fits }
{
    match row {
        Row::EndlessX => endless_x(alloc),
        Row::SignedOverflow => signed_overflow(alloc),
        Row::Echo => echo(alloc),
        Row::EmptyMain => empty_main(alloc),
        Row::NullLoad => null_load(alloc),
        Row::UnsetLocal => unset_local(alloc),
        Row::Factorial => factorial(alloc),
        Row::SwitchFallsThrough => switch_falls_through(alloc),
        Row::StructCopy => struct_copy(alloc),
    }
}

fn main_alone(alloc: Global, locals: usize, stmts: Stmts) -> Result<Unit, AllocError>
    ensures { IfOk result (λ u. u ≡ units.main_alone locals stmts) }
{
    let mut functions = Funcs::new(alloc);
    functions.push(function(alloc, "main", 0, locals, stmts)?)?;
    Ok(Unit {
        objects: Objects::new(alloc),
        functions,
    })
}

fn f_and_main(alloc: Global, locals: usize, body: Stmts, stmts: Stmts) -> Result<Unit, AllocError>
    ensures { IfOk result (λ u. u ≡ units.f_and_main locals body stmts) }
{
    let mut functions = Funcs::new(alloc);
    functions.push(function(alloc, "f", 1, locals, body)?)?;
    functions.push(function(alloc, "main", 0, 0, stmts)?)?;
    Ok(Unit {
        objects: Objects::new(alloc),
        functions,
    })
}

fn one(alloc: Global, stmt: Stmt) -> Result<Stmts, AllocError>
    ensures { IfOk result (λ ss. ss ≡ stmt ∷ []) }
{
    let mut stmts = Stmts::new(alloc);
    stmts.push(stmt)?;
    Ok(stmts)
}

fn two(alloc: Global, first: Stmt, second: Stmt) -> Result<Stmts, AllocError>
    ensures { IfOk result (λ ss. ss ≡ first ∷ second ∷ []) }
{
    let mut stmts = one(alloc, first)?;
    stmts.push(second)?;
    Ok(stmts)
}

fn empty_main(alloc: Global) -> Result<Unit, AllocError>
    ensures { IfOk result (λ u. u ≡ units.empty_main) }
{
    main_alone(alloc, 0, Stmts::new(alloc))
}

fn endless_x(alloc: Global) -> Result<Unit, AllocError>
    ensures { IfOk result (λ u. u ≡ units.endless_x) }
{
    let write = boxed(alloc, Expr::PutChar(constant(alloc, 120)?))?;
    let body = Boxed::new(alloc, Stmt::Drop(write))?;
    main_alone(alloc, 0, one(alloc, Stmt::Loop(None, None, body))?)
}

fn signed_overflow(alloc: Global) -> Result<Unit, AllocError>
    ensures { IfOk result (λ u. u ≡ units.signed_overflow) }
{
    let sum = binary(alloc, COp::AddS, local(alloc, 0)?, constant(alloc, 1)?)?;
    let first = start_at(alloc, 0, 2_147_483_647)?;
    main_alone(alloc, 1, two(alloc, first, give(sum))?)
}

fn echo(alloc: Global) -> Result<Unit, AllocError>
    ensures { IfOk result (λ u. u ≡ units.echo) }
{
    let read = set(alloc, 0, boxed(alloc, Expr::GetChar)?)?;
    let test = binary(alloc, COp::Ne, read, constant(alloc, u32::MAX)?)?;
    let write = boxed(alloc, Expr::PutChar(local(alloc, 0)?))?;
    let body = Boxed::new(alloc, Stmt::Drop(write))?;
    let last = give(constant(alloc, 0)?);
    main_alone(
        alloc,
        1,
        two(alloc, Stmt::Loop(Some(test), None, body), last)?,
    )
}

fn null_load(alloc: Global) -> Result<Unit, AllocError>
    ensures { IfOk result (λ u. u ≡ units.null_load) }
{
    let value = boxed(alloc, Expr::Load(Kind::W32, local(alloc, 0)?))?;
    main_alone(alloc, 1, two(alloc, start_at(alloc, 0, 0)?, give(value))?)
}

fn unset_local(alloc: Global) -> Result<Unit, AllocError>
    ensures { IfOk result (λ u. u ≡ units.unset_local) }
{
    let value = local(alloc, 0)?;
    main_alone(alloc, 1, two(alloc, Stmt::Unset(0), give(value))?)
}

fn factorial(alloc: Global) -> Result<Unit, AllocError>
    ensures { IfOk result (λ u. u ≡ units.factorial) }
{
    let test = binary(alloc, COp::LtS, local(alloc, 0)?, constant(alloc, 2)?)?;
    let less = Expr::Binary(COp::SubS, local(alloc, 0)?, constant(alloc, 1)?);
    let product = binary(alloc, COp::MulS, local(alloc, 0)?, call(alloc, 0, less)?)?;
    let value = boxed(alloc, Expr::Choose(test, constant(alloc, 1)?, product))?;
    let start = call(alloc, 0, Expr::Const(5))?;
    f_and_main(alloc, 1, one(alloc, give(value))?, one(alloc, give(start))?)
}

fn group(alloc: Global, label: Option<u32>, body: Stmts) -> Result<Group, AllocError>
    ensures { IfOk result (λ g. g ≡ units.group (units.labels_of label) (units.is_default label) body) }
{
    let mut labels = Words::new(alloc);
    if let Some(label) = label {
        labels.push(label)?;
    }
    Ok(Group {
        labels,
        other: label.is_none(),
        body,
    })
}

fn group_of_one(alloc: Global, label: Option<u32>, stmt: Stmt) -> Result<Group, AllocError>
    ensures { IfOk result (λ g. g ≡ units.group (units.labels_of label) (units.is_default label) (stmt ∷ [])) }
{
    group(alloc, label, one(alloc, stmt)?)
}

// `case 2:r+=10;break;`
fn breaking_group(alloc: Global) -> Result<Group, AllocError>
    ensures { IfOk result (λ g. g ≡ units.breaking_group) }
{
    group(
        alloc,
        Some(2),
        two(alloc, raise(alloc, 1, 10)?, Stmt::Break)?,
    )
}

// The last two groups.
fn last_groups(alloc: Global, groups: &mut Groups) -> Result<(), AllocError>
    ensures { OnOk result (groups.new ≡ groups.old ++ units.last_groups) }
{
    groups.push(group_of_one(alloc, None, start_at(alloc, 1, 100)?)?)?;
    groups.push(group_of_one(alloc, Some(7), raise(alloc, 1, 1)?)?)
}

fn falling_groups(alloc: Global) -> Result<Groups, AllocError>
    ensures { IfOk result (λ gs. gs ≡ units.falling_groups) }
{
    let mut groups = Groups::new(alloc);
    groups.push(group_of_one(alloc, Some(1), raise(alloc, 1, 1)?)?)?;
    groups.push(breaking_group(alloc)?)?;
    last_groups(alloc, &mut groups)?;
    Ok(groups)
}

fn falling_calls(alloc: Global) -> Result<Boxed<Expr>, AllocError>
    ensures { IfOk result (λ e. e ≡ units.falling_calls) }
{
    let first = call(alloc, 0, Expr::Const(1))?;
    let two = binary(alloc, COp::AddS, first, call(alloc, 0, Expr::Const(2))?)?;
    let three = binary(alloc, COp::AddS, two, call(alloc, 0, Expr::Const(7))?)?;
    binary(alloc, COp::AddS, three, call(alloc, 0, Expr::Const(3))?)
}

fn switch_falls_through(alloc: Global) -> Result<Unit, AllocError>
    ensures { IfOk result (λ u. u ≡ units.switch_falls_through) }
{
    let groups = falling_groups(alloc)?;
    let mut body = two(
        alloc,
        start_at(alloc, 1, 0)?,
        Stmt::Switch(local(alloc, 0)?, groups),
    )?;
    body.push(give(local(alloc, 1)?))?;
    let sum = falling_calls(alloc)?;
    f_and_main(alloc, 2, body, one(alloc, give(sum))?)
}

fn object(alloc: Global, text: &str, cells: Cells) -> Result<Object, AllocError>
    ensures { IfOk result (λ o. o ≡ units.pair_object text.now cells) }
{
    let name = name_of(alloc, text)?;
    Ok(Object {
        name,
        size: 8,
        align: 4,
        cells,
    })
}

fn pair_objects(alloc: Global) -> Result<Objects, AllocError>
    ensures { IfOk result (λ os. os ≡ units.pair_objects) }
{
    let mut cells = Cells::new(alloc);
    cells.push(Cell {
        offset: 0,
        width: 1,
        value: CellValue::Number(1),
    })?;
    cells.push(Cell {
        offset: 4,
        width: 4,
        value: CellValue::Number(20),
    })?;
    let mut objects = Objects::new(alloc);
    objects.push(object(alloc, "a", cells)?)?;
    objects.push(object(alloc, "b", Cells::new(alloc))?)?;
    Ok(objects)
}

fn place_of(alloc: Global, number: usize) -> Result<Boxed<Expr>, AllocError>
    ensures { IfOk result (λ e. e ≡ units.place_of number) }
{
    boxed(alloc, Expr::Address(number, 0))
}

fn member_x(alloc: Global, at: Boxed<Expr>) -> Result<Boxed<Expr>, AllocError>
    ensures { IfOk result (λ e. e ≡ units.member_x at) }
{
    binary(alloc, COp::AddU, at, constant(alloc, 4)?)
}

fn loaded_x(alloc: Global, at: Boxed<Expr>) -> Result<Boxed<Expr>, AllocError>
    ensures { IfOk result (λ e. e ≡ units.loaded_x at) }
{
    boxed(alloc, Expr::Load(Kind::W32, member_x(alloc, at)?))
}

// `b=a`
fn copied_again(alloc: Global) -> Result<Boxed<Expr>, AllocError>
    ensures { IfOk result (λ e. e ≡ units.copied_again) }
{
    let to = place_of(alloc, 1)?;
    let from = place_of(alloc, 0)?;
    boxed(alloc, Expr::Copy(8, 4, to, from))
}

// `b.x+b.c+(b=a).x`
fn copied_sum(alloc: Global) -> Result<Boxed<Expr>, AllocError>
    ensures { IfOk result (λ e. e ≡ units.copied_sum) }
{
    let number = loaded_x(alloc, place_of(alloc, 1)?)?;
    let byte = boxed(alloc, Expr::Load(Kind::U8, place_of(alloc, 1)?))?;
    let sum = binary(alloc, COp::AddS, number, byte)?;
    binary(
        alloc,
        COp::AddS,
        sum,
        loaded_x(alloc, copied_again(alloc)?)?,
    )
}

// `struct p*q=&b;`
fn pointed(alloc: Global) -> Result<Stmt, AllocError>
    ensures { IfOk result (λ s. s ≡ units.pointed) }
{
    Ok(Stmt::Drop(set(alloc, 0, place_of(alloc, 1)?)?))
}

// `*q=a;`
fn copied(alloc: Global) -> Result<Stmt, AllocError>
    ensures { IfOk result (λ s. s ≡ units.copied) }
{
    let to = local(alloc, 0)?;
    let from = place_of(alloc, 0)?;
    Ok(Stmt::Drop(boxed(alloc, Expr::Copy(8, 4, to, from))?))
}

// `a.x=3;`
fn stored(alloc: Global) -> Result<Stmt, AllocError>
    ensures { IfOk result (λ s. s ≡ units.stored) }
{
    let at = member_x(alloc, place_of(alloc, 0)?)?;
    let three = constant(alloc, 3)?;
    Ok(Stmt::Drop(boxed(alloc, Expr::Store(Kind::W32, at, three))?))
}

fn pair_stmts(alloc: Global) -> Result<Stmts, AllocError>
    ensures { IfOk result (λ ss. ss ≡ units.pair_stmts) }
{
    let mut stmts = Stmts::new(alloc);
    stmts.push(pointed(alloc)?)?;
    stmts.push(copied(alloc)?)?;
    stmts.push(stored(alloc)?)?;
    stmts.push(give(copied_sum(alloc)?))?;
    Ok(stmts)
}

fn struct_copy(alloc: Global) -> Result<Unit, AllocError>
    ensures { IfOk result (λ u. u ≡ units.struct_copy) }
{
    let objects = pair_objects(alloc)?;
    let mut functions = Funcs::new(alloc);
    functions.push(function(alloc, "main", 0, 1, pair_stmts(alloc)?)?)?;
    Ok(Unit { objects, functions })
}
