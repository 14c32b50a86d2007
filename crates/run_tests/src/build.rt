// Nodes of typed trees, functions and units.
ghost use Rattle.std.specs.Prelude.{◌≡◌, IfOk, Some, true};
ghost use Rattle.c_types.specs.declared.tree.Expr.TheVariants as expr;
ghost use Rattle.c_types.specs.declared.tree.Stmt.TheVariants as stmt;
ghost use Rattle.run_tests.specs.Units as units;

use c_types::{COp, Expr, Exprs, Func, Stmt, Stmts};
use cp_base::Name;
use sqlite_items::Boxed;
use std::alloc::{AllocError, Global};

pub fn boxed(alloc: Global, item: Expr) -> Result<Boxed<Expr>, AllocError>
    ensures { IfOk result (λ e. e ≡ item) }
{
    Boxed::new(alloc, item)
}

pub fn local(alloc: Global, number: usize) -> Result<Boxed<Expr>, AllocError>
    ensures { IfOk result (λ e. e ≡ expr.Local number) }
{
    boxed(alloc, Expr::Local(number))
}

pub fn constant(alloc: Global, word: u32) -> Result<Boxed<Expr>, AllocError>
    ensures { IfOk result (λ e. e ≡ expr.Const word) }
{
    boxed(alloc, Expr::Const(word))
}

pub fn binary(
    alloc: Global,
    operator: COp,
    left: Boxed<Expr>,
    right: Boxed<Expr>,
) -> Result<Boxed<Expr>, AllocError>
    ensures { IfOk result (λ e. e ≡ expr.Binary operator left right) }
{
    boxed(alloc, Expr::Binary(operator, left, right))
}

pub fn set(alloc: Global, number: usize, value: Boxed<Expr>) -> Result<Boxed<Expr>, AllocError>
    ensures { IfOk result (λ e. e ≡ expr.SetLocal number value) }
{
    boxed(alloc, Expr::SetLocal(number, value))
}

// A local is set to a constant.
pub fn start_at(alloc: Global, number: usize, word: u32) -> Result<Stmt, AllocError>
    ensures { IfOk result (λ s. s ≡ units.start_at number word) }
{
    let word = constant(alloc, word)?;
    Ok(Stmt::Drop(set(alloc, number, word)?))
}

// A constant is added to a local.
pub fn raise(alloc: Global, number: usize, word: u32) -> Result<Stmt, AllocError>
    ensures { IfOk result (λ s. s ≡ units.raise number word) }
{
    let old = local(alloc, number)?;
    let word = constant(alloc, word)?;
    let sum = binary(alloc, COp::AddS, old, word)?;
    Ok(Stmt::Drop(set(alloc, number, sum)?))
}

// A call with one argument.
pub fn call(alloc: Global, function: usize, argument: Expr) -> Result<Boxed<Expr>, AllocError>
    ensures { IfOk result (λ e. e ≡ units.call_with function argument) }
{
    let mut arguments = Exprs::new(alloc);
    arguments.push(argument)?;
    boxed(alloc, Expr::Call(function, arguments))
}

pub fn give(value: Boxed<Expr>) -> Stmt
    ensures { result ≡ stmt.Return (Some value) }
{
    Stmt::Return(Some(value))
}

pub fn name_of(alloc: Global, text: &str) -> Result<Name, AllocError>
    ensures { IfOk result (λ name. name ≡ text.now) }
{
    let mut name = Name::new(alloc);
    name.push_all(text)?;
    Ok(name)
}

pub fn function(
    alloc: Global,
    text: &str,
    params: usize,
    locals: usize,
    stmts: Stmts,
) -> Result<Func, AllocError>
    ensures { IfOk result (λ f. f ≡ units.function text.now params locals stmts) }
{
    let name = name_of(alloc, text)?;
    Ok(Func {
        name,
        params,
        locals,
        gives: true,
        body: Stmt::Block(stmts),
    })
}
