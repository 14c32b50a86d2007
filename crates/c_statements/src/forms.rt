// Statements from their parts.
ghost use Rattle.std.specs.Prelude.{◌≡◌, ◌∷◌, [], IfOk, Option, Some, None};
ghost use Rattle.c_types.specs.Forms as forms;
ghost use Rattle.c_typing.specs.Statements as statements;

use c_types::{Expr, Groups, Stmt, Stmts};
use cp_base::Items;
use sqlite_items::Boxed;
use std::alloc::{AllocError, Global};

/// The one statement that they are, or a block of them.
pub fn as_one(stmts: Stmts) -> Stmt
    ensures { result ≡ statements.as_one stmts }
{
    let mut rest = stmts;
    if rest.len() != 1 {
        return Stmt::Block(rest);
    }
    match rest.pop() {
        Some(only) => only,
        None => Stmt::Block(rest),
    }
}

/// This statement alone.
pub fn one(alloc: Global, stmt: Stmt) -> Result<Stmts, AllocError>
    ensures { IfOk result (λ ss. ss ≡ stmt ∷ []) }
{
    let mut only = Items::new(alloc);
    only.push(stmt)?;
    Ok(only)
}

/// An expression whose value is dropped.
pub fn expression(alloc: Global, value: Expr) -> Result<Stmts, AllocError>
    ensures { IfOk result (λ ss. ss ≡ forms.drop_expr value ∷ []) }
{
    let value = Boxed::new(alloc, value)?;
    one(alloc, Stmt::Drop(value))
}

/// The declaration of a local without initializer.
pub fn unset(alloc: Global, local: usize) -> Result<Stmts, AllocError>
    ensures { IfOk result (λ ss. ss ≡ forms.unset local ∷ []) }
{
    one(alloc, Stmt::Unset(local))
}

/// `if`; without `else`, the other statement is an empty block.
pub fn conditional(
    alloc: Global,
    condition: Expr,
    then: Stmt,
    other: Stmt,
) -> Result<Stmts, AllocError>
    ensures { IfOk result (λ ss. ss ≡ forms.if_else condition then other ∷ []) }
{
    let condition = Boxed::new(alloc, condition)?;
    let then = Boxed::new(alloc, then)?;
    let other = Boxed::new(alloc, other)?;
    one(alloc, Stmt::If(condition, then, other))
}

/// `while` and `for` with what they test before each turn, and what they do after each.
pub fn loop_before(
    alloc: Global,
    test: Option<Expr>,
    step: Option<Expr>,
    body: Stmt,
) -> Result<Stmt, AllocError>
    ensures { IfOk result (λ s. s ≡ forms.loop test step body) }
{
    let test = boxed(alloc, test)?;
    let step = boxed(alloc, step)?;
    let body = Boxed::new(alloc, body)?;
    Ok(Stmt::Loop(test, step, body))
}

/// `do`.
pub fn loop_after(alloc: Global, body: Stmt, test: Expr) -> Result<Stmts, AllocError>
    ensures { IfOk result (λ ss. ss ≡ forms.do_loop body test ∷ []) }
{
    let body = Boxed::new(alloc, body)?;
    let test = Boxed::new(alloc, test)?;
    one(alloc, Stmt::DoLoop(body, test))
}

/// `return`.
pub fn return_of(alloc: Global, value: Option<Expr>) -> Result<Stmts, AllocError>
    ensures { IfOk result (λ ss. ss ≡ forms.return_with value ∷ []) }
{
    let value = boxed(alloc, value)?;
    one(alloc, Stmt::Return(value))
}

/// `switch`.
pub fn selection(alloc: Global, value: Expr, groups: Groups) -> Result<Stmts, AllocError>
    ensures { IfOk result (λ ss. ss ≡ forms.switch value (forms.length_of groups) (forms.group_row groups) ∷ []) }
{
    let value = Boxed::new(alloc, value)?;
    one(alloc, Stmt::Switch(value, groups))
}

fn boxed(alloc: Global, value: Option<Expr>) -> Result<Option<Boxed<Expr>>, AllocError>
    ensures { IfOk result (λ b. b ≡ value) }
{
    match value {
        Some(value) => Ok(Some(Boxed::new(alloc, value)?)),
        None => Ok(None),
    }
}
