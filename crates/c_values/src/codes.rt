// Expressions of a typed tree, from their parts.
ghost use Rattle.std.specs.Prelude.{◌≡◌, IfOk};
ghost use Rattle.c_types.specs.Forms as forms;

use c_types::{COp, Expr};
use cp_base::{Kind, To};
use sqlite_items::Boxed;
use std::alloc::{AllocError, Global};

pub fn load(alloc: Global, kind: Kind, at: Expr) -> Result<Expr, AllocError>
    ensures { IfOk result (λ e. e ≡ forms.load kind at) }
{
    Ok(Expr::Load(kind, Boxed::new(alloc, at)?))
}

pub fn store(alloc: Global, kind: Kind, at: Expr, value: Expr) -> Result<Expr, AllocError>
    ensures { IfOk result (λ e. e ≡ forms.store kind at value) }
{
    let at = Boxed::new(alloc, at)?;
    let value = Boxed::new(alloc, value)?;
    Ok(Expr::Store(kind, at, value))
}

pub fn set_local(alloc: Global, local: usize, value: Expr) -> Result<Expr, AllocError>
    ensures { IfOk result (λ e. e ≡ forms.set_local local value) }
{
    Ok(Expr::SetLocal(local, Boxed::new(alloc, value)?))
}

pub fn binary(alloc: Global, operator: COp, left: Expr, right: Expr) -> Result<Expr, AllocError>
    ensures { IfOk result (λ e. e ≡ forms.binary operator left right) }
{
    let left = Boxed::new(alloc, left)?;
    let right = Boxed::new(alloc, right)?;
    Ok(Expr::Binary(operator, left, right))
}

pub fn convert(alloc: Global, to: To, value: Expr) -> Result<Expr, AllocError>
    ensures { IfOk result (λ e. e ≡ forms.convert to value) }
{
    Ok(Expr::Convert(to, Boxed::new(alloc, value)?))
}

pub fn both(alloc: Global, left: Expr, right: Expr) -> Result<Expr, AllocError>
    ensures { IfOk result (λ e. e ≡ forms.both left right) }
{
    let left = Boxed::new(alloc, left)?;
    let right = Boxed::new(alloc, right)?;
    Ok(Expr::Both(left, right))
}

pub fn either(alloc: Global, left: Expr, right: Expr) -> Result<Expr, AllocError>
    ensures { IfOk result (λ e. e ≡ forms.either left right) }
{
    let left = Boxed::new(alloc, left)?;
    let right = Boxed::new(alloc, right)?;
    Ok(Expr::Either(left, right))
}

pub fn seq(alloc: Global, left: Expr, right: Expr) -> Result<Expr, AllocError>
    ensures { IfOk result (λ e. e ≡ forms.seq left right) }
{
    let left = Boxed::new(alloc, left)?;
    let right = Boxed::new(alloc, right)?;
    Ok(Expr::Seq(left, right))
}

pub fn choose(alloc: Global, condition: Expr, then: Expr, other: Expr) -> Result<Expr, AllocError>
    ensures { IfOk result (λ e. e ≡ forms.choose condition then other) }
{
    let condition = Boxed::new(alloc, condition)?;
    let then = Boxed::new(alloc, then)?;
    let other = Boxed::new(alloc, other)?;
    Ok(Expr::Choose(condition, then, other))
}

pub fn copy(alloc: Global, size: u32, align: u32, to: Expr, from: Expr) -> Result<Expr, AllocError>
    ensures { IfOk result (λ e. e ≡ forms.copy size align to from) }
{
    let to = Boxed::new(alloc, to)?;
    let from = Boxed::new(alloc, from)?;
    Ok(Expr::Copy(size, align, to, from))
}
