// Steps of a run at statements.
ghost use Rattle.std.specs.Prelude.{◌≡◌, ℕ, ◌∷◌, [], IfOk, MatchOption, Some};
ghost use Rattle.c_interpreter.specs.Machine.{seen, IsSound};
ghost use Rattle.c_interpreter.specs.Leading.{Leads};

use crate::frame::{Ending, Frame, Task};
use crate::machine::{Machine, Place};
use c_types::{Expr, Group, Stmt};
use sqlite_items::Boxed;
use std::alloc::AllocError;

impl<'u> Machine<'u> {
    #[tactic(auto, using(crate::proofs::Locals::unset_done))]
    pub fn open_stmt(&mut self, place: &Place<'u>, stmt: &'u Stmt) -> Result<Task<'u>, AllocError>
        requires { IsSound (seen self.old) }
        ensures { IfOk result (λ next. Leads place.now (seen self.old) (Task.Stmt stmt.entry) (seen self.new) next) }
    {
        match stmt {
            Stmt::Block(stmts) => Ok(Task::Stmts(stmts.as_slice())),
            Stmt::Unset(local) => {
                self.set_local(*local, None);
                Ok(Task::Ending(Ending::Normal))
            }
            Stmt::Break => Ok(Task::Ending(Ending::Breaks)),
            Stmt::Continue => Ok(Task::Ending(Ending::Continues)),
            Stmt::Return(None) => Ok(Task::Ending(Ending::Returns(None))),
            Stmt::Return(Some(value)) => self.push(Frame::Return, Task::Expr(value.get())),
            Stmt::Drop(expr) => self.push(Frame::Drop, Task::Expr(expr.get())),
            Stmt::If(test, first, second) => {
                self.push(Frame::If(first.get(), second.get()), Task::Expr(test.get()))
            }
            Stmt::Switch(expr, groups) => {
                self.push(Frame::Switch(groups.as_slice()), Task::Expr(expr.get()))
            }
            Stmt::Loop(test, step, body) => self.open_loop(place, stmt, test, step, body.get()),
            Stmt::DoLoop(body, test) => {
                self.push(Frame::DoLoopBody(stmt, test.get()), Task::Stmt(body.get()))
            }
        }
    }

    fn open_loop(
        &mut self,
        place: &Place<'u>,
        stmt: &'u Stmt,
        test: &'u Option<Boxed<Expr>>,
        step: &'u Option<Boxed<Expr>>,
        body: &'u Stmt,
    ) -> Result<Task<'u>, AllocError>
        requires sound { IsSound (seen self.old) }
        requires is { stmt.now ≡ Stmt.Loop test.now step.now body.now }
        ensures { IfOk result (λ next. Leads place.now (seen self.old) (Task.Stmt stmt.entry) (seen self.new) next) }
    {
        match test {
            Some(test) => self.push(Frame::LoopTest(stmt, step, body), Task::Expr(test.get())),
            None => self.push(Frame::LoopBody(stmt, step), Task::Stmt(body)),
        }
    }

    pub fn open_stmts(
        &mut self,
        place: &Place<'u>,
        stmts: &'u [Stmt],
    ) -> Result<Task<'u>, AllocError>
        requires { IsSound (seen self.old) }
        ensures { IfOk result (λ next. Leads place.now (seen self.old) (Task.Stmts stmts.entry) (seen self.new) next) }
    {
        match split(stmts) {
            Some((first, rest)) if rest.is_empty() => Ok(Task::Stmt(first)),
            Some((first, rest)) => self.push(Frame::Stmts(rest), Task::Stmt(first)),
            None => Ok(Task::Ending(Ending::Normal)),
        }
    }

    pub fn open_groups(
        &mut self,
        place: &Place<'u>,
        skipped: usize,
        groups: &'u [Group],
    ) -> Result<Task<'u>, AllocError>
        requires { IsSound (seen self.old) }
        ensures { IfOk result (λ next. Leads place.now (seen self.old) (Task.Groups skipped groups.entry) (seen self.new) next) }
    {
        match split(groups) {
            Some((_, rest)) if skipped > 0 => Ok(Task::Groups(skipped - 1, rest)),
            Some((first, rest)) => {
                self.push(Frame::Groups(rest), Task::Stmts(first.body.as_slice()))
            }
            None => Ok(Task::Ending(Ending::Normal)),
        }
    }

    pub fn open_exprs(
        &mut self,
        place: &Place<'u>,
        exprs: &'u [Expr],
    ) -> Result<Task<'u>, AllocError>
        requires { IsSound (seen self.old) }
        ensures { IfOk result (λ next. Leads place.now (seen self.old) (Task.Exprs exprs.entry) (seen self.new) next) }
    {
        match split(exprs) {
            Some((first, rest)) => self.push(Frame::Arguments(rest), Task::Expr(first)),
            None => {
                self.arguments.clear();
                Ok(Task::Values)
            }
        }
    }
}

// The first item, and the others.
fn split<'u, T>(items: &'u [T]) -> Option<(&'u T, &'u [T])>
    ensures { MatchOption result (items.entry.now ≡ []) (λ parts. items.entry.now ≡ parts.0.now ∷ parts.1.now) }
{
    match items {
        [] => None,
        [first, rest @ ..] => Some((first, rest)),
    }
}
