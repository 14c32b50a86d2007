// Runs up to the next turn.
ghost use Rattle.std.specs.Prelude.{◌≡◌, ◌↔◌, [], IsTrue, IfOk};
ghost use Rattle.c_interpreter.specs.Machine.{seen, IsSound};
ghost use Rattle.c_interpreter.specs.Leading.{Leads, Reaches, Pauses, IsPlaced};

use crate::frame::{Ending, Task};
use crate::machine::{Machine, Place};
use std::alloc::AllocError;

impl<'u> Machine<'u> {
    /// Steps up to the next pause.
    pub fn run_on(&mut self, place: &Place<'u>, start: Task<'u>) -> Result<Task<'u>, AllocError>
        requires placed { IsPlaced place.now }
        requires sound { IsSound (seen self.old) }
        ensures reached { IfOk result (λ task. Reaches place.now (seen self.old) start.entry (seen self.new) task) }
        ensures pauses { IfOk result (λ task. Pauses (seen self.new) task) }
    {
        let mut task = start;
        'steps: while !self.pauses(task) {
            task = self.step(place, task)?;
        }
        Ok(task)
    }

    fn pauses(&self, task: Task<'u>) -> bool
        ensures { IsTrue result ↔ Pauses (seen self.now) task.entry }
    {
        match task {
            Task::Turn(_) | Task::Call(_) | Task::Stop(_) => true,
            Task::Value(_) | Task::Values | Task::Ending(_) => self.frames.is_empty(),
            _ => false,
        }
    }

    fn step(&mut self, place: &Place<'u>, task: Task<'u>) -> Result<Task<'u>, AllocError>
        requires placed { IsPlaced place.now }
        requires sound { IsSound (seen self.old) }
        requires runs { Pauses (seen self.old) task → ⊥ }
        ensures { IfOk result (λ next. Leads place.now (seen self.old) task.entry (seen self.new) next) }
    {
        match task {
            Task::Expr(expr) => self.open_expr(place, expr),
            Task::Exprs(exprs) => self.open_exprs(place, exprs),
            Task::Stmt(stmt) => self.open_stmt(place, stmt),
            Task::Stmts(stmts) => self.open_stmts(place, stmts),
            Task::Groups(skipped, groups) => self.open_groups(place, skipped, groups),
            Task::Value(word) => self.pass_value(place, word),
            Task::Values => self.pass_values(place),
            Task::Ending(ending) => self.pass_ending(place, ending),
            Task::Turn(_) | Task::Call(_) | Task::Stop(_) => unreachable!(),
        }
    }

    fn pass_value(&mut self, place: &Place<'u>, word: Option<u32>) -> Result<Task<'u>, AllocError>
        requires sound { IsSound (seen self.old) }
        requires runs { self.old.frames.items ≡ [] → ⊥ }
        ensures { IfOk result (λ next. Leads place.now (seen self.old) (Task.Value word) (seen self.new) next) }
    {
        match self.pop() {
            Some(frame) => self.give(place, frame, word),
            None => unreachable!(),
        }
    }

    fn pass_values(&mut self, place: &Place<'u>) -> Result<Task<'u>, AllocError>
        requires sound { IsSound (seen self.old) }
        requires runs { self.old.frames.items ≡ [] → ⊥ }
        ensures { IfOk result (λ next. Leads place.now (seen self.old) Task.Values (seen self.new) next) }
    {
        match self.pop() {
            Some(frame) => self.gather(place, frame),
            None => unreachable!(),
        }
    }

    fn pass_ending(&mut self, place: &Place<'u>, ending: Ending) -> Result<Task<'u>, AllocError>
        requires sound { IsSound (seen self.old) }
        requires runs { self.old.frames.items ≡ [] → ⊥ }
        ensures { IfOk result (λ next. Leads place.now (seen self.old) (Task.Ending ending) (seen self.new) next) }
    {
        match self.pop() {
            Some(frame) => self.finish(place, frame, ending),
            None => unreachable!(),
        }
    }
}
