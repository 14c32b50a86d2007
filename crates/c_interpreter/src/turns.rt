// Turns, and the starts of calls.
ghost use Rattle.std.specs.Prelude.{◌≡◌, ◌<◌, ◌++◌, IfOk, OnOk, Some, None, map, replicate, reverse};
ghost use Rattle.c_interpreter.specs.Machine.{seen, flow_of, IsSound};
ghost use Rattle.c_meaning.specs.Runs.{status_of};
ghost use Rattle.c_interpreter.specs.Leading.{Advances, Nears, Pauses};

use crate::frame::{Ending, Frame, Task};
use crate::machine::{Machine, Place};
use c_types::{Func, Stmt};
use run_model::Outcome;
use std::alloc::AllocError;

impl<'u> Machine<'u> {
    #[tactic(auto, using(crate::proofs::TurnLaws::no_turn, crate::proofs::TurnLaws::turn_taken))]
    pub fn take_turn(&mut self, place: &Place<'u>, stmt: &'u Stmt) -> Task<'u>
        requires { IsSound (seen self.old) }
        ensures { Advances place.now (seen self.old) (Task.Turn stmt.entry) (seen self.new) result }
    {
        if self.turns == 0 {
            return Task::Stop(Outcome::Running);
        }
        self.turns -= 1;
        Task::Stmt(stmt)
    }

    /// Calls the function with the arguments that were gathered.
    #[tactic(auto, using(crate::proofs::TurnLaws::too_deep, crate::proofs::TurnLaws::no_turn_call))]
    pub fn call(&mut self, place: &Place<'u>, function: &'u Func) -> Result<Task<'u>, AllocError>
        requires { IsSound (seen self.old) }
        ensures { IfOk result (λ next. Advances place.now (seen self.old) (Task.Call function.entry) (seen self.new) next) }
    {
        if self.active >= place.depth {
            return Ok(Task::Stop(Outcome::Deep));
        }
        if self.turns == 0 {
            return Ok(Task::Stop(Outcome::Running));
        }
        self.enter(place, function)
    }

    fn enter(&mut self, place: &Place<'u>, function: &'u Func) -> Result<Task<'u>, AllocError>
        requires sound { IsSound (seen self.old) }
        requires allowed { self.old.active < place.now.depth }
        requires some { 0 < self.old.turns }
        ensures { IfOk result (λ next. Advances place.now (seen self.old) (Task.Call function.entry) (seen self.new) next) }
    {
        let to = self.words.len();
        let unset = function.locals.saturating_sub(self.arguments.len());
        self.frames
            .push(Frame::Call(function, self.base, to, self.active))?;
        move_arguments(&mut self.arguments, &mut self.words)?;
        push_unset(&mut self.words, unset)?;
        self.base = to;
        self.turns -= 1;
        self.active += 1;
        Ok(Task::Stmt(&function.body))
    }

    // What comes at a pause.
    #[tactic(auto, using(crate::proofs::RoundLaws::advanced_if, crate::proofs::RoundLaws::advanced, crate::proofs::RoundLaws::run_ended, crate::proofs::RoundLaws::value_left, crate::proofs::RoundLaws::values_left))]
    pub fn advance(&mut self, place: &Place<'u>, task: Task<'u>) -> Result<Task<'u>, AllocError>
        requires sound { IsSound (seen self.old) }
        requires pauses { Pauses (seen self.old) task }
        ensures { IfOk result (λ next. Nears place.now (seen self.old) task.entry (seen self.new) next) }
    {
        match task {
            Task::Turn(stmt) => Ok(self.take_turn(place, stmt)),
            Task::Call(function) => self.call(place, function),
            Task::Ending(ending) => Ok(Task::Stop(Outcome::Ended(status_of(ending)))),
            Task::Stop(outcome) => Ok(Task::Stop(outcome)),
            Task::Value(_) | Task::Values => Ok(Task::Stop(Outcome::Undefined)),
            _ => unreachable!(),
        }
    }
}

// The status of a run that ended so.
fn status_of(ending: Ending) -> u8
    ensures { result ≡ status_of (flow_of ending) }
{
    match ending {
        Ending::Returns(Some(word)) => (word % 256) as u8,
        _ => 0,
    }
}

// Moves the arguments behind the locals, the last one first.
fn move_arguments(arguments: &mut Vec<u32>, words: &mut Vec<Option<u32>>) -> Result<(), AllocError>
    ensures { OnOk result (words.new.items ≡ words.old.items ++ map Some (reverse arguments.old.items)) }
{
    'arguments: while let Some(word) = arguments.pop() {
        words.push(Some(word))?;
    }
    Ok(())
}

pub fn push_unset(words: &mut Vec<Option<u32>>, count: usize) -> Result<(), AllocError>
    ensures { OnOk result (words.new.items ≡ words.old.items ++ replicate count None) }
{
    for unset in 0..count {
        words.push(None)?;
    }
    Ok(())
}
