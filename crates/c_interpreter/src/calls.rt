// Steps of a run at calls, and at the ends of statements.
ghost use Rattle.std.specs.Prelude.{◌≡◌, ℕ, ◌<◌, ◌≤◌, ◌+◌, ◌++◌, ◌∷◌, [], IfOk, OnOk, Some, None, reverse, take, map, replicate, length};
ghost use Rattle.c_meaning.specs.Meaning as meaning;
ghost use Rattle.c_interpreter.specs.Machine.{seen, with_frame, Gave, Gathered, Finished, flow_of, IsSound};
ghost use Rattle.c_interpreter.specs.Leading.{Leads, Continues};

use crate::frame::{Ending, Frame, Task};
use crate::machine::{Machine, Place};
use c_types::{Expr, Func, Stmt};
use run_model::Outcome;
use sqlite_items::Boxed;
use std::alloc::AllocError;

impl<'u> Machine<'u> {
    /// What the frame does with the values of arguments; the frame was taken away.
    #[tactic(auto, using(crate::proofs::CallLaws::argument_done))]
    pub fn gather(&mut self, place: &Place<'u>, frame: Frame<'u>) -> Result<Task<'u>, AllocError>
        requires { IsSound (seen self.old) }
        ensures { IfOk result (λ next. Continues place.now (seen self.old) frame.entry (Gathered (reverse self.old.arguments.items)) (seen self.new) next) }
    {
        match frame {
            Frame::Argument(word) => {
                self.arguments.push(word)?;
                Ok(Task::Values)
            }
            Frame::CallTo(function) => match place.unit.functions.get(function) {
                Some(function) => Ok(Task::Call(function)),
                None => Ok(Task::Stop(Outcome::Undefined)),
            },
            _ => Ok(Task::Stop(Outcome::Undefined)),
        }
    }

    /// What the frame does when the statement of its part ended; the frame was taken away.
    pub fn finish(
        &mut self,
        place: &Place<'u>,
        frame: Frame<'u>,
        ending: Ending,
    ) -> Result<Task<'u>, AllocError>
        requires sound { IsSound (seen self.old) }
        requires whole { IsSound (with_frame (seen self.old) frame) }
        ensures { IfOk result (λ next. Continues place.now (seen self.old) frame.entry (Finished (flow_of ending)) (seen self.new) next) }
    {
        match frame {
            Frame::SwitchEnd => Ok(Task::Ending(ended_by_break(ending))),
            Frame::Stmts(rest) => Ok(match ending {
                Ending::Normal => Task::Stmts(rest),
                _ => Task::Ending(ending),
            }),
            Frame::Groups(rest) => Ok(match ending {
                Ending::Normal => Task::Groups(0, rest),
                _ => Task::Ending(ending),
            }),
            Frame::LoopBody(whole, step) => self.end_body(place, whole, step, ending),
            Frame::DoLoopBody(whole, test) => match ending {
                Ending::Normal | Ending::Continues => {
                    self.push(Frame::DoLoopTest(whole), Task::Expr(test))
                }
                Ending::Breaks => Ok(Task::Ending(Ending::Normal)),
                Ending::Returns(_) => Ok(Task::Ending(ending)),
            },
            Frame::Call(function, from, to, active) => {
                self.words.truncate(to);
                self.base = from;
                self.active = active;
                Ok(Task::Value(value_of(function, ending)))
            }
            _ => Ok(Task::Stop(Outcome::Undefined)),
        }
    }

    fn end_body(
        &mut self,
        place: &Place<'u>,
        whole: &'u Stmt,
        step: &'u Option<Boxed<Expr>>,
        ending: Ending,
    ) -> Result<Task<'u>, AllocError>
        requires { IsSound (seen self.old) }
        ensures { IfOk result (λ next. Continues place.now (seen self.old) (Frame.LoopBody whole.entry step.entry) (Finished (flow_of ending)) (seen self.new) next) }
    {
        match ending {
            Ending::Normal | Ending::Continues => match step {
                Some(step) => self.push(Frame::LoopStep(whole), Task::Expr(step.get())),
                None => Ok(Task::Turn(whole)),
            },
            Ending::Breaks => Ok(Task::Ending(Ending::Normal)),
            Ending::Returns(_) => Ok(Task::Ending(ending)),
        }
    }
}

fn ended_by_break(ending: Ending) -> Ending
    ensures { flow_of result ≡ meaning.ended_by_break (flow_of ending) }
{
    match ending {
        Ending::Breaks => Ending::Normal,
        other => other,
    }
}

fn value_of(function: &Func, ending: Ending) -> Option<u32>
    ensures { result ≡ meaning.value_of function.now (flow_of ending) }
{
    match ending {
        Ending::Returns(Some(word)) => Some(word),
        _ => { if is_main(function) { Some(0) } else { None } }
    }
}

/// Whether the program starts at this function.
pub fn is_main(function: &Func) -> bool
    ensures { result ≡ meaning.is_main function.now }
{
    function.name.as_slice() == "main"
}
