// The state of a run, and its steps.
ghost use Rattle.std.specs.Prelude.{◌≡◌, ℕ, ◌++◌, ◌==◌, ◌∷◌, [], ◌≤◌, length, drop, slice_get, OnOk, OnErr, IfOk, IfSome, MatchOption, Some};
ghost use Rattle.c_types.specs.Forms.{get_char, put_char, binary};
ghost use Rattle.c_interpreter.specs.Weights.{size};
ghost use Rattle.c_types.specs.Placing.{number_of, object_offsets};
ghost use Rattle.c_meaning.specs.Steps.{value_at};
ghost use Rattle.c_interpreter.specs.Machine.{seen, with_frame, Gave, IsRarer, IsRarerFrame, known_task, IsSound};
ghost use Rattle.c_interpreter.specs.Leading.{Leads, LeadsFrom, Continues, SetsLocal, IsPlaced, Meaning, Opens, IsPlain, expr_meaning};

use crate::data::{copy, load, store};
use crate::frame::{Ending, Frame, Task};
use crate::labels::passed;
use c_operators::operate;
use c_types::{COp, CellValue, Expr, Func, Group, Kind, Stmt, To, Unit};
use cp_base::{Op, apply};
use run_model::Outcome;
use std::alloc::{AllocError, Global};

/// What stays the same in a run.
#[derive(Clone, Copy)]
pub struct Place<'u> {
    pub unit: &'u Unit,
    pub offsets: &'u [u32],
    pub base: u32,
    pub input: &'u [u8],
    pub depth: u64,
}

/// What a run has at a moment.
#[derive(Drop)]
pub struct Machine<'u> {
    pub frames: Vec<Frame<'u>>,
    /// The locals of all active calls, each with its value or unset; those of the present call from `base` on.
    pub words: Vec<Option<u32>>,
    pub base: usize,
    /// The values of arguments that were found last, the last one first.
    pub arguments: Vec<u32>,
    pub bytes: Vec<u8>,
    /// How many bytes of the input were taken.
    pub taken: usize,
    /// The output that was not handed on.
    pub out: Vec<u8>,
    pub turns: u64,
    pub active: u64,
}

impl<'u> Machine<'u> {
    // The task, and then the frame.
    #[tactic(auto, using(crate::proofs::Resume::opened))]
    pub fn push(&mut self, frame: Frame<'u>, task: Task<'u>) -> Result<Task<'u>, AllocError>
        ensures { (place : Place) (meaning : Meaning) (heavy : ℕ) → Opens meaning heavy frame.entry task.entry → IsSound (seen self.old) →
            IfOk result (λ next. LeadsFrom place (seen self.old) meaning heavy (seen self.new) next) }
    {
        self.frames.push(frame)?;
        Ok(task)
    }

    pub fn open_expr(&mut self, place: &Place<'u>, expr: &'u Expr) -> Result<Task<'u>, AllocError>
        requires placed { IsPlaced place.now }
        requires sound { IsSound (seen self.old) }
        ensures { IfOk result (λ next. Leads place.now (seen self.old) (Task.Expr expr.entry) (seen self.new) next) }
    {
        match expr {
            Expr::Const(word) => Ok(Task::Value(Some(*word))),
            Expr::Address(object, addend) => Ok(Task::Value(Some(place.address(*object, *addend)))),
            Expr::Local(local) => Ok(known(self.local(*local))),
            Expr::SetLocal(local, value) => {
                self.push(Frame::SetLocal(*local), Task::Expr(value.get()))
            }
            Expr::Load(kind, at) => self.push(Frame::Load(*kind), Task::Expr(at.get())),
            Expr::Store(kind, at, value) => {
                self.push(Frame::StoreTo(*kind, value.get()), Task::Expr(at.get()))
            }
            Expr::Binary(operator, left, right) => {
                self.open_operator(place, *operator, left.get(), right.get())
            }
            Expr::Call(function, arguments) => {
                self.push(Frame::CallTo(*function), Task::Exprs(arguments.as_slice()))
            }
            _ => self.open_rarer(place, expr),
        }
    }

    fn open_rarer(&mut self, place: &Place<'u>, expr: &'u Expr) -> Result<Task<'u>, AllocError>
        requires sound { IsSound (seen self.old) }
        requires rarer { IsRarer expr.now }
        ensures { IfOk result (λ next. Leads place.now (seen self.old) (Task.Expr expr.entry) (seen self.new) next) }
    {
        match expr {
            Expr::GetChar => Ok(self.get_char(place)),
            Expr::Convert(to, value) => self.push(Frame::Convert(*to), Task::Expr(value.get())),
            Expr::Both(left, right) => self.push(Frame::Both(right.get()), Task::Expr(left.get())),
            Expr::Either(left, right) => {
                self.push(Frame::Either(right.get()), Task::Expr(left.get()))
            }
            Expr::Choose(test, first, second) => {
                self.push(
                    Frame::Choose(first.get(), second.get()),
                    Task::Expr(test.get()),
                )
            }
            Expr::Seq(left, right) => self.push(Frame::Seq(right.get()), Task::Expr(left.get())),
            Expr::PutChar(value) => self.open_put_char(place, value.get()),
            Expr::Copy(size, align, to, from) => {
                self.push(
                    Frame::CopyTo(*size, *align, from.get()),
                    Task::Expr(to.get()),
                )
            }
            Expr::Const(_)
            | Expr::Address(_, _)
            | Expr::Local(_)
            | Expr::SetLocal(_, _)
            | Expr::Load(_, _)
            | Expr::Store(_, _, _)
            | Expr::Binary(_, _, _)
            | Expr::Call(_, _) => unreachable!(),
        }
    }

    fn open_operator(
        &mut self,
        place: &Place<'u>,
        operator: COp,
        left: &'u Expr,
        right: &'u Expr,
    ) -> Result<Task<'u>, AllocError>
        requires { IsSound (seen self.old) }
        ensures { IfOk result (λ next. LeadsFrom place.now (seen self.old) (expr_meaning (binary operator left.now right.now)) (size (binary operator left.now right.now)) (seen self.new) next) }
    {
        match self.plain_value(left) {
            Some(left) => self.operate(place, operator, left, right),
            None => self.push(Frame::BinaryLeft(operator, right), Task::Expr(left)),
        }
    }

    fn open_put_char(&mut self, place: &Place<'u>, value: &'u Expr) -> Result<Task<'u>, AllocError>
        requires { IsSound (seen self.old) }
        ensures { IfOk result (λ next. LeadsFrom place.now (seen self.old) (expr_meaning (put_char value.now)) (size (put_char value.now)) (seen self.new) next) }
    {
        match self.plain_value(value) {
            Some(word) => self.put_char(place, word),
            None => self.push(Frame::PutChar, Task::Expr(value)),
        }
    }

    // The value of an expression that has no parts and changes nothing, where it has one.
    fn plain_value(&self, expr: &Expr) -> Option<u32>
        requires { IsSound (seen self.now) }
        ensures { IfSome result (λ word. IsPlain (seen self.now) expr.now word) }
    {
        match expr {
            Expr::Const(word) => Some(*word),
            Expr::Local(local) => self.local(*local),
            _ => None,
        }
    }

    // What the frame does with the value of its part; the frame was taken away.
    pub fn give(
        &mut self,
        place: &Place<'u>,
        frame: Frame<'u>,
        word: Option<u32>,
    ) -> Result<Task<'u>, AllocError>
        requires { IsSound (seen self.old) }
        ensures { IfOk result (λ next. Continues place.now (seen self.old) frame.entry (Gave word) (seen self.new) next) }
    {
        match word {
            Some(word) => self.go_on(place, frame, word),
            None => Ok(match frame {
                Frame::Seq(right) => Task::Expr(right),
                Frame::Drop => Task::Ending(Ending::Normal),
                Frame::LoopStep(whole) => Task::Turn(whole),
                _ => Task::Stop(Outcome::Undefined),
            }),
        }
    }

    fn go_on(
        &mut self,
        place: &Place<'u>,
        frame: Frame<'u>,
        word: u32,
    ) -> Result<Task<'u>, AllocError>
        requires { IsSound (seen self.old) }
        ensures { IfOk result (λ next. Continues place.now (seen self.old) frame.entry (Gave (Some word)) (seen self.new) next) }
    {
        match frame {
            Frame::Seq(right) => Ok(Task::Expr(right)),
            Frame::Drop => Ok(Task::Ending(Ending::Normal)),
            Frame::LoopStep(whole) => Ok(Task::Turn(whole)),
            Frame::SetLocal(local) => {
                self.set_local(local, Some(word));
                Ok(Task::Value(Some(word)))
            }
            Frame::BinaryLeft(operator, right) => self.operate(place, operator, word, right),
            Frame::Binary(operator, left) => Ok(known(operate(operator, left, word))),
            Frame::Load(kind) => Ok(known(load(&self.bytes, place.base, kind, word))),
            Frame::StoreTo(kind, value) => self.store_value(place, kind, word, value),
            Frame::Store(kind, to) => Ok(self.store(place, kind, to, word)),
            Frame::Choose(first, second) => Ok(Task::Expr(if word == 0 { second } else { first })),
            Frame::Arguments(rest) => self.add_argument(place, word, rest),
            Frame::Return => Ok(Task::Ending(Ending::Returns(Some(word)))),
            Frame::If(first, second) => Ok(Task::Stmt(if word == 0 { second } else { first })),
            Frame::LoopTest(_, _, _) if word == 0 => Ok(Task::Ending(Ending::Normal)),
            Frame::LoopTest(whole, step, body) => {
                self.push(Frame::LoopBody(whole, step), Task::Stmt(body))
            }
            _ => self.go_on_rarer(place, frame, word),
        }
    }

    // The right operand of an operator, where the left one is known.
    fn operate(
        &mut self,
        place: &Place<'u>,
        operator: COp,
        left: u32,
        right: &'u Expr,
    ) -> Result<Task<'u>, AllocError>
        requires { IsSound (seen self.old) }
        ensures { IfOk result (λ next. Continues place.now (seen self.old) (Frame.BinaryLeft operator right.entry) (Gave (Some left)) (seen self.new) next) }
    {
        match self.plain_value(right) {
            Some(right) => Ok(known(operate(operator, left, right))),
            None => self.push(Frame::Binary(operator, left), Task::Expr(right)),
        }
    }

    // The value that is to be stored at an address.
    fn store_value(
        &mut self,
        place: &Place<'u>,
        kind: Kind,
        to: u32,
        value: &'u Expr,
    ) -> Result<Task<'u>, AllocError>
        requires { IsSound (seen self.old) }
        ensures { IfOk result (λ next. Continues place.now (seen self.old) (Frame.StoreTo kind value.entry) (Gave (Some to)) (seen self.new) next) }
    {
        match self.plain_value(value) {
            Some(word) => Ok(self.store(place, kind, to, word)),
            None => self.push(Frame::Store(kind, to), Task::Expr(value)),
        }
    }

    // One more argument is known; where it is the last, all are.
    fn add_argument(
        &mut self,
        place: &Place<'u>,
        word: u32,
        rest: &'u [Expr],
    ) -> Result<Task<'u>, AllocError>
        requires { IsSound (seen self.old) }
        ensures { IfOk result (λ next. Continues place.now (seen self.old) (Frame.Arguments rest.entry) (Gave (Some word)) (seen self.new) next) }
    {
        if !rest.is_empty() {
            return self.push(Frame::Argument(word), Task::Exprs(rest));
        }
        self.arguments.clear();
        self.arguments.push(word)?;
        Ok(Task::Values)
    }

    fn go_on_rarer(
        &mut self,
        place: &Place<'u>,
        frame: Frame<'u>,
        word: u32,
    ) -> Result<Task<'u>, AllocError>
        requires sound { IsSound (seen self.old) }
        requires rarer { IsRarerFrame frame }
        ensures { IfOk result (λ next. Continues place.now (seen self.old) frame.entry (Gave (Some word)) (seen self.new) next) }
    {
        match frame {
            Frame::CopyTo(size, align, from) => {
                self.push(Frame::Copy(size, align, word), Task::Expr(from))
            }
            Frame::Copy(size, align, to) => Ok(self.copy(place, size, align, to, word)),
            Frame::Convert(to) => Ok(Task::Value(Some(apply(Op::Conv(to), word, 0)))),
            Frame::Both(_) if word == 0 => Ok(Task::Value(Some(0))),
            Frame::Either(_) if word != 0 => Ok(Task::Value(Some(1))),
            Frame::Both(right) | Frame::Either(right) => {
                self.push(Frame::Convert(To::Truth), Task::Expr(right))
            }
            Frame::PutChar => self.put_char(place, word),
            Frame::Switch(groups) => {
                self.push(Frame::SwitchEnd, Task::Groups(passed(word, groups), groups))
            }
            Frame::DoLoopTest(_) if word == 0 => Ok(Task::Ending(Ending::Normal)),
            Frame::DoLoopTest(whole) => Ok(Task::Turn(whole)),
            _ => Ok(Task::Stop(Outcome::Undefined)),
        }
    }

    pub fn set_local(&mut self, local: usize, word: Option<u32>)
        requires { IsSound (seen self.old) }
        ensures { SetsLocal (seen self.old) local word (seen self.new) }
    {
        if local < self.words.len() - self.base {
            self.words[self.base + local] = word;
        }
    }

    fn store(&mut self, place: &Place<'u>, kind: Kind, to: u32, word: u32) -> Task<'u>
        requires { IsSound (seen self.old) }
        ensures { Continues place.now (seen self.old) (Frame.Store kind to) (Gave (Some word)) (seen self.new) result }
    {
        if store(&mut self.bytes, place.base, kind, to, word) {
            Task::Value(Some(word))
        } else {
            Task::Stop(Outcome::Undefined)
        }
    }

    fn copy(&mut self, place: &Place<'u>, size: u32, align: u32, to: u32, from: u32) -> Task<'u>
        requires { IsSound (seen self.old) }
        ensures { Continues place.now (seen self.old) (Frame.Copy size align to) (Gave (Some from)) (seen self.new) result }
    {
        if copy(&mut self.bytes, place.base, size, align, to, from) {
            Task::Value(Some(to))
        } else {
            Task::Stop(Outcome::Undefined)
        }
    }

    fn put_char(&mut self, place: &Place<'u>, word: u32) -> Result<Task<'u>, AllocError>
        requires { IsSound (seen self.old) }
        ensures { IfOk result (λ next. Continues place.now (seen self.old) Frame.PutChar (Gave (Some word)) (seen self.new) next) }
    {
        let byte = (word % 256) as u8;
        self.out.push(byte)?;
        Ok(Task::Value(Some(u32::from(byte))))
    }

    /// Takes the last frame away.
    pub fn pop(&mut self) -> Option<Frame<'u>>
        ensures { MatchOption result ((seen self.old).frames ≡ []) (λ frame. seen self.old ≡ with_frame (seen self.new) frame) }
    {
        self.frames.pop()
    }

    fn local(&self, local: usize) -> Option<u32>
        requires { IsSound (seen self.now) }
        ensures { result ≡ value_at (slice_get (drop self.now.base self.now.words.items) local) }
    {
        match self.words[self.base..].get(local) {
            Some(word) => *word,
            None => None,
        }
    }

    fn get_char(&mut self, place: &Place<'u>) -> Task<'u>
        requires { IsSound (seen self.old) }
        ensures { LeadsFrom place.now (seen self.old) (expr_meaning get_char) 1 (seen self.new) result }
    {
        match place.input.get(self.taken) {
            Some(byte) => {
                self.taken += 1;
                Task::Value(Some(u32::from(*byte)))
            }
            None => Task::Value(Some(u32::MAX)),
        }
    }
}

impl<'u> Place<'u> {
    fn address(&self, object: usize, addend: u32) -> u32
        requires { IsPlaced self.now }
        ensures { result ≡ number_of self.now.base (object_offsets self.now.unit.now.objects) (CellValue.Address object addend) }
    {
        let offset = match self.offsets.get(object) {
            Some(offset) => *offset,
            None => 0,
        };
        self.base.wrapping_add(offset).wrapping_add(addend)
    }
}

pub fn known<'u>(word: Option<u32>) -> Task<'u>
    ensures { result ≡ known_task word }
{
    match word {
        Some(word) => Task::Value(Some(word)),
        None => Task::Stop(Outcome::Undefined),
    }
}
