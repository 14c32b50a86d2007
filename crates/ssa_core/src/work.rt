// What the calls of the builder do, until memory is refused.
ghost use Rattle.std.specs.Prelude.{◌≡◌, ◌<◌, ◌≤◌, ◌++◌, ◌∷◌, ◌⊎◌, [], ℕ, List, true, false, length, Option, Some, None, OnErr, OnOk, IfOk};
ghost use Rattle.std.specs.Option.{IfSome, IfNone};
ghost use Rattle.std.specs.List.{slice_get};
ghost use Rattle.ssa_core.specs.Places.{found, place};
ghost use Rattle.ssa_core.specs.Shapes.{IsThere, absent, phi as phi_of};
ghost use Rattle.ssa_core.specs.Gives.{Chain, Full};
ghost use Rattle.ssa_core.specs.Known.{nothing_known, last_write, sealed_in, view};
ghost use Rattle.ssa_core.specs.Back.{CanPass, IsRead};
ghost use Rattle.ssa_core.specs.Building.{IsKept, IsSettled, IsDone, IsWaiting, Makes, SameCalls};
ghost use Rattle.ssa_core.specs.Steps.{Adds, Advances, StepsBack, WentBack, IsStanding, IsFit, AreGiven, IsFilled, IsOpen, AreOpen, AreReached, Settles, known_value};

use crate::notes::{Notes, Read, Write};
use crate::target::SsaTarget;
use std::alloc::{AllocError, Global};
use std::marker::Model;

/// What is known of the variables of a target.
#[derive(Drop)]
pub struct Work<T: SsaTarget> {
    notes: Notes<T::Value>,
}

impl<T: SsaTarget> Model for Work<T> {
    ghost use Rattle.ssa_core.specs.Known.{Known};

    ghost Value = { Known T.Value };

    ghost view = { λ s. s.notes };
}

impl<T: SsaTarget> Work<T> {
    pub fn new(alloc: Global) -> Work<T>
        ensures { result ≡ nothing_known }
    {
        Work {
            notes: Notes::new(alloc),
        }
    }

    /// One write more.
    pub fn write(&mut self, var: usize, block: usize, value: T::Value) -> Result<(), AllocError>
        ensures ok { OnOk result (self.new ≡ record self.old { writes = self.old.writes ++ record { var = var; block = block; value = value } ∷ [] }) }
        ensures err { OnErr result (self.new ≡ self.old) }
    {
        self.notes.note_write(Write { var, block, value })?;
        Ok(())
    }

    /// The value that the variable has at this moment at the end of the block.
    pub fn read(&mut self, target: &mut T, var: usize, block: usize) -> Result<T::Value, AllocError>
        requires settled { IsSettled T.mode_of self.old (T.shape target.old) }
        requires there { block < (T.shape target.old).blocks }
        ensures settled { OnOk result (IsSettled T.mode_of self.new (T.shape target.new)) }
        ensures reads { IfOk result (λ v. self.new.reads ≡ self.old.reads ++ record { var = var; block = block; value = v; writes = length self.old.writes } ∷ []) }
        ensures value { IfOk result (λ v. IsRead (view self.new (T.shape target.new) var) (T.mode_of var) block v) }
        ensures makes { OnOk result (Makes (λ x. x ≡ var) (block ∷ []) self.old self.new (T.shape target.old) (T.shape target.new)) }
        ensures writes { OnOk result (self.new.writes ≡ self.old.writes) }
        ensures sealed { OnOk result ((b : ℕ) → sealed_in self.new.sealed b ≡ sealed_in self.old.sealed b) }
        ensures keeps { OnOk result (T.rest target.new ≡ T.rest target.old) }
    {
        let start = self.notes.made_count();
        let value = self.find(target, var, block)?;
        self.settle(target, var, start)?;
        let writes = self.notes.write_count();
        self.notes.note_read(Read {
            var,
            block,
            value,
            writes,
        })?;
        Ok(value)
    }

    /// The block has all its predecessors: fills the Phis that wait in it.
    pub fn seal(&mut self, target: &mut T, block: usize) -> Result<(), AllocError>
        requires settled { IsSettled T.mode_of self.old (T.shape target.old) }
        requires there { block < (T.shape target.old).blocks }
        requires once { sealed_in self.old.sealed block ≡ false }
        ensures settled { OnOk result (IsSettled T.mode_of self.new (T.shape target.new)) }
        ensures sealed { OnOk result (sealed_in self.new.sealed block ≡ true) }
        ensures others { OnOk result ((b : ℕ) → (b ≡ block → ⊥) → sealed_in self.new.sealed b ≡ sealed_in self.old.sealed b) }
        ensures makes { OnOk result (Makes (IsWaiting self.old block) ((T.shape target.old).preds block) self.old self.new (T.shape target.old) (T.shape target.new)) }
        ensures writes { OnOk result (self.new.writes ≡ self.old.writes) }
        ensures reads { OnOk result (self.new.reads ≡ self.old.reads) }
        ensures keeps { OnOk result (T.rest target.new ≡ T.rest target.old) }
    {
        let waiting = self.notes.seal(block)?;
        for index in &waiting {
            self.fill_waiting(target, *index)?;
        }
        Ok(())
    }

    // Fills a Phi that waits in a block that is sealed, and those that this makes.
    fn fill_waiting(&mut self, target: &mut T, index: usize) -> Result<(), AllocError>
        requires kept { IsKept T.mode_of self.old (T.shape target.old) }
        requires pending { (home : _) (p : _) → slice_get self.old.made index ≡ Some (home, p) → IsOpen (T.shape target.old) home.block p }
        ensures kept { OnOk result (IsKept T.mode_of self.new (T.shape target.new)) }
        ensures calls { OnOk result (SameCalls self.old self.new) }
        ensures makes { OnOk result ((home : _) (p : _) → slice_get self.old.made index ≡ Some (home, p)
            → Makes (λ x. x ≡ home.var) ((T.shape target.old).preds home.block) self.old self.new (T.shape target.old) (T.shape target.new)) }
        ensures none { OnOk result (slice_get self.old.made index ≡ None → Makes (λ x. ⊥) [] self.old self.new (T.shape target.old) (T.shape target.new)) }
        ensures here { OnOk result (IsDone self.new (T.shape target.new) index) }
        ensures others { OnOk result ((other : ℕ) (home : _) (p : _) → (other ≡ index → ⊥) → slice_get self.old.made other ≡ Some (home, p)
            → (T.shape target.old).kind p ≡ phi_of [] → (T.shape target.new).kind p ≡ phi_of []) }
        ensures settles { OnOk result (Settles self.old self.new (T.shape target.old) (T.shape target.new) (length self.old.made)) }
        ensures keeps { OnOk result (T.rest target.new ≡ T.rest target.old) }
    {
        match self.notes.made_at(index) {
            Some(made) => {
                let start = self.notes.made_count();
                let place = made.place;
                self.fill(target, place.var, place.block, made.value)?;
                self.settle(target, place.var, start)?;
                Ok(())
            }
            None => Ok(()),
        }
    }

    // Fills the values made from the index on, and those that this makes.
    fn settle(&mut self, target: &mut T, var: usize, start: usize) -> Result<(), AllocError>
        requires kept { IsKept T.mode_of self.old (T.shape target.old) }
        requires pending { AreOpen self.old (T.shape target.old) var start }
        requires within { start ≤ length self.old.made }
        ensures advances { OnOk result (Advances T.mode_of var self.old self.new (T.shape target.old) (T.shape target.new)) }
        ensures makes { OnOk result ((ends : List ℕ) → AreReached self.old (T.shape target.old) start ends
            → Makes (λ x. x ≡ var) ends self.old self.new (T.shape target.old) (T.shape target.new)) }
        ensures settles { OnOk result (Settles self.old self.new (T.shape target.old) (T.shape target.new) start) }
        ensures early { OnOk result ((index : ℕ) (home : _) (p : _) → index < start → slice_get self.old.made index ≡ Some (home, p)
            → (T.shape target.old).kind p ≡ phi_of [] → (T.shape target.new).kind p ≡ phi_of []) }
        ensures keeps { OnOk result (T.rest target.new ≡ T.rest target.old) }
    {
        let mut next = start;
        while let Some(made) = self.notes.made_at(next) {
            self.fill(target, var, made.place.block, made.value)?;
            next += 1;
        }
        Ok(())
    }

    // Gives a made Phi all its operands, where its block is sealed: all are found before the first is appended.
    fn fill(
        &mut self,
        target: &mut T,
        var: usize,
        block: usize,
        phi: T::Value,
    ) -> Result<(), AllocError>
        requires kept { IsKept T.mode_of self.old (T.shape target.old) }
        requires made { found self.old.made var block ≡ Some phi }
        requires pending { IsOpen (T.shape target.old) block phi }
        ensures advances { OnOk result (Advances T.mode_of var self.old self.new (T.shape target.old) (T.shape target.new)) }
        ensures makes { OnOk result (Makes (λ x. x ≡ var) ((T.shape target.old).preds block) self.old self.new (T.shape target.old) (T.shape target.new)) }
        ensures others { OnOk result ((x : _) → (x ≡ phi → ⊥) → ((T.shape target.old).kind x ≡ absent → ⊥) → (T.shape target.new).kind x ≡ (T.shape target.old).kind x) }
        ensures full { OnOk result (sealed_in self.new.sealed block ≡ true → Full (view self.new (T.shape target.new) var) block phi) }
        ensures pending { OnOk result ((index start : ℕ) → slice_get self.old.made index ≡ Some (place var block, phi) → index < start
            → AreOpen self.old (T.shape target.old) var start → AreOpen self.new (T.shape target.new) var start) }
        ensures keeps { OnOk result (T.rest target.new ≡ T.rest target.old) }
    {
        if !self.notes.is_sealed(block) {
            return Ok(());
        }
        if target.pred_count(block) == 0 {
            return Ok(());
        }
        let operands = self.gather(target, var, block)?;
        append_all(target, phi, &operands)?;
        Ok(())
    }

    // The variable's value at the end of each predecessor of the block.
    fn gather(
        &mut self,
        target: &mut T,
        var: usize,
        block: usize,
    ) -> Result<Vec<T::Value>, AllocError>
        requires kept { IsKept T.mode_of self.old (T.shape target.old) }
        requires there { block < (T.shape target.old).blocks }
        ensures advances { OnOk result (Advances T.mode_of var self.old self.new (T.shape target.old) (T.shape target.new)) }
        ensures makes { OnOk result (Makes (λ x. x ≡ var) ((T.shape target.old).preds block) self.old self.new (T.shape target.old) (T.shape target.new)) }
        ensures adds { OnOk result (Adds (T.shape target.old) (T.shape target.new)) }
        ensures given { IfOk result (λ operands. AreGiven (view self.new (T.shape target.new) var) (T.mode_of var) block operands.items) }
        ensures pending { OnOk result (AreOpen self.new (T.shape target.new) var (length self.old.made)) }
        ensures all { IfOk result (λ operands. length operands.items ≡ length ((T.shape target.old).preds block)) }
        ensures keeps { OnOk result (T.rest target.new ≡ T.rest target.old) }
    {
        let mut operands = Vec::new(self.notes.allocator());
        for index in 0..target.pred_count(block) {
            let pred = target.pred(block, index);
            operands.push(self.find(target, var, pred)?)?;
        }
        Ok(operands)
    }

    // The variable's value at the end of the block. Makes at most one value, and leaves a Phi without operands.
    fn find(&mut self, target: &mut T, var: usize, block: usize) -> Result<T::Value, AllocError>
        requires kept { IsKept T.mode_of self.old (T.shape target.old) }
        requires there { block < (T.shape target.old).blocks }
        ensures advances { OnOk result (Advances T.mode_of var self.old self.new (T.shape target.old) (T.shape target.new)) }
        ensures makes { OnOk result (Makes (λ x. x ≡ var) (block ∷ []) self.old self.new (T.shape target.old) (T.shape target.new)) }
        ensures adds { OnOk result (Adds (T.shape target.old) (T.shape target.new)) }
        ensures value { IfOk result (λ v. IsRead (view self.new (T.shape target.new) var) (T.mode_of var) block v) }
        ensures pending { OnOk result (AreOpen self.new (T.shape target.new) var (length self.old.made)) }
        ensures keeps { OnOk result (T.rest target.new ≡ T.rest target.old) }
    {
        let mut trail = Vec::new(self.notes.allocator());
        let stop = self.go_back(target, var, block, &mut trail)?;
        if trail.len() > self.notes.block_count() {
            return Ok(self.lose(target, var, block)?);
        }
        self.notes.note_trail(var, &trail, stop)?;
        Ok(self.stand(target, var, stop)?)
    }

    // Goes back from the block to the nearest that is not to be passed; the passed ones are pushed onto the trail. On a chain
    // without end it stops when the trail is longer than all blocks known.
    fn go_back(
        &self,
        target: &T,
        var: usize,
        block: usize,
        trail: &mut Vec<usize>,
    ) -> Result<usize, AllocError>
        requires kept { IsKept T.mode_of self.now (T.shape target.now) }
        requires there { block < (T.shape target.now).blocks }
        requires empty { trail.old.items ≡ [] }
        ensures { IfOk result (λ stop. WentBack (view self.now (T.shape target.now) var) (length self.now.sealed) block trail.new.items stop) }
    {
        let mut at = block;
        while trail.len() <= self.notes.block_count() {
            match self.step_back(target, var, at) {
                Some(before) => {
                    trail.push(at)?;
                    at = before;
                }
                None => return Ok(at),
            }
        }
        Ok(at)
    }

    // The next block on the way back, where the variable's value at the end of this one is the one at the end of its only
    // predecessor.
    fn step_back(&self, target: &T, var: usize, block: usize) -> Option<usize>
        requires kept { IsKept T.mode_of self.now (T.shape target.now) }
        requires there { block < (T.shape target.now).blocks }
        ensures some { IfSome result (λ before. StepsBack (view self.now (T.shape target.now) var) block before) }
        ensures none { IfNone result (CanPass (view self.now (T.shape target.now) var) block → ⊥) }
    {
        if !self.notes.is_sealed(block) || self.notes.written(var, block).is_some() {
            return None;
        }
        if let Some(stop) = self.notes.passed(var, block) {
            return Some(stop);
        }
        if target.pred_count(block) != 1 {
            return None;
        }
        Some(target.pred(block, 0))
    }

    // The unknown value for a block that no walk comes to.
    fn lose(&mut self, target: &mut T, var: usize, block: usize) -> Result<T::Value, AllocError>
        requires kept { IsKept T.mode_of self.old (T.shape target.old) }
        requires there { block < (T.shape target.old).blocks }
        requires endless { (n : ℕ) → Chain (view self.old (T.shape target.old) var) n block }
        ensures advances { OnOk result (Advances T.mode_of var self.old self.new (T.shape target.old) (T.shape target.new)) }
        ensures makes { OnOk result (Makes (λ x. x ≡ var) [] self.old self.new (T.shape target.old) (T.shape target.new)) }
        ensures adds { OnOk result (Adds (T.shape target.old) (T.shape target.new)) }
        ensures value { IfOk result (λ v. found self.new.lost var block ≡ Some v) }
        ensures same { OnOk result (self.new.made ≡ self.old.made) }
        ensures keeps { OnOk result (T.rest target.new ≡ T.rest target.old) }
    {
        match self.notes.lost(var, block) {
            Some(value) => Ok(value),
            None => {
                let value = target.unknown(block, var)?;
                self.notes.note_lost(var, block, value)?;
                Ok(value)
            }
        }
    }

    // The variable's value at the end of a block that is not to be passed.
    fn stand(&mut self, target: &mut T, var: usize, block: usize) -> Result<T::Value, AllocError>
        requires kept { IsKept T.mode_of self.old (T.shape target.old) }
        requires there { block < (T.shape target.old).blocks }
        requires ends { CanPass (view self.old (T.shape target.old) var) block → ⊥ }
        ensures advances { OnOk result (Advances T.mode_of var self.old self.new (T.shape target.old) (T.shape target.new)) }
        ensures makes { OnOk result (Makes (λ x. x ≡ var) (block ∷ []) self.old self.new (T.shape target.old) (T.shape target.new)) }
        ensures adds { OnOk result (Adds (T.shape target.old) (T.shape target.new)) }
        ensures value { IfOk result (λ v. IsStanding (view self.new (T.shape target.new) var) (T.mode_of var) block v) }
        ensures pending { OnOk result (AreOpen self.new (T.shape target.new) var (length self.old.made)) }
        ensures keeps { OnOk result (T.rest target.new ≡ T.rest target.old) }
    {
        match self.notes.known(var, block) {
            Some(value) => Ok(target.current(value)),
            None => self.make(target, var, block),
        }
    }

    // A new value for the variable at the start of the block.
    fn make(&mut self, target: &mut T, var: usize, block: usize) -> Result<T::Value, AllocError>
        requires kept { IsKept T.mode_of self.old (T.shape target.old) }
        requires there { block < (T.shape target.old).blocks }
        requires ends { CanPass (view self.old (T.shape target.old) var) block → ⊥ }
        requires not_known { known_value self.old var block ≡ None }
        ensures advances { OnOk result (Advances T.mode_of var self.old self.new (T.shape target.old) (T.shape target.new)) }
        ensures makes { OnOk result (Makes (λ x. x ≡ var) (block ∷ []) self.old self.new (T.shape target.old) (T.shape target.new)) }
        ensures adds { OnOk result (Adds (T.shape target.old) (T.shape target.new)) }
        ensures value { IfOk result (λ v. IsStanding (view self.new (T.shape target.new) var) (T.mode_of var) block v) }
        ensures pending { OnOk result (AreOpen self.new (T.shape target.new) var (length self.old.made)) }
        ensures keeps { OnOk result (T.rest target.new ≡ T.rest target.old) }
    {
        let value = self.fitting(target, var, block)?;
        self.notes.note_made(var, block, value)?;
        Ok(value)
    }

    // An unknown value in a sealed block without predecessor, and else a Phi without operands.
    fn fitting(&self, target: &mut T, var: usize, block: usize) -> Result<T::Value, AllocError>
        requires there { block < (T.shape target.old).blocks }
        ensures fit { IfOk result (λ v. IsFit self.now (T.shape target.old) (T.shape target.new) (T.mode_of var) block v) }
        ensures keeps { OnOk result (T.rest target.new ≡ T.rest target.old) }
    {
        if self.notes.is_sealed(block) && target.pred_count(block) == 0 {
            target.unknown(block, var)
        } else {
            target.phi(block, var)
        }
    }
}

// Gives the Phi all the operands.
fn append_all<T: SsaTarget>(
    target: &mut T,
    phi: T::Value,
    operands: &[T::Value],
) -> Result<(), AllocError>
    requires empty { (T.shape target.old).kind phi ≡ phi_of [] }
    requires room { length operands.now ≤ length ((T.shape target.old).preds ((T.shape target.old).block phi)) }
    requires there { (i : ℕ) (v : _) → slice_get operands.now i ≡ Some v → IsThere (T.shape target.old) v }
    requires alike { (i : ℕ) (v : _) → slice_get operands.now i ≡ Some v → (T.shape target.old).mode v ≡ (T.shape target.old).mode phi }
    ensures filled { OnOk result (IsFilled (T.shape target.old) (T.shape target.new) phi operands.now) }
    ensures keeps { OnOk result (T.rest target.new ≡ T.rest target.old) }
{
    for operand in operands {
        target.append(phi, *operand)?;
    }
    Ok(())
}
