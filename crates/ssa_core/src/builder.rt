// The builder: Braun, Buchwald, Hack, Leißa, Mallon and Zwinkau, Simple and Efficient Construction of SSA Form (2013), with
// pending work in a list in place of its recursion.
ghost use Rattle.std.specs.Prelude.{◌≡◌, ◌<◌, ◌++◌, ◌∷◌, [], ℕ, true, false, length, OnErr, OnOk, IfOk};
ghost use Rattle.ssa_core.specs.Shapes.{IsThere};
ghost use Rattle.ssa_core.specs.Known.{nothing_known, sealed_in, view};
ghost use Rattle.ssa_core.specs.Back.{IsRead};
ghost use Rattle.ssa_core.specs.Building.{IsReady, IsBefore, IsWaiting, WasRead, Makes};

use crate::target::SsaTarget;
use crate::work::Work;
use std::alloc::{AllocError, Global};
use std::marker::Model;

/// Takes writes and reads of variables, and makes Phis in a target.
#[derive(Drop)]
pub struct SsaBuilder<T: SsaTarget> {
    work: Work<T>,
    // A call was refused.
    is_spent: bool,
}

impl<T: SsaTarget> Model for SsaBuilder<T> {
    ghost use Rattle.ssa_core.specs.Known.{Known};

    ghost Value = { Known T.Value };

    ghost view = { λ s. record s.work { spent = s.is_spent } };
}

impl<T: SsaTarget> SsaBuilder<T> {
    /// Nothing is known.
    pub fn new(alloc: Global) -> SsaBuilder<T>
        ensures { result ≡ nothing_known }
    {
        SsaBuilder {
            work: Work::new(alloc),
            is_spent: false,
        }
    }

    /// The value is the variable's from here to the end of the block, or to the next write there.
    pub fn write(
        &mut self,
        target: &T,
        var: usize,
        block: usize,
        value: T::Value,
    ) -> Result<(), AllocError>
        requires ready { IsReady T.mode_of self.old (T.shape target.now) }
        requires there { block < (T.shape target.now).blocks }
        requires value_there { IsThere (T.shape target.now) value }
        requires alike { (T.shape target.now).mode value ≡ T.mode_of var }
        requires last { WasRead self.old var → IsBefore (T.shape target.now) block → ⊥ }
        ensures ready { IsReady T.mode_of self.new (T.shape target.now) }
        ensures ok { OnOk result (self.new ≡ record self.old { writes = self.old.writes ++ record { var = var; block = block; value = value } ∷ [] }) }
        ensures err { OnErr result (self.new ≡ self.old) }
        ensures spent { self.old.spent ≡ true → OnOk result ⊥ }
    {
        if self.is_spent {
            return Err(AllocError);
        }
        self.work.write(var, block, value)?;
        Ok(())
    }

    /// The value that the variable has at this moment at the end of the block.
    pub fn read(&mut self, target: &mut T, var: usize, block: usize) -> Result<T::Value, AllocError>
        requires ready { IsReady T.mode_of self.old (T.shape target.old) }
        requires there { block < (T.shape target.old).blocks }
        ensures ready { IsReady T.mode_of self.new (T.shape target.new) }
        ensures reads { IfOk result (λ v. self.new.reads ≡ self.old.reads ++ record { var = var; block = block; value = v; writes = length self.old.writes } ∷ []) }
        ensures value { IfOk result (λ v. IsRead (view self.new (T.shape target.new) var) (T.mode_of var) block v) }
        ensures makes { OnOk result (Makes (λ x. x ≡ var) (block ∷ []) self.old self.new (T.shape target.old) (T.shape target.new)) }
        ensures writes { OnOk result (self.new.writes ≡ self.old.writes) }
        ensures sealed { OnOk result ((b : ℕ) → sealed_in self.new.sealed b ≡ sealed_in self.old.sealed b) }
        ensures keeps { OnOk result (T.rest target.new ≡ T.rest target.old) }
        ensures err { OnErr result (self.new.spent ≡ true) }
        ensures spent { self.old.spent ≡ true → OnOk result ⊥ }
    {
        if self.is_spent {
            return Err(AllocError);
        }
        self.is_spent = true;
        let value = self.work.read(target, var, block)?;
        self.is_spent = false;
        Ok(value)
    }

    /// The block has all its predecessors: fills the Phis that wait in it.
    pub fn seal(&mut self, target: &mut T, block: usize) -> Result<(), AllocError>
        requires ready { IsReady T.mode_of self.old (T.shape target.old) }
        requires there { block < (T.shape target.old).blocks }
        requires once { self.old.spent ≡ false → sealed_in self.old.sealed block ≡ false }
        ensures ready { IsReady T.mode_of self.new (T.shape target.new) }
        ensures sealed { OnOk result (sealed_in self.new.sealed block ≡ true) }
        ensures others { OnOk result ((b : ℕ) → (b ≡ block → ⊥) → sealed_in self.new.sealed b ≡ sealed_in self.old.sealed b) }
        ensures makes { OnOk result (Makes (IsWaiting self.old block) ((T.shape target.old).preds block) self.old self.new (T.shape target.old) (T.shape target.new)) }
        ensures writes { OnOk result (self.new.writes ≡ self.old.writes) }
        ensures reads { OnOk result (self.new.reads ≡ self.old.reads) }
        ensures keeps { OnOk result (T.rest target.new ≡ T.rest target.old) }
        ensures err { OnErr result (self.new.spent ≡ true) }
        ensures spent { self.old.spent ≡ true → OnOk result ⊥ }
    {
        if self.is_spent {
            return Err(AllocError);
        }
        self.is_spent = true;
        self.work.seal(target, block)?;
        self.is_spent = false;
        Ok(())
    }
}
