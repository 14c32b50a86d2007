// What SSA construction asks of a graph or of block code.
ghost use Rattle.std.specs.Prelude.{◌≡◌, ℕ, Bool, true, ◌<◌, ◌⊎◌, List, [], length, Option, Some, None, IfOk, OnOk};
ghost use Rattle.std.specs.Option.{IfSome, IfNone};
ghost use Rattle.std.specs.List.{slice_get};
ghost use Rattle.ssa_core.specs.Shapes.{Shape, Mode, ValueKind, absent, unknown, phi as phi_of, IsThere, IsPhi, IsMade, Stands, IsAppended, HasOnly, IsReplaced};

use std::alloc::AllocError;

/// Blocks with their predecessors, and values that stand in blocks. A variable is a number.
pub trait SsaTarget {
    type Value: Copy + Eq;

    /// The mode of each variable.
    ghost mode_of: { ℕ → Mode };

    /// The blocks and values.
    ghost shape: { Self → Shape Self.Value };

    /// What a run is.
    ghost meaning: { Type 0 };

    /// The rules of the target's form.
    ghost obeys: { Self → Type 0 };

    /// The meaning of what the target has.
    ghost run: { Self → meaning };

    /// What else the target has.
    ghost remainder: { Type 0 };

    ghost rest: { Self → remainder };

    /// How many predecessors the block has.
    fn pred_count(&self, block: usize) -> usize
        requires { block < (shape self.now).blocks }
        ensures { result ≡ length ((shape self.now).preds block) };

    /// The block's predecessor at the index.
    fn pred(&self, block: usize, index: usize) -> usize
        requires there { block < (shape self.now).blocks }
        requires within { index < length ((shape self.now).preds block) }
        ensures value { slice_get ((shape self.now).preds block) index ≡ Some result }
        ensures there { result < (shape self.now).blocks };

    /// A new Phi of the variable's mode, in the block, without operands.
    fn phi(&mut self, block: usize, var: usize) -> Result<Self::Value, AllocError>
        requires { block < (shape self.old).blocks }
        ensures made { IfOk result (λ v. IsMade (shape self.old) (shape self.new) v block (phi_of []) (mode_of var)) }
        ensures keeps { OnOk result (rest self.new ≡ rest self.old) };

    /// Gives the Phi its next operand.
    fn append(&mut self, phi: Self::Value, operand: Self::Value) -> Result<(), AllocError>
        requires is_phi { IsPhi (shape self.old) phi }
        requires there { IsThere (shape self.old) operand }
        requires room { (operands : _) → (shape self.old).kind phi ≡ phi_of operands → length operands < length ((shape self.old).preds ((shape self.old).block phi)) }
        requires alike { (shape self.old).mode operand ≡ (shape self.old).mode phi }
        ensures appended { OnOk result (IsAppended (shape self.old) (shape self.new) phi operand) }
        ensures keeps { OnOk result (rest self.new ≡ rest self.old) };

    /// The value that can stand in the place of the Phi, where it is trivial.
    fn only_operand(&self, phi: Self::Value) -> Option<Self::Value>
        requires { IsPhi (shape self.now) phi }
        ensures some { IfSome result (λ only. HasOnly (shape self.now) phi only) }
        ensures none { IfNone result ((only : _) → HasOnly (shape self.now) phi only → ⊥) };

    /// Puts `new` in the place of `old`, a trivial Phi, at every use.
    fn replace(&mut self, old: Self::Value, new: Self::Value) -> Result<(), AllocError>
        requires current { (shape self.old).current old ≡ old }
        requires trivial { HasOnly (shape self.old) old new }
        requires there { IsThere (shape self.old) new }
        requires alike { (shape self.old).mode new ≡ (shape self.old).mode old }
        ensures replaced { OnOk result (IsReplaced (shape self.old) (shape self.new) old new) }
        ensures rules { OnOk result (obeys self.old → obeys self.new) }
        ensures runs { OnOk result (obeys self.old → run self.new ≡ run self.old) };

    /// What is now in the place of the value.
    fn current(&self, value: Self::Value) -> Self::Value
        requires { (shape self.now).kind value ≡ absent → ⊥ }
        ensures { result ≡ (shape self.now).current value };

    /// An unknown value of the variable's mode, in the block. It may have been there before.
    fn unknown(&mut self, block: usize, var: usize) -> Result<Self::Value, AllocError>
        requires { block < (shape self.old).blocks }
        ensures made { IfOk result (λ v. Stands (shape self.old) (shape self.new) v block unknown (mode_of var)) }
        ensures keeps { OnOk result (rest self.new ≡ rest self.old) };

    /// Values that compare equal are the same.
    ghost same: { (a b : Self.Value) → Self.Value.eq a b ≡ true → a ≡ b };

    ghost equal: { (a : Self.Value) → Self.Value.eq a a ≡ true };
}
