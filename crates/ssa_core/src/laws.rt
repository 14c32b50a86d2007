// What holds of all targets and all that is known of their variables.
ghost use Rattle.ssa_core.specs.Laws.{FullStays, GivenIsLast, GivenIsOnWalk, GivenStays};
ghost use Rattle.ssa_core.specs.Reads.{EditsKeep, NothingHolds, OperandsMean, ReadsMean, ReplacingKeeps};

use crate::target::SsaTarget;

/// A value that is given at the end of a block is what was last written on each walk to it.
pub fn given_is_last<T: SsaTarget>()
    ensures last { GivenIsLast T.Value }
    ensures on_walk { GivenIsOnWalk T.Value }
{}

/// Replacing a trivial Phi by its other value keeps what is full and what is given.
pub fn replacing_keeps<T: SsaTarget>()
    ensures full { FullStays T.Value }
    ensures given { GivenStays T.Value }
{}

/// What the values that were read, and the operands of Phis, are on each walk.
pub fn reads_are_last<T: SsaTarget>()
    ensures reads { ReadsMean T.Value }
    ensures operands { OperandsMean T.Value }
{}

/// What holds between calls holds of a new builder, and a caller may change the target.
pub fn callers_keep<T: SsaTarget>()
    ensures nothing { NothingHolds T.Value }
    ensures edits { EditsKeep T.Value }
    ensures replacing { ReplacingKeeps T.Value }
{}
