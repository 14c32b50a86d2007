// SSA construction over any target: a graph, or block code.
//
// In comes a target, by the trait `SsaTarget`: blocks with their predecessors, and values that stand in blocks. `target.rt` says
// what it must do, `specs/Shapes.antt` what is seen of it.
//
// The idea: a walk from the first block says which value was last written to a variable on it, and which value a Phi is on it;
// `specs/Walks.antt` has both. `specs/Gives.antt` says by looking back block by block when a value is what a variable has at the
// end of a block, and `specs/Back.antt` which block it comes from.
//
// `SsaBuilder` is given the writes of variables to blocks, and is asked for values at the ends of blocks. It goes back through
// sealed blocks with one predecessor, makes a Phi where it cannot, and fills the Phi once its block is sealed. `Work` does that;
// `Notes` has the lists and hashed tables. A passed block has a note of the block that was the nearest, so that a chain is walked
// once.
//
// The invariant, `IsSettled` in `specs/Building.antt`: each value that was made is full, or is a Phi without operands in a block
// that is not sealed; what was read is still what the variable had; what was written still stands for something.
//
// The theorem, `reads_are_last` in `laws.rt`: where all Phis of a variable are full, what stands for a value that was read is,
// along each walk to the end of the block, what was last written on the walk, and its block stands on the walk; so is each operand
// of a Phi. The contracts of `read` and `seal` say besides which Phis are made and why, from which block the value comes, and that
// the rest of the target is as it was. `callers_keep` says what a caller may change between calls.
//
// Source: Braun, Buchwald, Hack, Leißa, Mallon and Zwinkau, Simple and Efficient Construction of Static Single Assignment Form
// (2013), with pending work in a list in place of its recursion.
#![tactic(auto)]

mod builder;
mod laws;
mod notes;
mod places;
mod target;
mod work;

pub use builder::SsaBuilder;
pub use laws::{callers_keep, given_is_last, reads_are_last, replacing_keeps};
pub use notes::{Read, Write};
pub use places::Place;
pub use target::SsaTarget;
