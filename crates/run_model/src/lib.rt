// What the runs of a program have in common, whatever it is written in: the C meaning of a typed unit, and the runs of
// the forms that it is compiled to.
//
// In comes nothing and out goes nothing: the crate has one type, and definitions. A run is over a world, which stays
// the same, and has a store, which changes. `specs/Stores.antt` has both, with the input, the output and the turns;
// `specs/Accesses.antt` has what an access to the data reads and writes.
//
// The idea: two runs agree where their stores are equal, so each form of a program changes the same store.
//
// The invariant: the output only grows, and the turns left only fall. `c_meaning` proves it of its runs; the crates to come
// are to prove it of theirs.
//
// Source: C99 5.1.2.3 and 6.2.6; that memory is little-endian is this project's choice. That a run is over a number of turns
// is as in CakeML (Owens, Myreen, Kumar and Tan, Functional Big-Step Semantics, 2016).
#![tactic(auto)]

mod outcome;

pub use outcome::Outcome;
