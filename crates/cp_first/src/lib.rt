// Units of the first form: read by hand, and compiled to their assembly.
//
// In comes the text of a unit. Out goes its assembly, where the unit is `int putchar(int);`, then a
// `main` that calls `putchar` on constants and returns one; or the answer that it is no such unit.
//
// The idea: a small form is compiled from its text to assembly that the machine runs. `first_form` reads
// the unit, `first_unit` makes its one function, and `compile` does both. The crate is to be removed when
// the whole language is compiled.
//
// The invariant: a text is one unit of the first form at most, so that what was read is what the
// text says (`proofs/FirstForms.antt`).
//
// The theorem, on `compile_first`: the assembly is that of the unit and is well formed, and on every layout
// that holds it with a stack of at least 16 bytes, whatever the stack holds at the start and for every
// input, there is a number of steps from which on the machine that runs it has written the unit's bytes and
// ended with its status; and there is none exactly where the text is of another form. Where memory is
// refused it says nothing.
//
// Source: C99 5.1.2.2.3 (the status of `main`); the frame and the calls are those of the RISC-V
// calling convention.
#![tactic(auto)]

mod compile;
mod first_form;
mod first_unit;

pub use compile::compile_first;
