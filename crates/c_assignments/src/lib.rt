// The operators of C expressions that write: assignments, `++` and `--`.
//
// In come an lvalue, and the value that is assigned or that an operator takes. Out goes the expression that the whole is, or the
// first rule that is broken.
//
// The idea: a compound assignment, `++` and `--` read an lvalue and write it; what is written is made of what was read. In memory
// the address is kept in a hidden local, so that it is evaluated once; where the old value is the result, it is kept in one too.
// `++` is an assignment by `+` with 1 on the right, and `--` one by `-`.
//
// The theorem, on each function: for all expressions of the rules that the operands are, the answer is that of the production
// in `c_typing` (`Answers` of `c_answers`), where the first hidden local has the given number.
//
// `assignments` has `=`, `faults` what an operator that writes asks of its operands, `compounds` the operators with an
// assignment, `steps` `++` and `--`, and `writes` the code that reads and writes.
//
// Source: C99 6.5.2.4, 6.5.3.1, 6.5.16.
#![tactic(auto)]

mod assignments;
mod compounds;
mod faults;
mod steps;
mod writes;

pub use assignments::assignment;
pub use compounds::compound_by;
pub use steps::{postfix_step, prefix_step};
pub use writes::hidden_for;
