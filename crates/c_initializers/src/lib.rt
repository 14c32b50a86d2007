// The parts of initializers that are no braces: scalars and strings.
//
// In come the values of expressions, and the bytes of strings, each with the type of what it initializes. Out go the cells of
// a static object, or the first fault.
//
// The idea: one function a row of the rules, over small plain values. The cells of a part begin at 0, and are moved to the
// part's place where the part becomes one of an array or a struct.
//
// The theorem, on each function: the answer is that of the definition in `c_typing`, or the first of its faults.
//
// `scalars` has scalars, `texts` strings, `cells` cells that are moved.
//
// Source: C99 6.7.8.
#![tactic(auto)]

mod cells;
mod scalars;
mod texts;

pub use cells::move_cells;
pub use scalars::{check_scalar, scalar_cell};
pub use texts::{is_text_array, is_too_long, text_cells};
