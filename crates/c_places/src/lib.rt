// Names, constants, lvalues and their parts, one function a production of the grammar of expressions.
//
// In come a table of types, the place of a node, and its operands, each an expression that moves into the whole. Out goes the
// expression that the node is, or the first rule that it breaks.
//
// The idea: an lvalue in memory is known by its address. A part of one is the sum of that address and an offset, so that an
// element and a member are made by one function.
//
// The theorem, on each function: for every node at that place, and all expressions of the rules that the operands are, the
// answer is that of the production in `c_typing` (`IsAnswer` of `specs/Places.antt`); and the table only grows.
//
// `literals` has constants and string literals, `names` the names of objects, locals and functions, `parts` what stands behind an
// address, `elements` the operator `[]`, `pointers` the operators `*` and `&`, `members` the
// operators `.` and `->`.
//
// Source: C99 6.4.4, 6.4.5, 6.5.1, 6.5.2.1, 6.5.2.3, 6.5.3.2.
#![tactic(auto)]

mod elements;
mod literals;
mod members;
mod names;
mod parts;
mod pointers;

pub use elements::subscript;
pub use literals::{int_constant, integer_constant, literal};
pub use members::{arrow, dot};
pub use names::{called_by_name, function, local, object, unknown_name};
pub use pointers::{address_operator, dereference};
