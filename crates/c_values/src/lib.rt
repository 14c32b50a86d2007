// Expressions as the checker has them: their values, their conversions, and the operators that take them.
//
// In come expressions, each with its type by its id, its form, its code, and what it is as a constant. Out go their values, the
// code of conversions, what may be assigned to what, and for an operator of two operands the type of its result.
//
// The idea: an expression is owned, and moves into the one that it is a part of; a type is a small plain value, by which a
// table tells all else.
//
// The theorem, on each function: for every expression of the rules that the given one is (`Is` of `specs/Typings.antt`),
// the answer is that of the definition in `c_typing`.
//
// `typings` has expressions, `codes` their code from its parts, `conversions` values and conversions, `operators` operators.
//
// Source: C99 6.3, 6.5.
#![tactic(auto)]

mod codes;
mod conversions;
mod operators;
mod typings;

pub use codes::{binary, both, choose, convert, copy, either, load, seq, set_local, store};
pub use conversions::{
    Shown, access_of, converted, is_assignable, is_same, is_void, kind_of, value_of,
};
pub use operators::{
    Class, Operand, Operator, ResultType, are_comparable, is_integer, is_pointer, is_scalar,
    operator_of, points_to_void, result_type,
};
pub use typings::{Callee, Form, Type, Typing};
