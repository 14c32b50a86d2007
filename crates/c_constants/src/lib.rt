// Constant expressions.
//
// In comes what the operands of an operator are as constants. Out goes what the whole is: no constant, a word, a null
// pointer, the address of an object with an addend, or a constant whose evaluated part at some node has no defined value.
//
// The idea: one value of a small type goes up the tree beside each expression, and each operator has one function.
//
// The theorem, on each function: the answer is that of the definition in `c_typing`.
//
// Source: C99 6.5, 6.6.
#![tactic(auto)]

mod constants;

pub use constants::{
    Constant, address_constant, address_in, both_constant, chosen_constant, converted_word,
    either_constant, element_at, integer_cast, is_constant, is_null, moved_down, moved_up,
    operated, part_at, pointer_cast,
};
