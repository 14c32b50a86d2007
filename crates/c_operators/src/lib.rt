// The operators of C on words.
//
// In come an operator and two words. Out goes the word that it gives, or none where C99 has its result undefined. What
// evaluates constants and what runs a unit use the same function.
//
// The theorem, on `operate`: the answer is that of `c_operator` of `c_types`.
//
// Source: C99 6.5.5 to 6.5.12.
#![tactic(auto)]

mod operators;

pub use operators::operate;
