// The operators of C expressions, but for those that write.
//
// In come the operands of an operator, as values with their types, their code, and what they are as constants. Out goes the
// expression that the whole is, or the first rule that is broken.
//
// The idea: one function a production of the rules. It asks the operands' types whether they are allowed, then makes the type
// of the result, the code, and the constant, each by a function of its own.
//
// The theorem, on each function: for all expressions of the rules that the operands are, the answer is that of the production
// in `c_typing` (`Answers` of `c_answers`). The table of types grows, where a result has a type of its own.
//
// `casts` has casts, `unary` the operators of one operand and `sizeof`, `choices` the operators `?:` and `,`, `binary` the
// operators of two operands, `operator_codes` their code, `operator_constants` what they are as constants, and `results` what
// several of them share.
//
// Source: C99 6.5.3 to 6.5.15, 6.5.17.
#![tactic(auto)]

mod binary;
mod casts;
mod choices;
mod operator_codes;
mod operator_constants;
mod results;
mod unary;

pub use binary::binary_by;
pub use casts::cast;
pub use choices::{comma, condition, conditional};
pub use operator_codes::{Coded, code_of, operator_code};
pub use results::{form_of_result, operand_of, type_of_result};
pub use unary::{measured_type, not_operator, number_of_type, sign_operator, size_of};
