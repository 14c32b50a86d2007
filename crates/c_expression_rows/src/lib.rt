// What the nodes of a syntax tree that are expressions mean: one row a kind.
//
// In come the table of a tree, the number of a node, and what the nodes before it mean. Out goes what the node means, or the
// first rule that it breaks.
//
// The idea: a row takes what the kids mean, asks the function that judges such an expression, and hands on what that answers.
// Where a kid has no meaning, neither has the node.
//
// The theorem, on each row: `IsRow` of `c_meanings`, where the node is of the row's kind.
//
// `constants` has constants, `strings` string literals, `names` names, `variables` those of objects and locals, `enclosed` what
// stands in parentheses, `elements` elements of arrays, `members` members of structs, `calls` calls, `steps` `++` and `--`,
// `prefixes` the other operators before their operand, `sizes` `sizeof`, `casts` casts, `operators` the operators of two
// operands, `choices` `?:`, `assigns` `=`; `operands` takes the two operands of a node, `arguments` those of a call, `callees`
// looks at what is called, and `declared` at what declares a name.
//
// Source: C99 6.5.
#![tactic(auto)]

mod arguments;
mod assigns;
mod callees;
mod calls;
mod casts;
mod choices;
mod constants;
mod declared;
mod elements;
mod enclosed;
mod members;
mod names;
mod operands;
mod operators;
mod prefixes;
mod sizes;
mod steps;
mod strings;
mod variables;

pub use assigns::assignment;
pub use calls::call;
pub use casts::cast;
pub use choices::conditional;
pub use constants::{character, integer};
pub use elements::element;
pub use enclosed::parentheses;
pub use members::{arrow, dot};
pub use names::{enumerator_name, function_name, unknown_name};
pub use operators::{binary, comma};
pub use prefixes::unary;
pub use sizes::{size_of_expression, size_of_type};
pub use steps::{postfix_step, prefix_step};
pub use strings::string;
pub use variables::{local_name, object_name};
