// What the nodes of declarations mean by types: one row a kind.
//
// In come the table of a tree, the number of a node, what the nodes before it mean, and what its names denote. Out goes what
// the node means, or the first rule that it breaks.
//
// The idea: a row finds what the kids mean, asks the function that judges such a part of a declaration by types, and hands on
// what that answers. Where a kid has no meaning, neither has the node.
//
// The theorem, on each row: `IsRow` of `c_meanings`, where the node is of the row's kind.
//
// `words` has words among specs, `said` specs together, `tags` enums and structs without a body, `enumerators` enumerators,
// `members` members of structs, `types` names of types and parameters, `parts` names, pointers and parentheses as parts of declarators,
// `arrays` arrays and `functions` functions as such parts, `again` names that are declared again, `naming` what is
// asked of names and of what they are, `whole` the types of whole declarators, and `answers` what rows answer.
//
// Source: C99 6.7.
#![tactic(auto)]

mod again;
mod answers;
mod arrays;
mod enumerators;
mod functions;
mod members;
mod naming;
mod parts;
mod said;
mod tags;
mod types;
mod whole;
mod words;

pub use arrays::array_part;
pub use enumerators::enumerator;
pub use functions::function_part;
pub use members::member;
pub use naming::{check_declared, check_kind, check_main, check_name};
pub use parts::{name_part, parentheses_part, pointer_part};
pub use said::specifiers;
pub use tags::{enumeration, struct_reference};
pub use types::{parameter, type_name};
pub use whole::built;
pub use words::word;
