// The objects with names of a unit, and which of them its names declare.
//
// In comes the table of a syntax tree, with what its nodes declare and what was declared before. Out go, for each node, the first
// declaration of the name that it declares, whether the object of this name is defined, and its number; the objects in their
// order; and for each object its declarations.
//
// The idea: names of one text in one scope are one group, which the first of them stands for. `Earlier` tells the last name
// that is declared before in the same group; so the first one is found from node to node. What holds of a group stands at its
// first name.
//
// The invariant: each name whose scope has begun has the first name of its group.
//
// The theorem: each answer is that of the definition in `c_typing`, for every tree that some tokens derive.
// `first_declarations`: the name of a group before which `earlier` has none. `defined_objects`: `is_defined_object`.
// `objects`: `objects_of`. `object_numbers`: `object_number`. `declarations`: `declarations_of`.
//
// `firsts` has the first declarations, `defined` what is defined, and `numbers` the objects with their numbers;
// `declared` has the declarations of each.
//
// Source: C99 6.2.2, 6.9.2.
#![tactic(auto)]

mod declared;
mod defined;
mod firsts;
mod numbers;

pub use declared::declarations;
pub use defined::defined_objects;
pub use firsts::first_declarations;
pub use numbers::{object_numbers, objects};
