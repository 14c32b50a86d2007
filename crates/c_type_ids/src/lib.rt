// The types of a unit, each named by an id.
//
// In come the parts of types, as declarations give them. Out go ids, and for an id what the type is, its size and its
// alignment, and the members of a struct.
//
// The idea: the table of `c_types` has each type once, by its kind; beside it stands, for each node of the tree, the struct
// that the node declares. So two types are the same where their ids are equal, and nothing is compared part by part.
//
// The invariant of `TypeTable`: two ids of one kind are one, and so are two nodes of one struct.
//
// The theorem, on each call, where an id names a type by `Names` of `specs/Ids.antt`: a new id names the type that is made
// of the types of its parts; `kind` shows what the type is; `size`, `align` and `member` are those of the rules, for the
// structs that are complete; and what was named stays named. In `proofs/IdLaws.antt`: one type has one id (`one_id`), and
// one id names one type (`one_type`).
//
// `table` has the table, `kinds` what a type is, and `integers` the integer types with their promotions and conversions.
//
// Source: C99 6.2.5, 6.2.7, 6.3.1 and 6.7.2.1.
#![tactic(auto)]

mod integers;
mod kinds;
mod table;

pub use integers::{Integer, Traits, common, promoted, traits_of};
pub use kinds::Kind;
pub use table::TypeTable;
