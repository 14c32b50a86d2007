// Types and typed units.
//
// In come the kinds of types, the members of structs, and a whole unit whose types are gone. Out go sizes, alignments
// and offsets, the places of a unit's objects, and the bytes of its data.
//
// The idea: a table has each type once, by its kind, and finds it by hashing; beside a kind stand its size and alignment,
// and a struct that is closed has its own, with the offsets of its members. What stands in order in memory, members or
// objects, is placed by one rule: each at the least multiple of its alignment behind the one before it. The bytes of the
// data are zeros, over which the cells are written. `specs/InOrder.antt` has that rule, `specs/Sizes.antt` the sizes of
// types, `specs/Tables.antt` how a table changes, `specs/Placing.antt` places and bytes. A unit is plain data:
// `specs/Forms.antt` names each form of its trees, so that definitions match on them, `specs/Every.antt` says what holds
// of all trees of a unit, `specs/WellMade.antt` which units are well made, and `specs/Operators.antt` what the operators of
// C give of words.
//
// The invariant of a table, which contracts see as its kinds and the members of its structs: what stands beside a kind or
// in a struct is its size and alignment by the definition, and is within the limit of 16,777,216 bytes.
//
// The theorem, on `Types::add` and `Types::close_struct`: two types of one kind are one type, what has a size keeps it,
// a type is refused as too big only where its size is above the limit, and added only where it is not; on `Types::size`,
// `Types::align` and `Types::member`: the answers are those of the definition, and there is none exactly where it has
// none. On `place` and `image`, of a well-made unit: each object is at the least multiple of its alignment behind the one
// before it, and the bytes are 0 but for the cells, each with its least byte first.
//
// `kind` has the kinds of types, `types` the table, `in_order` the rule for places, `tree` typed units, `placing` and
// `area` places and bytes.
//
// Source: C99 6.2.5, 6.2.7 and 6.7.2.1; the sizes are those of the ILP32 data model.
#![tactic(auto)]

mod area;
mod in_order;
mod kind;
mod placing;
mod tree;
mod types;

pub use area::image;
pub use cp_base::{Kind, To};
pub use in_order::Offsets;
pub use kind::{MAX_SIZE, Measure, StructId, TypeId, TypeKind, TypeList};
pub use placing::{Places, place};
pub use tree::{
    COp, Cell, CellValue, Cells, Expr, Exprs, Func, Funcs, Group, Groups, Object, Objects, Stmt,
    Stmts, Unit, Words,
};
pub use types::{TypeFault, Types};
