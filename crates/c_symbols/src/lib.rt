// What is known of a syntax tree before its types: what its names denote and declare, the numbers of its objects, functions
// and locals, and what stands around its nodes.
//
// In come the nodes of a tree that some tokens derive. Out goes all of it at once, with one entry a node.
//
// The idea: each entry is found by a pass of its own; here they are put together, so that the checker asks one value.
//
// The theorem, on `symbols_of`: each entry is that of the definition in `c_typing` (`AreSymbols` of `specs/Symbols.antt`).
//
// `names` has what concerns names, `objects` and `locals` what is numbered, `around` what stands around nodes.
//
// Source: C99 6.2.1 to 6.2.4, 6.9.
#![tactic(auto)]

mod around;
mod locals;
mod names;
mod objects;
mod symbols;

pub use around::Around;
pub use locals::Locals;
pub use names::Names;
pub use objects::Objects;
pub use symbols::{Symbols, symbols_of};
