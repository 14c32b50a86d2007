// Lists of numbers that stand one behind the other in one growing region.
//
// In come lists; out goes a name for each, by which it is read and its numbers are changed. The lists behind a mark
// are given back together.
//
// The idea: one vector has the numbers of all lists, another where each list starts. Contracts see neither, but the
// list of the lists and a number, `spare`: what may be pushed without asking for memory (`specs/Lists.antt`).
//
// The invariant: the numbers are those of the lists, joined, and each list starts where the one before it ends.
//
// The theorem: the lists are exactly those that were pushed, with the changes by `set`. A push keeps all lists before it, and
// `release` those before the mark. Within `spare` a push succeeds.
//
// Source: obstacks as in the GNU C Library, whose objects are freed back to a place.
#![tactic(auto)]

mod obstack;

pub use obstack::{Mark, Obstack, Span};
