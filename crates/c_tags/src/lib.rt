// The tags of structs and enums in a syntax tree (C99 6.7.2.3).
//
// In come the nodes of a tree. Out goes, for each node that has a tag, the node that declares what it names, whether it is
// new there, whether it was declared as the other kind, and whether it has a body already.
//
// The idea: the nodes are gone through in the order of their first tokens, since the scope of a tag begins right behind it.
// The place of a node in that order is the number of its lowest node and how deep it stands: so many nodes end before it
// begins, or stand around it. Each text has a chain of its tags whose scopes have not ended, one a scope; what a tag names
// is the innermost one of them. A tag that is entered takes the place of an earlier one of its scope.
//
// The invariant: at each node that comes later, a chain sees what the tags so far say there.
//
// The theorem, on `tags_of`: for each node the answer is that of `tag_of` in `c_typing`, with `has_second_body` as
// `tags_before` says it; `names_of`, `stands_twice` and `is_known_enum` answer as the definitions of these names do.
//
// `order` has the order, `tagged` the nodes with their scopes and texts, `texts` the texts, `chain` the tags of one text,
// `walk` the pass over the nodes, and `tag` what is told of a tag.
//
// Source: C99 6.2.1, 6.7.2.3.
#![tactic(auto)]

mod chain;
mod order;
mod tag;
mod tagged;
mod texts;
mod walk;

pub use order::by_first_token;
pub use tag::{Tag, is_known_enum, names_of, stands_twice};
pub use walk::tags_of;
