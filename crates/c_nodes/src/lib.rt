// Where the nodes of a syntax tree stand: parents, declarators, scopes, and what is around a node.
//
// In comes the table of a syntax tree. Out go, for each node, its parent and its index among the kids of that, its lowest
// node, the declarator that begins with it, the part that stands next to it there, the innermost function, loop, `switch`
// or declaration around it; and the scopes of the tree, with the innermost one that a node stands in.
//
// The idea: a table has kids before their parents, so that a subtree is an interval of numbers. Each answer is a number
// for each node, in a vector that one pass over the table fills. What is innermost is written last, over what is around it;
// so each node is written once for each such thing around it, which a tree of height 500 bounds.
//
// The invariant of `Nodes`, which contracts see as the table: the table is that of a tree, and beside each node stands
// its parent.
//
// The theorem: each answer is that of the definition in `c_typing`, for every tree. `Nodes`: `parent`, `index`, `first`,
// `kid`. `whole_declarators` and `next_parts`: `whole_declarator` and `next_to_name`. `enclosing`: `around`. `scopes`:
// `scopes_of`. `innermost`: the first of some spans that each node stands in.
//
// `nodes` has the table, `declarators` the declarators, `around` what is around a node, `spans` spans of nodes, and `scope`
// the scopes.
//
// Source: C99 6.2.1, 6.7.5.
#![tactic(auto)]

mod around;
mod declarators;
mod nodes;
mod scope;
mod spans;

pub use around::{Kinds, enclosing};
pub use declarators::{is_declarator, is_step, next_parts, whole_declarators};
pub use nodes::Nodes;
pub use scope::{own_takes, owner_of, scopes};
pub use spans::{Span, innermost};
