// Syntax trees.
//
// In come the nodes of a tree as a parser reads it, kids before their parents. Out goes the tree as a table, and its
// text.
//
// The idea: a table has the nodes in post-order. The id of a node is its place, a subtree is an interval of ids that
// ends in its root, and all that a later judgement of a node will need has a smaller id. A builder appends one node
// after another; the trees that have no parent yet stand on a stack, from which a node takes its kids.
// `specs/Trees.antt` has the trees, `specs/Tables.antt` the table of a tree, and the trees of a table,
// `specs/TreeText.antt` the text of a tree; contracts see a builder and a `Syntax` as their nodes.
//
// The invariant of a builder: its nodes are those of the trees on its stack. That of a `Syntax`: its nodes are the
// table of a tree that is at most 500 nodes high, and its height is that of the tree.
//
// The theorem, on `SyntaxBuilder::push`: the stack is as before, but for the new tree in the place of its kids; on
// `finish`: the table is that of the one tree on the stack. A table stands for one tree (`proofs/TableLaws.antt`), so
// that what is said of the tree of a table is said of it. On `tree_text`: the text is that of the tree. On `Syntax::root`:
// the root stands for a tree within the limit; what recurses over a tree asks for that, and is no deeper.
//
// `kind` has the kinds of nodes, `label` what a node has beside its kids, `builder` and `syntax` the table while it is
// written and when it is whole, `text` the text.
//
// Source: the tree's height and its post-order are textbook terms (Knuth, The Art of Computer
// Programming, Volume 1, 2.3.1 and 2.3.3).
#![tactic(auto)]

mod builder;
mod kind;
mod label;
mod syntax;
mod text;

pub use builder::SyntaxBuilder;
pub use kind::SynKind;
pub use label::Label;
pub use syntax::{MAX_HEIGHT, SynId, SynIds, SynNode, Syntax};
pub use text::tree_text;
