// Lists that grow, and who uses what.
//
// In come numbers of users and of what they use; out go, for each user, what it uses in order, and for each used one its users.
// A node of a graph uses its operands, and the end of a block the nodes that it names.
//
// The idea: `Rows` is a table of lists, each of which grows by itself. They stand in an obstack, and one that is full moves to a
// longer list there, of twice the length. `Uses` is two such tables, one for each way, with hints on where each user stands, so that it is taken out at
// once.
//
// The invariant of `Rows`: no two rows have one list of the obstack. That of `Uses`: a used one lists each user as often as
// that one uses it.
//
// The theorem: each call changes the rows as its contract says, in one equation; contracts of `Uses` see what each user uses, and
// of the users of one thing only how often each stands among them.
#![tactic(auto)]

mod edits;
mod hints;
mod places;
mod rows;
mod uses;

pub use rows::Rows;
pub use uses::Uses;
