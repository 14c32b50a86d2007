// The scopes of names, while a unit is read.
//
// In come the scopes that open and close from place to place, and the names that they declare. Out goes,
// at each place, whether an identifier is a typedef name there.
//
// The idea: a log has each step that was taken, and a map has for each name the innermost scope that
// declares it. A declaration in the log keeps what the map said of its name before, so that closing a
// scope takes its declarations back one by one, the newest first. So a look-up hashes once, and scans no
// scope; this is to be read from the code, no contract says it.
//
// The invariant: the scopes are those that the log makes, and the map says of each name what the scopes
// say.
//
// The theorem, on `is_typedef_name`: the answer is that of the definition in `c_grammar`, for the scopes
// that there are. Each other call changes the scopes as its contract says. Where memory is refused, `open`
// and `add` leave them as they were, and of `take_innermost` and `add_all` the contracts say nothing.
//
// Source: C99 6.2.1; the table with a log that is undone is that of Cooper and Torczon, Engineering a
// Compiler, 5.5.3.
#![tactic(auto)]

mod scopes;

pub use scopes::{Declared, Scopes};
