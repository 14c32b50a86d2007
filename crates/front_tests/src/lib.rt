// Tests of the crates that read a unit.
//
// They call what these crates make public, and nothing else. Each crate has a module here, so that it is
// proved once, without its tests.
//
// The tests have what no clause says: that the calls succeed where there is memory, and that the clauses
// mean what they should. The expected values are worked by hand.
//
// `lexer` has tokens, their text, lines and columns (`c_lexer`); `syntax` tables and their text (`c_syntax`); `scopes`
// names while scopes open and close (`c_scopes`); `parts` nodes put together by hand (`c_parts`); `parser` units with
// their trees, and units without (`c_parser`).
#![tactic(auto)]

#[cfg(test)]
mod lexer;
#[cfg(test)]
mod parser;
#[cfg(test)]
mod parts;
#[cfg(test)]
mod scopes;
#[cfg(test)]
mod syntax;
