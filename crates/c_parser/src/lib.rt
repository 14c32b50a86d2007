// The parser.
//
// In come the tokens of a unit. Out goes its syntax tree, or the place of a fault.
//
// The idea: recursive descent. Each function reads one part, within a budget for the height of its tree; a
// part inside has a lower budget, so that the host's stack grows with the height of the tree. Chains that grow
// to the left and lists are loops; binary operators of all levels are one loop. Whether an identifier is a
// typedef name is asked of the scopes, which change as declarations are read.
//
// The invariant: a function answers as the reading function of `c_grammar` does with this budget, these
// scopes and these tokens; the scopes behind it are those behind the tree, and the tree is within the budget.
//
// The theorem, on `parse`: the tree is one that is derived, of a height of at most 500. After `Syntax` the
// tokens have no tree, and however a unit goes on behind the token at the place, it has none. After `TooDeep`,
// however a unit goes on behind the tokens before the place, its tree is higher than 500; and some unit that
// begins with them has a tree. So tokens with a tree of at most 500 are answered by it, want of memory apart.
//
// `parser` has what is left of the unit; `expression`, `types`, `declared` (declarators), `declaration` and
// `statement` have the rules, `unit` the call.
//
// Source: C99 6.5 to 6.9; recursive descent, and operators by their levels, as in Aho and others,
// Compilers, 4.4, and Pratt, Top down operator precedence (1973).
#![tactic(auto)]

mod declaration;
mod declared;
mod expression;
mod parser;
mod statement;
mod types;
mod unit;

pub use unit::{ParseFault, parse};
