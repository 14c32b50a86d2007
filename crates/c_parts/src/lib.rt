// The parts of a syntax tree, as a parser reads them.
//
// In come the nodes of a tree, one after another. Out go trees on the stack of a builder, and beside each what a parser
// asks of it again and again, so that it need not walk the tree: its height, kind and start; of specs, whether they say
// a type or `typedef`; of a declarator, its name and form; of a statement, whether it ends in an `if` without an `else`.
//
// What stands beside a tree is copied, and has no tie to it: the clauses say of which tree on the stack it is
// (`specs/Pushed.antt`), and what the definitions of `c_grammar` and `c_syntax` say of that tree (`specs/Says.antt`).
// The theorem, on `above` and the calls beside it: the new tree is the node above the given ones, and stands on the
// stack in their place.
//
// `part` has parts and the nodes above them; `specifier` and `declarator` specs and declarators; `words` what words and
// operators are for the grammar; `budget` the budgets for heights.
//
// Source: attributes that are synthesized while a tree is read (Aho and others, Compilers, 5.1); a perfect hash function of
// the keywords (Schmidt, GPERF: A Perfect Hash Function Generator, 1990).
#![tactic(auto)]

mod budget;
mod declarator;
mod part;
mod specifier;
mod words;

pub use budget::{Stop, next_lower, within};
pub use declarator::{Declarator, Mode, Suffix, is_absent};
pub use part::{
    Part, Statement, above, above_first, above_four, above_row, above_three, above_two, constant,
    leaf, literal,
};
pub use specifier::{Specifier, SpecifierRow, Specs, Tagged};
pub use words::{
    is_assignment, is_identifier, is_storage_word, is_type_word, is_unary_operator, level_of,
};
