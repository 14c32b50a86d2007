// Which nodes of a syntax tree are called, and which specs stand before functions.
//
// In comes the table of a syntax tree, with what its nodes declare. Out goes, for each node, whether it is what a call calls,
// parentheses aside; and whether a function is declared behind it as its specs.
//
// The idea: a node in parentheses is called where these are, so one pass from the last node to the first, parents before their
// kids, is enough. For specs, one pass over the names of functions marks the specs that stand before each.
//
// The theorem: each answer is that of the definition in `c_typing`. `called_nodes`: `is_called`, for every tree.
// `function_specs`: `stand_before_function`, for every tree that some tokens derive.
//
// `calls` has the names that are called, and `functions` the specs.
//
// Source: C99 6.5.2.2, 6.7.
#![tactic(auto)]

mod calls;
mod functions;

pub use calls::called_nodes;
pub use functions::function_specs;
