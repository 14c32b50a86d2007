// The functions that the nodes of a syntax tree stand in, and the numbers of their locals.
//
// In comes the table of a syntax tree, with what its nodes declare. Out go, for each node, the function that it stands in; for
// each function, how many parameters and automatic objects it has; and for each name of a local, its number.
//
// The idea: a function's nodes are an interval of numbers. So how many automatic objects stand before a node is counted once
// for all nodes, and what one function has is the difference of two such counts.
//
// The theorem: each answer is that of the definition in `c_typing`, for every tree that some tokens derive.
// `functions_around`: `function_around`. `parameters`: `parameters_of`. `automatic_count`:
// `automatics_in`. `local_count`: `named_locals`. `local_numbers`: `local_number`.
//
// `functions` has the functions that nodes stand in, with their parameters, `counts` how many automatic objects there are,
// and `numbers` the numbers of locals.
//
// Source: C99 6.2.4, 6.9.1.
#![tactic(auto)]

mod counts;
mod functions;
mod numbers;

pub use counts::{automatic_count, automatic_counts, local_count};
pub use functions::{functions_around, parameters};
pub use numbers::local_numbers;
