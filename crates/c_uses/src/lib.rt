// What the checker asks of names that are used, before it asks for types: what they denote, and the rules on them that are seen by
// places alone.
//
// In come the nodes of a tree that some tokens derive, with what is known of it before its types, and the number of a node. Out
// goes what the name there denotes, or the rule that is broken there; and of the whole unit, whether it has a `main`.
//
// The idea: each answer is looked up in the vectors of `c_symbols`, which have an entry a node; `main` is looked for once, among
// all nodes.
//
// The theorem: each answer is that of the definition in `c_typing`, for every tree that some tokens derive. `denoted_at` and
// `used_name`: `denoted`. `place_fault`: `place_faults_by`. `has_main`: whether there is a `function_number` of `main`.
//
// `names` has what names denote, `faults` the rules, and `mains` `main`.
//
// Source: C99 5.1.2.2.1, 6.2.1, 6.7.1, 6.9.
#![tactic(auto)]

mod faults;
mod mains;
mod names;

pub use faults::place_fault;
pub use mains::has_main;
pub use names::{UsedName, denoted_at, used_name};
