// What statements do, from what their parts do and mean.
//
// In come the code of expressions and statements, and what is asked of them. Out goes the code of a statement, or the first
// fault.
//
// The idea: one small function for each form of a statement. A statement is a list of statements of the typed tree, since a
// declaration may be none. What stands in a `switch` is put into groups from first to last. The labels of all `switch`es stand in one
// hashed set, each with its `switch`.
//
// The theorem, on each function: the answer is that of the definition in `c_typing`, or the first of its faults.
//
// `forms` has statements from their parts, `conditions` and `returns` what is asked of jumps and values, `labels` the labels of
// `switch`es, and `groups` what stands behind them.
//
// Source: C99 6.8.
#![tactic(auto)]

mod conditions;
mod forms;
mod groups;
mod labels;
mod returns;

pub use conditions::{check_jump, check_selector};
pub use forms::{
    as_one, conditional, expression, loop_after, loop_before, one, return_of, selection, unset,
};
pub use groups::Grouping;
pub use labels::{Labels, case_label, default_label};
pub use returns::{return_nothing, return_value};
