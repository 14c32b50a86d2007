// Tests of SSA construction, over a small target of lists.
#![tactic(auto)]

mod flow;
mod flows;
mod ladder;
mod list_target;
mod lists;
mod only;
mod walk;

pub use ladder::read_ladder;
pub use lists::ListTarget;
