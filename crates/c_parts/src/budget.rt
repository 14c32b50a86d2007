// Budgets for the height of a tree, and why a part cannot be read.
ghost use Rattle.std.specs.Prelude.{◌≡◌, ◌≢◌, ◌<◌};
ghost use Rattle.c_grammar.specs.Reading.{below, level};
ghost use Rattle.c_parts.specs.Pushed.{Lowers};

use std::alloc::AllocError;

/// Why a part cannot be read. The place is what is left then.
#[derive(Clone, Copy)]
pub enum Stop {
    /// The first token that is left cannot stand there.
    Wrong,
    /// The tokens before it nest too deep.
    Deep,
    OutOfMemory,
}

impl From<AllocError> for Stop {
    ghost use Rattle.std.specs.Prelude.{◌≡◌};
    ghost use Rattle.c_parts.specs.declared.budget.Stop.TheVariants.{OutOfMemory};

    ghost from_gives = { λ _ fault. fault ≡ OutOfMemory };

    fn from(_error: AllocError) -> Stop {
        Stop::OutOfMemory
    }
}

/// The next lower budget, where a node above a part of this height is within the budget.
#[tactic(auto, using(crate::proofs::Levels::below_lower))]
pub fn within(height: usize, budget: usize) -> Result<usize, Stop>
    ensures { Lowers height budget result }
{
    if budget <= height {
        return Err(Stop::Deep);
    }
    Ok(budget - 1)
}

/// The budget of the first part of a node without a token of its own: the next lower one, or 0.
#[tactic(auto, using(crate::proofs::Levels::below_lower))]
pub fn next_lower(budget: usize) -> usize
    ensures none { budget ≡ 0 → result ≡ 0 }
    ensures lower { budget ≢ 0 → below budget ≡ level result (below result) }
    ensures less { budget ≢ 0 → result < budget }
{
    budget.saturating_sub(1)
}
