// Why a node is refused.
ghost use Rattle.std.specs.Prelude.{◌≡◌, ◌∷◌, ◌-◌, ◌^◌, [], min};
ghost use Rattle.c_typing.specs.Judgements as rules;
ghost use Rattle.c_answers.specs.Answers.{IsFirst};
ghost use Rattle.c_answers.specs.declared.refusal.Refusal.TheVariants.{TooBig};

use std::alloc::AllocError;

#[derive(Clone, Copy, Debug, PartialEq, Eq)]
pub enum Refusal {
    /// This rule is broken at this node.
    Broken { rule: u8, node: usize },
    /// A type at this node has this size, which is above the limit. A size above the greatest `u64` is told as that.
    TooBig { node: usize, size: u64 },
    OutOfMemory,
}

impl From<AllocError> for Refusal {
    ghost use Rattle.std.specs.Prelude.{◌≡◌};
    ghost use Rattle.c_answers.specs.declared.refusal.Refusal.TheVariants.{OutOfMemory};

    ghost from_gives = { λ _ refusal. refusal ≡ OutOfMemory };

    fn from(_error: AllocError) -> Refusal {
        Refusal::OutOfMemory
    }
}

/// A type at this node has this size, which is above the limit.
pub fn too_big(node: usize, size: u64) -> Refusal
    ensures is { result ≡ TooBig node size }
    ensures first { IsFirst result (rules.too_big node (min size (2 ^ 64 - 1)) ∷ []) }
{
    Refusal::TooBig { node, size }
}
