// The only value other than a Phi among its operands.
ghost use Rattle.std.specs.Prelude.{◌≡◌, ℕ, ◌++◌, ◌∷◌, [], List, Option, Some, None};
ghost use Rattle.std.specs.Option.{IfSome, IfNone};
ghost use Rattle.ssa_tests.specs.Seen.{Sees, IsOnly};

// The values other than the Phi among its operands.
#[derive(Clone, Copy)]
pub enum Seen {
    Nothing,
    One(usize),
    More,
}

// One operand more.
fn see(seen: Seen, phi: usize, operand: usize) -> Seen
    ensures { (before : List ℕ) → Sees seen phi before → Sees result phi (before ++ operand ∷ []) }
{
    if operand == phi {
        return seen;
    }
    match seen {
        Seen::Nothing => Seen::One(operand),
        Seen::One(value) if value == operand => seen,
        _ => Seen::More,
    }
}

// The only value other than the Phi among its operands.
pub fn only_of(operands: &[usize], phi: usize) -> Option<usize>
    ensures some { IfSome result (λ only. IsOnly operands.now phi only) }
    ensures none { IfNone result ((only : ℕ) → IsOnly operands.now phi only → ⊥) }
{
    let mut seen = Seen::Nothing;
    for operand in operands {
        seen = see(seen, phi, *operand);
    }
    match seen {
        Seen::One(value) => Some(value),
        _ => None,
    }
}
