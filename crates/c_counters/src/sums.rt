// Sums over what the nodes so far take.
ghost use Rattle.std.specs.Prelude.{◌≡◌, ◌<◌, ◌-◌, ◌^◌, List, drop, get_or, length, map, sum};
ghost use Rattle.c_typing.specs.Judgements.{Judgement, hidden_in};
ghost use Rattle.c_counters.specs.Counters.{AreSums};

/// What all nodes so far take.
pub(crate) fn whole(sums: &[usize]) -> usize
    requires { 0 < length sums.now }
    ensures is { result ≡ get_or sums.now (length sums.now - 1) 0 }
    ensures short { length sums.now < 2 ^ 60 }
{
    sums[sums.len() - 1]
}

/// What the nodes so far take from this one on.
pub(crate) fn taken_from(sums: &[usize], first: usize) -> usize
    requires { (js : List Judgement) × AreSums js sums.now }
    ensures is { (js : List Judgement) → AreSums js sums.now → result ≡ sum (map hidden_in (drop first js)) }
    ensures few { result < 2 ^ 61 }
{
    if first < sums.len() {
        whole(sums) - sums[first]
    } else {
        0
    }
}
