// Which of some spans of nodes each node stands in.
ghost use Rattle.std.specs.Prelude.{◌≡◌, ◌<◌, ◌&&◌, ℕ, IfOk, get_or, if◌then◌else◌, length, map, nat_le, nat_lt, replicate};
ghost use Rattle.std.specs.List.{range_with_len};
ghost use Rattle.c_nodes.specs.Spans.{AreWithin, IsSpanWithin, found_in, painted};

use std::alloc::{AllocError, Global};

/// The nodes from one up to another, and those from a third up to a fourth; `from` behind `to` means none.
#[derive(Clone, Copy, Debug, PartialEq, Eq)]
pub struct Span {
    /// The node that it belongs to.
    pub node: usize,
    pub from: usize,
    pub to: usize,
    pub more_from: usize,
    pub more_to: usize,
}

/// For each of so many nodes, the index of the first of the spans that it stands in; where there is none, how many spans
/// there are.
pub fn innermost(alloc: Global, spans: &[Span], count: usize) -> Result<Vec<usize>, AllocError>
    requires { AreWithin count spans.now }
    ensures { IfOk result (λ found. found.items ≡ map (found_in spans.now) (range_with_len 0 count)) }
{
    let mut found = Vec::new(alloc);
    found.resize(count, spans.len())?;
    paint_all(&mut found, spans);
    Ok(found)
}

// Writes the index of each span at the places that stand in it, that of the first one last.
fn paint_all(found: &mut [usize], spans: &[Span])
    requires within { AreWithin (length found.old) spans.now }
    requires start { found.old ≡ replicate (length found.old) (length spans.now) }
    ensures { found.new ≡ map (found_in spans.now) (range_with_len 0 (length found.old)) }
{
    let mut left = spans.len();
    while left > 0 {
        left -= 1;
        let span = spans[left];
        paint(found, span.from, span.to, left);
        paint(found, span.more_from, span.more_to, left);
    }
}

// Writes a number at the places from one up to another.
pub(crate) fn paint(found: &mut [usize], from: usize, to: usize, number: usize)
    requires { IsSpanWithin (length found.old) from to }
    ensures is { found.new ≡ painted from to number found.old }
    ensures places { (i : ℕ) → get_or found.new i 0 ≡ (if nat_le from i && (nat_le i to && nat_lt i (length found.old)) then number else get_or found.old i 0) }
    ensures long { length found.new ≡ length found.old }
{
    for place in from..to + 1 {
        found[place] = number;
    }
}
