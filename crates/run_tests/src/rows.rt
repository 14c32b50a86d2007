// Runs of units made by hand, each with the output and the outcome that are wanted.
use crate::units::{Row, unit_of};
use c_interpreter::interpret;
use cp_base::{Layout, MemSink, RunFault};
use run_model::Outcome;
use std::alloc::Global;
use std::test::Fail;

pub static LAYOUT: Layout = Layout {
    code: 65536,
    cdata: 268_435_456,
    top: 2_147_483_648,
    stack: 1_048_576,
};

// Whether a run of the unit writes this and comes to this.
fn comes_to(
    alloc: Global,
    row: Row,
    input: &[u8],
    bounds: (u64, u64),
    output: &[u8],
    wanted: Outcome,
) -> Result<bool, RunFault> {
    let unit = unit_of(alloc, row)?;
    let mut out = MemSink::new(alloc, 3, 100)?;
    let (depth, turns) = bounds;
    let outcome = interpret(alloc, &unit, &LAYOUT, input, depth, turns, &mut out)?;
    Ok(outcome == wanted && out.bytes() == output)
}

// The unit, the depth and the turns, the output and the outcome.
static RUNS: [(Row, (u64, u64), &[u8], Outcome); 14] = [
    (Row::EndlessX, (9, 3), b"xxxx", Outcome::Running),
    (Row::EndlessX, (9, 0), b"x", Outcome::Running),
    (Row::EndlessX, (0, 3), b"", Outcome::Deep),
    (Row::SignedOverflow, (9, 0), b"", Outcome::Undefined),
    (Row::EmptyMain, (1, 0), b"", Outcome::Ended(0)),
    (Row::NullLoad, (9, 9), b"", Outcome::Undefined),
    (Row::UnsetLocal, (9, 9), b"", Outcome::Undefined),
    (Row::Factorial, (6, 5), b"", Outcome::Ended(120)),
    (Row::Factorial, (6, 4), b"", Outcome::Running),
    (Row::Factorial, (5, 5), b"", Outcome::Deep),
    (Row::Factorial, (1, 0), b"", Outcome::Deep),
    (Row::SwitchFallsThrough, (9, 9), b"", Outcome::Ended(123)),
    (Row::SwitchFallsThrough, (9, 3), b"", Outcome::Running),
    (Row::StructCopy, (1, 0), b"", Outcome::Ended(24)),
];

// *endless-x*, *signed-overflow*, *empty-main*, *null-load*, *factorial*, *switch-falls-through*, *struct-copy*
#[test]
fn runs(rt: HostRuntime) {
    for (row, bounds, output, outcome) in &RUNS {
        let fits = comes_to(rt.alloc(), *row, b"", *bounds, output, *outcome);
        assert!(rt; matches!(fits, Ok(true)));
    }
}

#[test]
fn echo(rt: HostRuntime) {
    let all = comes_to(
        rt.alloc(),
        Row::Echo,
        b"ab\n",
        (9, 3),
        b"ab\n",
        Outcome::Ended(0),
    );
    assert!(rt; matches!(all, Ok(true)));
    let front = comes_to(
        rt.alloc(),
        Row::Echo,
        b"ab\n",
        (9, 1),
        b"ab",
        Outcome::Running,
    );
    assert!(rt; matches!(front, Ok(true)));
}
