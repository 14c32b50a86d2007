// A run over a sink that fails.
use crate::rows::LAYOUT;
use crate::units::{Row, unit_of};
use c_interpreter::interpret;
use cp_base::{MemSink, RunFault};
use std::alloc::{AllocError, Global};
use std::test::Fail;

// How many bytes a sink has that fails at one call, after a run that writes more than it takes; none where the
// run does not answer that the write failed, or where what was written is no front of its output.
fn taken(alloc: Global, call: usize, turns: u64) -> Result<Option<usize>, AllocError> {
    let unit = unit_of(alloc, Row::EndlessX)?;
    let mut out = MemSink::new(alloc, 1000, 20000)?;
    out.fail(call)?;
    let answer = interpret(alloc, &unit, &LAYOUT, b"", 1, turns, &mut out);
    let is_front = out.bytes().iter().all(|byte| *byte == 120);
    if matches!(answer, Err(RunFault::WriteFault)) && is_front {
        Ok(Some(out.bytes().len()))
    } else {
        Ok(None)
    }
}

#[test]
fn failing_sink(rt: HostRuntime) {
    assert!(rt; matches!(taken(rt.alloc(), 1, 3), Ok(Some(0))));
    assert!(rt; matches!(taken(rt.alloc(), 3, 10_000), Ok(Some(2000))));
    assert!(rt; matches!(taken(rt.alloc(), 6, 10_000), Ok(Some(4096))));
}
