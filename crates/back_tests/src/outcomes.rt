// The environment calls, each cause of being stuck, and layouts that do not hold a unit.
use crate::programs::{LAYOUT, Row, outcome_of, put, unit_of};
use cp_base::{Items, Layout};
use rv_code::RvName::{Addi, Ecall, Jal, Jalr, Lb, Lbu, Lh, Lhu, Lui, Lw, Sb, Sh, Sw};
use rv_code::RvOutcome;
use std::alloc::{AllocError, Global};
use std::test::Fail;

// A program, its input, its output and its outcome. The program's first instruction is at 65636, sp is the top of
// a stack of 4096 bytes, and every other register but t0 and ra is 0.
type Case = (&'static [Row], &'static [u8], &'static [u8], RvOutcome);

// The end of the run with a0.
static ENDS: [Case; 8] = [
    (
        &[
            (Addi, 10, 0, 0, 300),
            (Addi, 17, 0, 0, 93),
            (Ecall, 0, 0, 0, 0),
        ],
        b"",
        b"",
        RvOutcome::Ended(44),
    ),
    (
        &[
            (Addi, 10, 0, 0, -1),
            (Addi, 17, 0, 0, 93),
            (Ecall, 0, 0, 0, 0),
        ],
        b"",
        b"",
        RvOutcome::Ended(255),
    ),
    // x0 stays 0
    (
        &[
            (Addi, 0, 0, 0, 5),
            (Addi, 10, 0, 0, 0),
            (Addi, 17, 0, 0, 93),
            (Ecall, 0, 0, 0, 0),
        ],
        b"",
        b"",
        RvOutcome::Ended(0),
    ),
    // `jalr` clears bit 0 of its target, and gives the address of the next instruction
    (
        &[
            (Lui, 5, 0, 0, 16),
            (Jalr, 6, 5, 0, 113),
            (Ecall, 0, 0, 0, 0),
            (Addi, 10, 6, 0, 0),
            (Addi, 17, 0, 0, 93),
            (Ecall, 0, 0, 0, 0),
        ],
        b"",
        b"",
        RvOutcome::Ended(108),
    ),
    // `jal`, by its distance
    (
        &[
            (Jal, 6, 0, 0, 8),
            (Ecall, 0, 0, 0, 0),
            (Addi, 10, 6, 0, 0),
            (Addi, 17, 0, 0, 93),
            (Ecall, 0, 0, 0, 0),
        ],
        b"",
        b"",
        RvOutcome::Ended(104),
    ),
    // the buffer byte is 0
    (
        &[
            (Lui, 6, 0, 0, 65536),
            (Lbu, 10, 6, 0, 0),
            (Addi, 17, 0, 0, 93),
            (Ecall, 0, 0, 0, 0),
        ],
        b"",
        b"",
        RvOutcome::Ended(0),
    ),
    // the lowest word of the stack
    (
        &[
            (Lui, 6, 0, 0, 524_287),
            (Sw, 0, 6, 2, 0),
            (Lbu, 10, 6, 0, 3),
            (Addi, 17, 0, 0, 93),
            (Ecall, 0, 0, 0, 0),
        ],
        b"",
        b"",
        RvOutcome::Ended(128),
    ),
    // it runs on
    (&[(Jal, 0, 0, 0, 0)], b"", b"", RvOutcome::Running),
];

// Reads and writes of a byte.
static CALLS: [Case; 13] = [
    (
        &[
            (Addi, 11, 2, 0, -16),
            (Addi, 12, 0, 0, 1),
            (Addi, 17, 0, 0, 63),
            (Ecall, 0, 0, 0, 0),
            (Lbu, 10, 11, 0, 0),
            (Addi, 17, 0, 0, 93),
            (Ecall, 0, 0, 0, 0),
        ],
        b"A",
        b"",
        RvOutcome::Ended(65),
    ),
    (
        &[
            (Addi, 11, 2, 0, -16),
            (Addi, 12, 0, 0, 1),
            (Addi, 17, 0, 0, 63),
            (Ecall, 0, 0, 0, 0),
            (Addi, 17, 0, 0, 93),
            (Ecall, 0, 0, 0, 0),
        ],
        b"A",
        b"",
        RvOutcome::Ended(1),
    ),
    (
        &[
            (Addi, 11, 2, 0, -16),
            (Addi, 12, 0, 0, 1),
            (Addi, 17, 0, 0, 63),
            (Ecall, 0, 0, 0, 0),
            (Addi, 10, 0, 0, 0),
            (Ecall, 0, 0, 0, 0),
            (Lbu, 10, 11, 0, 0),
            (Addi, 17, 0, 0, 93),
            (Ecall, 0, 0, 0, 0),
        ],
        b"AB",
        b"",
        RvOutcome::Ended(66),
    ),
    (
        &[
            (Addi, 11, 2, 0, -16),
            (Addi, 12, 0, 0, 1),
            (Addi, 17, 0, 0, 63),
            (Ecall, 0, 0, 0, 0),
            (Addi, 17, 0, 0, 93),
            (Ecall, 0, 0, 0, 0),
        ],
        b"",
        b"",
        RvOutcome::Ended(0),
    ),
    (
        &[
            (Addi, 6, 0, 0, 72),
            (Sb, 0, 2, 6, -1),
            (Addi, 10, 0, 0, 1),
            (Addi, 11, 2, 0, -1),
            (Addi, 12, 0, 0, 1),
            (Addi, 17, 0, 0, 64),
            (Ecall, 0, 0, 0, 0),
            (Addi, 17, 0, 0, 93),
            (Ecall, 0, 0, 0, 0),
        ],
        b"",
        b"H",
        RvOutcome::Ended(1),
    ),
    // another file, another number of bytes, and bytes that are not of the data or the stack
    (
        &[
            (Addi, 10, 0, 0, 1),
            (Addi, 11, 2, 0, -16),
            (Addi, 12, 0, 0, 1),
            (Addi, 17, 0, 0, 63),
            (Ecall, 0, 0, 0, 0),
        ],
        b"A",
        b"",
        RvOutcome::Stuck { pc: 65652 },
    ),
    (
        &[
            (Addi, 11, 2, 0, -16),
            (Addi, 12, 0, 0, 2),
            (Addi, 17, 0, 0, 63),
            (Ecall, 0, 0, 0, 0),
        ],
        b"A",
        b"",
        RvOutcome::Stuck { pc: 65648 },
    ),
    (
        &[
            (Lui, 11, 0, 0, 16),
            (Addi, 12, 0, 0, 1),
            (Addi, 17, 0, 0, 63),
            (Ecall, 0, 0, 0, 0),
        ],
        b"A",
        b"",
        RvOutcome::Stuck { pc: 65648 },
    ),
    (
        &[
            (Addi, 11, 2, 0, -16),
            (Addi, 12, 0, 0, 1),
            (Addi, 17, 0, 0, 64),
            (Ecall, 0, 0, 0, 0),
        ],
        b"",
        b"",
        RvOutcome::Stuck { pc: 65648 },
    ),
    (
        &[
            (Addi, 10, 0, 0, 1),
            (Addi, 11, 2, 0, -16),
            (Addi, 17, 0, 0, 64),
            (Ecall, 0, 0, 0, 0),
        ],
        b"",
        b"",
        RvOutcome::Stuck { pc: 65648 },
    ),
    (
        &[
            (Addi, 10, 0, 0, 1),
            (Addi, 12, 0, 0, 1),
            (Addi, 17, 0, 0, 64),
            (Ecall, 0, 0, 0, 0),
        ],
        b"",
        b"",
        RvOutcome::Stuck { pc: 65648 },
    ),
    // other calls
    (
        &[(Ecall, 0, 0, 0, 0)],
        b"",
        b"",
        RvOutcome::Stuck { pc: 65636 },
    ),
    (
        &[(Addi, 17, 0, 0, 94), (Ecall, 0, 0, 0, 0)],
        b"",
        b"",
        RvOutcome::Stuck { pc: 65640 },
    ),
];

// Accesses and fetches that are not allowed.
static STUCK: [Case; 17] = [
    (
        &[(Lw, 6, 2, 0, -6)],
        b"",
        b"",
        RvOutcome::Stuck { pc: 65636 },
    ),
    (
        &[(Lh, 6, 2, 0, -5)],
        b"",
        b"",
        RvOutcome::Stuck { pc: 65636 },
    ),
    (
        &[(Lhu, 6, 2, 0, -3)],
        b"",
        b"",
        RvOutcome::Stuck { pc: 65636 },
    ),
    (
        &[(Sw, 0, 2, 6, -7)],
        b"",
        b"",
        RvOutcome::Stuck { pc: 65636 },
    ),
    (
        &[(Sh, 0, 2, 6, -1)],
        b"",
        b"",
        RvOutcome::Stuck { pc: 65636 },
    ),
    (
        &[(Lb, 6, 0, 0, 0)],
        b"",
        b"",
        RvOutcome::Stuck { pc: 65636 },
    ),
    (
        &[(Lbu, 6, 2, 0, 0)],
        b"",
        b"",
        RvOutcome::Stuck { pc: 65636 },
    ),
    (
        &[(Lw, 6, 2, 0, 0)],
        b"",
        b"",
        RvOutcome::Stuck { pc: 65636 },
    ),
    (
        &[(Sw, 0, 2, 6, 0)],
        b"",
        b"",
        RvOutcome::Stuck { pc: 65636 },
    ),
    // below the stack
    (
        &[(Lui, 6, 0, 0, 524_287), (Lw, 7, 6, 0, -4)],
        b"",
        b"",
        RvOutcome::Stuck { pc: 65640 },
    ),
    // behind the buffer byte, and across the end of the data
    (
        &[(Lui, 6, 0, 0, 65536), (Lbu, 7, 6, 0, 1)],
        b"",
        b"",
        RvOutcome::Stuck { pc: 65640 },
    ),
    (
        &[(Lui, 6, 0, 0, 65536), (Lh, 7, 6, 0, 0)],
        b"",
        b"",
        RvOutcome::Stuck { pc: 65640 },
    ),
    // the code
    (
        &[(Lui, 6, 0, 0, 16), (Sw, 0, 6, 0, 0)],
        b"",
        b"",
        RvOutcome::Stuck { pc: 65640 },
    ),
    (
        &[(Lui, 6, 0, 0, 16), (Lw, 7, 6, 0, 0)],
        b"",
        b"",
        RvOutcome::Stuck { pc: 65640 },
    ),
    // behind the code, at address 0, and at no multiple of 4
    (
        &[(Addi, 6, 0, 0, 1)],
        b"",
        b"",
        RvOutcome::Stuck { pc: 65640 },
    ),
    (&[(Jalr, 0, 0, 0, 0)], b"", b"", RvOutcome::Stuck { pc: 0 }),
    (
        &[(Lui, 6, 0, 0, 16), (Jalr, 0, 6, 0, 102)],
        b"",
        b"",
        RvOutcome::Stuck { pc: 65638 },
    ),
];

// Layouts that do not hold a unit of one instruction, whose code has 104 bytes.
static LAYOUTS: [Layout; 11] = [
    Layout {
        code: 65540,
        cdata: 268_435_456,
        top: 2_147_483_648,
        stack: 4096,
    },
    Layout {
        code: 65536,
        cdata: 268_435_464,
        top: 2_147_483_648,
        stack: 4096,
    },
    Layout {
        code: 65536,
        cdata: 268_435_456,
        top: 2_147_483_656,
        stack: 4096,
    },
    Layout {
        code: 65536,
        cdata: 268_435_456,
        top: 2_147_483_648,
        stack: 4100,
    },
    Layout {
        code: 65536,
        cdata: 268_435_456,
        top: 4096,
        stack: 4112,
    },
    Layout {
        code: 0,
        cdata: 268_435_456,
        top: 2_147_483_648,
        stack: 4096,
    },
    Layout {
        code: 65536,
        cdata: 0,
        top: 2_147_483_648,
        stack: 4096,
    },
    Layout {
        code: 65536,
        cdata: 268_435_456,
        top: 4096,
        stack: 4096,
    },
    Layout {
        code: 65536,
        cdata: 65632,
        top: 2_147_483_648,
        stack: 4096,
    },
    Layout {
        code: 65536,
        cdata: 268_435_456,
        top: 65552,
        stack: 4096,
    },
    Layout {
        code: 65536,
        cdata: 2_147_479_552,
        top: 2_147_483_648,
        stack: 4096,
    },
];

fn outcome(alloc: Global, case: &Case) -> Result<Option<RvOutcome>, AllocError> {
    let (rows, input, output, _) = case;
    let mut lines = Items::new(alloc);
    for row in *rows {
        put(&mut lines, *row)?;
    }
    let unit = unit_of(alloc, lines)?;
    outcome_of(alloc, &unit, &LAYOUT, input, 100, output)
}

#[test]
fn runs_end(rt: HostRuntime) -> Result<(), Fail> {
    for (number, case) in ENDS.iter().enumerate() {
        assert!(rt; outcome(rt.alloc(), case)? == Some(case.3), "{number}");
    }
    Ok(())
}

#[test]
fn bytes_are_read_and_written(rt: HostRuntime) -> Result<(), Fail> {
    for (number, case) in CALLS.iter().enumerate() {
        assert!(rt; outcome(rt.alloc(), case)? == Some(case.3), "{number}");
    }
    Ok(())
}

#[test]
fn runs_are_stuck(rt: HostRuntime) -> Result<(), Fail> {
    for (number, case) in STUCK.iter().enumerate() {
        assert!(rt; outcome(rt.alloc(), case)? == Some(case.3), "{number}");
    }
    Ok(())
}

#[test]
fn layouts_that_do_not_hold(rt: HostRuntime) -> Result<(), Fail> {
    let mut lines = Items::new(rt.alloc());
    put(&mut lines, (Ecall, 0, 0, 0, 0))?;
    let unit = unit_of(rt.alloc(), lines)?;
    for layout in &LAYOUTS {
        let outcome = outcome_of(rt.alloc(), &unit, layout, b"", 100, b"")?;
        assert!(rt;
            outcome == Some(RvOutcome::Stuck { pc: layout.code }),
            "{layout:?}"
        );
    }
    Ok(())
}
