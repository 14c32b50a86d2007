// A unit made by hand, and texts of the first form.
use crate::programs::{LAYOUT, outcome_of, put, unit_of};
use cp_base::{Items, Layout};
use cp_first::compile_first;
use rv_code::{AsmInstr, AsmLine, AsmLines, AsmUnit, Operand, RvName, RvOutcome, Symbol};
use std::alloc::{AllocError, Global};
use std::test::Fail;

// Where the program places what it compiles.
static PROGRAM: Layout = Layout {
    code: 65536,
    cdata: 268_435_456,
    top: 2_147_483_648,
    stack: 1_048_576,
};

// `putchar` of the byte.
fn put_call(lines: &mut AsmLines, byte: i32) -> Result<(), AllocError> {
    put(lines, (RvName::Addi, 10, 0, 0, byte))?;
    lines.push(AsmLine::Instr(AsmInstr {
        name: RvName::Lui,
        rd: 5,
        rs1: 0,
        rs2: 0,
        operand: Operand::High(Symbol::PutChar),
    }))?;
    lines.push(AsmLine::Instr(AsmInstr {
        name: RvName::Jalr,
        rd: 1,
        rs1: 5,
        rs2: 0,
        operand: Operand::Low(Symbol::PutChar),
    }))
}

// `main` writes `Hi` and gives 0.
fn unit_of_hi(alloc: Global) -> Result<AsmUnit, AllocError> {
    let mut lines = Items::new(alloc);
    put(&mut lines, (RvName::Addi, 2, 2, 0, -16))?;
    put(&mut lines, (RvName::Sw, 0, 2, 1, 0))?;
    put_call(&mut lines, 72)?;
    put_call(&mut lines, 105)?;
    put(&mut lines, (RvName::Addi, 10, 0, 0, 0))?;
    put(&mut lines, (RvName::Lw, 1, 2, 0, 0))?;
    put(&mut lines, (RvName::Addi, 2, 2, 0, 16))?;
    put(&mut lines, (RvName::Jalr, 0, 1, 0, 0))?;
    unit_of(alloc, lines)
}

#[test]
fn stepper_by_hand(rt: HostRuntime) -> Result<(), Fail> {
    let unit = unit_of_hi(rt.alloc())?;
    let ended = outcome_of(rt.alloc(), &unit, &PROGRAM, b"", 1000, b"Hi")?;
    assert!(rt; ended == Some(RvOutcome::Ended(0)));
    let running = outcome_of(rt.alloc(), &unit, &PROGRAM, b"", 0, b"")?;
    assert!(rt; running == Some(RvOutcome::Running));
    Ok(())
}

// The texts of the examples, with their output and status.
static EXAMPLES: [(&[u8], &[u8], u8); 5] = [
    (
        b"int putchar(int);int main(void){putchar(0);putchar(127);putchar(128);putchar(255);return 255;}\n",
        b"\0\x7f\x80\xff",
        255,
    ),
    (
        b"int putchar(int);int main(void){putchar(72);return 0;}\n",
        b"H",
        0,
    ),
    (
        b"int putchar(int);int main(void){putchar(72);putchar(101);putchar(108);putchar(108);putchar(111);putchar(44);putchar(32);putchar(119);putchar(111);putchar(114);putchar(108);putchar(100);putchar(10);return 0;}\n",
        b"Hello, world\n",
        0,
    ),
    (
        b"int putchar(int);int main(void){putchar(72);putchar(105);return 0;}\n",
        b"Hi",
        0,
    ),
    (b"int putchar(int);int main(void){return 7;}", b"", 7),
];

// What the text's run comes to, where it is of the first form.
fn run_text(alloc: Global, text: &[u8], wanted: &[u8]) -> Result<Option<RvOutcome>, AllocError> {
    match compile_first(alloc, text)? {
        Some(unit) => outcome_of(alloc, &unit, &LAYOUT, b"", 1000, wanted),
        None => Ok(None),
    }
}

#[test]
fn examples_run(rt: HostRuntime) -> Result<(), Fail> {
    for (text, output, status) in &EXAMPLES {
        let outcome = run_text(rt.alloc(), text, output)?;
        assert!(rt; outcome == Some(RvOutcome::Ended(*status)), "{text:?}");
    }
    Ok(())
}
