// Each instruction at its corner values.
use crate::programs::{LAYOUT, put, unit_of};
use cp_base::{Items, MemSink};
use rv_code::{AsmInstr, AsmLine, AsmLines, Operand, RvName, Symbol};
use rv_stepper::simulate;
use std::alloc::{AllocError, Global};
use std::test::Fail;

const T0: u8 = 5;

const T1: u8 = 6;

const T2: u8 = 7;

// An operation of two registers: its name, their words, and the word that it gives.
static REGISTERS: [(RvName, u32, u32, u32); 51] = [
    (RvName::Add, 2, 3, 5),
    (RvName::Add, 0xffff_ffff, 1, 0),
    (RvName::Add, 0x7fff_ffff, 1, 0x8000_0000),
    (RvName::Add, 0x8000_0000, 0x8000_0000, 0),
    (RvName::Sub, 5, 5, 0),
    (RvName::Sub, 0, 1, 0xffff_ffff),
    (RvName::Sub, 0x8000_0000, 1, 0x7fff_ffff),
    (RvName::Sll, 1, 31, 0x8000_0000),
    (RvName::Sll, 1, 32, 1),
    (RvName::Sll, 3, 33, 6),
    (RvName::Sll, 0xffff_ffff, 4, 0xffff_fff0),
    (RvName::Slt, 0xffff_ffff, 0, 1),
    (RvName::Slt, 0, 0xffff_ffff, 0),
    (RvName::Slt, 0x8000_0000, 0x7fff_ffff, 1),
    (RvName::Slt, 5, 5, 0),
    (RvName::Sltu, 0xffff_ffff, 0, 0),
    (RvName::Sltu, 0, 0xffff_ffff, 1),
    (RvName::Sltu, 0x7fff_ffff, 0x8000_0000, 1),
    (RvName::Sltu, 5, 5, 0),
    (RvName::Xor, 0xff00_ff00, 0x0ff0_0ff0, 0xf0f0_f0f0),
    (RvName::Xor, 0xffff_ffff, 0xffff_ffff, 0),
    (RvName::Srl, 0x8000_0000, 31, 1),
    (RvName::Srl, 0x8000_0000, 32, 0x8000_0000),
    (RvName::Srl, 0xf000_0000, 4, 0x0f00_0000),
    (RvName::Sra, 0x8000_0000, 31, 0xffff_ffff),
    (RvName::Sra, 0x8000_0000, 32, 0x8000_0000),
    (RvName::Sra, 0xf000_0000, 4, 0xff00_0000),
    (RvName::Sra, 0x7000_0000, 4, 0x0700_0000),
    (RvName::Or, 0xf0f0_0000, 0x0f0f_0000, 0xffff_0000),
    (RvName::Or, 0, 0, 0),
    (RvName::And, 0xff00_ff00, 0x0ff0_0ff0, 0x0f00_0f00),
    (RvName::And, 0xffff_ffff, 0, 0),
    (RvName::Mul, 0xffff_ffff, 0xffff_ffff, 1),
    (RvName::Mul, 0x1_0000, 0x1_0000, 0),
    (RvName::Mul, 0x8000_0000, 3, 0x8000_0000),
    (RvName::Mul, 7, 0xffff_fffd, 0xffff_ffeb),
    (RvName::Div, 7, 0, 0xffff_ffff),
    (RvName::Div, 0x8000_0000, 0xffff_ffff, 0x8000_0000),
    (RvName::Div, 0xffff_fff9, 2, 0xffff_fffd),
    (RvName::Div, 7, 0xffff_fffe, 0xffff_fffd),
    (RvName::Div, 0xffff_fff9, 0xffff_fffe, 3),
    (RvName::Divu, 7, 0, 0xffff_ffff),
    (RvName::Divu, 0x8000_0000, 0xffff_ffff, 0),
    (RvName::Divu, 0xffff_fff9, 2, 0x7fff_fffc),
    (RvName::Rem, 7, 0, 7),
    (RvName::Rem, 0x8000_0000, 0xffff_ffff, 0),
    (RvName::Rem, 0xffff_fff9, 2, 0xffff_ffff),
    (RvName::Rem, 7, 0xffff_fffe, 1),
    (RvName::Remu, 7, 0, 7),
    (RvName::Remu, 0x8000_0000, 0xffff_ffff, 0x8000_0000),
    (RvName::Remu, 0xffff_fff9, 2, 1),
];

// An operation of a register and a number, and the word that it gives.
static NUMBERS: [(RvName, u32, i32, u32); 32] = [
    (RvName::Lui, 9, 0, 0),
    (RvName::Lui, 9, 1, 4096),
    (RvName::Lui, 9, 524_288, 0x8000_0000),
    (RvName::Lui, 9, 1_048_575, 0xffff_f000),
    (RvName::Addi, 0, -2048, 0xffff_f800),
    (RvName::Addi, 0xffff_ffff, 1, 0),
    (RvName::Addi, 0x7fff_ffff, 2047, 0x8000_07fe),
    (RvName::Slti, 0xffff_ffff, 0, 1),
    (RvName::Slti, 0, -1, 0),
    (RvName::Slti, 0x8000_0000, -2048, 1),
    (RvName::Slti, 5, 5, 0),
    (RvName::Sltiu, 0, -1, 1),
    (RvName::Sltiu, 0xffff_ffff, -1, 0),
    (RvName::Sltiu, 1, 2, 1),
    (RvName::Sltiu, 0, 1, 1),
    (RvName::Xori, 255, -1, 0xffff_ff00),
    (RvName::Xori, 0xf0f, 2047, 0x8f0),
    (RvName::Ori, 0, -2048, 0xffff_f800),
    (RvName::Ori, 256, 255, 511),
    (RvName::Andi, 0xffff_ffff, 255, 255),
    (RvName::Andi, 0xffff_ffff, -2048, 0xffff_f800),
    (RvName::Andi, 0x1234_5678, 2047, 0x678),
    (RvName::Slli, 1, 31, 0x8000_0000),
    (RvName::Slli, 1, 0, 1),
    (RvName::Slli, 0xffff_ffff, 1, 0xffff_fffe),
    (RvName::Srli, 0x8000_0000, 31, 1),
    (RvName::Srli, 0x8000_0000, 0, 0x8000_0000),
    (RvName::Srli, 0xffff_ffff, 4, 0x0fff_ffff),
    (RvName::Srai, 0x8000_0000, 31, 0xffff_ffff),
    (RvName::Srai, 0x7fff_ffff, 31, 0),
    (RvName::Srai, 0x8000_0000, 1, 0xc000_0000),
    (RvName::Srai, 0x8000_0000, 0, 0x8000_0000),
];

// A branch by two words: 1 where it is taken, else 0.
static BRANCHES: [(RvName, u32, u32, u32); 20] = [
    (RvName::Beq, 1, 1, 1),
    (RvName::Beq, 1, 2, 0),
    (RvName::Beq, 0x8000_0000, 0, 0),
    (RvName::Bne, 1, 1, 0),
    (RvName::Bne, 1, 2, 1),
    (RvName::Bne, 0, 0xffff_ffff, 1),
    (RvName::Blt, 0xffff_ffff, 0, 1),
    (RvName::Blt, 0, 0xffff_ffff, 0),
    (RvName::Blt, 5, 5, 0),
    (RvName::Blt, 0x8000_0000, 0x7fff_ffff, 1),
    (RvName::Bge, 0, 0xffff_ffff, 1),
    (RvName::Bge, 0xffff_ffff, 0, 0),
    (RvName::Bge, 5, 5, 1),
    (RvName::Bge, 0x8000_0000, 0x7fff_ffff, 0),
    (RvName::Bltu, 0xffff_ffff, 0, 0),
    (RvName::Bltu, 0, 0xffff_ffff, 1),
    (RvName::Bltu, 5, 5, 0),
    (RvName::Bgeu, 0xffff_ffff, 0, 1),
    (RvName::Bgeu, 0, 0xffff_ffff, 0),
    (RvName::Bgeu, 5, 5, 1),
];

// A store of a word over zeros, and what a load some bytes on gives.
static ACCESSES: [(RvName, u32, RvName, i32, u32); 15] = [
    (RvName::Sw, 0x80c0_ff7f, RvName::Lb, 0, 0x7f),
    (RvName::Sw, 0x80c0_ff7f, RvName::Lb, 1, 0xffff_ffff),
    (RvName::Sw, 0x80c0_ff7f, RvName::Lbu, 1, 0xff),
    (RvName::Sw, 0x80c0_ff7f, RvName::Lb, 2, 0xffff_ffc0),
    (RvName::Sw, 0x80c0_ff7f, RvName::Lh, 0, 0xffff_ff7f),
    (RvName::Sw, 0x80c0_ff7f, RvName::Lhu, 0, 0xff7f),
    (RvName::Sw, 0x80c0_ff7f, RvName::Lh, 2, 0xffff_80c0),
    (RvName::Sw, 0x80c0_ff7f, RvName::Lhu, 2, 0x80c0),
    (RvName::Sw, 0x80c0_ff7f, RvName::Lw, 0, 0x80c0_ff7f),
    (RvName::Sb, 0x1ff, RvName::Lw, 0, 0xff),
    (RvName::Sb, 0x80, RvName::Lb, 0, 0xffff_ff80),
    (RvName::Sb, 0x80, RvName::Lbu, 0, 0x80),
    (RvName::Sh, 0x1_8000, RvName::Lw, 0, 0x8000),
    (RvName::Sh, 0x1_8000, RvName::Lh, 0, 0xffff_8000),
    (RvName::Sh, 0x1_8000, RvName::Lhu, 0, 0x8000),
];

// A word into a register.
fn put_word(lines: &mut AsmLines, rd: u8, word: u32) -> Result<(), AllocError> {
    let upper = word.wrapping_add(2048) / 4096;
    let lower = word.wrapping_sub(upper.wrapping_mul(4096));
    put(lines, (RvName::Lui, rd, 0, 0, upper.cast_signed()))?;
    put(lines, (RvName::Addi, rd, rd, 0, lower.cast_signed()))
}

// The words of t1 and t2.
fn lines_with(alloc: Global, one: u32, two: u32) -> Result<AsmLines, AllocError> {
    let mut lines = Items::new(alloc);
    put_word(&mut lines, T1, one)?;
    put_word(&mut lines, T2, two)?;
    Ok(lines)
}

// The call that writes the byte so many bytes from sp.
fn put_write(lines: &mut AsmLines, distance: i32) -> Result<(), AllocError> {
    put(lines, (RvName::Addi, 10, 0, 0, 1))?;
    put(lines, (RvName::Addi, 11, 2, 0, distance))?;
    put(lines, (RvName::Ecall, 0, 0, 0, 0))
}

// The word that the lines leave in t0, which is written byte by byte.
fn word_of(alloc: Global, mut lines: AsmLines) -> Result<Option<u32>, AllocError> {
    put(&mut lines, (RvName::Sw, 0, 2, T0, -4))?;
    put(&mut lines, (RvName::Addi, 12, 0, 0, 1))?;
    put(&mut lines, (RvName::Addi, 17, 0, 0, 64))?;
    for distance in -4..0 {
        put_write(&mut lines, distance)?;
    }
    let unit = unit_of(alloc, lines)?;
    let mut out = MemSink::new(alloc, 100, 100)?;
    let _ = simulate(alloc, &unit, &LAYOUT, b"", 60, &mut out);
    match out.bytes() {
        [one, two, three, four] => Ok(Some(u32::from_le_bytes([*one, *two, *three, *four]))),
        _ => Ok(None),
    }
}

fn word_of_registers(
    alloc: Global,
    name: RvName,
    one: u32,
    two: u32,
) -> Result<Option<u32>, AllocError> {
    let mut lines = lines_with(alloc, one, two)?;
    put(&mut lines, (name, T0, T1, T2, 0))?;
    word_of(alloc, lines)
}

#[test]
fn operations_of_registers(rt: HostRuntime) -> Result<(), Fail> {
    for (name, one, two, wanted) in &REGISTERS {
        let word = word_of_registers(rt.alloc(), *name, *one, *two)?;
        assert!(rt; word == Some(*wanted), "{name:?} {one} {two}");
    }
    Ok(())
}

fn word_of_number(
    alloc: Global,
    name: RvName,
    one: u32,
    number: i32,
) -> Result<Option<u32>, AllocError> {
    let mut lines = lines_with(alloc, one, 0)?;
    put(&mut lines, (name, T0, T1, 0, number))?;
    word_of(alloc, lines)
}

#[test]
fn operations_with_numbers(rt: HostRuntime) -> Result<(), Fail> {
    for (name, one, number, wanted) in &NUMBERS {
        let word = word_of_number(rt.alloc(), *name, *one, *number)?;
        assert!(rt; word == Some(*wanted), "{name:?} {one} {number}");
    }
    Ok(())
}

fn word_of_branch(
    alloc: Global,
    name: RvName,
    one: u32,
    two: u32,
) -> Result<Option<u32>, AllocError> {
    let mut lines = lines_with(alloc, one, two)?;
    put(&mut lines, (RvName::Addi, T0, 0, 0, 1))?;
    lines.push(AsmLine::Instr(AsmInstr {
        name,
        rd: 0,
        rs1: T1,
        rs2: T2,
        operand: Operand::To(Symbol::Block(0, 3)),
    }))?;
    put(&mut lines, (RvName::Addi, T0, 0, 0, 0))?;
    lines.push(AsmLine::Label(0, 3))?;
    word_of(alloc, lines)
}

#[test]
fn branches(rt: HostRuntime) -> Result<(), Fail> {
    for (name, one, two, wanted) in &BRANCHES {
        let word = word_of_branch(rt.alloc(), *name, *one, *two)?;
        assert!(rt; word == Some(*wanted), "{name:?} {one} {two}");
    }
    Ok(())
}

fn word_of_access(
    alloc: Global,
    store: RvName,
    word: u32,
    load: RvName,
    on: i32,
) -> Result<Option<u32>, AllocError> {
    let mut lines = lines_with(alloc, word, 0)?;
    put(&mut lines, (RvName::Addi, T2, 2, 0, -16))?;
    put(&mut lines, (store, 0, T2, T1, 0))?;
    put(&mut lines, (load, T0, T2, 0, on))?;
    word_of(alloc, lines)
}

#[test]
fn loads_and_stores(rt: HostRuntime) -> Result<(), Fail> {
    for (store, word, load, on, wanted) in &ACCESSES {
        let given = word_of_access(rt.alloc(), *store, *word, *load, *on)?;
        assert!(rt; given == Some(*wanted), "{store:?} {word} {load:?} {on}");
    }
    Ok(())
}
