// The instructions before the functions.
ghost use Rattle.std.specs.Prelude.{◌≡◌, ◌++◌, OnOk};
ghost use Rattle.rv_code.specs.Routines.{instr, addi, lui, jalr, ecall, entry_code, getchar_code, putchar_code, start_code};
ghost use Rattle.rv_code.specs.declared.assembly.Operand.TheVariants.{Number};

use rv_code::{AsmInstr, Operand, RvName, Symbol};
use std::alloc::AllocError;

// The registers by their names in the calling convention.
const ZERO: u8 = 0;

const RA: u8 = 1;

const T0: u8 = 5;

const T1: u8 = 6;

const A0: u8 = 10;

const A1: u8 = 11;

const A2: u8 = 12;

const A7: u8 = 17;

/// The start of the run and the two routines: `main` is the number of the function `main`, `buffer` the
/// offset of the buffer byte in the data.
pub fn put_start(code: &mut Vec<AsmInstr>, main: usize, buffer: u32) -> Result<(), AllocError>
    ensures { OnOk result (code.new.items ≡ code.old.items ++ start_code main buffer) }
{
    code.extend_from_slice(&entry_code(main))?;
    code.extend_from_slice(&getchar_code(buffer))?;
    code.extend_from_slice(&putchar_code(buffer))
}

fn entry_code(main: usize) -> [AsmInstr; 4]
    ensures { result ≡ entry_code main }
{
    [
        lui(T0, Operand::High(Symbol::Func(main))),
        jalr(RA, Operand::Low(Symbol::Func(main)), T0),
        addi(A7, ZERO, Operand::Number(93)),
        ecall(),
    ]
}

fn getchar_code(buffer: u32) -> [AsmInstr; 11]
    ensures { result ≡ getchar_code buffer }
{
    [
        addi(A0, ZERO, Operand::Number(0)),
        lui(A1, Operand::High(Symbol::Cdata(buffer))),
        addi(A1, A1, Operand::Low(Symbol::Cdata(buffer))),
        addi(A2, ZERO, Operand::Number(1)),
        addi(A7, ZERO, Operand::Number(63)),
        ecall(),
        instr(RvName::Bge, 0, ZERO, A0, Operand::Number(12)),
        instr(RvName::Lbu, A0, A1, 0, Operand::Number(0)),
        jalr(ZERO, Operand::Number(0), RA),
        addi(A0, ZERO, Operand::Number(-1)),
        jalr(ZERO, Operand::Number(0), RA),
    ]
}

fn putchar_code(buffer: u32) -> [AsmInstr; 10]
    ensures { result ≡ putchar_code buffer }
{
    [
        instr(RvName::Andi, T1, A0, 0, Operand::Number(255)),
        lui(A1, Operand::High(Symbol::Cdata(buffer))),
        addi(A1, A1, Operand::Low(Symbol::Cdata(buffer))),
        instr(RvName::Sb, 0, A1, T1, Operand::Number(0)),
        addi(A0, ZERO, Operand::Number(1)),
        addi(A2, ZERO, Operand::Number(1)),
        addi(A7, ZERO, Operand::Number(64)),
        ecall(),
        addi(A0, T1, Operand::Number(0)),
        jalr(ZERO, Operand::Number(0), RA),
    ]
}

fn lui(rd: u8, operand: Operand) -> AsmInstr
    ensures { result ≡ lui rd operand }
{
    instr(RvName::Lui, rd, 0, 0, operand)
}

fn addi(rd: u8, rs1: u8, operand: Operand) -> AsmInstr
    ensures { result ≡ addi rd rs1 operand }
{
    instr(RvName::Addi, rd, rs1, 0, operand)
}

fn jalr(rd: u8, operand: Operand, rs1: u8) -> AsmInstr
    ensures { result ≡ jalr rd operand rs1 }
{
    instr(RvName::Jalr, rd, rs1, 0, operand)
}

fn ecall() -> AsmInstr
    ensures { result ≡ ecall }
{
    instr(RvName::Ecall, 0, 0, 0, Operand::Number(0))
}

fn instr(name: RvName, rd: u8, rs1: u8, rs2: u8, operand: Operand) -> AsmInstr
    ensures { result ≡ instr name rd rs1 rs2 operand }
{
    AsmInstr {
        name,
        rd,
        rs1,
        rs2,
        operand,
    }
}
