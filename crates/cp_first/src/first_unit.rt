// The assembly of a unit of the first form.
ghost use Rattle.std.specs.Prelude.{◌≡◌, ◌∷◌, [], ◌++◌, IfOk, OnOk};
ghost use Rattle.std.specs.List.{flat_map};
ghost use Rattle.rv_code.specs.declared.assembly.AsmLine.TheVariants.{Instr};
ghost use Rattle.rv_code.specs.declared.assembly.Operand.TheVariants.{Number};
ghost use Rattle.rv_code.specs.Routines.{instr, addi};
ghost use Rattle.cp_first.specs.FirstUnit.{lines_of, head_code, call_code, tail_code, main_lines, first_unit};

use crate::first_form::FirstUnit;
use cp_base::{Items, Name};
use rv_code::{
    AsmFunction, AsmInstr, AsmLine, AsmLines, AsmUnit, DataItem, Operand, RvName, Symbol,
};
use std::alloc::{AllocError, Global};

// The registers by their names in the calling convention.
const ZERO: u8 = 0;

const RA: u8 = 1;

const SP: u8 = 2;

const T0: u8 = 5;

const A0: u8 = 10;

/// The unit: its one function saves the return address, and calls the routine that writes a byte
/// for each byte.
pub fn first_unit(alloc: Global, unit: &FirstUnit) -> Result<AsmUnit, AllocError>
    ensures { IfOk result (λ asm. asm ≡ first_unit unit.now.bytes unit.now.status) }
{
    let mut name = Name::new(alloc);
    name.push_all("main")?;
    let lines = main_lines(alloc, unit.bytes.as_slice(), unit.status)?;
    let mut functions = Items::new(alloc);
    functions.push(AsmFunction {
        name,
        frame: 16,
        lines,
    })?;
    let mut items = Items::new(alloc);
    items.push(DataItem::Zero(1))?;
    Ok(AsmUnit { functions, items })
}

fn main_lines(alloc: Global, bytes: &[u8], status: u8) -> Result<AsmLines, AllocError>
    ensures { IfOk result (λ lines. lines ≡ main_lines bytes.now status) }
{
    let mut lines = Items::new(alloc);
    put_head(&mut lines)?;
    put_calls(&mut lines, bytes)?;
    put_tail(&mut lines, status)?;
    Ok(lines)
}

fn put_head(lines: &mut AsmLines) -> Result<(), AllocError>
    ensures { OnOk result (lines.new ≡ lines.old ++ lines_of head_code) }
{
    put(lines, addi(SP, SP, -16))?;
    put(lines, instr(RvName::Sw, 0, SP, RA, Operand::Number(0)))
}

fn put_calls(lines: &mut AsmLines, bytes: &[u8]) -> Result<(), AllocError>
    ensures { OnOk result (lines.new ≡ lines.old ++ flat_map (λ n. lines_of (call_code n)) bytes.now) }
{
    for byte in bytes {
        put_call(lines, *byte)?;
    }
    Ok(())
}

fn put_call(lines: &mut AsmLines, byte: u8) -> Result<(), AllocError>
    ensures { OnOk result (lines.new ≡ lines.old ++ lines_of (call_code byte)) }
{
    put(lines, addi(A0, ZERO, i32::from(byte)))?;
    put(
        lines,
        instr(RvName::Lui, T0, 0, 0, Operand::High(Symbol::PutChar)),
    )?;
    put(
        lines,
        instr(RvName::Jalr, RA, T0, 0, Operand::Low(Symbol::PutChar)),
    )
}

fn put_tail(lines: &mut AsmLines, status: u8) -> Result<(), AllocError>
    ensures { OnOk result (lines.new ≡ lines.old ++ lines_of (tail_code status)) }
{
    put(lines, addi(A0, ZERO, i32::from(status)))?;
    put(lines, instr(RvName::Lw, RA, SP, 0, Operand::Number(0)))?;
    put(lines, addi(SP, SP, 16))?;
    put(lines, instr(RvName::Jalr, ZERO, RA, 0, Operand::Number(0)))
}

fn put(lines: &mut AsmLines, instr: AsmInstr) -> Result<(), AllocError>
    ensures { OnOk result (lines.new ≡ lines.old ++ Instr instr ∷ []) }
{
    lines.push(AsmLine::Instr(instr))
}

fn addi(rd: u8, rs1: u8, value: i32) -> AsmInstr
    ensures { result ≡ addi rd rs1 (Number value) }
{
    instr(RvName::Addi, rd, rs1, 0, Operand::Number(value))
}

fn instr(name: RvName, rd: u8, rs1: u8, rs2: u8, operand: Operand) -> AsmInstr
    ensures { result ≡ instr name rd rs1 rs2 operand }
{
    AsmInstr {
        name,
        rd,
        rs1,
        rs2,
        operand,
    }
}
