// The text of an instruction and of what it names.
ghost use Rattle.std.specs.Prelude.{◌≡◌, ◌++◌, codes, OnOk};
ghost use Rattle.rv_code.specs.Registers.{register_text};
ghost use Rattle.rv_code.specs.Text.{cdata_text, symbol_text, label_text, operand_text, fields_text, instr_text, comma};
ghost use Rattle.rv_code.specs.Forms.{form_of};

use crate::assembly::{AsmFunction, AsmInstr, Operand, Symbol};
use crate::form::Form;
use cp_base::Bytes;
use std::alloc::AllocError;

pub fn put_instr(
    out: &mut Bytes,
    functions: &[AsmFunction],
    instr: &AsmInstr,
) -> Result<(), AllocError>
    ensures { OnOk result (out.new ≡ out.old ++ instr_text functions.now instr.now) }
{
    out.push_all(b"\t")?;
    out.push_all(instr.name.text().as_bytes())?;
    put_fields(out, functions, instr)?;
    out.push_all(b"\n")
}

fn put_fields(
    out: &mut Bytes,
    functions: &[AsmFunction],
    instr: &AsmInstr,
) -> Result<(), AllocError>
    ensures { OnOk result (out.new ≡ out.old ++ fields_text (operand_text functions.now instr.now.operand) (form_of instr.now.name) instr.now) }
{
    let AsmInstr {
        name,
        rd,
        rs1,
        rs2,
        operand,
    } = *instr;
    match name.form() {
        Form::Upper | Form::Jump => {
            put_first(out, rd)?;
            put_last(out, functions, operand)
        }
        Form::Indirect => {
            put_first(out, rd)?;
            put_indirect(out, functions, operand, rs1)
        }
        Form::Store => {
            put_first(out, rs2)?;
            put_indirect(out, functions, operand, rs1)
        }
        Form::Branch => {
            put_first(out, rs1)?;
            put_next(out, rs2)?;
            put_last(out, functions, operand)
        }
        Form::Immediate | Form::Shift => {
            put_first(out, rd)?;
            put_next(out, rs1)?;
            put_last(out, functions, operand)
        }
        Form::Registers => {
            put_first(out, rd)?;
            put_next(out, rs1)?;
            put_next(out, rs2)
        }
        Form::Environment => Ok(()),
    }
}

// The first field.
fn put_first(out: &mut Bytes, register: u8) -> Result<(), AllocError>
    ensures { OnOk result (out.new ≡ out.old ++ (codes " " ++ register_text register)) }
{
    out.push_all(b" ")?;
    out.push_all(register_name(register).as_bytes())
}

// A register after another field.
fn put_next(out: &mut Bytes, register: u8) -> Result<(), AllocError>
    ensures { OnOk result (out.new ≡ out.old ++ (comma ++ register_text register)) }
{
    out.push_all(b", ")?;
    out.push_all(register_name(register).as_bytes())
}

// The operand after another field.
fn put_last(out: &mut Bytes, functions: &[AsmFunction], operand: Operand) -> Result<(), AllocError>
    ensures { OnOk result (out.new ≡ out.old ++ (comma ++ operand_text functions.now operand)) }
{
    out.push_all(b", ")?;
    put_operand(out, functions, operand)
}

// An address: the operand, and a register that it is added to.
fn put_indirect(
    out: &mut Bytes,
    functions: &[AsmFunction],
    operand: Operand,
    base: u8,
) -> Result<(), AllocError>
    ensures { OnOk result (out.new ≡ out.old ++ (comma ++ operand_text functions.now operand ++ codes "(" ++ register_text base ++ codes ")")) }
{
    put_last(out, functions, operand)?;
    out.push_all(b"(")?;
    out.push_all(register_name(base).as_bytes())?;
    out.push_all(b")")
}

fn put_operand(
    out: &mut Bytes,
    functions: &[AsmFunction],
    operand: Operand,
) -> Result<(), AllocError>
    ensures { OnOk result (out.new ≡ out.old ++ operand_text functions.now operand) }
{
    match operand {
        Operand::Number(value) => out.push_number(value),
        Operand::High(symbol) => {
            out.push_all(b"%hi(")?;
            put_symbol(out, functions, symbol)?;
            out.push_all(b")")
        }
        Operand::Low(symbol) => {
            out.push_all(b"%lo(")?;
            put_symbol(out, functions, symbol)?;
            out.push_all(b")")
        }
        Operand::To(symbol) => put_symbol(out, functions, symbol),
    }
}

fn put_symbol(out: &mut Bytes, functions: &[AsmFunction], symbol: Symbol) -> Result<(), AllocError>
    ensures { OnOk result (out.new ≡ out.old ++ symbol_text functions.now symbol) }
{
    match symbol {
        Symbol::Block(function, number) => put_label(out, function, number),
        Symbol::Func(number) => {
            out.push_all(b"c_")?;
            match functions.get(number) {
                Some(function) => out.push_all(function.name.as_slice().as_bytes()),
                None => Ok(()),
            }
        }
        Symbol::GetChar => out.push_all(b"c_getchar"),
        Symbol::PutChar => out.push_all(b"c_putchar"),
        Symbol::Cdata(offset) => put_cdata(out, u128::from(offset)),
    }
}

pub fn put_label(out: &mut Bytes, function: usize, number: usize) -> Result<(), AllocError>
    ensures { OnOk result (out.new ≡ out.old ++ label_text function number) }
{
    out.push_all(b".L")?;
    out.push_number(function)?;
    out.push_all(b"_")?;
    out.push_number(number)
}

/// A place in the data section.
#[tactic(auto, unfolding(crate::specs::Text::cdata_text))]
pub fn put_cdata(out: &mut Bytes, offset: u128) -> Result<(), AllocError>
    ensures { OnOk result (out.new ≡ out.old ++ cdata_text offset) }
{
    out.push_all(b"cdata")?;
    if offset == 0 {
        return Ok(());
    }
    out.push_all(b"+")?;
    out.push_number(offset)
}

// The name of a register in the calling convention.
fn register_name(register: u8) -> &'static str
    ensures { result.now ≡ register_text register }
{
    match register {
        0 => "zero",
        1 => "ra",
        2 => "sp",
        3 => "gp",
        4 => "tp",
        5 => "t0",
        6 => "t1",
        7 => "t2",
        8 => "s0",
        9 => "s1",
        10 => "a0",
        11 => "a1",
        12 => "a2",
        13 => "a3",
        14 => "a4",
        15 => "a5",
        16 => "a6",
        17 => "a7",
        18 => "s2",
        19 => "s3",
        20 => "s4",
        21 => "s5",
        22 => "s6",
        23 => "s7",
        24 => "s8",
        25 => "s9",
        26 => "s10",
        27 => "s11",
        28 => "t3",
        29 => "t4",
        30 => "t5",
        31 => "t6",
        _ => "",
    }
}
