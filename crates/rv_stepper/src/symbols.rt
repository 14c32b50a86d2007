// Labels, `%hi` and `%lo` as numbers.
ghost use Rattle.std.specs.Prelude.{◌≡◌, ◌+◌, ◌*◌, ◌%◌, ◌^◌};
ghost use Rattle.std.specs.Option.{option_map};
ghost use Rattle.rv_code.specs.declared.assembly.Symbol.TheVariants.{Block};
ghost use Rattle.cp_base.specs.Words.{high_part, low_part};
ghost use Rattle.rv_code.specs.Places.{label_index, symbol_index};
ghost use Rattle.rv_code.specs.Loading.{symbol_address, operand_value, loaded_instr};
ghost use Rattle.rv_stepper.specs.Starts.{AreStarts};
ghost use Rattle.rv_stepper.specs.States.{instr_of};

use crate::program::Instr;
use cp_base::Layout;
use rv_code::{AsmFunction, AsmInstr, AsmLine, Operand, Symbol};

/// The instruction of this index in memory.
pub fn load_instr(
    functions: &[AsmFunction],
    starts: &[usize],
    layout: &Layout,
    index: usize,
    instr: &AsmInstr,
) -> Instr
    requires { AreStarts functions.now starts.now }
    ensures { instr_of result ≡ loaded_instr functions.now layout.now index instr.now }
{
    let AsmInstr {
        name,
        rd,
        rs1,
        rs2,
        operand,
    } = *instr;
    let here = address_after(layout.code, index);
    let value = operand_value(functions, starts, layout, here, operand);
    Instr {
        name,
        rd,
        rs1,
        rs2,
        value,
    }
}

fn operand_value(
    functions: &[AsmFunction],
    starts: &[usize],
    layout: &Layout,
    here: u32,
    operand: Operand,
) -> u32
    requires { AreStarts functions.now starts.now }
    ensures { result ≡ operand_value functions.now layout.now here operand }
{
    match operand {
        Operand::Number(value) => value.cast_unsigned(),
        Operand::High(symbol) => high_part(symbol_address(functions, starts, layout, symbol)),
        Operand::Low(symbol) => low_part(symbol_address(functions, starts, layout, symbol)),
        Operand::To(symbol) => {
            symbol_address(functions, starts, layout, symbol).wrapping_sub(here)
        }
    }
}

fn high_part(address: u32) -> u32
    ensures { result ≡ high_part address }
{
    ((u64::from(address) + 2048) / 4096 % (1 << 20)) as u32
}

fn low_part(address: u32) -> u32
    ensures { result ≡ low_part address }
{
    let low = address % 4096;
    if low < 2048 { low } else { low + 0xffff_f000 }
}

// The address of the instruction some instructions after the one at `from`.
fn address_after(from: u32, index: usize) -> u32
    ensures { result ≡ (from + 4 * index) % 2 ^ 32 }
{
    let offset = (index as u64 % (1 << 30)) * 4;
    ((u64::from(from) + offset) % (1 << 32)) as u32
}

fn symbol_address(
    functions: &[AsmFunction],
    starts: &[usize],
    layout: &Layout,
    symbol: Symbol,
) -> u32
    requires { AreStarts functions.now starts.now }
    ensures { result ≡ symbol_address functions.now layout.now symbol }
{
    match symbol {
        Symbol::Block(number, label) => {
            block_address(functions, starts, layout.code, number, label).unwrap_or(0)
        }
        Symbol::Func(number) => match starts.get(number) {
            Some(start) => address_after(layout.code, *start),
            None => 0,
        },
        Symbol::GetChar => address_after(layout.code, 4),
        Symbol::PutChar => address_after(layout.code, 15),
        Symbol::Cdata(offset) => layout.cdata.wrapping_add(offset),
    }
}

// The address of a function's label.
fn block_address(
    functions: &[AsmFunction],
    starts: &[usize],
    code: u32,
    number: usize,
    label: usize,
) -> Option<u32>
    requires { AreStarts functions.now starts.now }
    ensures { result ≡ option_map (λ index. (code + 4 * index) % 2 ^ 32) (symbol_index functions.now (Block number label)) }
{
    let function = functions.get(number)?;
    let index = label_index(function.lines.as_slice(), label)?;
    Some(address_after(address_after(code, starts[number]), index))
}

// How many instructions stand before the label.
fn label_index(lines: &[AsmLine], label: usize) -> Option<usize>
    ensures { result ≡ label_index lines.now label }
{
    let mut index: usize = 0;
    for line in lines {
        match line {
            AsmLine::Label(_, number) => {
                if *number == label {
                    return Some(index);
                }
            }
            AsmLine::Instr(_) => index += 1,
        }
    }
    None
}
