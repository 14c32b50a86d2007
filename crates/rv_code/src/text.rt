// The text of a unit.
ghost use Rattle.std.specs.Prelude.{◌≡◌, ◌++◌, OnOk, IfOk};
ghost use Rattle.std.specs.List.{flat_map};
ghost use Rattle.rv_code.specs.Sizes.{item_size, buffer_offset};
ghost use Rattle.rv_code.specs.Text.{line_text, function_text, item_text, text_of};
ghost use Rattle.rv_code.specs.WellFormed.{IsWellFormed};

use crate::assembly::{AsmFunction, AsmLine, AsmUnit, DataItem};
use crate::instr::{put_cdata, put_instr, put_label};
use crate::start::put_start;
use cp_base::Bytes;
use std::alloc::{AllocError, Global};

/// The assembly text of a unit, one line for each instruction, label and item.
#[tactic(auto, unfolding(crate::specs::Text::text_of))]
pub fn text_of(alloc: Global, asm: &AsmUnit) -> Result<Bytes, AllocError>
    requires { IsWellFormed asm.now }
    ensures { IfOk result (λ text. text ≡ text_of asm.now) }
{
    let functions = asm.functions.as_slice();
    let items = asm.items.as_slice();
    let mut out = Bytes::new(alloc);
    put_start(&mut out, buffer_offset(items))?;
    put_functions(&mut out, functions)?;
    out.push_all(b"\t.data\n\t.balign 16\ncdata:\n")?;
    put_items(&mut out, items)?;
    Ok(out)
}

// The offset of the last byte of the data.
fn buffer_offset(items: &[DataItem]) -> u128
    ensures { result ≡ buffer_offset items.now }
{
    let mut size: u128 = 0;
    for item in items {
        size += u128::from(item_size(item));
    }
    size.saturating_sub(1)
}

// How many bytes an item is.
fn item_size(item: &DataItem) -> u32
    ensures { result ≡ item_size item.now }
{
    match item {
        DataItem::Zero(count) => *count,
        DataItem::Byte(_) => 1,
        DataItem::Address(_) => 4,
    }
}

fn put_functions(out: &mut Bytes, functions: &[AsmFunction]) -> Result<(), AllocError>
    ensures { OnOk result (out.new ≡ out.old ++ flat_map (function_text functions.now) functions.now) }
{
    for function in functions {
        put_function(out, functions, function)?;
    }
    Ok(())
}

fn put_function(
    out: &mut Bytes,
    functions: &[AsmFunction],
    function: &AsmFunction,
) -> Result<(), AllocError>
    ensures { OnOk result (out.new ≡ out.old ++ function_text functions.now function.now) }
{
    out.push_all(b"c_")?;
    out.push_all(function.name.as_slice().as_bytes())?;
    out.push_all(b":\n")?;
    put_lines(out, functions, function.lines.as_slice())
}

fn put_lines(
    out: &mut Bytes,
    functions: &[AsmFunction],
    lines: &[AsmLine],
) -> Result<(), AllocError>
    ensures { OnOk result (out.new ≡ out.old ++ flat_map (line_text functions.now) lines.now) }
{
    for line in lines {
        put_line(out, functions, line)?;
    }
    Ok(())
}

fn put_line(out: &mut Bytes, functions: &[AsmFunction], line: &AsmLine) -> Result<(), AllocError>
    ensures { OnOk result (out.new ≡ out.old ++ line_text functions.now line.now) }
{
    match line {
        AsmLine::Label(function, number) => {
            put_label(out, *function, *number)?;
            out.push_all(b":\n")
        }
        AsmLine::Instr(instr) => put_instr(out, functions, instr),
    }
}

fn put_items(out: &mut Bytes, items: &[DataItem]) -> Result<(), AllocError>
    ensures { OnOk result (out.new ≡ out.old ++ flat_map item_text items.now) }
{
    for item in items {
        put_item(out, item)?;
    }
    Ok(())
}

fn put_item(out: &mut Bytes, item: &DataItem) -> Result<(), AllocError>
    ensures { OnOk result (out.new ≡ out.old ++ item_text item.now) }
{
    match item {
        DataItem::Zero(count) => {
            out.push_all(b"\t.zero ")?;
            out.push_number(*count)?;
        }
        DataItem::Byte(value) => {
            out.push_all(b"\t.byte ")?;
            out.push_number(*value)?;
        }
        DataItem::Address(offset) => {
            out.push_all(b"\t.word ")?;
            put_cdata(out, u128::from(*offset))?;
        }
    }
    out.push_all(b"\n")
}
