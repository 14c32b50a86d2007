// A unit in memory.
ghost use Rattle.std.specs.Prelude.{◌≡◌, ◌*◌, length, map, IfOk, MatchOption, false, replicate, slice_set};
ghost use Rattle.cp_base.specs.Regions.{holds};
ghost use Rattle.rv_code.specs.Places.{main_number};
ghost use Rattle.rv_code.specs.Sizes.{data_size};
ghost use Rattle.rv_code.specs.Loading.{loaded_from, code_size};
ghost use Rattle.rv_stepper.specs.Starts.{AreStarts};
ghost use Rattle.rv_stepper.specs.States.{instr_of};
ghost use Rattle.rv_stepper.specs.Images.{IsImage};

use crate::code::{Code, whole_code};
use crate::data::{data_size, load_memory};
use crate::memory::Memory;
use crate::program::Instr;
use crate::state::State;
use crate::symbols::load_instr;
use cp_base::Layout;
use rv_code::{AsmFunction, AsmUnit};
use std::alloc::{AllocError, Global};

/// A program in memory, and the state at its start.
#[derive(Drop)]
pub struct Image {
    pub code: Vec<Instr>,
    pub state: State,
}

/// The unit in memory, where the layout holds it.
pub fn load(alloc: Global, asm: &AsmUnit, layout: &Layout) -> Result<Option<Image>, AllocError>
    ensures { IfOk result (λ o. MatchOption o (holds layout.now (code_size asm.now) (data_size asm.now.items) ≡ false) (λ image. IsImage asm.now layout.now image)) }
{
    let functions = asm.functions.as_slice();
    let items = asm.items.as_slice();
    let Ok(size) = u32::try_from(data_size(items)) else {
        return Ok(None);
    };
    let code = whole_code(
        alloc,
        functions,
        main_number(functions),
        size.saturating_sub(1),
    )?;
    if !holds(layout, 4 * (code.instrs.as_slice().len() as u128), size) {
        return Ok(None);
    }
    let memory = load_memory(alloc, items, *layout, size)?;
    Ok(Some(Image {
        code: load_code(alloc, functions, layout, &code)?,
        state: first_state(layout, memory),
    }))
}

// Whether the layout holds code of so many bytes, and data of so many.
fn holds(layout: &Layout, code: u128, size: u32) -> bool
    ensures { result ≡ holds layout.now code size }
{
    match u64::try_from(code) {
        Ok(code) => layout.holds(code, u64::from(size)),
        Err(_) => false,
    }
}

// The code of a unit in memory.
fn load_code(
    alloc: Global,
    functions: &[AsmFunction],
    layout: &Layout,
    code: &Code,
) -> Result<Vec<Instr>, AllocError>
    requires { AreStarts functions.now code.now.starts.items }
    ensures { IfOk result (λ loaded. map instr_of loaded.items ≡ loaded_from functions.now layout.now 0 code.now.instrs.items) }
{
    let starts = code.starts.as_slice();
    let mut loaded = Vec::new(alloc);
    for (index, instr) in code.instrs.as_slice().iter().enumerate() {
        loaded.push(load_instr(functions, starts, layout, index, instr))?;
    }
    Ok(loaded)
}

// The number of the function `main`.
fn main_number(functions: &[AsmFunction]) -> usize
    ensures { result ≡ main_number functions.now }
{
    for (number, function) in functions.iter().enumerate() {
        if function.name.as_slice() == "main" {
            return number;
        }
    }
    0
}

// The state at the start.
fn first_state(layout: &Layout, memory: Memory) -> State
    ensures { result ≡ record { pc = layout.now.code; registers = slice_set (replicate 256 0) 2 layout.now.top; memory = memory; taken = 0 } }
{
    let mut registers = [0; 256];
    registers[2] = layout.top;
    State {
        pc: layout.code,
        registers,
        memory,
        taken: 0,
    }
}
