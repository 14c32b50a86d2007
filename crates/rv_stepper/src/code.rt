// The instructions of a unit in their order, and where its functions are among them.
ghost use Rattle.std.specs.Prelude.{◌≡◌, ℕ, ◌<◌, ◌++◌, length, slice_index, OnOk, IfOk, [], ◌∷◌};
ghost use Rattle.rv_code.specs.Places.{instrs_of, code_of, function_index, whole_code, main_number};
ghost use Rattle.rv_code.specs.Sizes.{buffer_offset};
ghost use Rattle.rv_code.specs.Routines.{start_code};
ghost use Rattle.rv_stepper.specs.Starts.{AreStarts};

use crate::start::put_start;
use rv_code::{AsmFunction, AsmInstr, AsmLine};
use std::alloc::{AllocError, Global};

/// The instructions, and of each function the index of its first one.
#[derive(Drop)]
pub struct Code {
    pub instrs: Vec<AsmInstr>,
    pub starts: Vec<usize>,
}

/// The code of a unit: `main` is the number of its function `main`, `buffer` the offset of the buffer byte.
pub fn whole_code(
    alloc: Global,
    functions: &[AsmFunction],
    main: usize,
    buffer: u32,
) -> Result<Code, AllocError>
    ensures instrs { IfOk result (λ code. code.instrs.items ≡ start_code main buffer ++ code_of functions.now) }
    ensures starts { IfOk result (λ code. AreStarts functions.now code.starts.items) }
{
    let mut instrs = Vec::new(alloc);
    let mut starts = Vec::new(alloc);
    put_start(&mut instrs, main, buffer)?;
    for function in functions {
        let start = instrs.len();
        put_function(&mut instrs, &mut starts, start, function)?;
    }
    Ok(Code { instrs, starts })
}

fn put_function(
    instrs: &mut Vec<AsmInstr>,
    starts: &mut Vec<usize>,
    start: usize,
    function: &AsmFunction,
) -> Result<(), AllocError>
    ensures instrs { OnOk result (instrs.new.items ≡ instrs.old.items ++ instrs_of function.now.lines) }
    ensures starts { OnOk result (starts.new.items ≡ starts.old.items ++ start ∷ []) }
{
    put_lines(instrs, function.lines.as_slice())?;
    starts.push(start)?;
    Ok(())
}

fn put_lines(instrs: &mut Vec<AsmInstr>, lines: &[AsmLine]) -> Result<(), AllocError>
    ensures { OnOk result (instrs.new.items ≡ instrs.old.items ++ instrs_of lines.now) }
{
    for line in lines {
        put_line(instrs, line)?;
    }
    Ok(())
}

fn put_line(instrs: &mut Vec<AsmInstr>, line: &AsmLine) -> Result<(), AllocError>
    ensures { OnOk result (instrs.new.items ≡ instrs.old.items ++ instrs_of (line.now ∷ [])) }
{
    if let AsmLine::Instr(instr) = line {
        instrs.push(*instr)?;
    }
    Ok(())
}
