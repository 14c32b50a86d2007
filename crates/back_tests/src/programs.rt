// Units of one function, and their runs.
use cp_base::{Items, Layout, MemSink, Name};
use rv_code::{
    AsmFunction, AsmInstr, AsmLine, AsmLines, AsmUnit, DataItem, Operand, RvName, RvOutcome,
};
use rv_stepper::simulate;
use std::alloc::{AllocError, Global};

/// An instruction with no symbol: its name, rd, rs1, rs2 and number.
pub type Row = (RvName, u8, u8, u8, i32);

/// The layout of the program, with a stack of 4096 bytes.
pub static LAYOUT: Layout = Layout {
    code: 65536,
    cdata: 268_435_456,
    top: 2_147_483_648,
    stack: 4096,
};

pub fn put(lines: &mut AsmLines, row: Row) -> Result<(), AllocError> {
    let (name, rd, rs1, rs2, number) = row;
    let operand = Operand::Number(number);
    lines.push(AsmLine::Instr(AsmInstr {
        name,
        rd,
        rs1,
        rs2,
        operand,
    }))
}

/// A unit whose function `main` has these lines, and whose data is the buffer byte.
pub fn unit_of(alloc: Global, lines: AsmLines) -> Result<AsmUnit, AllocError> {
    let mut name = Name::new(alloc);
    name.push_all("main")?;
    let mut functions = Items::new(alloc);
    functions.push(AsmFunction {
        name,
        frame: 0,
        lines,
    })?;
    let mut items = Items::new(alloc);
    items.push(DataItem::Zero(1))?;
    Ok(AsmUnit { functions, items })
}

/// The outcome of so many steps, where the output is the one that is wanted.
pub fn outcome_of(
    alloc: Global,
    unit: &AsmUnit,
    layout: &Layout,
    input: &[u8],
    steps: u64,
    wanted: &[u8],
) -> Result<Option<RvOutcome>, AllocError> {
    let mut out = MemSink::new(alloc, 3, 100)?;
    match simulate(alloc, unit, layout, input, steps, &mut out) {
        Ok(outcome) if out.bytes() == wanted => Ok(Some(outcome)),
        Ok(_) | Err(_) => Ok(None),
    }
}
