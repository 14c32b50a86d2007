// An instruction in memory.
use rv_code::RvName;

/// An instruction whose operand is a number: its immediate, or the distance to its target.
#[derive(Clone, Copy, Debug)]
pub struct Instr {
    pub name: RvName,
    pub rd: u8,
    pub rs1: u8,
    pub rs2: u8,
    pub value: u32,
}
