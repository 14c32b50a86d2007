// The form of assembly.
use cp_base::{Items, Name};

/// An instruction's name. The upper case of its first letter aside, it is the printed one.
#[derive(Clone, Copy, Debug)]
pub enum RvName {
    Lui,
    Jal,
    Jalr,
    Beq,
    Bne,
    Blt,
    Bge,
    Bltu,
    Bgeu,
    Lb,
    Lh,
    Lw,
    Lbu,
    Lhu,
    Sb,
    Sh,
    Sw,
    Addi,
    Slti,
    Sltiu,
    Xori,
    Ori,
    Andi,
    Slli,
    Srli,
    Srai,
    Add,
    Sub,
    Sll,
    Slt,
    Sltu,
    Xor,
    Srl,
    Sra,
    Or,
    And,
    Ecall,
    Mul,
    Div,
    Divu,
    Rem,
    Remu,
}

/// A place in the program, which the assembler makes an address.
#[derive(Clone, Copy, Debug)]
pub enum Symbol {
    /// The label of a function's block: the function's number, and the label's number in it.
    Block(usize, usize),
    /// The first instruction of the function of this number.
    Func(usize),
    /// The routine that reads a byte.
    GetChar,
    /// The routine that writes a byte.
    PutChar,
    /// The data section, and a number of bytes from its beginning.
    Cdata(u32),
}

#[derive(Clone, Copy, Debug)]
pub enum Operand {
    Number(i32),
    /// `%hi(symbol)`.
    High(Symbol),
    /// `%lo(symbol)`.
    Low(Symbol),
    /// The target of a jump or a branch.
    To(Symbol),
}

/// An instruction. Each field that the form of the name lacks is 0, or `Number(0)`.
#[derive(Clone, Copy, Debug)]
pub struct AsmInstr {
    pub name: RvName,
    pub rd: u8,
    pub rs1: u8,
    pub rs2: u8,
    pub operand: Operand,
}

#[derive(Clone, Copy, Debug)]
pub enum AsmLine {
    /// The label of a block: the function's number, and the label's number in it.
    Label(usize, usize),
    Instr(AsmInstr),
}

/// The lines of a function, in their order.
pub type AsmLines = Items<AsmLine>;

#[derive(Debug, Drop)]
pub struct AsmFunction {
    pub name: Name,
    /// The size of the function's frame in bytes. It is not printed.
    pub frame: u128,
    pub lines: AsmLines,
}

/// Functions by their numbers.
pub type AsmFunctions = Items<AsmFunction>;

/// A line of the data section.
#[derive(Clone, Copy, Debug)]
pub enum DataItem {
    /// So many bytes that are 0.
    Zero(u32),
    Byte(u8),
    /// Four bytes, the least first: the address so many bytes into the data section.
    Address(u32),
}

/// The data section, by rising offset. Its last byte is the buffer of the two routines.
pub type DataItems = Items<DataItem>;

/// A program.
#[derive(Debug, Drop)]
pub struct AsmUnit {
    pub functions: AsmFunctions,
    pub items: DataItems,
}
