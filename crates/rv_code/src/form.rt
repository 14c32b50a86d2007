// The forms of instructions.
ghost use Rattle.std.specs.Prelude.{◌≡◌};
ghost use Rattle.rv_code.specs.Forms.{form_of, name_text};

use crate::assembly::RvName;

/// Which fields an instruction has, in the order in which they are printed.
#[derive(Clone, Copy, Debug)]
pub enum Form {
    /// `rd, imm20`: `lui`.
    Upper,
    /// `rd, target`: `jal`.
    Jump,
    /// `rd, imm12(rs1)`: `jalr` and the loads.
    Indirect,
    /// `rs2, imm12(rs1)`: the stores.
    Store,
    /// `rs1, rs2, target`: the branches.
    Branch,
    /// `rd, rs1, imm12`.
    Immediate,
    /// `rd, rs1, shamt`: the shifts by a number.
    Shift,
    /// `rd, rs1, rs2`.
    Registers,
    /// No field: `ecall`.
    Environment,
}

impl RvName {
    pub fn form(self) -> Form
        ensures { result ≡ form_of self }
    {
        match self {
            RvName::Lui => Form::Upper,
            RvName::Jal => Form::Jump,
            RvName::Jalr | RvName::Lb | RvName::Lh | RvName::Lw | RvName::Lbu | RvName::Lhu =>
                Form::Indirect,
            RvName::Sb | RvName::Sh | RvName::Sw => Form::Store,
            RvName::Beq | RvName::Bne | RvName::Blt | RvName::Bge | RvName::Bltu | RvName::Bgeu =>
                Form::Branch,
            RvName::Addi
            | RvName::Slti
            | RvName::Sltiu
            | RvName::Xori
            | RvName::Ori
            | RvName::Andi => Form::Immediate,
            RvName::Slli | RvName::Srli | RvName::Srai => Form::Shift,
            RvName::Add
            | RvName::Sub
            | RvName::Sll
            | RvName::Slt
            | RvName::Sltu
            | RvName::Xor
            | RvName::Srl
            | RvName::Sra
            | RvName::Or
            | RvName::And
            | RvName::Mul
            | RvName::Div
            | RvName::Divu
            | RvName::Rem
            | RvName::Remu => Form::Registers,
            RvName::Ecall => Form::Environment,
        }
    }

    /// The mnemonic.
    pub fn text(self) -> &'static str
        ensures { result.now ≡ name_text self }
    {
        match self {
            RvName::Lui => "lui",
            RvName::Jal => "jal",
            RvName::Jalr => "jalr",
            RvName::Beq => "beq",
            RvName::Bne => "bne",
            RvName::Blt => "blt",
            RvName::Bge => "bge",
            RvName::Bltu => "bltu",
            RvName::Bgeu => "bgeu",
            RvName::Lb => "lb",
            RvName::Lh => "lh",
            RvName::Lw => "lw",
            RvName::Lbu => "lbu",
            RvName::Lhu => "lhu",
            RvName::Sb => "sb",
            RvName::Sh => "sh",
            RvName::Sw => "sw",
            RvName::Addi => "addi",
            RvName::Slti => "slti",
            RvName::Sltiu => "sltiu",
            RvName::Xori => "xori",
            RvName::Ori => "ori",
            RvName::Andi => "andi",
            RvName::Slli => "slli",
            RvName::Srli => "srli",
            RvName::Srai => "srai",
            RvName::Add => "add",
            RvName::Sub => "sub",
            RvName::Sll => "sll",
            RvName::Slt => "slt",
            RvName::Sltu => "sltu",
            RvName::Xor => "xor",
            RvName::Srl => "srl",
            RvName::Sra => "sra",
            RvName::Or => "or",
            RvName::And => "and",
            RvName::Ecall => "ecall",
            RvName::Mul => "mul",
            RvName::Div => "div",
            RvName::Divu => "divu",
            RvName::Rem => "rem",
            RvName::Remu => "remu",
        }
    }
}
