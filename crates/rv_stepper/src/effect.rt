// What an instruction does.
ghost use Rattle.std.specs.Prelude.{◌≡◌, ℕ, List};
ghost use Rattle.rv_code.specs.Machine.{LoadedProgram, Machine, with_pc, executes};
ghost use Rattle.rv_stepper.specs.Effects.{does};

use cp_base::{Kind, Op, Relation, apply};
use rv_code::RvName;

/// What an instruction does with the state.
#[derive(Clone, Copy)]
pub enum Effect {
    /// Puts this word into rd.
    Gives(u32),
    /// Puts the address of the next instruction into rd, and goes to this address.
    Jumps(u32),
    /// Goes by its distance, or to the next instruction.
    Branches(bool),
    /// Loads into rd from this address.
    Loads(Kind, u32),
    /// Stores rs2 at this address.
    Stores(Kind, u32),
    /// Calls the environment.
    Calls,
}

/// What the instruction does at the address `pc`, by the words of rs1 and rs2 and its value.
#[inline(always)]
pub fn effect_of(name: RvName, pc: u32, one: u32, two: u32, value: u32) -> Effect
    ensures { (p : LoadedProgram) (input : List ℕ) (m : Machine) (rd : ℕ) → does p input (with_pc m pc) rd two value result ≡ executes p input (with_pc m pc) name rd one two value }
{
    let sum = one.wrapping_add(value);
    match name {
        RvName::Lui => Effect::Gives(value.wrapping_mul(4096)),
        RvName::Jal => Effect::Jumps(pc.wrapping_add(value)),
        RvName::Jalr => Effect::Jumps(sum - sum % 2),
        RvName::Beq => Effect::Branches(one == two),
        RvName::Bne => Effect::Branches(one != two),
        RvName::Blt => Effect::Branches(one.cast_signed() < two.cast_signed()),
        RvName::Bge => Effect::Branches(one.cast_signed() >= two.cast_signed()),
        RvName::Bltu => Effect::Branches(one < two),
        RvName::Bgeu => Effect::Branches(one >= two),
        RvName::Lb => Effect::Loads(Kind::I8, sum),
        RvName::Lh => Effect::Loads(Kind::I16, sum),
        RvName::Lw => Effect::Loads(Kind::W32, sum),
        RvName::Lbu => Effect::Loads(Kind::U8, sum),
        RvName::Lhu => Effect::Loads(Kind::U16, sum),
        RvName::Sb => Effect::Stores(Kind::U8, sum),
        RvName::Sh => Effect::Stores(Kind::U16, sum),
        RvName::Sw => Effect::Stores(Kind::W32, sum),
        RvName::Addi => Effect::Gives(sum),
        RvName::Slti => Effect::Gives(apply(Op::Cmp(Relation::LtS), one, value)),
        RvName::Sltiu => Effect::Gives(apply(Op::Cmp(Relation::LtU), one, value)),
        RvName::Xori => Effect::Gives(one ^ value),
        RvName::Ori => Effect::Gives(one | value),
        RvName::Andi => Effect::Gives(one & value),
        RvName::Slli => Effect::Gives(apply(Op::Shl, one, value)),
        RvName::Srli => Effect::Gives(apply(Op::ShrU, one, value)),
        RvName::Srai => Effect::Gives(apply(Op::ShrS, one, value)),
        RvName::Add => Effect::Gives(one.wrapping_add(two)),
        RvName::Sub => Effect::Gives(one.wrapping_sub(two)),
        RvName::Sll => Effect::Gives(apply(Op::Shl, one, two)),
        RvName::Slt => Effect::Gives(apply(Op::Cmp(Relation::LtS), one, two)),
        RvName::Sltu => Effect::Gives(apply(Op::Cmp(Relation::LtU), one, two)),
        RvName::Xor => Effect::Gives(one ^ two),
        RvName::Srl => Effect::Gives(apply(Op::ShrU, one, two)),
        RvName::Sra => Effect::Gives(apply(Op::ShrS, one, two)),
        RvName::Or => Effect::Gives(one | two),
        RvName::And => Effect::Gives(one & two),
        RvName::Ecall => Effect::Calls,
        RvName::Mul => Effect::Gives(one.wrapping_mul(two)),
        RvName::Div => Effect::Gives(apply(Op::DivS, one, two)),
        RvName::Divu => Effect::Gives(apply(Op::DivU, one, two)),
        RvName::Rem => Effect::Gives(apply(Op::ModS, one, two)),
        RvName::Remu => Effect::Gives(apply(Op::ModU, one, two)),
    }
}
