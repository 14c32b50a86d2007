// The operations on words that typed trees, graphs and block code share, with the kinds of accesses to memory.
ghost use Rattle.std.specs.Prelude.{◌≡◌, ◌<◌, ◌^◌};
ghost use Rattle.cp_base.specs.Operations.{applied, compared, converted};
ghost use Rattle.cp_base.specs.Words.{quotient_signed, quotient_unsigned, remainder_signed, remainder_unsigned, shift_right_signed, less_signed, sign_extended};

/// The width of an access, and how a narrow value is extended.
#[derive(Clone, Copy, Debug, PartialEq, Eq)]
pub enum Kind {
    U8,
    I8,
    U16,
    I16,
    W32,
}

/// How two words compare, as numbers with a sign (S) or without (U).
#[derive(Clone, Copy, Debug, PartialEq, Eq)]
pub enum Relation {
    Eq,
    Ne,
    LtS,
    LtU,
    LeS,
    LeU,
    GtS,
    GtU,
    GeS,
    GeU,
}

/// The type that a word is converted to; `Truth` is 0 for 0, else 1.
#[derive(Clone, Copy, Debug, PartialEq, Eq)]
pub enum To {
    U8,
    I8,
    U16,
    I16,
    Truth,
}

/// An operation on two words; a conversion reads the first alone.
#[derive(Clone, Copy, Debug, PartialEq, Eq)]
pub enum Op {
    Add,
    Sub,
    Mul,
    DivS,
    DivU,
    ModS,
    ModU,
    Shl,
    ShrS,
    ShrU,
    And,
    Or,
    Eor,
    /// Gives 1 where the relation holds, else 0.
    Cmp(Relation),
    Conv(To),
}

/// The word that the machine gives for the operation.
pub fn apply(op: Op, a: u32, b: u32) -> u32
    ensures { result ≡ applied op a b }
{
    match op {
        Op::Add => a.wrapping_add(b),
        Op::Sub => a.wrapping_sub(b),
        Op::Mul => a.wrapping_mul(b),
        Op::DivS => divide_signed(a, b),
        Op::DivU => divide(a, b),
        Op::ModS => remain_signed(a, b),
        Op::ModU => remain(a, b),
        Op::Shl => a << (b % 32),
        Op::ShrS => shift_signed(a, b),
        Op::ShrU => a >> (b % 32),
        Op::And => a & b,
        Op::Or => a | b,
        Op::Eor => a ^ b,
        Op::Cmp(relation) => compare(relation, a, b),
        Op::Conv(to) => convert(to, a),
    }
}

fn divide(a: u32, b: u32) -> u32
    ensures { result ≡ quotient_unsigned a b }
{
    if b == 0 { u32::MAX } else { a / b }
}

fn remain(a: u32, b: u32) -> u32
    ensures { result ≡ remainder_unsigned a b }
{
    if b == 0 { a } else { a % b }
}

fn divide_signed(a: u32, b: u32) -> u32
    ensures { result ≡ quotient_signed a b }
{
    if b == 0 {
        return u32::MAX;
    }
    a.cast_signed()
        .wrapping_div(b.cast_signed())
        .cast_unsigned()
}

fn remain_signed(a: u32, b: u32) -> u32
    ensures { result ≡ remainder_signed a b }
{
    if b == 0 {
        return a;
    }
    a.cast_signed()
        .wrapping_rem(b.cast_signed())
        .cast_unsigned()
}

fn shift_signed(a: u32, b: u32) -> u32
    ensures { result ≡ shift_right_signed a b }
{
    (a.cast_signed() >> (b % 32)).cast_unsigned()
}

fn is_less(a: u32, b: u32) -> u32
    ensures { result ≡ less_signed a b }
{
    u32::from(a.cast_signed() < b.cast_signed())
}

fn compare(relation: Relation, a: u32, b: u32) -> u32
    ensures { result ≡ compared relation a b }
{
    match relation {
        Relation::Eq => u32::from(a == b),
        Relation::Ne => u32::from(a != b),
        Relation::LtS => is_less(a, b),
        Relation::LtU => u32::from(a < b),
        Relation::LeS => 1 - is_less(b, a),
        Relation::LeU => u32::from(a <= b),
        Relation::GtS => is_less(b, a),
        Relation::GtU => u32::from(a > b),
        Relation::GeS => 1 - is_less(a, b),
        Relation::GeU => u32::from(a >= b),
    }
}

fn convert(to: To, a: u32) -> u32
    ensures { result ≡ converted to a }
{
    match to {
        To::U8 => a % 256,
        To::I8 => extend(a, 8),
        To::U16 => a % 65536,
        To::I16 => extend(a, 16),
        To::Truth => u32::from(a != 0),
    }
}

// The low bits, and above them the highest of these.
fn extend(a: u32, bits: u32) -> u32
    requires some { 0 < bits }
    requires width { bits < 32 }
    ensures { result ≡ sign_extended bits a }
{
    let low = a % (1 << bits);
    if low < 1 << (bits - 1) {
        low
    } else {
        low + (u32::MAX - ((1 << bits) - 1))
    }
}
