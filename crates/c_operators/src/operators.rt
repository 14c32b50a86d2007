// The operators of C on words.
ghost use Rattle.std.specs.Prelude.{◌≡◌};
ghost use Rattle.cp_base.specs.Operations.{applied};
ghost use Rattle.c_types.specs.Operators.{c_operator, unless, is_too_far};

use c_types::COp;
use cp_base::{Op, Relation, apply};

/// The result of an operator; none where C99 has it undefined.
pub fn operate(operator: COp, a: u32, b: u32) -> Option<u32>
    ensures { result ≡ c_operator operator a b }
{
    match operator {
        COp::AddS => add_signed(a, b),
        COp::AddU => Some(a.wrapping_add(b)),
        COp::SubS => subtract_signed(a, b),
        COp::SubU => Some(a.wrapping_sub(b)),
        COp::MulS => multiply_signed(a, b),
        COp::MulU => Some(a.wrapping_mul(b)),
        COp::DivS => divide_signed(a, b),
        COp::DivU => divide(a, b),
        COp::RemS => remain_signed(a, b),
        COp::RemU => remain(a, b),
        COp::ShlS => shift_left_signed(a, b),
        COp::ShlU => shift(Op::Shl, a, b),
        COp::ShrS => shift(Op::ShrS, a, b),
        COp::ShrU => shift(Op::ShrU, a, b),
        COp::LtS => Some(apply(Op::Cmp(Relation::LtS), a, b)),
        COp::LtU => Some(apply(Op::Cmp(Relation::LtU), a, b)),
        COp::LeS => Some(apply(Op::Cmp(Relation::LeS), a, b)),
        COp::LeU => Some(apply(Op::Cmp(Relation::LeU), a, b)),
        COp::GtS => Some(apply(Op::Cmp(Relation::GtS), a, b)),
        COp::GtU => Some(apply(Op::Cmp(Relation::GtU), a, b)),
        COp::GeS => Some(apply(Op::Cmp(Relation::GeS), a, b)),
        COp::GeU => Some(apply(Op::Cmp(Relation::GeU), a, b)),
        COp::And => Some(a & b),
        COp::Or => Some(a | b),
        COp::Xor => Some(a ^ b),
        COp::Eq => Some(apply(Op::Cmp(Relation::Eq), a, b)),
        COp::Ne => Some(apply(Op::Cmp(Relation::Ne), a, b)),
    }
}

fn add_signed(a: u32, b: u32) -> Option<u32>
    ensures { result ≡ c_operator COp.AddS a b }
{
    match a.cast_signed().checked_add(b.cast_signed()) {
        Some(sum) => Some(sum.cast_unsigned()),
        None => None,
    }
}

fn subtract_signed(a: u32, b: u32) -> Option<u32>
    ensures { result ≡ c_operator COp.SubS a b }
{
    match a.cast_signed().checked_sub(b.cast_signed()) {
        Some(difference) => Some(difference.cast_unsigned()),
        None => None,
    }
}

fn multiply_signed(a: u32, b: u32) -> Option<u32>
    ensures { result ≡ c_operator COp.MulS a b }
{
    match a.cast_signed().checked_mul(b.cast_signed()) {
        Some(product) => Some(product.cast_unsigned()),
        None => None,
    }
}

fn divide_signed(a: u32, b: u32) -> Option<u32>
    ensures { result ≡ c_operator COp.DivS a b }
{
    match a.cast_signed().checked_div(b.cast_signed()) {
        Some(quotient) => Some(quotient.cast_unsigned()),
        None => None,
    }
}

fn divide(a: u32, b: u32) -> Option<u32>
    ensures { result ≡ c_operator COp.DivU a b }
{
    if b == 0 { None } else { Some(a / b) }
}

fn remain_signed(a: u32, b: u32) -> Option<u32>
    ensures { result ≡ c_operator COp.RemS a b }
{
    match a.cast_signed().checked_rem(b.cast_signed()) {
        Some(remainder) => Some(remainder.cast_unsigned()),
        None => None,
    }
}

fn remain(a: u32, b: u32) -> Option<u32>
    ensures { result ≡ c_operator COp.RemU a b }
{
    if b == 0 { None } else { Some(a % b) }
}

fn shift_left_signed(a: u32, b: u32) -> Option<u32>
    ensures { result ≡ c_operator COp.ShlS a b }
{
    if b > 31 || a >= 1 << 31 {
        return None;
    }
    let shifted = u64::from(a) << b;
    if shifted < 1 << 31 {
        Some(shifted as u32)
    } else {
        None
    }
}

fn shift(op: Op, a: u32, b: u32) -> Option<u32>
    ensures { result ≡ unless (is_too_far b) (Some (applied op a b)) }
{
    if b > 31 { None } else { Some(apply(op, a, b)) }
}
