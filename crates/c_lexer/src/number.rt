// Number runs and integer constants.
ghost use Rattle.std.specs.Prelude.{◌≡◌, option_map};
ghost use Rattle.std.specs.List.{list_all};
ghost use Rattle.c_lexer.specs.Characters.{is_digit, is_hexadecimal, is_octal};
ghost use Rattle.c_lexer.specs.Numbers.{suffix_of};
ghost use Rattle.c_lexer.specs.Readings.{constant_of, digits_of, in_base, suffix_size, type_by_value};

use crate::scan::value_of;
use crate::token::IntType;

/// What a suffix has.
#[derive(Clone, Copy, Debug)]
pub struct Suffix {
    pub has_u: bool,
    pub has_l: bool,
}

/// The value and the type of an integer constant.
pub fn constant_of(text: &[u8]) -> Option<(u32, IntType)>
    ensures { result ≡ constant_of text.now }
{
    let (front, suffix) = text.split_at(text.len() - suffix_size(text));
    let suffix = suffix_of(suffix)?;
    let (base, digits) = digits_of(front)?;
    let value = value_of(base, digits)?;
    let int_type = type_of(base, suffix, value)?;
    Some((value, int_type))
}

fn suffix_size(text: &[u8]) -> usize
    ensures { result ≡ suffix_size text.now }
{
    text.iter()
        .rev()
        .take_while(|byte| matches!(**byte, b'u' | b'U' | b'l' | b'L'))
        .count()
}

fn suffix_of(text: &[u8]) -> Option<Suffix>
    ensures { result ≡ suffix_of text.now }
{
    let (has_u, has_l) = match text {
        [] => (false, false),
        [b'u' | b'U'] => (true, false),
        [b'l' | b'L'] => (false, true),
        [b'u' | b'U', b'l' | b'L'] | [b'l' | b'L', b'u' | b'U'] => (true, true),
        _ => return None,
    };
    Some(Suffix { has_u, has_l })
}

// A base, and digits of it.
fn digits_of(text: &[u8]) -> Option<(u32, &[u8])>
    ensures { option_map (λ d. (d.0, d.1.now)) result ≡ digits_of text.now }
{
    match text {
        [b'0', b'x' | b'X', digits @ ..] => hexadecimal(digits),
        [b'0', ..] => octal(text),
        _ => decimal(text),
    }
}

fn hexadecimal(text: &[u8]) -> Option<(u32, &[u8])>
    ensures { option_map (λ d. (d.0, d.1.now)) result ≡ in_base 16 is_hexadecimal text.now }
{
    if text.is_empty() || !are_hexadecimal(text) {
        return None;
    }
    Some((16, text))
}

fn octal(text: &[u8]) -> Option<(u32, &[u8])>
    ensures { option_map (λ d. (d.0, d.1.now)) result ≡ in_base 8 is_octal text.now }
{
    if text.is_empty() || !are_octal(text) {
        return None;
    }
    Some((8, text))
}

fn decimal(text: &[u8]) -> Option<(u32, &[u8])>
    ensures { option_map (λ d. (d.0, d.1.now)) result ≡ in_base 10 is_digit text.now }
{
    if text.is_empty() || !are_decimal(text) {
        return None;
    }
    Some((10, text))
}

fn are_hexadecimal(text: &[u8]) -> bool
    ensures { result ≡ list_all is_hexadecimal text.now }
{
    text.iter().all(|byte| byte.is_ascii_hexdigit())
}

fn are_octal(text: &[u8]) -> bool
    ensures { result ≡ list_all is_octal text.now }
{
    text.iter().all(|byte| matches!(*byte, b'0'..=b'7'))
}

fn are_decimal(text: &[u8]) -> bool
    ensures { result ≡ list_all is_digit text.now }
{
    text.iter().all(|byte| byte.is_ascii_digit())
}

fn type_of(base: u32, suffix: Suffix, value: u32) -> Option<IntType>
    ensures { result ≡ type_by_value base suffix value }
{
    let is_unsigned = suffix.has_u || (value > 2_147_483_647 && base != 10);
    if !is_unsigned && value > 2_147_483_647 {
        return None;
    }
    Some(match (is_unsigned, suffix.has_l) {
        (false, false) => IntType::Int,
        (false, true) => IntType::Long,
        (true, false) => IntType::UInt,
        (true, true) => IntType::ULong,
    })
}
