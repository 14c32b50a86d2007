// Character constants and string literals.
ghost use Rattle.std.specs.Prelude.{◌≡◌, ◌≢◌, ℕ, ◌<◌, ◌≤◌, ◌⊎◌, ◌==◌, ◌&&◌, not, List, ◌∷◌, length, take, drop, slice_index, true, None, IfOk, IfSome, IfNone};
ghost use Rattle.std.specs.List.{prefix_len};
ghost use Rattle.std.specs.Str.Parse.{digits_value};
ghost use Rattle.c_lexer.specs.Characters.{is_hexadecimal, is_octal};
ghost use Rattle.c_lexer.specs.Literals.{StandsFor, escape_value, is_inside};
ghost use Rattle.c_lexer.specs.Readings.{Begins, HasNone};

use crate::scan::value_of;
use cp_base::Bytes;
use std::alloc::{AllocError, Global};

/// The bytes between the quotes of a literal, of which the first is already behind us.
pub fn inside_size(quote: u8, text: &[u8]) -> Option<usize>
    requires { (quote ≢ 92) × (quote ≢ 10) }
    ensures found { IfSome result (λ n. (n < length text.now) × (slice_index text.now n ≡ quote) × (is_inside quote (take n text.now) ≡ true)) }
    ensures none { IfNone result ((n : ℕ) → n < length text.now → slice_index text.now n ≡ quote → is_inside quote (take n text.now) ≡ true → ⊥) }
{
    let mut is_escaped = false;
    for (index, byte) in text.iter().enumerate() {
        if *byte == b'\n' {
            return None;
        }
        if is_free(is_escaped, *byte, quote) {
            return Some(index);
        }
        is_escaped = is_free(is_escaped, *byte, b'\\');
    }
    None
}

// Whether this byte is the wanted one, with no backslash that takes it.
fn is_free(is_escaped: bool, byte: u8, wanted: u8) -> bool
    ensures { result ≡ (not is_escaped && byte == wanted) }
{
    !is_escaped && byte == wanted
}

/// The bytes that the text between two quotes stands for; none, where an escape is none or has a
/// value above 255.
pub fn decode(alloc: Global, inside: &[u8]) -> Result<Option<Bytes>, AllocError>
    ensures found { IfOk result (λ o. IfSome o (λ bytes. StandsFor inside.now bytes)) }
    ensures none { IfOk result (λ o. IfNone o ((bytes : List ℕ) → StandsFor inside.now bytes → ⊥)) }
{
    let mut bytes = Bytes::new(alloc);
    let mut rest = inside;
    while !rest.is_empty() {
        let Some((byte, next)) = character(rest) else {
            return Ok(None);
        };
        bytes.push_all(&[byte])?;
        rest = next;
    }
    Ok(Some(bytes))
}

// The byte that a text begins with, and what comes behind it.
fn character(text: &[u8]) -> Option<(u8, &[u8])>
    ensures found { IfSome result (λ c. Begins text.now c.0 c.1.now) }
    ensures none { IfNone result (HasNone text.now) }
{
    let (first, rest) = text.split_first()?;
    if *first == b'\\' {
        escaped(rest)
    } else {
        Some((*first, rest))
    }
}

// The same of a text that begins with a backslash, from behind it.
fn escaped(text: &[u8]) -> Option<(u8, &[u8])>
    ensures found { IfSome result (λ c. Begins (92 ∷ text.now) c.0 c.1.now) }
    ensures none { IfNone result (HasNone (92 ∷ text.now)) }
{
    let (first, rest) = text.split_first()?;
    if *first == b'x' {
        return digits(16, rest, hexadecimal_size(rest));
    }
    match escape_value(*first) {
        Some(value) => Some((value, rest)),
        None => digits(8, text, octal_size(text)),
    }
}

fn hexadecimal_size(text: &[u8]) -> usize
    ensures { result ≡ prefix_len is_hexadecimal text.now }
{
    text.iter()
        .take_while(|byte| byte.is_ascii_hexdigit())
        .count()
}

fn octal_size(text: &[u8]) -> usize
    ensures { result ≡ prefix_len is_octal (take 3 text.now) }
{
    text.iter()
        .take(3)
        .take_while(|byte| matches!(**byte, b'0'..=b'7'))
        .count()
}

// The byte that so many digits write, and what comes behind them.
fn digits(base: u32, text: &[u8], size: usize) -> Option<(u8, &[u8])>
    requires { (0 < base) × (size ≤ length text.now) }
    ensures found { IfSome result (λ c. (0 < size) × (c.0 ≡ digits_value base (take size text.now)) × (c.0 ≤ 255) × (c.1.now ≡ drop size text.now)) }
    ensures none { IfNone result ((size ≡ 0) ⊎ (255 < digits_value base (take size text.now))) }
{
    if size == 0 {
        return None;
    }
    let (front, rest) = text.split_at(size);
    let value = u8::try_from(value_of(base, front)?).ok()?;
    Some((value, rest))
}

fn escape_value(byte: u8) -> Option<u8>
    ensures { result ≡ escape_value byte }
{
    let value = match byte {
        b'n' => b'\n',
        b't' => b'\t',
        b'r' => b'\r',
        b'a' => 7,
        b'b' => 8,
        b'f' => 12,
        b'v' => 11,
        b'\\' | b'\'' | b'"' | b'?' => byte,
        _ => return None,
    };
    Some(value)
}
