// Units of the first form, read by hand until the whole language is.
ghost use Rattle.std.specs.Prelude.{◌≡◌, ◌≢◌, ℕ, List, [], ◌∷◌, ◌++◌, ◌<◌, ◌⊎◌, IfOk, IfSome, IfNone, IsSomeAnd, Some};
ghost use Rattle.std.specs.List.{AllByRecursion};
ghost use Rattle.std.specs.Fmt.{decimal};
ghost use Rattle.cp_first.specs.FirstForm.{IsByte, IsEnd, IsFirst, call_text};

use cp_base::Items;
use itoa::Buffer;
use std::alloc::{AllocError, Global};
use std::str;

/// What a unit of the first form does.
#[derive(Debug, Drop)]
pub struct FirstUnit {
    /// The bytes that it writes.
    pub bytes: Items<u8>,
    pub status: u8,
}

/// The unit, where the text is one of the first form.
pub fn read_first(alloc: Global, text: &[u8]) -> Result<Option<FirstUnit>, AllocError>
    ensures found { IfOk result (λ o. IfSome o (λ unit. IsFirst text.now unit.bytes unit.status)) }
    ensures only { IfOk result (λ o. (bytes : List ℕ) (status : ℕ) → IsFirst text.now bytes status → o ≡ Some (record { bytes = bytes; status = status })) }
{
    let Some(mut rest) = after(text, b"int putchar(int);int main(void){") else {
        return Ok(None);
    };
    let mut bytes = Items::new(alloc);
    while let Some((byte, next)) = call(rest) {
        bytes.push(byte)?;
        rest = next;
    }
    match return_status(rest) {
        Some(status) => Ok(Some(FirstUnit { bytes, status })),
        None => Ok(None),
    }
}

// The byte that a call at the front writes, and what follows the call.
fn call(text: &[u8]) -> Option<(u8, &[u8])>
    ensures found { IfSome result (λ x. text.now ≡ call_text x.0 ++ x.1.now) }
    ensures only { (n : ℕ) (rest : List ℕ) → IsByte n → text.now ≡ call_text n ++ rest → IsSomeAnd result (λ x. (x.0 ≡ n) × (x.1.now ≡ rest)) }
{
    let number = after(text, b"putchar(")?;
    let (byte, rest) = number_before(number, b')')?;
    let rest = after(rest, b";")?;
    Some((byte, rest))
}

// The status of the return that is all that is left.
fn return_status(text: &[u8]) -> Option<u8>
    ensures found { IfSome result (λ s. IsEnd text.now s) }
    ensures only { (s : ℕ) → IsByte s → IsEnd text.now s → result ≡ Some s }
{
    let number = after(text, b"return ")?;
    let (status, rest) = number_before(number, b';')?;
    if rest == b"}".as_slice() || rest == b"}\n".as_slice() {
        Some(status)
    } else {
        None
    }
}

// What follows the prefix.
fn after<'a>(text: &'a [u8], prefix: &[u8]) -> Option<&'a [u8]>
    ensures found { IfSome result (λ rest. text.now ≡ prefix.now ++ rest.now) }
    ensures only { (rest : List ℕ) → text.now ≡ prefix.now ++ rest → IsSomeAnd result (λ x. x.now ≡ rest) }
{
    text.strip_prefix(prefix)
}

// A number in decimal with no leading zero, from 0 to 255, and the byte `end` after it; and what
// comes after that byte.
fn number_before(text: &[u8], end: u8) -> Option<(u8, &[u8])>
    requires { end < 48 ⊎ 57 < end }
    ensures found { IfSome result (λ x. text.now ≡ decimal x.0 ++ end ∷ x.1.now) }
    ensures only { (n : ℕ) (rest : List ℕ) → IsByte n → text.now ≡ decimal n ++ end ∷ rest → IsSomeAnd result (λ x. (x.0 ≡ n) × (x.1.now ≡ rest)) }
{
    let (digits, rest) = split_before(text, end)?;
    let number = number_of(digits)?;
    Some((number, rest))
}

// What stands before the first byte `end`, and after it.
fn split_before(text: &[u8], end: u8) -> Option<(&[u8], &[u8])>
    ensures found { IfSome result (λ x. text.now ≡ x.0.now ++ end ∷ x.1.now) }
    ensures first { IfSome result (λ x. AllByRecursion (λ byte. byte ≢ end) x.0.now) }
    ensures none { IfNone result (AllByRecursion (λ byte. byte ≢ end) text.now) }
{
    for (index, byte) in text.iter().enumerate() {
        if *byte == end {
            let (front, back) = text.split_at(index);
            return Some((front, &back[1..]));
        }
    }
    None
}

// The number from 0 to 255 whose decimal text this is.
fn number_of(digits: &[u8]) -> Option<u8>
    ensures found { IfSome result (λ n. digits.now ≡ decimal n) }
    ensures only { (n : ℕ) → IsByte n → digits.now ≡ decimal n → result ≡ Some n }
{
    let Ok(text) = str::from_utf8(digits) else {
        return None;
    };
    let Ok(number) = text.parse::<u8>() else {
        return None;
    };
    let is_shortest = Buffer::new().format(number).as_bytes() == digits;
    if is_shortest { Some(number) } else { None }
}
