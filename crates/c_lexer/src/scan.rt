// How far the pieces at a place go.
ghost use Rattle.std.specs.Prelude.{◌≡◌, ℕ, ◌<◌, ◌≤◌, ◌+◌, ◌==◌, not, suc, drop, length, slice_index, IfSome, IfNone};
ghost use Rattle.std.specs.List.{list_all, prefix_len, zip};
ghost use Rattle.std.specs.Char.{digit_value};
ghost use Rattle.std.specs.Str.Parse.{digits_value};
ghost use Rattle.c_lexer.specs.Numbers.{begins_number, continues_number};
ghost use Rattle.c_lexer.specs.Tokens.{begins_comment, line_front};
ghost use Rattle.c_lexer.specs.Characters.{is_blank, is_nondigit, is_word_byte, newline};

// The bytes up to the end of the line.
pub fn line_size(text: &[u8]) -> usize
    ensures size { result ≡ prefix_len (λ b. not (b == newline)) text.now }
    ensures within { result ≤ length text.now }
{
    line_bytes(text)
}

fn line_bytes(text: &[u8]) -> usize
    ensures { result ≡ prefix_len (λ b. not (b == newline)) text.now }
{
    text.iter().take_while(|byte| **byte != b'\n').count()
}

// The bytes that a word goes on with.
pub fn word_size(text: &[u8]) -> usize
    ensures size { result ≡ prefix_len is_word_byte text.now }
    ensures within { result ≤ length text.now }
{
    word_bytes(text)
}

fn word_bytes(text: &[u8]) -> usize
    ensures { result ≡ prefix_len is_word_byte text.now }
{
    text.iter().take_while(|byte| is_word_byte(**byte)).count()
}

pub fn is_blank(byte: u8) -> bool
    ensures { result ≡ is_blank byte }
{
    byte == b' ' || (9..=13).contains(&byte)
}

pub fn is_nondigit(byte: u8) -> bool
    ensures { result ≡ is_nondigit byte }
{
    byte.is_ascii_alphabetic() || byte == b'_'
}

pub fn is_word_byte(byte: u8) -> bool
    ensures { result ≡ is_word_byte byte }
{
    byte.is_ascii_alphanumeric() || byte == b'_'
}

// Where the first `*/` stands.
pub fn close_at(text: &[u8]) -> Option<usize>
    ensures found { IfSome result (λ n. (n + 1 < length text.now) × (slice_index text.now n ≡ 42) × (slice_index text.now (n + 1) ≡ 47)) }
    ensures first { IfSome result (λ n. (k : ℕ) → k < n → slice_index text.now k ≡ 42 → slice_index text.now (k + 1) ≡ 47 → ⊥) }
    ensures none { IfNone result ((k : ℕ) → k + 1 < length text.now → slice_index text.now k ≡ 42 → slice_index text.now (k + 1) ≡ 47 → ⊥) }
{
    for index in 1..text.len() {
        if text[index - 1] == b'*' && text[index] == b'/' {
            return Some(index - 1);
        }
    }
    None
}

// Whether what stands before a place on its line is blank.
pub fn is_line_front(before: &[u8]) -> bool
    ensures { result ≡ list_all is_blank (line_front before.now) }
{
    before
        .iter()
        .rev()
        .take_while(|byte| **byte != b'\n')
        .all(|byte| is_blank(*byte))
}

// The bytes of a number run, after its first.
pub fn run_size(text: &[u8], rest: &[u8]) -> usize
    ensures size { result ≡ prefix_len continues_number (zip text.now rest.now) }
    ensures within { result ≤ length rest.now }
{
    run_bytes(text, rest)
}

fn run_bytes(text: &[u8], rest: &[u8]) -> usize
    ensures { result ≡ prefix_len continues_number (zip text.now rest.now) }
{
    text.iter()
        .zip(rest)
        .take_while(|pair| continues_number(*pair.0, *pair.1))
        .count()
}

fn continues_number(before: u8, byte: u8) -> bool
    ensures { result ≡ continues_number (before, byte) }
{
    let is_sign = byte == b'+' || byte == b'-';
    is_word_byte(byte) || byte == b'.' || (is_sign && matches!(before, b'e' | b'E' | b'p' | b'P'))
}

pub fn begins_number(text: &[u8]) -> bool
    ensures { result ≡ begins_number text.now }
{
    match text {
        [] => false,
        [first] => first.is_ascii_digit(),
        [first, second, ..] => first.is_ascii_digit()
            || (*first == b'.' && second.is_ascii_digit()),
    }
}

/// The number that the digits write in this base; none, where it is above 4294967295.
pub fn value_of(base: u32, digits: &[u8]) -> Option<u32>
    requires { 0 < base }
    ensures found { IfSome result (λ value. value ≡ digits_value base digits.now) }
    ensures none { IfNone result (4294967295 < digits_value base digits.now) }
{
    let mut value: u32 = 0;
    for digit in digits {
        let shifted = value.checked_mul(base)?;
        value = shifted.checked_add(u32::from(digit_value(*digit)))?;
    }
    Some(value)
}

fn digit_value(byte: u8) -> u8
    ensures { result ≡ digit_value byte }
{
    match byte {
        b'0'..=b'9' => byte - b'0',
        b'a'..=b'z' => byte - b'a' + 10,
        b'A'..=b'Z' => byte - b'A' + 10,
        _ => 36,
    }
}
