// Punctuators.
ghost use Rattle.std.specs.Prelude.{◌≡◌, ℕ, List, [], ◌∷◌, ◌<◌, ◌≤◌, length, take, None, Some, IfSome, IfNone};
ghost use Rattle.c_lexer.specs.Readings.{mark_of};

use crate::token::Punct;

/// The punctuator of a text.
fn mark_of(text: &[u8]) -> Option<Punct>
    ensures { result ≡ mark_of text.now }
{
    match text {
        [a] => mark_of_one(*a),
        [a, b] => mark_of_two(*a, *b),
        [a, b, c] => mark_of_three(*a, *b, *c),
        _ => None,
    }
}

fn mark_of_one(a: u8) -> Option<Punct>
    ensures { result ≡ mark_of (a ∷ []) }
{
    let mark = match a {
        b'[' => Punct::LeftBracket,
        b']' => Punct::RightBracket,
        b'(' => Punct::LeftParenthesis,
        b')' => Punct::RightParenthesis,
        b'{' => Punct::LeftBrace,
        b'}' => Punct::RightBrace,
        b'.' => Punct::Dot,
        b'&' => Punct::Ampersand,
        b'*' => Punct::Star,
        b'+' => Punct::Plus,
        b'-' => Punct::Minus,
        b'~' => Punct::Tilde,
        b'!' => Punct::Exclamation,
        b'/' => Punct::Slash,
        b'%' => Punct::Percent,
        b'<' => Punct::Less,
        b'>' => Punct::Greater,
        b'^' => Punct::Caret,
        b'|' => Punct::Bar,
        b'?' => Punct::Question,
        b':' => Punct::Colon,
        b';' => Punct::Semicolon,
        b'=' => Punct::Equal,
        b',' => Punct::Comma,
        _ => return None,
    };
    Some(mark)
}

fn mark_of_two(a: u8, b: u8) -> Option<Punct>
    ensures { result ≡ mark_of (a ∷ b ∷ []) }
{
    let mark = match (a, b) {
        (b'-', b'>') => Punct::Arrow,
        (b'+', b'+') => Punct::PlusPlus,
        (b'-', b'-') => Punct::MinusMinus,
        (b'<', b'<') => Punct::ShiftLeft,
        (b'>', b'>') => Punct::ShiftRight,
        (b'<', b'=') => Punct::LessEqual,
        (b'>', b'=') => Punct::GreaterEqual,
        (b'=', b'=') => Punct::EqualEqual,
        (b'!', b'=') => Punct::NotEqual,
        (b'&', b'&') => Punct::AmpersandAmpersand,
        (b'|', b'|') => Punct::BarBar,
        (b'*', b'=') => Punct::StarEqual,
        (b'/', b'=') => Punct::SlashEqual,
        (b'%', b'=') => Punct::PercentEqual,
        (b'+', b'=') => Punct::PlusEqual,
        (b'-', b'=') => Punct::MinusEqual,
        (b'&', b'=') => Punct::AmpersandEqual,
        (b'^', b'=') => Punct::CaretEqual,
        (b'|', b'=') => Punct::BarEqual,
        _ => return None,
    };
    Some(mark)
}

fn mark_of_three(a: u8, b: u8, c: u8) -> Option<Punct>
    ensures { result ≡ mark_of (a ∷ b ∷ c ∷ []) }
{
    match (a, b, c) {
        (b'<', b'<', b'=') => Some(Punct::ShiftLeftEqual),
        (b'>', b'>', b'=') => Some(Punct::ShiftRightEqual),
        _ => None,
    }
}

/// The longest punctuator at the front of a text, with its size.
pub fn mark_at(text: &[u8]) -> Option<(usize, Punct)>
    ensures found { IfSome result (λ m. (0 < m.0) × (m.0 ≤ length text.now) × (mark_of (take m.0 text.now) ≡ Some m.1)) }
    ensures longest { IfSome result (λ m. (k : ℕ) → m.0 < k → k ≤ length text.now → mark_of (take k text.now) ≡ None) }
    ensures none { IfNone result ((k : ℕ) → k ≤ length text.now → mark_of (take k text.now) ≡ None) }
{
    if let Some(mark) = front_mark(text, 3) {
        return Some((3, mark));
    }
    if let Some(mark) = front_mark(text, 2) {
        return Some((2, mark));
    }
    let mark = front_mark(text, 1)?;
    Some((1, mark))
}

fn front_mark(text: &[u8], size: usize) -> Option<Punct>
    ensures found { IfSome result (λ m. (size ≤ length text.now) × (mark_of (take size text.now) ≡ Some m)) }
    ensures none { IfNone result (size ≤ length text.now → mark_of (take size text.now) ≡ None) }
{
    let front = text.get(..size)?;
    mark_of(front)
}
