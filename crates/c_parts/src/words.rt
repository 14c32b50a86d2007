// Words and operators by what the grammar takes them for.
ghost use Rattle.std.specs.Prelude.{◌≡◌, ◌<◌, [], get_or, length, map};
ghost use Rattle.c_grammar.specs.Vocabulary as vocabulary;
ghost use Rattle.c_parts.specs.Slots.{slot_of};

use c_lexer::Punct;

// Each keyword at its slot; the other slots are empty.
const KEYWORDS: [&str; 95] = [
    "static",
    "signed",
    "return",
    "sizeof",
    "if",
    "switch",
    "",
    "inline",
    "register",
    "",
    "restrict",
    "",
    "",
    "typedef",
    "",
    "",
    "short",
    "struct",
    "_Bool",
    "int",
    "",
    "unsigned",
    "",
    "",
    "",
    "",
    "void",
    "",
    "union",
    "",
    "",
    "volatile",
    "",
    "_Complex",
    "long",
    "",
    "_Imaginary",
    "while",
    "auto",
    "",
    "",
    "",
    "",
    "",
    "break",
    "",
    "case",
    "",
    "",
    "",
    "continue",
    "",
    "",
    "",
    "",
    "",
    "",
    "double",
    "",
    "char",
    "",
    "",
    "const",
    "do",
    "else",
    "",
    "",
    "",
    "",
    "",
    "",
    "",
    "enum",
    "default",
    "",
    "extern",
    "",
    "",
    "",
    "",
    "",
    "",
    "",
    "",
    "",
    "for",
    "",
    "",
    "",
    "float",
    "",
    "",
    "goto",
    "",
    "",
];

const TYPE_WORDS: [&str; 8] = [
    "void", "char", "short", "int", "long", "signed", "unsigned", "_Bool",
];

const STORAGE_WORDS: [&str; 6] = ["typedef", "extern", "static", "auto", "register", "const"];

/// The word is no keyword.
pub fn is_identifier(text: &str) -> bool
    ensures { result ≡ vocabulary.is_identifier text.now }
{
    word_at(&KEYWORDS, slot_of(text.as_bytes())) != text
}

// What stands at a slot of a table.
fn word_at(table: &[&'static str], slot: usize) -> &'static str
    requires { slot < length table.now }
    ensures { result.now ≡ get_or (map (λ word. word.now) table.now) slot [] }
{
    table[slot]
}

// The place of a word in the table of keywords, by its length and its first and last byte. No two keywords have the same.
fn slot_of(text: &[u8]) -> usize
    ensures slot { result ≡ slot_of text.now }
    ensures within { result < 95 }
{
    match text {
        [first, .., last] => (text.len() + 9 * usize::from(*first) + usize::from(*last)) % 95,
        _ => 0,
    }
}

/// The word alone is a type, or a part of one.
pub fn is_type_word(text: &str) -> bool
    ensures { result ≡ vocabulary.is_type_word text.now }
{
    !is_identifier(text) && TYPE_WORDS.contains(&text)
}

/// The word stands among specs and says no type.
pub fn is_storage_word(text: &str) -> bool
    ensures { result ≡ vocabulary.is_storage_word text.now }
{
    !is_identifier(text) && STORAGE_WORDS.contains(&text)
}

/// The mark stands before an operand.
pub fn is_unary_operator(mark: Punct) -> bool
    ensures { result ≡ vocabulary.is_unary_operator mark }
{
    matches!(
        mark,
        Punct::Ampersand
            | Punct::Star
            | Punct::Plus
            | Punct::Minus
            | Punct::Tilde
            | Punct::Exclamation
    )
}

pub fn is_assignment(mark: Punct) -> bool
    ensures { result ≡ vocabulary.is_assignment mark }
{
    matches!(
        mark,
        Punct::Equal
            | Punct::StarEqual
            | Punct::SlashEqual
            | Punct::PercentEqual
            | Punct::PlusEqual
            | Punct::MinusEqual
            | Punct::ShiftLeftEqual
            | Punct::ShiftRightEqual
            | Punct::AmpersandEqual
            | Punct::CaretEqual
            | Punct::BarEqual
    )
}

/// The level of a binary operator, from the tightest, 1, to 10; 0 for all else.
pub fn level_of(mark: Punct) -> usize
    ensures { result ≡ vocabulary.level_of mark }
{
    match mark {
        Punct::Star | Punct::Slash | Punct::Percent => 1,
        Punct::Plus | Punct::Minus => 2,
        Punct::ShiftLeft | Punct::ShiftRight => 3,
        Punct::Less | Punct::Greater | Punct::LessEqual | Punct::GreaterEqual => 4,
        Punct::EqualEqual | Punct::NotEqual => 5,
        Punct::Ampersand => 6,
        Punct::Caret => 7,
        Punct::Bar => 8,
        Punct::AmpersandAmpersand => 9,
        Punct::BarBar => 10,
        _ => 0,
    }
}
