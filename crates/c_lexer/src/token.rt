// Tokens.
use cp_base::{Bytes, Items, Name};

/// The type of an integer constant.
#[derive(Clone, Copy, Debug, PartialEq, Eq)]
pub enum IntType {
    Int,
    UInt,
    Long,
    ULong,
}

/// A punctuator (C99 6.4.6, without `...`, which is three dots, `#`, `##` and the digraphs).
#[derive(Clone, Copy, Debug, PartialEq, Eq)]
pub enum Punct {
    LeftBracket,
    RightBracket,
    LeftParenthesis,
    RightParenthesis,
    LeftBrace,
    RightBrace,
    Dot,
    Arrow,
    PlusPlus,
    MinusMinus,
    Ampersand,
    Star,
    Plus,
    Minus,
    Tilde,
    Exclamation,
    Slash,
    Percent,
    ShiftLeft,
    ShiftRight,
    Less,
    Greater,
    LessEqual,
    GreaterEqual,
    EqualEqual,
    NotEqual,
    Caret,
    Bar,
    AmpersandAmpersand,
    BarBar,
    Question,
    Colon,
    Semicolon,
    Equal,
    StarEqual,
    SlashEqual,
    PercentEqual,
    PlusEqual,
    MinusEqual,
    ShiftLeftEqual,
    ShiftRightEqual,
    AmpersandEqual,
    CaretEqual,
    BarEqual,
    Comma,
}

#[derive(Debug, Drop)]
pub enum TokenKind {
    /// An identifier or a keyword.
    Word(Name),
    /// An integer constant: its value, and its type.
    Int(u32, IntType),
    /// A character constant: its value, from 0 to 255.
    Char(u32),
    /// A string literal: its bytes, without the zero at its end.
    Str(Bytes),
    Punct(Punct),
}

/// A token, with the byte offset where it begins, and the one behind it.
#[derive(Debug, Drop)]
pub struct Token {
    pub kind: TokenKind,
    pub start: usize,
    pub end: usize,
}

pub type Tokens = Items<Token>;

/// Why a unit has no list of tokens.
#[derive(Clone, Copy, Debug, PartialEq, Eq)]
pub enum LexFault {
    /// At this byte offset there is no token.
    Lexical { at: usize },
    OutOfMemory,
}
