// Hard texts, given to the calls of `c_lexer`.
use c_lexer::{IntType, LexFault, Punct, Token, TokenKind, lex, line_of, tokens_text};
use std::alloc::Global;

// What a token is to be: the byte offsets of its start and its end, and what `described` says of it.
type Wanted = (usize, usize, u8, u32);

// A letter for each kind (a word; an int, unsigned int, long and unsigned long; a character; a string;
// a punctuator), and a number: a value, or the length of a string.
fn described(kind: &TokenKind) -> (u8, u32) {
    match kind {
        TokenKind::Word(_) => (b'w', 0),
        TokenKind::Int(value, IntType::Int) => (b'i', *value),
        TokenKind::Int(value, IntType::UInt) => (b'u', *value),
        TokenKind::Int(value, IntType::Long) => (b'l', *value),
        TokenKind::Int(value, IntType::ULong) => (b'v', *value),
        TokenKind::Char(value) => (b'c', *value),
        TokenKind::Str(bytes) => (b's', u32::try_from(bytes.as_slice().len()).unwrap_or(0)),
        TokenKind::Punct(_) => (b'p', 0),
    }
}

fn is_token(token: &Token, wanted: &Wanted) -> bool {
    let (start, end, kind, number) = *wanted;
    token.start == start && token.end == end && described(&token.kind) == (kind, number)
}

fn has_tokens(alloc: Global, text: &[u8], wanted: &[Wanted]) -> bool {
    let Ok(tokens) = lex(alloc, text) else {
        return false;
    };
    let mut pairs = tokens.as_slice().iter().zip(wanted);
    tokens.len() == wanted.len() && pairs.all(|(token, wanted)| is_token(token, wanted))
}

fn is_string(alloc: Global, text: &[u8], bytes: &[u8]) -> bool {
    let Ok(tokens) = lex(alloc, text) else {
        return false;
    };
    match tokens.as_slice() {
        [token] => matches!(&token.kind, TokenKind::Str(found) if found.as_slice() == bytes),
        _ => false,
    }
}

fn is_mark(alloc: Global, text: &[u8], mark: Punct) -> bool {
    let Ok(tokens) = lex(alloc, text) else {
        return false;
    };
    match tokens.as_slice() {
        [token] => matches!(&token.kind, TokenKind::Punct(found) if *found == mark),
        _ => false,
    }
}

// Whether the text has no list of tokens, and can be read up to this place.
fn is_lexical(alloc: Global, text: &[u8], at: usize) -> bool {
    matches!(lex(alloc, text), Err(LexFault::Lexical { at: place }) if place == at)
}

// Texts with their tokens.
static TEXTS_WITH_TOKENS: [(&[u8], &[Wanted]); 31] = [
    (b"", &[]),
    (
        b"a+++b",
        &[
            (0, 1, b'w', 0),
            (1, 3, b'p', 0),
            (3, 4, b'p', 0),
            (4, 5, b'w', 0),
        ],
    ),
    (
        b"0xE +1",
        &[(0, 3, b'i', 14), (4, 5, b'p', 0), (5, 6, b'i', 1)],
    ),
    (b"/**/", &[]),
    (b"/***/a", &[(5, 6, b'w', 0)]),
    (b"//", &[]),
    (b"a//b", &[(0, 1, b'w', 0)]),
    (b"x//y\nz", &[(0, 1, b'w', 0), (5, 6, b'w', 0)]),
    (b"#", &[]),
    (b" \t# x /* \"\nb", &[(11, 12, b'w', 0)]),
    (b"#\n#x\n c", &[(6, 7, b'w', 0)]),
    (b"2147483647", &[(0, 10, b'i', 2147483647)]),
    (b"2147483648u", &[(0, 11, b'u', 2147483648)]),
    (b"4294967295U", &[(0, 11, b'u', 4294967295)]),
    (b"0x7fffffff", &[(0, 10, b'i', 2147483647)]),
    (b"0X80000000", &[(0, 10, b'u', 2147483648)]),
    (b"037777777777", &[(0, 12, b'u', 4294967295)]),
    (b"2147483647l", &[(0, 11, b'l', 2147483647)]),
    (b"0x80000000L", &[(0, 11, b'v', 2147483648)]),
    (b"0xFul", &[(0, 5, b'v', 15)]),
    (b"1LU", &[(0, 3, b'v', 1)]),
    (b"0", &[(0, 1, b'i', 0)]),
    (b"00", &[(0, 2, b'i', 0)]),
    (b"...", &[(0, 1, b'p', 0), (1, 2, b'p', 0), (2, 3, b'p', 0)]),
    (b"'a'", &[(0, 3, b'c', 97)]),
    (b"'\"'", &[(0, 3, b'c', 34)]),
    (b"'\\''", &[(0, 4, b'c', 39)]),
    (b"'\\x41'", &[(0, 6, b'c', 65)]),
    (b"'\\377'", &[(0, 6, b'c', 255)]),
    (b"L'a'", &[(0, 1, b'w', 0), (1, 4, b'c', 97)]),
    (b"\"a\"\"b\"", &[(0, 3, b's', 1), (3, 6, b's', 1)]),
];

#[test]
fn texts_with_tokens(rt: HostRuntime) {
    for (text, wanted) in &TEXTS_WITH_TOKENS {
        assert!(rt; has_tokens(rt.alloc(), text, wanted), "{text:?}");
    }
}

// String literals with their bytes.
static STRINGS: [(&[u8], &[u8]); 5] = [
    (b"\"\"", b""),
    (b"\"\\1234\"", b"S4"),
    (b"\"a\\\"b\"", b"a\"b"),
    (
        b"\"\\n\\t\\r\\\\\\'\\\"\\?\\a\\b\\f\\v\"",
        b"\n\t\r\\'\"?\x07\x08\x0c\x0b",
    ),
    (b"\"\xff\x00\"", b"\xff\x00"),
];

#[test]
fn strings(rt: HostRuntime) {
    for (text, bytes) in &STRINGS {
        assert!(rt; is_string(rt.alloc(), text, bytes), "{text:?}");
    }
}

static PUNCTUATORS: [(&[u8], Punct); 45] = [
    (b"[", Punct::LeftBracket),
    (b"]", Punct::RightBracket),
    (b"(", Punct::LeftParenthesis),
    (b")", Punct::RightParenthesis),
    (b"{", Punct::LeftBrace),
    (b"}", Punct::RightBrace),
    (b".", Punct::Dot),
    (b"->", Punct::Arrow),
    (b"++", Punct::PlusPlus),
    (b"--", Punct::MinusMinus),
    (b"&", Punct::Ampersand),
    (b"*", Punct::Star),
    (b"+", Punct::Plus),
    (b"-", Punct::Minus),
    (b"~", Punct::Tilde),
    (b"!", Punct::Exclamation),
    (b"/", Punct::Slash),
    (b"%", Punct::Percent),
    (b"<<", Punct::ShiftLeft),
    (b">>", Punct::ShiftRight),
    (b"<", Punct::Less),
    (b">", Punct::Greater),
    (b"<=", Punct::LessEqual),
    (b">=", Punct::GreaterEqual),
    (b"==", Punct::EqualEqual),
    (b"!=", Punct::NotEqual),
    (b"^", Punct::Caret),
    (b"|", Punct::Bar),
    (b"&&", Punct::AmpersandAmpersand),
    (b"||", Punct::BarBar),
    (b"?", Punct::Question),
    (b":", Punct::Colon),
    (b";", Punct::Semicolon),
    (b"=", Punct::Equal),
    (b"*=", Punct::StarEqual),
    (b"/=", Punct::SlashEqual),
    (b"%=", Punct::PercentEqual),
    (b"+=", Punct::PlusEqual),
    (b"-=", Punct::MinusEqual),
    (b"<<=", Punct::ShiftLeftEqual),
    (b">>=", Punct::ShiftRightEqual),
    (b"&=", Punct::AmpersandEqual),
    (b"^=", Punct::CaretEqual),
    (b"|=", Punct::BarEqual),
    (b",", Punct::Comma),
];

#[test]
fn punctuators(rt: HostRuntime) {
    for (text, mark) in &PUNCTUATORS {
        assert!(rt; is_mark(rt.alloc(), text, *mark), "{text:?}");
    }
}

// Texts without a list of tokens, and the place up to which each can be read.
static TEXTS_WITHOUT: [(&[u8], usize); 38] = [
    (b"0xE+1", 0),
    (b"1e+5", 0),
    (b"08", 0),
    (b"0x", 0),
    (b"0xu", 0),
    (b"1.", 0),
    (b".5", 0),
    (b"1u1", 0),
    (b"1uu", 0),
    (b"1lul", 0),
    (b"1ll", 0),
    (b"2147483648", 0),
    (b"2147483648L", 0),
    (b"4294967296u", 0),
    (b"0x100000000", 0),
    (b"040000000000", 0),
    (b"''", 0),
    (b"'''", 0),
    (b"'a", 0),
    (b"'ab'", 0),
    (b"'\\400'", 0),
    (b"'\\x100'", 0),
    (b"'\\'", 0),
    (b"\"a", 0),
    (b"\"a\nb\"", 0),
    (b"\"a\\\n\"", 0),
    (b"\"\\q\"", 0),
    (b"\"\\x\"", 0),
    (b"\"\\8\"", 0),
    (b"/* x", 0),
    (b"/*/", 0),
    (b"/* */ # x", 6),
    (b"/*\n*/ # x", 6),
    (b"a #", 2),
    (b"a\\\n", 1),
    (b"int @", 4),
    (b"\x80", 0),
    (b"'\\x41' 0x80000000 \"a\" /*c*/ 08", 28),
];

#[test]
fn texts_without(rt: HostRuntime) {
    for (text, at) in &TEXTS_WITHOUT {
        assert!(rt; is_lexical(rt.alloc(), text, *at), "{text:?}");
    }
}

// A text, a byte offset, and its line and column.
static LINES_AND_COLUMNS: [(&[u8], usize, (usize, usize)); 6] = [
    (b"", 0, (1, 1)),
    (b"ab\nc", 0, (1, 1)),
    (b"ab\nc", 2, (1, 3)),
    (b"ab\nc", 3, (2, 1)),
    (b"ab\nc", 4, (2, 2)),
    (b"\n\n", 2, (3, 1)),
];

#[test]
fn lines_and_columns(rt: HostRuntime) {
    for (text, at, place) in &LINES_AND_COLUMNS {
        assert!(rt;
            *at <= text.len() && line_of(text, *at) == *place,
            "{text:?} {at}"
        );
    }
}

#[test]
fn a_token_list_as_text(rt: HostRuntime) {
    let Ok(tokens) = lex(rt.alloc(), b"x<<=0x1F \"bc\" '\\n';") else {
        panic!(rt; "no tokens");
    };
    let Ok(text) = tokens_text(rt.alloc(), &tokens) else {
        panic!(rt; "no text");
    };
    let wanted =
        b"0 1 word x\n1 4 punct <<=\n4 8 int 31\n9 13 string 2\n14 18 char 10\n18 19 punct ;\n";
    assert!(rt; text.as_slice() == wanted.as_slice());
}
