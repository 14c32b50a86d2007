// The text of a token list.
ghost use Rattle.std.specs.Prelude.{◌≡◌, ◌++◌, codes, IfOk, OnOk};
ghost use Rattle.std.specs.List.{flat_map};
ghost use Rattle.c_lexer.specs.Marks.{mark_text};
ghost use Rattle.c_lexer.specs.Dump.{kind_text, token_text, tokens_text};

use crate::token::{Punct, Token, TokenKind, Tokens};
use cp_base::Bytes;
use std::alloc::{AllocError, Global};

/// A line for each token: the byte offsets of its start and its end, one of `word`, `int`, `char`,
/// `string` and `punct`, and then its word, number or punctuator; for a string its length.
#[tactic(auto, unfolding(crate::specs::Dump::tokens_text))]
pub fn tokens_text(alloc: Global, tokens: &Tokens) -> Result<Bytes, AllocError>
    ensures { IfOk result (λ text. text ≡ tokens_text tokens.now) }
{
    let mut out = Bytes::new(alloc);
    put_tokens(&mut out, tokens.as_slice())?;
    Ok(out)
}

fn put_tokens(out: &mut Bytes, tokens: &[Token]) -> Result<(), AllocError>
    ensures { OnOk result (out.new ≡ out.old ++ flat_map token_text tokens.now) }
{
    for token in tokens {
        put_token(out, token)?;
    }
    Ok(())
}

fn put_token(out: &mut Bytes, token: &Token) -> Result<(), AllocError>
    ensures { OnOk result (out.new ≡ out.old ++ token_text token.now) }
{
    out.push_number(token.start)?;
    out.push_all(b" ")?;
    out.push_number(token.end)?;
    out.push_all(b" ")?;
    put_kind(out, &token.kind)?;
    out.push_all(b"\n")
}

fn put_kind(out: &mut Bytes, kind: &TokenKind) -> Result<(), AllocError>
    ensures { OnOk result (out.new ≡ out.old ++ kind_text kind.now) }
{
    match kind {
        TokenKind::Word(name) => {
            out.push_all(b"word ")?;
            out.push_all(name.as_slice().as_bytes())
        }
        TokenKind::Int(value, _) => {
            out.push_all(b"int ")?;
            out.push_number(*value)
        }
        TokenKind::Char(value) => {
            out.push_all(b"char ")?;
            out.push_number(*value)
        }
        TokenKind::Str(bytes) => {
            out.push_all(b"string ")?;
            out.push_number(bytes.as_slice().len())
        }
        TokenKind::Punct(mark) => {
            out.push_all(b"punct ")?;
            out.push_all(mark_text(*mark).as_bytes())
        }
    }
}

/// A punctuator as it is written.
pub fn mark_text(mark: Punct) -> &'static str
    ensures { result.now ≡ mark_text mark }
{
    match mark {
        Punct::LeftBracket => "[",
        Punct::RightBracket => "]",
        Punct::LeftParenthesis => "(",
        Punct::RightParenthesis => ")",
        Punct::LeftBrace => "{",
        Punct::RightBrace => "}",
        Punct::Dot => ".",
        Punct::Arrow => "->",
        Punct::PlusPlus => "++",
        Punct::MinusMinus => "--",
        Punct::Ampersand => "&",
        Punct::Star => "*",
        Punct::Plus => "+",
        Punct::Minus => "-",
        Punct::Tilde => "~",
        Punct::Exclamation => "!",
        Punct::Slash => "/",
        Punct::Percent => "%",
        Punct::ShiftLeft => "<<",
        Punct::ShiftRight => ">>",
        Punct::Less => "<",
        Punct::Greater => ">",
        Punct::LessEqual => "<=",
        Punct::GreaterEqual => ">=",
        Punct::EqualEqual => "==",
        Punct::NotEqual => "!=",
        Punct::Caret => "^",
        Punct::Bar => "|",
        Punct::AmpersandAmpersand => "&&",
        Punct::BarBar => "||",
        Punct::Question => "?",
        Punct::Colon => ":",
        Punct::Semicolon => ";",
        Punct::Equal => "=",
        Punct::StarEqual => "*=",
        Punct::SlashEqual => "/=",
        Punct::PercentEqual => "%=",
        Punct::PlusEqual => "+=",
        Punct::MinusEqual => "-=",
        Punct::ShiftLeftEqual => "<<=",
        Punct::ShiftRightEqual => ">>=",
        Punct::AmpersandEqual => "&=",
        Punct::CaretEqual => "^=",
        Punct::BarEqual => "|=",
        Punct::Comma => ",",
    }
}
