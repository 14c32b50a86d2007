// The piece at a place: a blank, a comment, a skipped line or a token.
ghost use Rattle.std.specs.Prelude.{◌≡◌, ◌<◌, ◌+◌, ◌⊎◌, ℕ, List, [], ◌∷◌, true, length, take, IfOk, IfSome, IfNone};
ghost use Rattle.std.specs.List.{list_all};
ghost use Rattle.c_lexer.specs.Characters.{is_nondigit, is_word_byte};
ghost use Rattle.c_lexer.specs.Numbers.{begins_number};
ghost use Rattle.c_lexer.specs.Readings.{HasNoPiece, HasNoToken, IsBlankPiece, IsTokenAt, tokens_of};
ghost use Rattle.c_lexer.specs.Tokens.{begins_comment, IsBlockComment, IsLineComment, IsPiece};

use crate::literal::{decode, inside_size};
use crate::mark::mark_at;
use crate::number::constant_of;
use crate::scan::{
    begins_number, close_at, is_blank, is_line_front, is_nondigit, line_size, run_size, word_size,
};
use crate::token::TokenKind;
use cp_base::Name;
use std::alloc::{AllocError, Global};
use std::str;

/// A token, with its size.
type SizedToken = (usize, TokenKind);

/// The token that a text begins with.
pub fn token_at(alloc: Global, text: &[u8]) -> Result<Option<SizedToken>, AllocError>
    ensures found { IfOk result (λ o. IfSome o (λ t. IsTokenAt text.now t.0 t.1)) }
    ensures none { IfOk result (λ o. IfNone o (HasNoToken text.now)) }
{
    let Some((first, rest)) = text.split_first() else {
        return Ok(None);
    };
    if is_nondigit(*first) {
        return word_at(alloc, text, rest);
    }
    if begins_number(text) {
        return Ok(number_at(text, rest));
    }
    if *first == b'\'' {
        return character_at(alloc, rest);
    }
    if *first == b'"' {
        return string_at(alloc, rest);
    }
    match mark_at(text) {
        Some((size, mark)) => Ok(Some((size, TokenKind::Punct(mark)))),
        None => Ok(None),
    }
}

// The word that begins with a byte before this rest.
fn word_at(alloc: Global, text: &[u8], rest: &[u8]) -> Result<Option<SizedToken>, AllocError>
    requires { (a : ℕ) × (text.now ≡ a ∷ rest.now) × (is_nondigit a ≡ true) }
    ensures found { IfOk result (λ o. IfSome o (λ t. IsTokenAt text.now t.0 t.1)) }
    ensures none { IfOk result (λ o. IfNone o (HasNoToken text.now)) }
{
    let size = 1 + word_size(rest);
    let (front, _) = text.split_at(size);
    let name = word(alloc, front)?;
    Ok(Some((size, TokenKind::Word(name))))
}

// A word as a name.
fn word(alloc: Global, text: &[u8]) -> Result<Name, AllocError>
    requires { list_all is_word_byte text.now ≡ true }
    ensures { IfOk result (λ name. name ≡ text.now) }
{
    let mut name = Name::new(alloc);
    match str::from_utf8(text) {
        Ok(word) => name.push_all(word)?,
        Err(_) => unreachable!(),
    }
    Ok(name)
}

// The integer constant that a number run is.
fn number_at(text: &[u8], rest: &[u8]) -> Option<SizedToken>
    requires { (begins_number text.now ≡ true) × (a : ℕ) × (text.now ≡ a ∷ rest.now) }
    ensures found { IfSome result (λ t. IsTokenAt text.now t.0 t.1) }
    ensures none { IfNone result (HasNoToken text.now) }
{
    let size = 1 + run_size(text, rest);
    let (front, _) = text.split_at(size);
    let (value, int_type) = constant_of(front)?;
    Some((size, TokenKind::Int(value, int_type)))
}

// The character constant whose quote stands before this text.
fn character_at(alloc: Global, rest: &[u8]) -> Result<Option<SizedToken>, AllocError>
    ensures found { IfOk result (λ o. IfSome o (λ t. IsTokenAt (39 ∷ rest.now) t.0 t.1)) }
    ensures none { IfOk result (λ o. IfNone o (HasNoToken (39 ∷ rest.now))) }
{
    let Some(size) = inside_size(b'\'', rest) else {
        return Ok(None);
    };
    let (inside, _) = rest.split_at(size);
    let Some(bytes) = decode(alloc, inside)? else {
        return Ok(None);
    };
    match only_byte(bytes.as_slice()) {
        Some(value) => Ok(Some((size + 2, TokenKind::Char(u32::from(value))))),
        None => Ok(None),
    }
}

// The one byte of a text.
fn only_byte(text: &[u8]) -> Option<u8>
    ensures found { IfSome result (λ b. text.now ≡ b ∷ []) }
    ensures none { IfNone result ((b : ℕ) → text.now ≡ b ∷ [] → ⊥) }
{
    match text {
        [byte] => Some(*byte),
        _ => None,
    }
}

// The string literal whose quote stands before this text.
fn string_at(alloc: Global, rest: &[u8]) -> Result<Option<SizedToken>, AllocError>
    ensures found { IfOk result (λ o. IfSome o (λ t. IsTokenAt (34 ∷ rest.now) t.0 t.1)) }
    ensures none { IfOk result (λ o. IfNone o (HasNoToken (34 ∷ rest.now))) }
{
    let Some(size) = inside_size(b'"', rest) else {
        return Ok(None);
    };
    let (inside, _) = rest.split_at(size);
    match decode(alloc, inside)? {
        Some(bytes) => Ok(Some((size + 2, TokenKind::Str(bytes)))),
        None => Ok(None),
    }
}

/// What stands at a place: a token, or what parts tokens.
#[derive(Debug, Drop)]
pub struct Piece {
    pub size: usize,
    pub kind: Option<TokenKind>,
}

/// The piece at a place.
pub fn piece_at(alloc: Global, bytes: &[u8], at: usize) -> Result<Option<Piece>, AllocError>
    requires { at < length bytes.now }
    ensures found { IfOk result (λ o. IfSome o (λ p. IsPiece bytes.now at p.size (tokens_of at (at + p.size) p.kind))) }
    ensures none { IfOk result (λ o. IfNone o (HasNoPiece bytes.now at)) }
{
    let (before, text) = bytes.split_at(at);
    if let Some(size) = blank_size(before, text) {
        return Ok(Some(Piece { size, kind: None }));
    }
    if begins_comment(text) {
        return Ok(None);
    }
    match token_at(alloc, text)? {
        Some((size, kind)) => Ok(Some(Piece {
            size,
            kind: Some(kind),
        })),
        None => Ok(None),
    }
}

// The size of a blank, a comment or a skipped line that a text begins with.
fn blank_size(before: &[u8], text: &[u8]) -> Option<usize>
    ensures found { IfSome result (λ n. IsBlankPiece before.now text.now n) }
    ensures none { IfNone result ((n : ℕ) → IsBlankPiece before.now text.now n → ⊥) }
{
    let (first, rest) = text.split_first()?;
    if is_blank(*first) {
        return Some(1);
    }
    if *first == b'#' && is_line_front(before) {
        return Some(line_size(rest) + 1);
    }
    if *first == b'/' {
        return comment_size(rest);
    }
    None
}

// The size of a comment, from behind its first byte.
fn comment_size(text: &[u8]) -> Option<usize>
    ensures found { IfSome result (λ n. IsLineComment (47 ∷ text.now) n ⊎ IsBlockComment (47 ∷ text.now) n) }
    ensures none { IfNone result ((n : ℕ) → IsLineComment (47 ∷ text.now) n ⊎ IsBlockComment (47 ∷ text.now) n → ⊥) }
{
    let (first, rest) = text.split_first()?;
    if *first == b'/' {
        return Some(line_size(rest) + 2);
    }
    if *first == b'*' {
        let end = close_at(rest)?;
        return Some(end + 4);
    }
    None
}

// Whether a comment begins here, closed or not.
fn begins_comment(text: &[u8]) -> bool
    ensures { result ≡ begins_comment text.now }
{
    matches!(text, [b'/', b'/' | b'*', ..])
}
