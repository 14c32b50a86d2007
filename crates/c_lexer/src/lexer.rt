// From bytes to tokens.
ghost use Rattle.std.specs.Prelude.{◌≡◌, ◌++◌, ◌≤◌, ℕ, List, length, IfOk, IfErr, OnOk};
ghost use Rattle.c_lexer.specs.declared.token.Token.{Token};
ghost use Rattle.c_lexer.specs.declared.token.LexFault.TheVariants.{Lexical};
ghost use Rattle.c_lexer.specs.Readings.{tokens_of};
ghost use Rattle.c_lexer.specs.Tokens.{HasTokens, IsLexical};

use crate::piece::piece_at;
use crate::token::{LexFault, Token, TokenKind, Tokens};
use cp_base::Items;
use std::alloc::{AllocError, Global};

impl From<AllocError> for LexFault {
    ghost use Rattle.std.specs.Prelude.{◌≡◌};
    ghost use Rattle.c_lexer.specs.declared.token.LexFault.TheVariants.{OutOfMemory};

    ghost from_gives = { λ _ fault. fault ≡ OutOfMemory };

    fn from(_error: AllocError) -> LexFault {
        LexFault::OutOfMemory
    }
}

/// The tokens of the bytes. Where they have no list of tokens, the fault says how far they can be
/// read.
pub fn lex(alloc: Global, bytes: &[u8]) -> Result<Tokens, LexFault>
    ensures found { IfOk result (λ tokens. HasTokens bytes.now tokens) }
    ensures only { IfOk result (λ tokens. (other : List Token) → HasTokens bytes.now other → other ≡ tokens) }
    ensures lexical { IfErr result (λ fault. (at : ℕ) → fault ≡ Lexical at → IsLexical bytes.now at) }
    ensures within { IfErr result (λ fault. (at : ℕ) → fault ≡ Lexical at → at ≤ length bytes.now) }
{
    let mut tokens = Items::new(alloc);
    let mut at = 0;
    while at < bytes.len() {
        let Some(piece) = piece_at(alloc, bytes, at)? else {
            return Err(LexFault::Lexical { at });
        };
        let end = at + piece.size;
        push_token(&mut tokens, at, end, piece.kind)?;
        at = end;
    }
    Ok(tokens)
}

// Appends the token from one place to another, where there is one.
fn push_token(
    tokens: &mut Tokens,
    start: usize,
    end: usize,
    kind: Option<TokenKind>,
) -> Result<(), AllocError>
    ensures { OnOk result (tokens.new ≡ tokens.old ++ tokens_of start end kind) }
{
    match kind {
        Some(kind) => tokens.push(Token { kind, start, end }),
        None => Ok(()),
    }
}
