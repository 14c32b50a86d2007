// Tokens of a preprocessed C unit.
//
// In come the bytes of the unit. Out go its tokens, each with the place where it begins and ends.
//
// The idea: the definitions speak of whole spellings, and not of a scan. A text is a spelling or it
// is none; the token at a place has the longest spelling there; a unit has the tokens of a path of
// blanks, comments, skipped lines and tokens from its first byte to its end.
//
// The invariant of the loop: pieces lead from the first byte to the present place, with the tokens so
// far. At each place there is one piece at most, so there is one way, and bytes have one list of tokens
// at most (`proofs/OneList.antt`).
//
// The theorem, on `lex`: its answer is the list of tokens of the bytes, and any other list is equal to
// it; where it answers that there is none, there is none, and the place is the farthest that pieces
// reach. Where memory is refused it says nothing.
//
// `token` has the tokens and the faults. `piece` takes the piece at a place, with the help of `scan` (how
// far words, number runs, lines and comments go, and the values of digits), `number`, `literal` and `mark`;
// `lexer` goes from piece to piece. `place` counts lines and columns, `dump` writes a token list as text.
//
// Source: C99 6.4 (lexical elements), 6.4.2 (identifiers), 6.4.4 (constants), 6.4.5 (string
// literals), 6.4.6 (punctuators), 6.4.8 (preprocessing numbers), 6.4.9 (comments).
#![tactic(auto)]

mod dump;
mod lexer;
mod literal;
mod mark;
mod number;
mod piece;
mod place;
mod scan;
mod token;

pub use dump::{mark_text, tokens_text};
pub use lexer::lex;
pub use place::line_of;
pub use token::{IntType, LexFault, Punct, Token, TokenKind, Tokens};
