// Units. C99 6.9.
ghost use Rattle.std.specs.Prelude.{◌≡◌, ◌≤◌, ◌<◌, ◌+◌, ◌^◌, [], ℕ, suc, IfOk, IfErr};
ghost use Rattle.c_syntax.specs.Tables.{stack_of, table_of};
ghost use Rattle.c_syntax.specs.Trees.{Tree, height, max_height};
ghost use Rattle.c_grammar.specs.Derivation.{IsTreeOf};
ghost use Rattle.c_grammar.specs.Scopes.{opened};
ghost use Rattle.c_parser.specs.Gives.{GivesUnit};
ghost use Rattle.c_parser.specs.Parsing.{HasTable, IsWrong, IsTooDeep};
ghost use Rattle.c_grammar.specs.Reading as reading;
ghost use Rattle.c_parser.specs.declared.unit.ParseFault.TheVariants as fault;

use crate::parser::Parser;
use c_lexer::Tokens;
use c_parts::{Part, Stop, above_row};
use c_scopes::Scopes;
use c_syntax::{MAX_HEIGHT, SynKind, Syntax, SyntaxBuilder};
use std::alloc::{AllocError, Global};

/// Why a unit has no syntax tree. Each place is the number of a token, or that of all tokens for the end.
#[derive(Clone, Copy, Debug, PartialEq, Eq)]
pub enum ParseFault {
    /// This token cannot stand there.
    Syntax { at: usize },
    /// The tokens before this one nest too deep.
    TooDeep { at: usize },
    OutOfMemory,
}

impl From<AllocError> for ParseFault {
    ghost use Rattle.std.specs.Prelude.{◌≡◌};
    ghost use Rattle.c_parser.specs.declared.unit.ParseFault.TheVariants.{OutOfMemory};

    ghost from_gives = { λ _ fault. fault ≡ OutOfMemory };

    fn from(_error: AllocError) -> ParseFault {
        ParseFault::OutOfMemory
    }
}

/// The syntax tree of the tokens. After `Syntax` the tokens have none, and no unit has one that begins with them up
/// to the token at the place, however it goes on. After `TooDeep` some unit that begins with the tokens before the
/// place has a tree, and however such a unit goes on, its tree is too high.
pub fn parse(alloc: Global, tokens: &Tokens) -> Result<Syntax, ParseFault>
    ensures tree { IfOk result (λ syntax. HasTable tokens.now syntax) }
    ensures only { IfOk result (λ syntax. (t : Tree) → IsTreeOf tokens.now t → syntax ≡ table_of t) }
    ensures finds { IfErr result (λ e. (t : Tree) → IsTreeOf tokens.now t → height t ≤ max_height → e ≡ fault.OutOfMemory) }
    ensures syntax { IfErr result (λ e. (at : ℕ) → e ≡ fault.Syntax at → IsWrong tokens.now at) }
    ensures too_deep { IfErr result (λ e. (at : ℕ) → e ≡ fault.TooDeep at → IsTooDeep tokens.now at) }
{
    let mut names = Scopes::new(alloc);
    names.open()?;
    let mut parser = Parser {
        alloc,
        rest: tokens.as_slice(),
        names,
        trees: SyntaxBuilder::new(alloc),
        parameters: Vec::new(alloc),
    };
    let unit = parser.unit(MAX_HEIGHT - 1);
    let number = tokens.len().saturating_sub(parser.rest.len());
    match unit {
        Ok(unit) => Ok(parser.trees.finish(unit.height)),
        Err(stop) => match stop {
            Stop::Wrong => Err(ParseFault::Syntax { at: number }),
            Stop::Deep => Err(ParseFault::TooDeep { at: number }),
            Stop::OutOfMemory => Err(ParseFault::OutOfMemory),
        },
    }
}

impl<'a> Parser<'a> {
    // All the tokens, where each part is within this budget.
    // unit = external { external }
    fn unit(&mut self, lower: usize) -> Result<Part, Stop>
        requires { lower + 1 < 2 ^ 64 }
        ensures { self.old.names ≡ opened [] → stack_of self.old.trees ≡ [] → GivesUnit (reading.read_unit (suc lower) self.old.rest.now) self.new result }
    {
        let mark = self.trees.len();
        let first = self.external(lower)?;
        let mut height = first.height;
        while !self.rest.is_empty() {
            height = height.max(self.external(lower)?.height);
        }
        above_row(
            &mut self.trees,
            SynKind::Unit,
            "",
            first.start,
            mark,
            height,
        )
    }
}
