// What a task makes of the bytes of FILE.
ghost use Rattle.std.specs.Prelude.{◌≡◌, IfOk, IfErr};
ghost use Rattle.cp_driver.specs.declared.job.Task.TheVariants as task;
ghost use Rattle.cp_driver.specs.Making.{Makes, place_of};
ghost use Rattle.cp_driver.specs.Causes.{MakeCause, fault_of_parser};
ghost use Rattle.cp_driver.specs.Messages.{HasPlace};

use crate::job::{Stage, Task};
use crate::report::{Fault, Report};
use c_lexer::{LexFault, Token, lex, tokens_text};
use c_parser::{ParseFault, parse};
use c_syntax::tree_text;
use cp_base::Bytes;
use cp_first::compile_first;
use rv_code::text_of;
use std::alloc::{AllocError, Global};

/// A text, and what it was made from.
#[derive(Drop)]
pub struct Made {
    pub text: Bytes,
    pub report: Option<Report>,
}

impl From<AllocError> for Fault {
    ghost use Rattle.std.specs.Prelude.{◌≡◌};
    ghost use Rattle.cp_driver.specs.declared.report.Fault.TheVariants.{OutOfMemory};

    ghost from_gives = { λ _ fault. fault ≡ OutOfMemory };

    fn from(_error: AllocError) -> Fault {
        Fault::OutOfMemory
    }
}

impl From<LexFault> for Fault {
    ghost use Rattle.std.specs.Prelude.{◌≡◌};
    ghost use Rattle.cp_driver.specs.Causes.{fault_of_lexer};

    ghost from_gives = { λ error fault. fault ≡ fault_of_lexer error };

    fn from(error: LexFault) -> Fault {
        match error {
            LexFault::Lexical { at } => Fault::Lexical { at },
            LexFault::OutOfMemory => Fault::OutOfMemory,
        }
    }
}

/// The text that a task makes of the bytes.
pub fn make(alloc: Global, task: Task, bytes: &[u8]) -> Result<Made, Fault>
    ensures ok { IfOk result (λ made. Makes task bytes.now made.text made.report) }
    ensures cause { IfErr result (λ fault. MakeCause fault task bytes.now) }
    ensures place { IfErr result (λ fault. HasPlace bytes.now fault) }
{
    match task {
        Task::Compile => compile(alloc, bytes),
        Task::Dump(Stage::Tokens) => dump_tokens(alloc, bytes),
        Task::Dump(Stage::Tree) => dump_tree(alloc, bytes),
    }
}

// Only units of the first form are compiled so far.
fn compile(alloc: Global, bytes: &[u8]) -> Result<Made, Fault>
    ensures ok { IfOk result (λ made. Makes task.Compile bytes.now made.text made.report) }
    ensures cause { IfErr result (λ fault. MakeCause fault task.Compile bytes.now) }
    ensures place { IfErr result (λ fault. HasPlace bytes.now fault) }
{
    let Some(asm) = compile_first(alloc, bytes)? else {
        return Err(Fault::NotYet);
    };
    let text = text_of(alloc, &asm)?;
    let report = Some(Report { asm });
    Ok(Made { text, report })
}

fn dump_tokens(alloc: Global, bytes: &[u8]) -> Result<Made, Fault>
    ensures ok { IfOk result (λ made. Makes (task.Dump Stage.Tokens) bytes.now made.text made.report) }
    ensures cause { IfErr result (λ fault. MakeCause fault (task.Dump Stage.Tokens) bytes.now) }
    ensures place { IfErr result (λ fault. HasPlace bytes.now fault) }
{
    let tokens = lex(alloc, bytes)?;
    let text = tokens_text(alloc, &tokens)?;
    Ok(Made { text, report: None })
}

fn dump_tree(alloc: Global, bytes: &[u8]) -> Result<Made, Fault>
    ensures ok { IfOk result (λ made. Makes (task.Dump Stage.Tree) bytes.now made.text made.report) }
    ensures cause { IfErr result (λ fault. MakeCause fault (task.Dump Stage.Tree) bytes.now) }
    ensures place { IfErr result (λ fault. HasPlace bytes.now fault) }
{
    let tokens = lex(alloc, bytes)?;
    match parse(alloc, &tokens) {
        Ok(syntax) => {
            let text = tree_text(alloc, &syntax)?;
            Ok(Made { text, report: None })
        }
        Err(fault) => Err(fault_of_parser(bytes, tokens.as_slice(), fault)),
    }
}

// The fault where the parser refuses the tokens of the bytes.
fn fault_of_parser(bytes: &[u8], tokens: &[Token], fault: ParseFault) -> Fault
    ensures { result ≡ fault_of_parser bytes.now tokens.now fault }
{
    match fault {
        ParseFault::Syntax { at } => Fault::Syntax {
            at: place_of(bytes, tokens, at),
        },
        ParseFault::TooDeep { at } => Fault::TooDeep {
            at: place_of(bytes, tokens, at),
        },
        ParseFault::OutOfMemory => Fault::OutOfMemory,
    }
}

// Where the token of this number begins, and where the bytes end if there is none.
fn place_of(bytes: &[u8], tokens: &[Token], number: usize) -> usize
    ensures { result ≡ place_of bytes.now tokens.now number }
{
    match tokens.get(number) {
        Some(token) => token.start,
        None => bytes.len(),
    }
}
