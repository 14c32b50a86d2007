// The line of a fault.
ghost use Rattle.std.specs.Prelude.{◌≡◌, ◌≤◌, ◌++◌, length, codes, OnOk, OnErr};
ghost use Rattle.cp_base.specs.Outside.{Rose, gained, GainsFront};
ghost use Rattle.cp_driver.specs.Messages.{HasPlace, error_text, fault_text, status_of};
ghost use Rattle.cp_driver.specs.Pieces.{piece_text, text_of};

use crate::report::Fault;
use c_lexer::line_of;
use cp_base::{Failed, Sink, put_all, put_number};

const USAGE: &str = "usage: cparser [-S] [--regs K] [--dump STAGE] [--syntax-only] [--run INPUT] \
    [--interpret INPUT] [--fuel N] [--depth D] [--stack B] [--generate SEED] [FILE]\n";

impl Fault {
    /// The status that the program ends with.
    pub fn status(&self) -> u8
        ensures { result ≡ status_of self.now }
    {
        match self {
            Fault::Lexical { .. } | Fault::Syntax { .. } | Fault::NotYet => 1,
            Fault::Usage => 2,
            Fault::ReadFault { .. } => 3,
            Fault::WriteFault => 4,
            Fault::TooLong { .. } | Fault::TooDeep { .. } => 5,
            Fault::OutOfMemory => 6,
        }
    }
}

/// Writes the line of a fault that came with this file, which has these bytes.
pub fn put_fault<E: Sink>(
    err: &mut E,
    file: &str,
    bytes: &[u8],
    fault: &Fault,
) -> Result<(), Failed>
    requires { HasPlace bytes.now fault.now }
    ensures count { E.faults err.old ≤ E.faults err.new }
    ensures ok { OnOk result (E.written err.new ≡ gained (E.written err.old) (fault_text file.now bytes.now fault.now)) }
    ensures front { OnErr result (GainsFront (E.written err.old) (E.written err.new) (fault_text file.now bytes.now fault.now)) }
    ensures failed { OnErr result (Rose (E.faults err.old) (E.faults err.new)) }
{
    match fault {
        Fault::Lexical { at } => put_error(err, file, bytes, *at, b"no token here\n"),
        Fault::Syntax { at } => put_error(err, file, bytes, *at, b"syntax error\n"),
        Fault::TooDeep { at } => put_error(err, file, bytes, *at, b"nested too deep\n"),
        Fault::Usage => put_all(err, USAGE.as_bytes()),
        Fault::ReadFault { .. } => put_about(err, file, b": read failed\n"),
        Fault::WriteFault => put_all(err, b"cparser: write failed\n"),
        Fault::TooLong { .. } => put_about(err, file, b": longer than 4194304 bytes\n"),
        Fault::NotYet => put_about(err, file, b": not yet\n"),
        Fault::OutOfMemory => put_all(err, b"cparser: out of memory\n"),
    }
}

// A line about a file.
fn put_about<'a, E: Sink>(err: &mut E, file: &'a str, what: &'a [u8]) -> Result<(), Failed>
    ensures count { E.faults err.old ≤ E.faults err.new }
    ensures ok { OnOk result (E.written err.new ≡ gained (E.written err.old) (codes "cparser: " ++ (file.now ++ what.now))) }
    ensures front { OnErr result (GainsFront (E.written err.old) (E.written err.new) (codes "cparser: " ++ (file.now ++ what.now))) }
    ensures failed { OnErr result (Rose (E.faults err.old) (E.faults err.new)) }
{
    let pieces = [
        Piece::Text(b"cparser: "),
        Piece::Text(file.as_bytes()),
        Piece::Text(what),
    ];
    put_pieces(err, &pieces)
}

// A line about a place in a file: `FILE:LINE:COL: error: ` and what is wrong there.
fn put_error<'a, E: Sink>(
    err: &mut E,
    file: &'a str,
    bytes: &[u8],
    at: usize,
    what: &'a [u8],
) -> Result<(), Failed>
    requires { at ≤ length bytes.now }
    ensures count { E.faults err.old ≤ E.faults err.new }
    ensures ok { OnOk result (E.written err.new ≡ gained (E.written err.old) (error_text file.now bytes.now at what.now)) }
    ensures front { OnErr result (GainsFront (E.written err.old) (E.written err.new) (error_text file.now bytes.now at what.now)) }
    ensures failed { OnErr result (Rose (E.faults err.old) (E.faults err.new)) }
{
    let (line, column) = line_of(bytes, at);
    let pieces = [
        Piece::Text(file.as_bytes()),
        Piece::Text(b":"),
        Piece::Number(line as u64),
        Piece::Text(b":"),
        Piece::Number(column as u64),
        Piece::Text(b": error: "),
        Piece::Text(what),
    ];
    put_pieces(err, &pieces)
}

// A piece of a line.
#[derive(Clone, Copy)]
enum Piece<'a> {
    Text(&'a [u8]),
    Number(u64),
}

// Pieces, one after another.
fn put_pieces<E: Sink>(err: &mut E, pieces: &[Piece<'_>]) -> Result<(), Failed>
    ensures count { E.faults err.old ≤ E.faults err.new }
    ensures ok { OnOk result (E.written err.new ≡ gained (E.written err.old) (text_of pieces.now)) }
    ensures front { OnErr result (GainsFront (E.written err.old) (E.written err.new) (text_of pieces.now)) }
    ensures failed { OnErr result (Rose (E.faults err.old) (E.faults err.new)) }
{
    for piece in pieces {
        put_piece(err, piece)?;
    }
    Ok(())
}

fn put_piece<E: Sink>(err: &mut E, piece: &Piece<'_>) -> Result<(), Failed>
    ensures count { E.faults err.old ≤ E.faults err.new }
    ensures ok { OnOk result (E.written err.new ≡ gained (E.written err.old) (piece_text piece.now)) }
    ensures front { OnErr result (GainsFront (E.written err.old) (E.written err.new) (piece_text piece.now)) }
    ensures failed { OnErr result (Rose (E.faults err.old) (E.faults err.new)) }
{
    match piece {
        Piece::Text(text) => put_all(err, text),
        Piece::Number(number) => put_number(err, *number),
    }
}
