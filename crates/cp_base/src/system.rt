// The real files and sinks. They tell no contents, so of these the traits ask only lengths and counts.
ghost use Rattle.std.specs.Prelude.{◌≡◌, ◌≤◌, ◌<◌, ◌⊎◌, Err, IfOk, OnOk, OnErr, MatchResult, length, take};
ghost use Rattle.std.specs.Io.KnownBytes.{Appends};
ghost use Rattle.cp_base.specs.Outside.{Rose, Lacks, last_count, next_count, gained, GrowsByFront, untold_files, untold_bytes};
ghost use Rattle.cp_base.specs.Taking.{AppendsFor, AppendsRead, AppendsRest, TakesTold, counted};

use crate::bytes::Bytes;
use crate::files::{Files, TakeFault};
use crate::sink::{Failed, Sink};
use std::io::{ErrorKind, Read, Write};
use std::{fs, rt};

// How many bytes one read asks for.
const PIECE: usize = 16384;

/// The files of the host; the name `-` is its standard input.
#[derive(Drop)]
pub struct StdFiles<'a, R> {
    rt: &'a R,
    faults: u64,
}

impl<'a, R: rt::Files + Input> StdFiles<'a, R> {
    pub fn new(rt: &'a R) -> StdFiles<'a, R>
        ensures { result.faults ≡ 0 }
    {
        StdFiles { rt, faults: 0 }
    }
}

impl<'a, R: rt::Files + Input> Files for StdFiles<'a, R> {
    ghost faults = { λ s. s.faults };

    ghost contents = { λ _. untold_files };

    fn take(&mut self, name: &str, into: &mut Bytes, limit: usize) -> Result<(), TakeFault>
        requires { limit < usize.MAX }
        ensures count { self.old.faults ≤ self.new.faults }
        ensures bound { self.old.faults ≤ last_count → self.new.faults ≤ last_count }
        ensures contents { untold_files ≡ untold_files }
        ensures appends { AppendsFor result limit into.old into.new }
        ensures told { TakesTold result untold_files name.now limit into.old into.new }
        ensures failed { result ≡ Err TakeFault.Failed → Rose self.old.faults self.new.faults ⊎ Lacks untold_files name.now }
        // A file that is not there or cannot be read is a fault, and nothing else is one.
        ensures raised { self.new.faults ≡ counted result self.old.faults }
    {
        let taken = if name == "-" {
            read_within(&mut self.rt.reader(), into, limit)
        } else {
            match fs::open(self.rt, name) {
                Ok(mut file) => read_within(&mut file, into, limit),
                Err(_) => Err(TakeFault::Failed),
            }
        };
        if let Err(TakeFault::Failed) = taken {
            self.faults = self.faults.saturating_add(1);
        }
        taken
    }
}

// Reads to the end of the input, to one byte past the limit, or to an error.
fn read_within<R: Read>(reader: &mut R, into: &mut Bytes, limit: usize) -> Result<(), TakeFault>
    requires { limit < usize.MAX }
    ensures appends { AppendsFor result limit into.old into.new }
    ensures front { AppendsRead (R.remaining reader.old) (R.remaining reader.new) into.old into.new }
    ensures rest { OnOk result (AppendsRest (R.remaining reader.old) (R.remaining reader.new) into.old into.new) }
{
    let mut piece = [0; PIECE];
    let mut left = limit + 1;
    for _ in 0..u64::MAX {
        let room = left.min(PIECE);
        match reader.read(&mut piece[..room]) {
            Ok(0) => return Ok(()),
            Ok(count) => {
                into.push_all(&piece[..count])?;
                left -= count;
            }
            Err(error) if error.kind() == ErrorKind::Interrupted => {}
            Err(_) => return Err(TakeFault::Failed),
        }
        if left == 0 {
            return Err(TakeFault::TooLong);
        }
    }
    Err(TakeFault::Failed)
}

/// A writer of the host, as standard output. Each piece is flushed.
#[derive(Drop)]
pub struct StdSink<W> {
    writer: W,
    faults: u64,
}

impl<W: Write + Drop> StdSink<W> {
    pub fn new(writer: W) -> StdSink<W>
        ensures writer { result.writer ≡ writer }
        ensures faults { result.faults ≡ 0 }
    {
        StdSink { writer, faults: 0 }
    }
}

impl<W: Write + Drop> Sink for StdSink<W> {
    ghost faults = { λ s. s.faults };

    ghost written = { λ _. untold_bytes };

    fn put(&mut self, piece: &[u8]) -> Result<usize, Failed>
        ensures count { self.old.faults ≤ self.new.faults }
        ensures bound { self.old.faults ≤ last_count → self.new.faults ≤ last_count }
        ensures within { IfOk result (λ n. n ≤ length piece.now) }
        ensures moves { IfOk result (λ n. 0 < length piece.now → 0 < n) }
        ensures ok { IfOk result (λ n. untold_bytes ≡ gained untold_bytes (take n piece.now)) }
        ensures err { OnErr result (untold_bytes ≡ untold_bytes) }
        ensures failed { OnErr result (Rose self.old.faults self.new.faults) }
        // What the writer itself gained, where its bytes are known.
        ensures wrote { IfOk result (λ n. Appends (W.contents self.old.writer) (W.contents self.new.writer) (take n piece.now)) }
        ensures left { OnErr result (GrowsByFront (W.contents self.old.writer) (W.contents self.new.writer) piece.now) }
        ensures raised { MatchResult result (λ _. self.new.faults ≡ self.old.faults) (λ _. self.new.faults ≡ next_count self.old.faults) }
    {
        match write_some(&mut self.writer, piece) {
            Ok(count) => Ok(count),
            Err(_) => {
                self.faults = self.faults.saturating_add(1);
                Err(Failed)
            }
        }
    }
}

// Writes a front of the piece, and flushes it. No byte of a piece that is not empty is an error.
fn write_some<W: Write>(writer: &mut W, piece: &[u8]) -> Result<usize, Failed>
    ensures within { IfOk result (λ n. n ≤ length piece.now) }
    ensures moves { IfOk result (λ n. 0 < length piece.now → 0 < n) }
    ensures ok { IfOk result (λ n. Appends (W.contents writer.old) (W.contents writer.new) (take n piece.now)) }
    ensures err { OnErr result (GrowsByFront (W.contents writer.old) (W.contents writer.new) piece.now) }
{
    for _ in 0..u64::MAX {
        match writer.write(piece) {
            Ok(0) if !piece.is_empty() => return Err(Failed),
            Ok(count) => {
                return match writer.flush() {
                    Ok(()) => Ok(count),
                    Err(_) => Err(Failed),
                };
            }
            Err(error) if error.kind() == ErrorKind::Interrupted => {}
            Err(_) => return Err(Failed),
        }
    }
    Err(Failed)
}
