// Output that waits to be written.
ghost use Rattle.std.specs.Prelude.{◌≡◌, [], ◌∷◌, ◌++◌, ◌<◌, ◌≤◌, length, IfOk, OnOk, OnErr};
ghost use Rattle.cp_base.specs.Outside.{Rose, last_count, gained, GainsFront};
ghost use Rattle.rv_stepper.specs.Output.{Moves};

use cp_base::{Failed, Sink, put_all};
use std::alloc::{AllocError, Global};
use std::marker::Model;

// How many bytes are written at once.
const PIECE: usize = 4096;

/// The end of the output, which waits to be written.
#[derive(Drop)]
pub struct Waiting {
    bytes: Vec<u8>,
}

impl Model for Waiting {
    ghost use Rattle.std.specs.Prelude.{List, ℕ, ◌≤◌};
    ghost use Rattle.std.specs.Vec.{vec_len, vec_capacity};

    ghost Value = { List ℕ };

    ghost view = { λ w. w.bytes.items };

    ghost invariant = { λ w. (4096 ≤ vec_capacity w.bytes) × (vec_len w.bytes ≤ 4096) };
}

impl Waiting {
    /// Nothing waits. It takes all its memory here.
    pub fn new(alloc: Global) -> Result<Waiting, AllocError>
        ensures { IfOk result (λ waiting. waiting ≡ []) }
    {
        Ok(Waiting {
            bytes: Vec::with_capacity(alloc, PIECE)?,
        })
    }

    /// One more byte.
    pub fn push(&mut self, byte: u8)
        requires { length self.old < 4096 }
        ensures { self.new ≡ self.old ++ byte ∷ [] }
    {
        match self.bytes.push(byte) {
            Ok(()) => (),
            Err(_) => unreachable!(),
        }
    }

    /// Writes all that waits.
    pub fn flush<O: Sink>(&mut self, out: &mut O) -> Result<(), Failed>
        ensures count { O.faults out.old ≤ O.faults out.new }
        ensures bound { O.faults out.old ≤ last_count → O.faults out.new ≤ last_count }
        ensures ok { OnOk result (O.written out.new ≡ gained (O.written out.old) self.old) }
        ensures empty { OnOk result (self.new ≡ []) }
        ensures err { OnErr result (GainsFront (O.written out.old) (O.written out.new) self.old) }
        ensures failed { OnErr result (Rose (O.faults out.old) (O.faults out.new)) }
    {
        put_all(out, self.bytes.as_slice())?;
        self.bytes.clear();
        Ok(())
    }

    /// Writes what waits where it is time to, or where there is no room for one more byte.
    #[inline(always)]
    pub fn flush_at<O: Sink>(&mut self, is_time: bool, out: &mut O) -> Result<(), Failed>
        ensures count { O.faults out.old ≤ O.faults out.new }
        ensures bound { O.faults out.old ≤ last_count → O.faults out.new ≤ last_count }
        ensures ok { OnOk result (Moves (O.written out.old) (O.written out.new) self.old self.new) }
        ensures room { OnOk result (length self.new < 4096) }
        ensures err { OnErr result (GainsFront (O.written out.old) (O.written out.new) self.old) }
        ensures failed { OnErr result (Rose (O.faults out.old) (O.faults out.new)) }
    {
        if is_time || self.bytes.len() >= PIECE {
            return self.flush(out);
        }
        Ok(())
    }
}
