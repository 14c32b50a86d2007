// A sink in memory.
ghost use Rattle.std.specs.Prelude.{◌≡◌, [], ◌∷◌, ◌++◌, ◌≤◌, ◌<◌, ◌↔◌, Some, length, take, IsTrue, IsErr, IfOk, OnOk, OnErr, MatchResult};
ghost use Rattle.cp_base.specs.Outside.{Rose, last_count, gained};
ghost use Rattle.cp_base.specs.Memory.{refuses, taken_by, after_put, after_refusal};

use crate::sink::{Failed, Sink};
use std::alloc::{AllocError, Global};
use std::marker::Model;

/// A sink in memory, which tells the bytes that it took. It takes at most `piece` bytes in one
/// call, and at most `room` bytes in all.
#[derive(Drop)]
pub struct MemSink {
    written: Vec<u8>,
    piece: usize,
    room: usize,
    failing: Vec<usize>,
    calls: usize,
    faults: u64,
}

impl Model for MemSink {
    ghost use Rattle.std.specs.Prelude.{◌<◌, ◌≤◌};
    ghost use Rattle.std.specs.Vec.{vec_capacity, vec_len};
    ghost use Rattle.cp_base.specs.Memory.{ByteStore};

    ghost Value = { ByteStore };

    ghost view = { λ s. record {
      written = s.written.items;
      piece = s.piece;
      room = s.room;
      failing = s.failing.items;
      calls = s.calls;
      faults = s.faults;
    } };

    ghost invariant = { λ s. (0 < s.piece) × (s.room ≤ vec_capacity s.written) × (vec_len s.written ≤ s.room) };
}

impl MemSink {
    /// An empty sink, which takes at most `piece` bytes a call and `room` bytes in all. It takes
    /// the memory for `room` bytes here.
    pub fn new(alloc: Global, piece: usize, room: usize) -> Result<MemSink, AllocError>
        requires { 0 < piece }
        ensures { IfOk result (λ sink. sink ≡ record { written = []; piece = piece; room = room; failing = []; calls = 0; faults = 0 }) }
    {
        Ok(MemSink {
            written: Vec::with_capacity(alloc, room)?,
            piece,
            room,
            failing: Vec::new(alloc),
            calls: 0,
            faults: 0,
        })
    }

    /// The call of `put` of this number will fail. Calls are counted from 1 over the object's life.
    pub fn fail(&mut self, call: usize) -> Result<(), AllocError>
        ensures ok { OnOk result (self.new ≡ record self.old { failing = self.old.failing ++ call ∷ [] }) }
        ensures err { OnErr result (self.new ≡ self.old) }
    {
        self.failing.push(call)?;
        Ok(())
    }

    /// The bytes taken so far.
    pub fn bytes(&self) -> &[u8]
        ensures written { result.now ≡ self.now.written }
        ensures within { length result.now ≤ self.now.room }
    {
        self.written.as_slice()
    }
}

impl Sink for MemSink {
    ghost faults = { λ s. s.faults };

    ghost written = { λ s. Some s.written };

    /// Takes no memory.
    fn put(&mut self, piece: &[u8]) -> Result<usize, Failed>
        ensures count { self.old.faults ≤ self.new.faults }
        ensures bound { self.old.faults ≤ last_count → self.new.faults ≤ last_count }
        ensures within { IfOk result (λ n. n ≤ length piece.now) }
        ensures moves { IfOk result (λ n. 0 < length piece.now → 0 < n) }
        ensures ok { IfOk result (λ n. Some self.new.written ≡ gained (Some self.old.written) (take n piece.now)) }
        ensures err { OnErr result (Some self.new.written ≡ Some self.old.written) }
        ensures failed { OnErr result (Rose self.old.faults self.new.faults) }
        // Which calls fail, how much the others take, and what stays.
        ensures refused { IsErr result ↔ IsTrue (refuses self.old piece.now) }
        ensures taken { IfOk result (λ n. n ≡ taken_by self.old piece.now) }
        ensures after { MatchResult result (λ n. self.new ≡ after_put self.old (take n piece.now)) (λ _. self.new ≡ after_refusal self.old) }
    {
        self.calls = self.calls.saturating_add(1);
        let is_full = !piece.is_empty() && self.written.len() >= self.room;
        if is_full || self.failing.contains(&self.calls) {
            self.faults = self.faults.saturating_add(1);
            return Err(Failed);
        }
        let taken = piece
            .len()
            .min(self.piece)
            .min(self.room.saturating_sub(self.written.len()));
        match self.written.extend_from_slice(&piece[..taken]) {
            Ok(()) => Ok(taken),
            Err(_) => unreachable!(),
        }
    }
}
