// Sinks, as a trait, and a piece written whole.
ghost use Rattle.std.specs.Prelude.{◌≡◌, ℕ, List, Option, ◌≤◌, ◌<◌, length, take, IfOk, OnOk, OnErr};
ghost use Rattle.std.specs.Fmt.{decimal};
ghost use Rattle.cp_base.specs.Outside.{Rose, last_count, gained, GainsFront};

use itoa::Buffer;

/// A write failed.
#[derive(Clone, Copy, Debug, PartialEq, Eq)]
pub struct Failed;

/// Where bytes are written to.
pub trait Sink {
    /// How many writes failed so far, up to the end of a `u64`.
    ghost faults: { Self → ℕ };

    /// The bytes taken so far, where the object tells them.
    ghost written: { Self → Option (List ℕ) };

    /// Takes a front of the piece, and answers its length, which is at least 1 unless the piece
    /// is empty. After a refusal nothing was taken.
    fn put(&mut self, piece: &[u8]) -> Result<usize, Failed>
        ensures count { faults self.old ≤ faults self.new }
        ensures bound { faults self.old ≤ last_count → faults self.new ≤ last_count }
        ensures within { IfOk result (λ n. n ≤ length piece.now) }
        ensures moves { IfOk result (λ n. 0 < length piece.now → 0 < n) }
        ensures ok { IfOk result (λ n. written self.new ≡ gained (written self.old) (take n piece.now)) }
        ensures err { OnErr result (written self.new ≡ written self.old) }
        ensures failed { OnErr result (Rose (faults self.old) (faults self.new)) };
}

/// Writes the whole piece. Each call of `put` is given all that is left of it, and an empty piece
/// makes none.
pub fn put_all<S: Sink>(sink: &mut S, piece: &[u8]) -> Result<(), Failed>
    ensures count { S.faults sink.old ≤ S.faults sink.new }
    ensures bound { S.faults sink.old ≤ last_count → S.faults sink.new ≤ last_count }
    ensures ok { OnOk result (S.written sink.new ≡ gained (S.written sink.old) piece.now) }
    ensures err { OnErr result (GainsFront (S.written sink.old) (S.written sink.new) piece.now) }
    ensures failed { OnErr result (Rose (S.faults sink.old) (S.faults sink.new)) }
{
    let mut rest = piece;
    while !rest.is_empty() {
        let taken = sink.put(rest)?;
        let (_, left) = rest.split_at(taken);
        rest = left;
    }
    Ok(())
}

/// Writes the number in decimal.
pub fn put_number<S: Sink>(sink: &mut S, number: u64) -> Result<(), Failed>
    ensures count { S.faults sink.old ≤ S.faults sink.new }
    ensures bound { S.faults sink.old ≤ last_count → S.faults sink.new ≤ last_count }
    ensures ok { OnOk result (S.written sink.new ≡ gained (S.written sink.old) (decimal number)) }
    ensures err { OnErr result (GainsFront (S.written sink.old) (S.written sink.new) (decimal number)) }
    ensures failed { OnErr result (Rose (S.faults sink.old) (S.faults sink.new)) }
{
    let mut buffer = Buffer::new();
    put_all(sink, buffer.format(number).as_bytes())
}
