// What the builder keeps.
ghost use Rattle.std.specs.Prelude.{◌≡◌, ℕ, ◌+◌, ◌^◌, ◌<◌, ◌++◌, ◌∷◌, [], true, false, Bool, List, length, Option, Some, None, IfOk, OnOk, OnErr};
ghost use Rattle.std.specs.Option.{IfSome, IfNone};
ghost use Rattle.std.specs.List.{slice_get};
ghost use Rattle.ssa_core.specs.Places.{found, place, Puts};
ghost use Rattle.ssa_core.specs.Known.{nothing_known, last_write, sealed_in, indices_in};
ghost use Rattle.ssa_core.specs.Steps.{known_value, IsTrailNoted};
ghost use Rattle.ssa_core.specs.Kept.{IsExtended, ChangesAt, IsListed, IsUnlisted, IsSealed, IsAlike};

use crate::places::{Entry, Places};
use std::alloc::{AllocError, Global};
use std::marker::Model;

/// A call of `write`.
#[derive(Clone, Copy)]
pub struct Write<V> {
    pub var: usize,
    pub block: usize,
    pub value: V,
}

/// A call of `read`, with what it gave and the number of calls of `write` before it.
#[derive(Clone, Copy)]
pub struct Read<V> {
    pub var: usize,
    pub block: usize,
    pub value: V,
    pub writes: usize,
}

/// What is known of a block.
#[derive(Drop)]
pub struct BlockState {
    is_sealed: bool,
    // The indices of the values that were made in it.
    made: Vec<usize>,
}

/// The calls so far, and what follows from them.
#[derive(Drop)]
pub struct Notes<V: Drop> {
    alloc: Global,
    writes: Vec<Write<V>>,
    reads: Vec<Read<V>>,
    // The value last written to the variable in the block.
    written: Places<V>,
    // The Phi or unknown value that was made for the variable at the start of the block.
    made: Places<V>,
    // The nearest block, at the time when the block was passed.
    passed: Places<usize>,
    // The unknown value for a block that no walk comes to.
    lost: Places<V>,
    blocks: Vec<BlockState>,
}

impl<V: Drop> Model for Notes<V> {
    ghost use Rattle.ssa_core.specs.Known.{Known};

    ghost Value = { Known V };

    ghost use Rattle.std.specs.Prelude.{map, false};
    ghost use Rattle.ssa_core.specs.Kept.{Indexes};

    ghost view = { λ s. record {
      writes = s.writes.items;
      reads = s.reads.items;
      made = s.made;
      passed = s.passed;
      lost = s.lost;
      sealed = map (λ b. b.is_sealed) s.blocks.items;
      spent = false;
    } };

    ghost invariant = { λ s. Indexes s.writes.items s.written s.made s.blocks.items };
}

impl<V: Copy> Notes<V> {
    pub fn new(alloc: Global) -> Notes<V>
        ensures { result ≡ nothing_known }
    {
        Notes {
            alloc,
            writes: Vec::new(alloc),
            reads: Vec::new(alloc),
            written: Places::new(alloc),
            made: Places::new(alloc),
            passed: Places::new(alloc),
            lost: Places::new(alloc),
            blocks: Vec::new(alloc),
        }
    }

    pub fn allocator(&self) -> Global {
        self.alloc
    }

    pub fn is_sealed(&self, block: usize) -> bool
        ensures { result ≡ sealed_in self.now.sealed block }
    {
        match self.blocks.get(block) {
            Some(state) => state.is_sealed,
            None => false,
        }
    }

    /// The value last written to the variable in the block.
    pub fn written(&self, var: usize, block: usize) -> Option<V>
        ensures { result ≡ last_write self.now.writes var block }
    {
        self.written.get(var, block)
    }

    /// The block that was the nearest when the block was passed.
    pub fn passed(&self, var: usize, block: usize) -> Option<usize>
        ensures { result ≡ found self.now.passed var block }
    {
        self.passed.get(var, block)
    }

    /// The unknown value that was made for the variable in the block, which no walk comes to.
    pub fn lost(&self, var: usize, block: usize) -> Option<V>
        ensures { result ≡ found self.now.lost var block }
    {
        self.lost.get(var, block)
    }

    /// The value that was made for the variable in the block.
    pub fn made(&self, var: usize, block: usize) -> Option<V>
        ensures { result ≡ found self.now.made var block }
    {
        self.made.get(var, block)
    }

    /// What was written in the block, and else what was made there.
    pub fn known(&self, var: usize, block: usize) -> Option<V>
        ensures { result ≡ known_value self.now var block }
    {
        match self.written(var, block) {
            Some(value) => Some(value),
            None => self.made(var, block),
        }
    }

    pub fn made_count(&self) -> usize
        ensures { result ≡ length self.now.made }
    {
        self.made.len()
    }

    pub fn made_at(&self, index: usize) -> Option<Entry<V>>
        ensures some { IfSome result (λ entry. slice_get self.now.made index ≡ Some (entry.place, entry.value)) }
        ensures none { IfNone result (slice_get self.now.made index ≡ None) }
        ensures more { IfSome result (λ entry. index + 1 < 2 ^ 64) }
    {
        self.made.at(index)
    }

    pub fn write_count(&self) -> usize
        ensures { result ≡ length self.now.writes }
    {
        self.writes.len()
    }

    /// How many blocks have a state, at least all that are sealed.
    pub fn block_count(&self) -> usize
        ensures { result ≡ length self.now.sealed }
    {
        self.blocks.len()
    }

    pub fn note_read(&mut self, read: Read<V>) -> Result<(), AllocError>
        ensures ok { OnOk result (self.new ≡ record self.old { reads = self.old.reads ++ read ∷ [] }) }
    {
        self.reads.push(read)?;
        Ok(())
    }

    // The nearest block of a passed one.
    fn note_passed(&mut self, var: usize, block: usize, stop: usize) -> Result<(), AllocError>
        ensures rest { OnOk result (self.new ≡ record self.old { passed = self.new.passed }) }
        ensures puts { OnOk result (Puts self.old.passed self.new.passed var block stop) }
    {
        self.passed.put(var, block, stop)?;
        Ok(())
    }

    /// The nearest block of each of the trail.
    pub fn note_trail(&mut self, var: usize, trail: &[usize], stop: usize) -> Result<(), AllocError>
        ensures rest { OnOk result (self.new ≡ record self.old { passed = self.new.passed }) }
        ensures noted { OnOk result (IsTrailNoted self.old.passed self.new.passed var trail.now stop) }
    {
        for block in trail {
            self.note_passed(var, *block, stop)?;
        }
        Ok(())
    }

    /// The unknown value for a block that no walk comes to.
    pub fn note_lost(&mut self, var: usize, block: usize, value: V) -> Result<(), AllocError>
        ensures rest { OnOk result (self.new ≡ record self.old { lost = self.new.lost }) }
        ensures puts { OnOk result (Puts self.old.lost self.new.lost var block value) }
    {
        self.lost.put(var, block, value)?;
        Ok(())
    }

    /// A value that is made for the variable in the block, where there is none yet.
    pub fn note_made(&mut self, var: usize, block: usize, value: V) -> Result<(), AllocError>
        requires { found self.old.made var block ≡ None }
        ensures made { OnOk result (self.new.made ≡ self.old.made ++ (place var block, value) ∷ []) }
        ensures sealed { OnOk result ((b : ℕ) → sealed_in self.new.sealed b ≡ sealed_in self.old.sealed b) }
        ensures rest { OnOk result (self.new ≡ record self.old { made = self.new.made; sealed = self.new.sealed }) }
    {
        self.has_state(block)?;
        let index = self.made.len();
        list_index(&mut self.blocks, block, index)?;
        if let Err(refused) = self.made.put(var, block, value) {
            unlist_index(&mut self.blocks, block);
            return Err(refused);
        }
        Ok(())
    }

    /// The block is sealed; gives the indices of the values that were made in it.
    pub fn seal(&mut self, block: usize) -> Result<Vec<usize>, AllocError>
        ensures sealed { OnOk result (sealed_in self.new.sealed block ≡ true) }
        ensures others { OnOk result ((b : ℕ) → (b ≡ block → ⊥) → sealed_in self.new.sealed b ≡ sealed_in self.old.sealed b) }
        ensures rest { OnOk result (self.new ≡ record self.old { sealed = self.new.sealed }) }
        ensures waiting { IfOk result (λ waiting. waiting.items ≡ indices_in self.old.made block) }
    {
        self.has_state(block)?;
        let waiting = self.blocks[block].made.clone()?;
        seal_state(&mut self.blocks, block);
        Ok(waiting)
    }

    /// One write more.
    pub fn note_write(&mut self, write: Write<V>) -> Result<(), AllocError>
        ensures ok { OnOk result (self.new ≡ record self.old { writes = self.old.writes ++ write ∷ [] }) }
        ensures err { OnErr result (self.new ≡ self.old) }
    {
        self.writes.push(write)?;
        if let Err(refused) = self.written.put(write.var, write.block, write.value) {
            self.writes.pop();
            return Err(refused);
        }
        Ok(())
    }

    // Has a state for the block and all below.
    fn has_state(&mut self, block: usize) -> Result<(), AllocError>
        ensures there { OnOk result (block < length self.new.sealed) }
        ensures same { (b : ℕ) → sealed_in self.new.sealed b ≡ sealed_in self.old.sealed b }
        ensures rest { self.new ≡ record self.old { sealed = self.new.sealed } }
    {
        extend_to(&mut self.blocks, self.alloc, block)
    }
}

// Has a state for the block and all below.
fn extend_to(states: &mut Vec<BlockState>, alloc: Global, block: usize) -> Result<(), AllocError>
    ensures fresh { IsExtended states.old.items states.new.items }
    ensures there { OnOk result (block < length states.new.items) }
{
    while states.len() <= block {
        states.push(BlockState {
            is_sealed: false,
            made: Vec::new(alloc),
        })?;
    }
    Ok(())
}

// One index more is listed for the block.
fn list_index(states: &mut Vec<BlockState>, block: usize, index: usize) -> Result<(), AllocError>
    requires { block < length states.old.items }
    ensures ok { OnOk result (ChangesAt (IsListed index) states.old.items states.new.items block) }
    ensures err { OnErr result (ChangesAt IsAlike states.old.items states.new.items block) }
{
    states[block].made.push(index)?;
    Ok(())
}

// The newest index of the block is listed no more.
fn unlist_index(states: &mut Vec<BlockState>, block: usize)
    requires { block < length states.old.items }
    ensures { ChangesAt IsUnlisted states.old.items states.new.items block }
{
    states[block].made.pop();
}

fn seal_state(states: &mut Vec<BlockState>, block: usize)
    requires { block < length states.old.items }
    ensures { ChangesAt IsSealed states.old.items states.new.items block }
{
    states[block].is_sealed = true;
}
