// The region and its lists.
ghost use Rattle.std.specs.Prelude.{◌≡◌, ◌+◌, ◌-◌, ◌<◌, ◌≤◌, [], ◌∷◌, ◌++◌, length, take, drop, slice_index_or, OnOk, OnErr, IfOk, IsOk, slice_get};
ghost use Rattle.cp_obstack.specs.Lists.{list_of, price, with_number};

use std::alloc::{AllocError, Global};
use std::marker::Model;

/// The name of one list.
#[derive(Clone, Copy, Debug, PartialEq, Eq)]
pub struct Span {
    pub(crate) number: usize,
}

/// A number of lists, the first ones.
#[derive(Clone, Copy, Debug, PartialEq, Eq)]
pub struct Mark {
    pub(crate) number: usize,
}

/// Lists of numbers, one behind the other.
#[derive(Drop)]
pub struct Obstack {
    // The numbers of all lists.
    numbers: Vec<usize>,
    // Where each list starts.
    starts: Vec<usize>,
}

impl Model for Obstack {
    ghost use Rattle.std.specs.Prelude.{◌-◌, min, vec_capacity, vec_len};
    ghost use Rattle.cp_obstack.specs.Lists.{Lists};
    ghost use Rattle.cp_obstack.specs.Cuts.{IsCut, cut};

    ghost Value = { Lists };

    ghost view = { λ o. record {
      lists = cut o.starts.items o.numbers.items;
      spare = min (vec_capacity o.numbers - vec_len o.numbers) (vec_capacity o.starts - vec_len o.starts);
    } };

    ghost invariant = { λ o. IsCut o.starts.items o.numbers.items };
}

impl Obstack {
    /// No list.
    pub fn new(alloc: Global) -> Obstack
        ensures lists { result.lists ≡ [] }
        ensures spare { result.spare ≡ 0 }
    {
        Obstack {
            numbers: Vec::new(alloc),
            starts: Vec::new(alloc),
        }
    }

    /// Makes room, so that so much may be pushed without asking for memory.
    pub fn reserve(&mut self, count: usize) -> Result<(), AllocError>
        ensures room { OnOk result (count ≤ self.new.spare) }
        ensures spare { self.old.spare ≤ self.new.spare }
        ensures lists { self.new.lists ≡ self.old.lists }
    {
        self.numbers.reserve(count)?;
        self.starts.reserve(count)
    }

    /// A new list, behind the others.
    pub fn push_list(&mut self, items: &[usize]) -> Result<Span, AllocError>
        ensures pushed { OnOk result (self.new.lists ≡ self.old.lists ++ items.now ∷ []) }
        ensures span { IfOk result (λ span. span.number ≡ length self.old.lists) }
        ensures within { price items.now ≤ self.old.spare → IsOk result }
        ensures spare { self.old.spare ≤ self.new.spare + price items.now }
        ensures err { OnErr result (self.new.lists ≡ self.old.lists) }
    {
        let start = self.numbers.len();
        let number = self.starts.len();
        self.starts.reserve(1)?;
        self.numbers.extend_from_slice(items)?;
        let _ = self.starts.push(start);
        Ok(Span { number })
    }

    /// The numbers of the list.
    pub fn list(&self, span: Span) -> &[usize]
        requires { span.number < length self.now.lists }
        ensures { slice_get self.now.lists span.number ≡ Some result.now }
    {
        let start = self.starts[span.number];
        let end = start_of(&self.starts, span.number + 1, self.numbers.len());
        part_of(&self.numbers, start, end)
    }

    /// Changes one number of the list.
    pub fn set(&mut self, span: Span, index: usize, value: usize)
        requires there { span.number < length self.old.lists }
        requires within { index < length (list_of self.old.lists span.number) }
        ensures { self.new ≡ record self.old { lists = with_number self.old.lists span.number index value } }
    {
        let start = self.starts[span.number];
        self.numbers[start + index] = value;
    }

    /// The lists that are there now.
    pub fn mark(&self) -> Mark
        ensures { result.number ≡ length self.now.lists }
    {
        Mark {
            number: self.starts.len(),
        }
    }

    /// Gives back the lists behind the mark.
    pub fn release(&mut self, mark: Mark)
        requires { mark.number ≤ length self.old.lists }
        ensures lists { self.new.lists ≡ take mark.number self.old.lists }
        ensures spare { self.old.spare ≤ self.new.spare }
    {
        let end = start_of(&self.starts, mark.number, self.numbers.len());
        self.numbers.truncate(end);
        self.starts.truncate(mark.number);
    }
}

// Where the list of this number starts, or `all` where there is none.
fn start_of(starts: &[usize], number: usize, all: usize) -> usize
    ensures { result ≡ slice_index_or starts.now number all }
{
    starts.get(number).copied().unwrap_or(all)
}

fn part_of(numbers: &[usize], start: usize, end: usize) -> &[usize]
    requires ordered { start ≤ end }
    requires within { end ≤ length numbers.now }
    ensures { result.now ≡ take (end - start) (drop start numbers.now) }
{
    &numbers[start..end]
}
