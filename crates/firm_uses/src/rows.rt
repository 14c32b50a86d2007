// A table of lists that grow.
ghost use Rattle.std.specs.Prelude.{◌≡◌, ◌+◌, ◌<◌, ◌≤◌, [], ◌∷◌, ◌++◌, length, take, slice_set, OnOk, OnErr, IfOk, IsOk, MatchBool};
ghost use Rattle.cp_obstack.specs.Lists.{list_of};
ghost use Rattle.firm_uses.specs.Tables.{room_of, with_list};

use cp_obstack::{Obstack, Span};
use std::alloc::{AllocError, Global};
use std::marker::Model;

// A list that grows: the first numbers of a longer one.
#[derive(Clone, Copy, Debug)]
struct Row {
    span: Span,
    len: usize,
}

/// Lists that grow, each named by its row.
#[derive(Drop)]
pub struct Rows {
    numbers: Obstack,
    rows: Vec<Row>,
    // What a list is copied into while it moves.
    copied: Vec<usize>,
}

impl Model for Rows {
    ghost use Rattle.firm_uses.specs.Tables.{Table};

    ghost Value = { Table };

    ghost use Rattle.firm_uses.specs.Held.{AreApart, table_of};

    ghost view = { λ r. table_of r.numbers.lists r.rows.items };

    ghost invariant = { λ r. AreApart r.numbers.lists r.rows.items };
}

impl Rows {
    /// No row.
    pub fn new(alloc: Global) -> Rows
        ensures { result.rows ≡ [] }
    {
        Rows {
            numbers: Obstack::new(alloc),
            rows: Vec::new(alloc),
            copied: Vec::new(alloc),
        }
    }

    /// How many rows there are.
    pub fn len(&self) -> usize
        ensures { result ≡ length self.now.rows }
    {
        self.rows.len()
    }

    /// An empty row, behind the others.
    pub fn add(&mut self) -> Result<(), AllocError>
        ensures ok { OnOk result (self.new.rows ≡ self.old.rows ++ [] ∷ []) }
        ensures err { OnErr result (self.new ≡ self.old) }
    {
        self.rows.reserve(1)?;
        let span = self.numbers.push_list(&[])?;
        let _ = self.rows.push(Row { span, len: 0 });
        Ok(())
    }

    /// The numbers of the row.
    pub fn list(&self, row: usize) -> &[usize]
        requires { row < length self.now.rows }
        ensures { result.now ≡ list_of self.now.rows row }
    {
        let Row { span, len } = self.rows[row];
        front_of(self.numbers.list(span), len)
    }

    /// Makes room for so many more numbers in the row. A list that is full doubles, so that many small wishes cost no more than the
    /// numbers that come.
    pub fn reserve(&mut self, row: usize, more: usize) -> Result<(), AllocError>
        requires { row < length self.old.rows }
        ensures room { OnOk result (more ≤ room_of self.new row) }
        ensures within { more ≤ room_of self.old row → IsOk result }
        ensures rows { self.new.rows ≡ self.old.rows }
        ensures err { OnErr result (self.new ≡ self.old) }
    {
        if more == 0 {
            return Ok(());
        }
        if self.is_full(row) {
            let wanted = larger(more, self.list(row).len());
            return self.grow(row, wanted);
        }
        self.grow(row, more)
    }

    // Makes room for so many more numbers in the row, and for no others.
    fn grow(&mut self, row: usize, more: usize) -> Result<(), AllocError>
        requires { row < length self.old.rows }
        ensures room { OnOk result (more ≤ room_of self.new row) }
        ensures within { more ≤ room_of self.old row → IsOk result }
        ensures rows { self.new.rows ≡ self.old.rows }
        ensures err { OnErr result (self.new ≡ self.old) }
    {
        let Row { span, len } = self.rows[row];
        if more <= self.numbers.list(span).len() - len {
            return Ok(());
        }
        let Some(size) = len.checked_add(more) else {
            return Err(AllocError);
        };
        let span = moved(&mut self.numbers, &mut self.copied, span, len, size)?;
        self.rows[row] = Row { span, len };
        Ok(())
    }

    /// One number more in the row, at the end.
    pub fn push(&mut self, row: usize, value: usize) -> Result<(), AllocError>
        requires { row < length self.old.rows }
        ensures ok { OnOk result (self.new.rows ≡ with_list self.old.rows row (list_of self.old.rows row ++ value ∷ [])) }
        ensures within { 0 < room_of self.old row → IsOk result }
        ensures room { OnOk result (room_of self.old row ≤ room_of self.new row + 1) }
        ensures err { OnErr result (self.new ≡ self.old) }
    {
        if self.is_full(row) {
            let more = self.list(row).len() + 4;
            self.reserve(row, more)?;
        }
        self.put(row, value);
        Ok(())
    }

    fn is_full(&self, row: usize) -> bool
        requires { row < length self.now.rows }
        ensures { MatchBool result (room_of self.now row ≡ 0) (0 < room_of self.now row) }
    {
        let Row { span, len } = self.rows[row];
        len == self.numbers.list(span).len()
    }

    // One number more, within the room of the row.
    fn put(&mut self, row: usize, value: usize)
        requires there { row < length self.old.rows }
        requires room { 0 < room_of self.old row }
        ensures rows { self.new.rows ≡ with_list self.old.rows row (list_of self.old.rows row ++ value ∷ []) }
        ensures room { room_of self.old row ≤ room_of self.new row + 1 }
    {
        let Row { span, len } = self.rows[row];
        prove!(len < self.numbers.list(span).len());
        self.numbers.set(span, len, value);
        let len = len + 1;
        self.rows[row] = Row { span, len };
    }

    /// Changes one number of the row.
    pub fn set(&mut self, row: usize, index: usize, value: usize)
        requires there { row < length self.old.rows }
        requires within { index < length (list_of self.old.rows row) }
        ensures rows { self.new.rows ≡ with_list self.old.rows row (slice_set (list_of self.old.rows row) index value) }
        ensures room { self.new.room ≡ self.old.room }
    {
        self.numbers.set(self.rows[row].span, index, value);
    }

    /// Keeps the first numbers of the row.
    pub fn truncate(&mut self, row: usize, len: usize)
        requires there { row < length self.old.rows }
        requires within { len ≤ length (list_of self.old.rows row) }
        ensures { self.new.rows ≡ with_list self.old.rows row (take len (list_of self.old.rows row)) }
    {
        let span = self.rows[row].span;
        self.rows[row] = Row { span, len };
    }
}

fn larger(a: usize, b: usize) -> usize
    ensures first { a ≤ result }
    ensures second { b ≤ result }
{
    if a < b { b } else { a }
}

fn front_of(numbers: &[usize], len: usize) -> &[usize]
    requires { len ≤ length numbers.now }
    ensures { result.now ≡ take len numbers.now }
{
    &numbers[..len]
}

// A list of this size that begins with the first numbers of the other one.
fn moved(
    numbers: &mut Obstack,
    copied: &mut Vec<usize>,
    span: Span,
    len: usize,
    size: usize,
) -> Result<Span, AllocError>
    requires there { span.number < length numbers.old.lists }
    requires within { len ≤ length (list_of numbers.old.lists span.number) }
    requires larger { len ≤ size }
    ensures ok { OnOk result (numbers.new.lists ≡ numbers.old.lists ++ copied.new.items ∷ []) }
    ensures span { IfOk result (λ moved. moved.number ≡ length numbers.old.lists) }
    ensures front { OnOk result (take len copied.new.items ≡ take len (list_of numbers.old.lists span.number)) }
    ensures size { OnOk result (length copied.new.items ≡ size) }
    ensures err { OnErr result (numbers.new.lists ≡ numbers.old.lists) }
{
    copied.clear();
    copied.extend_from_slice(front_of(numbers.list(span), len))?;
    copied.resize(size, 0)?;
    numbers.push_list(copied)
}
