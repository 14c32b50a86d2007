// Changes of whole rows.
ghost use Rattle.std.specs.Prelude.{◌≡◌, ◌≢◌, ◌<◌, ◌≤◌, ◌++◌, length, map, OnOk, OnErr, IsOk};
ghost use Rattle.std.specs.List.{remove};
ghost use Rattle.cp_obstack.specs.Lists.{list_of};
ghost use Rattle.firm_uses.specs.Tables.{with_list, room_of};
ghost use Rattle.firm_uses.specs.Counts.{renamed};

use crate::rows::Rows;
use std::alloc::AllocError;

impl Rows {
    /// Takes the number at the index out of the row; the later ones move up.
    pub fn remove(&mut self, row: usize, index: usize)
        requires there { row < length self.old.rows }
        requires within { index < length (list_of self.old.rows row) }
        ensures { self.new.rows ≡ with_list self.old.rows row (remove (list_of self.old.rows row) index) }
    {
        let last = self.list(row).len() - 1;
        for at in index..last {
            let next = self.list(row)[at + 1];
            self.set(row, at, next);
        }
        self.truncate(row, last);
    }

    /// The row gains the numbers of another.
    pub fn extend(&mut self, row: usize, from: usize) -> Result<(), AllocError>
        requires there { row < length self.old.rows }
        requires from { from < length self.old.rows }
        requires differs { row ≢ from }
        ensures ok { OnOk result (self.new.rows ≡ with_list self.old.rows row (list_of self.old.rows row ++ list_of self.old.rows from)) }
        ensures within { length (list_of self.old.rows from) ≤ room_of self.old row → IsOk result }
        ensures err { OnErr result (self.new.rows ≡ self.old.rows) }
    {
        let count = self.list(from).len();
        self.reserve(row, count)?;
        for index in 0..count {
            let value = self.list(from)[index];
            let _ = self.push(row, value);
        }
        Ok(())
    }

    /// Puts a number in the place of another in the row.
    pub fn rename(&mut self, row: usize, old: usize, to: usize)
        requires { row < length self.old.rows }
        ensures { self.new.rows ≡ with_list self.old.rows row (map (renamed old to) (list_of self.old.rows row)) }
    {
        for index in 0..self.list(row).len() {
            if self.list(row)[index] == old {
                self.set(row, index, to);
            }
        }
    }
}
