// Who uses what.
ghost use Rattle.std.specs.Prelude.{◌≡◌, ◌≢◌, ◌+◌, ◌<◌, [], ◌∷◌, ◌++◌, ℕ, length, OnOk, OnErr, IsOk};
ghost use Rattle.std.specs.List.{remove};
ghost use Rattle.cp_obstack.specs.Lists.{list_of};
ghost use Rattle.firm_uses.specs.Tables.{with_list};
ghost use Rattle.firm_uses.specs.Counts.{times, renamed_rows, HasRoom};

use crate::hints::{Hints, note_all};
use crate::places::{forget, forget_one, rename_all};
use crate::rows::Rows;
use std::alloc::{AllocError, Global};
use std::marker::Model;

/// What each user uses, in order, and who uses each of the used ones.
#[derive(Drop)]
pub struct Uses {
    uses: Rows,
    users: Rows,
    hints: Hints,
}

impl Model for Uses {
    ghost use Rattle.std.specs.Prelude.{length, map};
    ghost use Rattle.firm_uses.specs.Counts.{AreTied, Used};

    ghost Value = { Used };

    ghost view = { λ u. record { uses = u.uses.rows; loads = map length u.users.rows; room = u.users.room } };

    ghost invariant = { λ u. AreTied u.uses.rows u.users.rows };
}

impl Uses {
    /// No user, and nothing that is used.
    pub fn new(alloc: Global) -> Uses
        ensures uses { result.uses ≡ [] }
        ensures loads { result.loads ≡ [] }
    {
        Uses {
            uses: Rows::new(alloc),
            users: Rows::new(alloc),
            hints: Hints::new(alloc),
        }
    }

    /// A user, behind the others, which uses nothing.
    pub fn add_user(&mut self) -> Result<(), AllocError>
        ensures ok { OnOk result (self.new ≡ record self.old { uses = self.old.uses ++ [] ∷ [] }) }
        ensures err { OnErr result (self.new ≡ self.old) }
    {
        self.uses.add()
    }

    /// One more that can be used.
    pub fn add_used(&mut self) -> Result<(), AllocError>
        ensures uses { self.new.uses ≡ self.old.uses }
        ensures ok { OnOk result (length self.new.loads ≡ length self.old.loads + 1) }
        ensures err { OnErr result (self.new ≡ self.old) }
    {
        self.users.add()
    }

    /// How many users there are.
    pub fn user_count(&self) -> usize
        ensures { result ≡ length self.now.uses }
    {
        self.uses.len()
    }

    /// How many can be used.
    pub fn used_count(&self) -> usize
        ensures { result ≡ length self.now.loads }
    {
        self.users.len()
    }

    /// What the user uses.
    pub fn list(&self, user: usize) -> &[usize]
        requires { user < length self.now.uses }
        ensures { result.now ≡ list_of self.now.uses user }
    {
        self.uses.list(user)
    }

    /// The users, each as often as it uses this one.
    pub fn users(&self, used: usize) -> &[usize]
        requires { used < length self.now.loads }
        ensures { (user : ℕ) → times user result.now ≡ times used (list_of self.now.uses user) }
    {
        self.users.list(used)
    }

    /// The user uses one more, last.
    pub fn push(&mut self, user: usize, used: usize) -> Result<(), AllocError>
        requires user { user < length self.old.uses }
        requires used { used < length self.old.loads }
        ensures ok { OnOk result (self.new.uses ≡ with_list self.old.uses user (list_of self.old.uses user ++ used ∷ [])) }
        ensures loads { length self.new.loads ≡ length self.old.loads }
        ensures err { OnErr result (self.new.uses ≡ self.old.uses) }
    {
        self.users.reserve(used, 1)?;
        self.uses.push(user, used)?;
        let place = self.users.list(used).len();
        let _ = self.users.push(used, user);
        self.hints.note(user, used, place);
        Ok(())
    }

    /// The user no longer uses what stands at the index.
    pub fn remove(&mut self, user: usize, index: usize)
        requires user { user < length self.old.uses }
        requires within { index < length (list_of self.old.uses user) }
        ensures uses { self.new.uses ≡ with_list self.old.uses user (remove (list_of self.old.uses user) index) }
        ensures loads { length self.new.loads ≡ length self.old.loads }
    {
        let used = self.uses.list(user)[index];
        forget_one(&mut self.users, &mut self.hints, used, user);
        self.uses.remove(user, index);
    }

    /// The user uses nothing any more.
    pub fn clear(&mut self, user: usize)
        requires { user < length self.old.uses }
        ensures uses { self.new.uses ≡ with_list self.old.uses user [] }
        ensures loads { length self.new.loads ≡ length self.old.loads }
    {
        forget(&mut self.users, &mut self.hints, self.uses.list(user), user);
        self.uses.truncate(user, 0);
    }

    /// Makes room for the users of `old` with `to`.
    pub fn reserve(&mut self, old: usize, to: usize) -> Result<(), AllocError>
        requires old { old < length self.old.loads }
        requires to { to < length self.old.loads }
        ensures uses { self.new.uses ≡ self.old.uses }
        ensures loads { self.new.loads ≡ self.old.loads }
        ensures room { OnOk result (HasRoom self.new old to) }
    {
        let count = self.users.list(old).len();
        self.users.reserve(to, count)
    }

    /// Each use of `old` becomes one of `to`.
    pub fn replace(&mut self, old: usize, to: usize) -> Result<(), AllocError>
        requires old { old < length self.old.loads }
        requires to { to < length self.old.loads }
        requires differs { to ≢ old }
        ensures ok { OnOk result (self.new.uses ≡ renamed_rows old to self.old.uses) }
        ensures loads { length self.new.loads ≡ length self.old.loads }
        ensures within { HasRoom self.old old to → IsOk result }
        ensures err { OnErr result (self.new.uses ≡ self.old.uses) }
    {
        let first = self.users.list(to).len();
        self.users.extend(to, old)?;
        rename_all(&mut self.uses, self.users.list(old), old, to);
        note_all(&mut self.hints, self.users.list(old), to, first);
        self.users.truncate(old, 0);
        Ok(())
    }
}
