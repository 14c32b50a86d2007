// Users that are taken out of lists, and numbers that are renamed.
ghost use Rattle.std.specs.Prelude.{◌≡◌, ◌≢◌, ◌+◌, ◌<◌, ◌≤◌, ◌==◌, ◌∷◌, [], ℕ, length, slice_index, if◌then◌else◌};
ghost use Rattle.cp_obstack.specs.Lists.{list_of};
ghost use Rattle.firm_uses.specs.Counts.{times, renamed_rows};

use crate::hints::Hints;
use crate::rows::Rows;

// The last place of the value.
fn last_place(list: &[usize], value: usize) -> usize
    requires { 0 < times value list.now }
    ensures within { result < length list.now }
    ensures is { slice_index list.now result ≡ value }
{
    let mut place = list.len() - 1;
    while list[place] != value {
        place -= 1;
    }
    place
}

// A place of the value: the hint where it is one.
fn place_of(list: &[usize], value: usize, hint: usize) -> usize
    requires { 0 < times value list.now }
    ensures within { result < length list.now }
    ensures is { slice_index list.now result ≡ value }
{
    if hint < list.len() {
        if list[hint] == value {
            return hint;
        }
    }
    last_place(list, value)
}

/// Takes one user of the used one out of its users.
pub(crate) fn forget_one(users: &mut Rows, hints: &mut Hints, used: usize, user: usize)
    requires there { used < length users.old.rows }
    requires among { 0 < times user (list_of users.old.rows used) }
    ensures length { length users.new.rows ≡ length users.old.rows }
    ensures this { (x : ℕ) → times x (list_of users.new.rows used) + times x (user ∷ []) ≡ times x (list_of users.old.rows used) }
    ensures others { (other : ℕ) → other ≢ used → list_of users.new.rows other ≡ list_of users.old.rows other }
{
    let place = place_of(users.list(used), user, hints.get(user, used));
    let last = users.list(used).len() - 1;
    let moved = users.list(used)[last];
    users.set(used, place, moved);
    users.truncate(used, last);
    hints.note(moved, used, place);
}

/// Takes the user out of the users of each of these.
pub(crate) fn forget(users: &mut Rows, hints: &mut Hints, all_used: &[usize], user: usize)
    requires { (used : ℕ) → times used all_used.now ≤ times user (list_of users.old.rows used) }
    ensures length { length users.new.rows ≡ length users.old.rows }
    ensures users { (x used : ℕ) → times x (list_of users.new.rows used) + (if x == user then times used all_used.now else 0)
        ≡ times x (list_of users.old.rows used) }
{
    for used in all_used {
        forget_one(users, hints, *used, user);
    }
}

/// Puts a number in the place of another in the rows of these users, which are all that have it.
pub(crate) fn rename_all(uses: &mut Rows, users: &[usize], old: usize, to: usize)
    requires there { (user : ℕ) → 0 < times user users.now → user < length uses.old.rows }
    requires all { (user : ℕ) → 0 < times old (list_of uses.old.rows user) → 0 < times user users.now }
    requires differs { to ≢ old }
    ensures { uses.new.rows ≡ renamed_rows old to uses.old.rows }
{
    for user in users {
        uses.rename(*user, old, to);
    }
}
