// Steps on tables of uses.
ghost use Rattle.std.specs.Prelude.{◌≡◌, ◌≢◌, ◌<◌, ◌≤◌, [], ◌∷◌, ℕ, suc, length, slice_index, OnOk, OnErr};
ghost use Rattle.cp_obstack.specs.Lists.{list_of};
ghost use Rattle.firm_tables.specs.Nodes.{numbers};
ghost use Rattle.firm_tables.specs.Held.{Covers};

use firm_rules::NodeId;
use firm_uses::Uses;
use std::alloc::AllocError;

// The number is what is in its own place.
pub(crate) fn be_own(currents: &mut Uses, number: usize) -> Result<(), AllocError>
    requires { Covers number currents.old }
    ensures ok { OnOk result (Covers (suc number) currents.new) }
    ensures own { OnOk result (list_of currents.new.uses number ≡ number ∷ []) }
    ensures covers { Covers number currents.new }
    ensures others { (other : ℕ) → other ≢ number → list_of currents.new.uses other ≡ list_of currents.old.uses other }
{
    widen(currents, number)?;
    currents.clear(number);
    use_all(currents, number, &[NodeId { number }])
}

// The number, which used nothing, uses these; or still nothing.
pub(crate) fn enter(operands: &mut Uses, number: usize, list: &[NodeId]) -> Result<(), AllocError>
    requires covers { Covers number operands.old }
    requires list { (index : ℕ) → index < length list.now → slice_index (numbers list.now) index ≤ number }
    requires empty { list_of operands.old.uses number ≡ [] }
    ensures ok { OnOk result (list_of operands.new.uses number ≡ numbers list.now) }
    ensures ok_covers { OnOk result (Covers (suc number) operands.new) }
    ensures err { OnErr result (list_of operands.new.uses number ≡ []) }
    ensures covers { Covers number operands.new }
    ensures others { (other : ℕ) → other ≢ number → list_of operands.new.uses other ≡ list_of operands.old.uses other }
{
    widen(operands, number)?;
    use_all(operands, number, list)
}

// Makes room for one user more, which may be used too. The lists are the same.
fn widen(uses: &mut Uses, count: usize) -> Result<(), AllocError>
    requires { Covers count uses.old }
    ensures ok { OnOk result (Covers (suc count) uses.new) }
    ensures covers { Covers count uses.new }
    ensures same { (user : ℕ) → list_of uses.new.uses user ≡ list_of uses.old.uses user }
{
    if uses.user_count() == count {
        uses.add_user()?;
    }
    if uses.used_count() == count {
        uses.add_used()?;
    }
    Ok(())
}

// The user, which used nothing, uses these; or still nothing.
fn use_all(uses: &mut Uses, user: usize, list: &[NodeId]) -> Result<(), AllocError>
    requires covers { Covers (suc user) uses.old }
    requires list { (index : ℕ) → index < length list.now → slice_index (numbers list.now) index ≤ user }
    requires empty { list_of uses.old.uses user ≡ [] }
    ensures ok { OnOk result (list_of uses.new.uses user ≡ numbers list.now) }
    ensures err { OnErr result (list_of uses.new.uses user ≡ []) }
    ensures covers { Covers (suc user) uses.new }
    ensures others { (other : ℕ) → other ≢ user → list_of uses.new.uses other ≡ list_of uses.old.uses other }
{
    let pushed = push_all(uses, user, list);
    if pushed.is_err() {
        uses.clear(user);
    }
    pushed
}

// The user, which used nothing, uses these; or the first of them.
fn push_all(uses: &mut Uses, user: usize, list: &[NodeId]) -> Result<(), AllocError>
    requires covers { Covers (suc user) uses.old }
    requires list { (index : ℕ) → index < length list.now → slice_index (numbers list.now) index ≤ user }
    requires empty { list_of uses.old.uses user ≡ [] }
    ensures ok { OnOk result (list_of uses.new.uses user ≡ numbers list.now) }
    ensures covers { Covers (suc user) uses.new }
    ensures others { (other : ℕ) → other ≢ user → list_of uses.new.uses other ≡ list_of uses.old.uses other }
{
    for used in list {
        uses.push(user, used.number)?;
    }
    Ok(())
}
