// Rows that grow, and users that are tied to what they use.
ghost use Rattle.std.specs.Prelude.{◌≡◌, length, IfOk};

use firm_uses::{Rows, Uses};
use std::alloc::{AllocError, Global};
use std::test::Fail;

// Two rows, and five numbers in the first.
fn grown(alloc: Global) -> Result<Rows, AllocError>
    ensures { IfOk result (λ rows. length rows.rows ≡ 2) }
{
    let mut rows = Rows::new(alloc);
    rows.add()?;
    rows.add()?;
    for number in 0..5 {
        rows.push(0, number)?;
    }
    Ok(rows)
}

#[test]
fn rows_grow(rt: HostRuntime) -> Result<(), Fail> {
    let mut rows = grown(rt.alloc())?;
    assert!(rt; rows.len() == 2);
    assert!(rt; rows.list(0) == [0, 1, 2, 3, 4].as_slice());
    rows.reserve(1, 9)?;
    rows.extend(1, 0)?;
    rows.rename(1, 3, 7);
    assert!(rt; rows.list(1) == [0, 1, 2, 7, 4].as_slice());
    rows.remove(1, 1);
    assert!(rt; rows.list(1) == [0, 2, 7, 4].as_slice());
    Ok(())
}

// User 0 uses 1 twice, and then 0.
fn used(alloc: Global) -> Result<Uses, AllocError>
    ensures users { IfOk result (λ u. length u.uses ≡ 1) }
    ensures used { IfOk result (λ u. length u.loads ≡ 2) }
{
    let mut uses = Uses::new(alloc);
    uses.add_user()?;
    uses.add_used()?;
    uses.add_used()?;
    uses.push(0, 1)?;
    uses.push(0, 1)?;
    uses.push(0, 0)?;
    Ok(uses)
}

#[test]
fn users_are_tied(rt: HostRuntime) -> Result<(), Fail> {
    let mut uses = used(rt.alloc())?;
    assert!(rt; uses.users(1) == [0, 0].as_slice());
    uses.reserve(1, 0)?;
    uses.replace(1, 0)?;
    assert!(rt; uses.list(0) == [0, 0, 0].as_slice());
    assert!(rt; uses.users(0).len() == 3);
    assert!(rt; uses.users(1).is_empty());
    uses.remove(0, 1);
    assert!(rt; uses.list(0) == [0, 0].as_slice());
    assert!(rt; uses.users(0) == [0, 0].as_slice());
    uses.clear(0);
    assert!(rt; uses.users(0).is_empty());
    Ok(())
}
