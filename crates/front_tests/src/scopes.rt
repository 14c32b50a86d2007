// Names while scopes open and close, by the calls of `c_scopes`.
use c_scopes::{Declared, Scopes};
use std::alloc::{AllocError, Global};
use std::test::Fail;

// Scopes around the place behind `typedef int t; int v; {`.
fn block_scope<'a>(alloc: Global) -> Result<Scopes<'a>, AllocError> {
    let mut scopes = Scopes::new(alloc);
    scopes.open()?;
    scopes.add("t", true)?;
    scopes.add("v", false)?;
    scopes.open()?;
    Ok(scopes)
}

// Whether `t` and `v` are typedef names.
fn are_typedef_names(scopes: &Scopes<'_>) -> (bool, bool) {
    (scopes.is_typedef_name("t"), scopes.is_typedef_name("v"))
}

#[test]
fn variable_hides_typedef(rt: HostRuntime) -> Result<(), Fail> {
    let mut scopes = block_scope(rt.alloc())?;
    let before = are_typedef_names(&scopes);
    scopes.add("t", false)?;
    let hidden = are_typedef_names(&scopes);
    scopes.close();
    let behind = are_typedef_names(&scopes);
    scopes.close();
    let after = are_typedef_names(&scopes);
    assert!(rt; before == (true, false) && hidden == (false, false));
    assert!(rt; behind == (true, false) && after == (false, false));
    Ok(())
}

fn is_declared(names: &[Declared<'_>], at: usize, name: &str, is_typedef: bool) -> bool {
    matches!(names.get(at), Some(found) if found.name == name && found.is_typedef == is_typedef)
}

#[test]
fn names_are_taken(rt: HostRuntime) -> Result<(), Fail> {
    let mut scopes = block_scope(rt.alloc())?;
    scopes.add("v", true)?;
    scopes.add("t", false)?;
    let names = scopes.take_innermost()?;
    let names = names.as_slice();
    assert!(rt; names.len() == 2 && is_declared(names, 0, "v", true));
    assert!(rt; is_declared(names, 1, "t", false) && are_typedef_names(&scopes) == (true, false));
    Ok(())
}

#[test]
fn names_move_to_another_scope(rt: HostRuntime) -> Result<(), Fail> {
    let names = [
        Declared {
            name: "v",
            is_typedef: true,
        },
        Declared {
            name: "t",
            is_typedef: false,
        },
    ];
    let mut scopes = block_scope(rt.alloc())?;
    scopes.add_all(&names)?;
    let inside = are_typedef_names(&scopes);
    scopes.close();
    assert!(rt; inside == (false, true) && are_typedef_names(&scopes) == (true, false));
    Ok(())
}

#[test]
fn no_scope_has_no_names(rt: HostRuntime) -> Result<(), Fail> {
    let mut scopes = Scopes::new(rt.alloc());
    scopes.close();
    scopes.add("t", true)?;
    let names = scopes.take_innermost()?;
    assert!(rt; names.is_empty() && are_typedef_names(&scopes) == (false, false));
    Ok(())
}
