// Lists that are pushed, read, changed and given back.
use cp_obstack::Obstack;
use std::test::Fail;

// A list, then room for one number, and in it one more list that is given back.
#[test]
fn obstack_release(rt: HostRuntime) -> Result<(), Fail> {
    let mut obstack = Obstack::new(rt.alloc());
    let first = obstack.push_list(&[4, 5])?;
    let mark = obstack.mark();
    obstack.reserve(1)?;
    let pushed = obstack.push_list(&[6]);
    assert!(rt; pushed.is_ok());
    obstack.release(mark);
    assert!(rt; obstack.list(first) == [4, 5].as_slice());
    Ok(())
}

// A list without numbers between two others, of which one is changed.
#[test]
fn lists_side_by_side(rt: HostRuntime) -> Result<(), Fail> {
    let mut obstack = Obstack::new(rt.alloc());
    let first = obstack.push_list(&[7])?;
    let empty = obstack.push_list(&[])?;
    let last = obstack.push_list(&[1, 2, 3])?;
    obstack.set(last, 1, 9);
    assert!(rt; obstack.list(first) == [7].as_slice());
    assert!(rt; obstack.list(empty).is_empty());
    assert!(rt; obstack.list(last) == [1, 9, 3].as_slice());
    Ok(())
}
