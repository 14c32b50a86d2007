// Lists, files and sinks in memory, numbers and layouts: one call of each kind with ample memory.
use cp_base::{
    Bytes, Failed, Files, Items, Layout, MemFiles, MemSink, Name, Names, Sink, TakeFault, put_all,
    put_number,
};
use std::alloc::{AllocError, Global};
use std::test::Fail;

fn grown_bytes(alloc: Global) -> Result<Bytes, AllocError> {
    let mut bytes = Bytes::new(alloc);
    bytes.push_all(b"ab")?;
    bytes.push_all(b"c")?;
    bytes.push_number(u128::MAX)?;
    Ok(bytes)
}

fn grown_name(alloc: Global) -> Result<Name, AllocError> {
    let mut name = Name::new(alloc);
    name.push_all("r1")?;
    name.push_all(".c")?;
    Ok(name)
}

#[test]
fn lists_grow(rt: HostRuntime) -> Result<(), Fail> {
    let bytes = grown_bytes(rt.alloc())?;
    let wanted = b"abc340282366920938463463374607431768211455".as_slice();
    assert!(rt; bytes.as_slice() == wanted);
    let name = grown_name(rt.alloc())?;
    assert!(rt; name.as_slice() == "r1.c");
    let mut names: Names = Items::new(rt.alloc());
    names.push(name)?;
    assert!(rt; names.len() == 1);
    Ok(())
}

// A call of `take`: the name and the limit, the answer, and all that was taken so far.
type Take = (&'static str, u8, Result<(), TakeFault>, &'static str);

// A file at its limit, one past it, one that is not there, one again, and a call that fails.
static TAKES: [Take; 5] = [
    ("a", 4, Ok(()), "four"),
    ("a", 3, Err(TakeFault::TooLong), "fourfour"),
    ("b", 9, Err(TakeFault::Failed), "fourfour"),
    ("a", 4, Ok(()), "fourfourfour"),
    ("a", 4, Err(TakeFault::Failed), "fourfourfour"),
];

fn stored_files(alloc: Global) -> Result<MemFiles, AllocError> {
    let mut files = MemFiles::new(alloc);
    files.add("a", b"old")?;
    files.add("a", b"four")?;
    files.fail(5)?;
    Ok(files)
}

fn takes(files: &mut MemFiles, into: &mut Bytes, wanted: &Take) -> bool {
    let (name, limit, answer, so_far) = *wanted;
    files.take(name, into, usize::from(limit)) == answer && into.as_slice() == so_far.as_bytes()
}

#[test]
fn files_in_memory(rt: HostRuntime) -> Result<(), Fail> {
    let mut files = stored_files(rt.alloc())?;
    let mut into = Bytes::new(rt.alloc());
    for take in &TAKES {
        assert!(rt; takes(&mut files, &mut into, take), "{take:?}");
    }
    Ok(())
}

#[test]
fn a_sink_by_pieces(rt: HostRuntime) -> Result<(), Fail> {
    let mut sink = MemSink::new(rt.alloc(), 4, 9)?;
    sink.fail(4)?;
    assert!(rt; put_all(&mut sink, b"sixsix") == Ok(()));
    assert!(rt; sink.put(b"") == Ok(0));
    assert!(rt; put_all(&mut sink, b"x") == Err(Failed));
    assert!(rt; put_all(&mut sink, b"more") == Err(Failed));
    assert!(rt; sink.bytes() == b"sixsixmor".as_slice());
    Ok(())
}

static NUMBERS: [(u64, &str); 3] = [(0, "0"), (10, "10"), (u64::MAX, "18446744073709551615")];

#[test]
fn numbers_in_decimal(rt: HostRuntime) -> Result<(), Fail> {
    for (number, text) in &NUMBERS {
        let mut sink = MemSink::new(rt.alloc(), 1, 64)?;
        assert!(rt; put_number(&mut sink, *number) == Ok(()), "{number}");
        assert!(rt; sink.bytes() == text.as_bytes(), "{number}");
    }
    Ok(())
}

#[test]
fn layouts(rt: HostRuntime) {
    let layout = Layout {
        code: 65536,
        cdata: 268435456,
        top: 2147483648,
        stack: 1048576,
    };
    assert!(rt; layout.holds(160, 1));
    assert!(rt; !layout.holds(268435457 - 65536, 1));
    assert!(rt; !Layout { code: 0, ..layout }.holds(4, 1));
    assert!(rt; Layout { code: 0, ..layout }.holds(0, 1));
    assert!(rt;
        !Layout {
            top: 2147483656,
            ..layout
        }
        .holds(4, 1)
    );
    assert!(rt;
        !Layout {
            stack: 2147483664,
            ..layout
        }
        .holds(4, 1)
    );
}
