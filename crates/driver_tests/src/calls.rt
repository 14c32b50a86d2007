// A call over files and sinks in memory, and what it is to do.
ghost use Rattle.std.specs.Prelude.{◌<◌};

use cp_base::{Bytes, Files, Items, MemFiles, MemSink, Name, Names, TakeFault};
use cp_driver::{Fault, cparser};
use std::alloc::{AllocError, Global};
use std::process::Abort;

// The files that are there, how many bytes the output takes a call and in all, and which call of each
// object fails, counted from 1; 0 for none.
#[derive(Clone, Copy)]
pub struct Host {
    pub files: &'static [&'static str],
    pub piece: usize,
    pub room: usize,
    pub read: usize,
    pub output: usize,
    pub error: usize,
}

pub const NO_FAULT: Host = Host {
    files: &[
        "hi.c", "r1.c", "r2.c", "r4.c", "r14.c", "r29.c", "r32.c", "r38.c", "r39.c", "r40.c",
    ],
    piece: 256,
    room: 4096,
    read: 0,
    output: 0,
    error: 0,
};

// The status, the fault, and whether there is a report.
pub type Answer = (u8, Option<Fault>, bool);

// A unit is compiled, and its assembly written.
pub const COMPILED: Answer = (0, None, true);

// Tokens or a tree are written.
pub const DUMPED: Answer = (0, None, false);

// The words of a call, what it is to answer, and what the output and the error sink are to have then.
pub type Wanted<'a> = (&'a [&'a str], Answer, &'a str, &'a str);

// What is compared beside the answer and the line.
#[derive(Clone, Copy)]
pub enum Check {
    // The output.
    Output,
    // The end of the output.
    OutputEnd,
    // The output, and that no file was taken: the first `take`, which is to fail, is still to come.
    OutputUnread,
}

// The objects that a call works on.
#[derive(Drop)]
struct Objects {
    files: MemFiles,
    out: MemSink,
    err: MemSink,
}

// Adds the files, each with this text, and says which calls fail.
fn fill(objects: &mut Objects, host: &Host, text: &[u8]) -> Result<(), AllocError> {
    for name in host.files {
        objects.files.add(name, text)?;
    }
    objects.files.fail(host.read)?;
    objects.out.fail(host.output)?;
    objects.err.fail(host.error)
}

fn prepared(alloc: Global, host: &Host, text: &[u8]) -> Result<Objects, AllocError>
    requires { 0 < host.now.piece }
{
    let mut objects = Objects {
        files: MemFiles::new(alloc),
        out: MemSink::new(alloc, host.piece, host.room)?,
        err: MemSink::new(alloc, 4096, 4096)?,
    };
    fill(&mut objects, host, text)?;
    Ok(objects)
}

pub fn names(alloc: Global, words: &[&str]) -> Result<Names, AllocError> {
    let mut names: Names = Items::new(alloc);
    for word in words {
        let mut name = Name::new(alloc);
        name.push_all(word)?;
        names.push(name)?;
    }
    Ok(names)
}

// What a call with these words on these objects answers.
fn answered(alloc: Global, objects: &mut Objects, words: &[&str]) -> Result<Answer, AllocError> {
    let words = names(alloc, words)?;
    let done = cparser(
        alloc,
        &words,
        &mut objects.files,
        &mut objects.out,
        &mut objects.err,
    );
    Ok((done.status, done.fault, done.report.is_some()))
}

// The next call of `take` fails, for a file that is there.
fn take_fails(alloc: Global, files: &mut MemFiles) -> bool {
    let mut text = Bytes::new(alloc);
    files.take("hi.c", &mut text, 4096) == Err(TakeFault::Failed)
}

fn holds(alloc: Global, objects: &mut Objects, check: Check, out: &[u8]) -> bool {
    match check {
        Check::Output => objects.out.bytes() == out,
        Check::OutputEnd => objects.out.bytes().ends_with(out),
        Check::OutputUnread => {
            objects.out.bytes() == out && take_fails(alloc, &mut objects.files)
        }
    }
}

// The call on these objects does what it is to.
fn did(alloc: Global, objects: &mut Objects, check: Check, wanted: &Wanted<'_>) -> bool {
    let (words, answer, out, line) = *wanted;
    matches!(answered(alloc, objects, words), Ok(found) if found == answer)
        && objects.err.bytes() == line.as_bytes()
        && holds(alloc, objects, check, out.as_bytes())
}

// The call on files of this text does what it is to.
pub fn does_on(alloc: Global, host: &Host, text: &[u8], check: Check, wanted: &Wanted<'_>) -> bool
    requires { 0 < host.now.piece }
{
    let Ok(mut objects) = prepared(alloc, host, text) else {
        return false;
    };
    did(alloc, &mut objects, check, wanted)
}

// The text of each file, and what a call is to do.
pub type Case<'a> = (&'a str, Wanted<'a>);

// Where nothing fails, the call does what it is to.
pub fn does(alloc: Global, case: &Case<'_>) -> bool {
    let (text, wanted) = case;
    does_on(alloc, &NO_FAULT, text.as_bytes(), Check::Output, wanted)
}

// Asserts that of each case.
pub fn assert_all(rt: &impl Abort, alloc: Global, cases: &[Case<'_>]) {
    for case in cases {
        assert!(rt; does(alloc, case), "{case:?}");
    }
}
