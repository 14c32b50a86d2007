// The words of the command line.
use crate::calls::{Check, Host, NO_FAULT, does, does_on};
use crate::compiles::HI;
use cp_driver::Fault;
use std::alloc::Global;

static USAGE: &str = "usage: cparser [-S] [--regs K] [--dump STAGE] [--syntax-only] [--run INPUT] \
    [--interpret INPUT] [--fuel N] [--depth D] [--stack B] [--generate SEED] [FILE]\n";

// Words that are no job.
static NO_JOBS: [&[&str]; 31] = [
    &[],
    &["cparser"],
    &["cparser", ""],
    &["cparser", "a", "b"],
    &["cparser", "hi.c", ""],
    &["cparser", "-", "-"],
    &["cparser", "-S"],
    &["cparser", "-S", "-S", "hi.c"],
    &["cparser", "-SS", "hi.c"],
    &["cparser", "-S=x", "hi.c"],
    &["cparser", "-S=x"],
    &["cparser", "-x"],
    &["cparser", "--help"],
    &["cparser", "-h"],
    &["cparser", "--version"],
    &["cparser", "-V"],
    &["cparser", "--"],
    &["cparser", "--", "-S", "b"],
    &["cparser", "--S", "hi.c"],
    &["cparser", "--regs", "7", "r1.c"],
    &["cparser", "--run", "E", "--interpret", "E", "r1.c"],
    &["cparser", "--dump", "hi.c"],
    &["cparser", "--dump=", "hi.c"],
    &["cparser", "--du", "tokens", "hi.c"],
    &["cparser", "--du", "tree", "hi.c"],
    &["cparser", "--dump", "trees", "hi.c"],
    &["cparser", "-S", "--dump", "tokens", "hi.c"],
    &["cparser", "-S", "--dump", "tree", "hi.c"],
    &["cparser", "--dump", "-S", "hi.c"],
    &["cparser", "--dump", "tokens"],
    &["cparser", "--dump", "tree"],
];

const FIRST_READ: Host = Host {
    read: 1,
    ..NO_FAULT
};

// They give the usage line, and read no file.
fn is_no_job(alloc: Global, words: &[&str]) -> bool {
    let answer = (2, Some(Fault::Usage), false);
    does_on(
        alloc,
        &FIRST_READ,
        HI.as_bytes(),
        Check::OutputUnread,
        &(words, answer, "", USAGE),
    )
}

#[test]
fn usage(rt: HostRuntime) {
    for words in &NO_JOBS {
        assert!(rt; is_no_job(rt.alloc(), words), "{words:?}");
    }
}

// Words that ask for a file, which is not there, and the line that names it.
static MISSING: [(&[&str], &str); 15] = [
    (&["cparser", "-"], "cparser: -: read failed\n"),
    (&["cparser", "f"], "cparser: f: read failed\n"),
    (&["cparser", "help"], "cparser: help: read failed\n"),
    (&["cparser", "-S", "f"], "cparser: f: read failed\n"),
    (&["cparser", "f", "-S"], "cparser: f: read failed\n"),
    (&["cparser", "-S", "-"], "cparser: -: read failed\n"),
    (&["cparser", "f", "--"], "cparser: f: read failed\n"),
    (&["cparser", "--", "-S"], "cparser: -S: read failed\n"),
    (&["cparser", "-S", "--", "-S"], "cparser: -S: read failed\n"),
    (
        &["cparser", "--dump", "tokens", "f"],
        "cparser: f: read failed\n",
    ),
    (
        &["cparser", "--dump=tokens", "f"],
        "cparser: f: read failed\n",
    ),
    (
        &["cparser", "f", "--dump", "tokens"],
        "cparser: f: read failed\n",
    ),
    (
        &["cparser", "--dump", "tree", "f"],
        "cparser: f: read failed\n",
    ),
    (
        &["cparser", "--dump=tree", "f"],
        "cparser: f: read failed\n",
    ),
    (
        &["cparser", "f", "--dump", "tree"],
        "cparser: f: read failed\n",
    ),
];

fn is_missing(alloc: Global, row: &(&[&str], &str)) -> bool {
    let (words, line) = *row;
    let answer = (3, Some(Fault::ReadFault { input: false }), false);
    does(alloc, &(HI, (words, answer, "", line)))
}

#[test]
fn files_that_words_name(rt: HostRuntime) {
    for row in &MISSING {
        assert!(rt; is_missing(rt.alloc(), row), "{row:?}");
    }
}

static NONE: (&[&str], &str) = (
    &["cparser", "-S", "none.c"],
    "cparser: none.c: read failed\n",
);

#[test]
fn missing_file(rt: HostRuntime) {
    assert!(rt; is_missing(rt.alloc(), &NONE));
}
