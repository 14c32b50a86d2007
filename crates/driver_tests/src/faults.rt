// Calls of the files and of the sinks that fail.
use crate::calls::{Answer, COMPILED, Check, DUMPED, Host, NO_FAULT, Wanted, does_on};
use crate::compiles::{HI, HI_TEXT};
use cp_driver::Fault;
use std::alloc::Global;

const READ: Answer = (3, Some(Fault::ReadFault { input: false }), false);

const WRITE: Answer = (4, Some(Fault::WriteFault), false);

const LEXICAL: Answer = (1, Some(Fault::Lexical { at: 2 }), false);

const WRITE_FAILED: &str = "cparser: write failed\n";

static SECOND_WRITE: Wanted<'static> = (
    &["cparser", "-S", "hi.c"],
    WRITE,
    "\t.text\n\t.globl _",
    WRITE_FAILED,
);

const BY_SIXTEEN: Host = Host {
    piece: 16,
    output: 2,
    ..NO_FAULT
};

#[test]
fn second_write_fails(rt: HostRuntime) {
    assert!(rt;
        does_on(
            rt.alloc(),
            &BY_SIXTEEN,
            HI.as_bytes(),
            Check::Output,
            &SECOND_WRITE
        )
    );
}

// Which read, which write of the output and which write of a line fails; 0 for none.
type Failing = (usize, usize, usize);

// Where these fail, the call does what it is to.
fn does_with(alloc: Global, failing: Failing, text: &str, wanted: &Wanted<'_>) -> bool {
    let (read, output, error) = failing;
    let host = Host {
        read,
        output,
        error,
        ..NO_FAULT
    };
    does_on(alloc, &host, text.as_bytes(), Check::Output, wanted)
}

// A text, the calls that fail, the answer, how many bytes of the assembly of `HI` are written, and the line.
type Compile = (&'static str, Failing, Answer, usize, &'static str);

// The read, each write of the output and each write of a line fail in turn.
static COMPILES: [Compile; 11] = [
    (HI, (1, 0, 0), READ, 0, "cparser: hi.c: read failed\n"),
    (HI, (2, 5, 1), COMPILED, 790, ""),
    (HI, (0, 1, 0), WRITE, 0, WRITE_FAILED),
    (HI, (0, 2, 0), WRITE, 256, WRITE_FAILED),
    (HI, (0, 3, 0), WRITE, 512, WRITE_FAILED),
    (HI, (0, 4, 0), WRITE, 768, WRITE_FAILED),
    (HI, (0, 2, 1), WRITE, 256, ""),
    (HI, (1, 0, 1), WRITE, 0, ""),
    ("", (0, 1, 1), WRITE, 0, ""),
    ("", (0, 1, 2), WRITE, 0, "cparser: "),
    ("", (0, 1, 3), WRITE, 0, "cparser: hi.c"),
];

fn compile_does(alloc: Global, row: &Compile) -> bool {
    let (text, failing, answer, written, line) = *row;
    let Some(out) = HI_TEXT.get(..written) else {
        return false;
    };
    does_with(
        alloc,
        failing,
        text,
        &(&["cparser", "hi.c"], answer, out, line),
    )
}

#[test]
fn each_call_fails(rt: HostRuntime) {
    for row in &COMPILES {
        assert!(rt; compile_does(rt.alloc(), row), "{row:?}");
    }
}

// A text, the calls that fail, the answer, the output and the line.
type Dump = (&'static str, Failing, Answer, &'static str, &'static str);

// The same with `--dump tokens`, on a text with tokens and on one without.
static DUMPS: [Dump; 6] = [
    ("a", (1, 0, 0), READ, "", "cparser: hi.c: read failed\n"),
    ("a", (0, 1, 0), WRITE, "", WRITE_FAILED),
    ("a", (0, 2, 1), DUMPED, "0 1 word a\n", ""),
    (
        "\n 08",
        (0, 1, 0),
        LEXICAL,
        "",
        "hi.c:2:2: error: no token here\n",
    ),
    ("\n 08", (0, 0, 4), WRITE, "", "hi.c:2"),
    ("\n 08", (0, 0, 7), WRITE, "", "hi.c:2:2: error: "),
];

fn dump_does(alloc: Global, row: &Dump) -> bool {
    let (text, failing, answer, out, line) = *row;
    let words = &["cparser", "--dump", "tokens", "hi.c"];
    does_with(alloc, failing, text, &(words, answer, out, line))
}

#[test]
fn each_call_of_a_dump_fails(rt: HostRuntime) {
    for row in &DUMPS {
        assert!(rt; dump_does(rt.alloc(), row), "{row:?}");
    }
}
