// Tokens and trees of texts, and texts that have none.
ghost use Rattle.std.specs.Prelude.{◌<◌};

use crate::calls::{Case, Check, DUMPED, Host, NO_FAULT, Wanted, assert_all, does, does_on};
use cp_base::Bytes;
use cp_driver::Fault;
use std::alloc::{AllocError, Global};

static PLUS_PLUS_PLUS: Case<'static> = (
    "a+++b",
    (
        &["cparser", "--dump", "tokens", "r38.c"],
        DUMPED,
        "0 1 word a\n1 3 punct ++\n3 4 punct +\n4 5 word b\n",
        "",
    ),
);

#[test]
fn plus_plus_plus(rt: HostRuntime) {
    assert!(rt; does(rt.alloc(), &PLUS_PLUS_PLUS));
}

static DUMPS: [Case<'static>; 2] = [
    (
        "int x=0x1F;",
        (
            &["cparser", "--dump", "tokens", "r32.c"],
            DUMPED,
            "0 3 word int\n4 5 word x\n5 6 punct =\n6 10 int 31\n10 11 punct ;\n",
            "",
        ),
    ),
    (
        "int main(void){return 7;}",
        (
            &["cparser", "--dump", "tree", "r1.c"],
            DUMPED,
            "unit\n  function\n    specs\n      word int\n    takes\n      name main\n    block\n      \
              return\n        int 7\n",
            "",
        ),
    ),
];

#[test]
fn dumps(rt: HostRuntime) {
    assert_all(&rt, rt.alloc(), &DUMPS);
}

// A parameter hides a typedef name, so that `(t)` is no type; a typedef name is no value.
static TYPEDEFS: [Case<'static>; 2] = [
    (
        "typedef int t;int f(int t){return (t)*2;}",
        (
            &["cparser", "--dump", "tree", "r40.c"],
            DUMPED,
            "unit\n  declaration\n    specs\n      word typedef\n      word int\n    initdecl\n      \
              name t\n  function\n    specs\n      word int\n    takes\n      name f\n      param\n        \
              specs\n          word int\n        name t\n    block\n      return\n        binary *\n          \
              paren\n            var t\n          int 2\n",
            "",
        ),
    ),
    (
        "typedef int t;int x=t;",
        (
            &["cparser", "--dump", "tree", "r40.c"],
            (1, Some(Fault::Syntax { at: 20 }), false),
            "",
            "r40.c:1:21: error: syntax error\n",
        ),
    ),
];

#[test]
fn typedef_hidden(rt: HostRuntime) {
    assert_all(&rt, rt.alloc(), &TYPEDEFS);
}

static EMPTY_FILE: Case<'static> = (
    "",
    (
        &["cparser", "--dump", "tree", "r4.c"],
        (1, Some(Fault::Syntax { at: 0 }), false),
        "",
        "r4.c:1:1: error: syntax error\n",
    ),
);

#[test]
fn empty_file(rt: HostRuntime) {
    assert!(rt; does(rt.alloc(), &EMPTY_FILE));
}

static BAD_OCTAL: Case<'static> = (
    "'\\x41' 0x80000000 \"a\" /*c*/ 08",
    (
        &["cparser", "--dump", "tokens", "r39.c"],
        (1, Some(Fault::Lexical { at: 28 }), false),
        "",
        "r39.c:1:29: error: no token here\n",
    ),
);

#[test]
fn bad_octal(rt: HostRuntime) {
    assert!(rt; does(rt.alloc(), &BAD_OCTAL));
}

static OPEN_COMMENT: [Case<'static>; 2] = [
    (
        "int main(void){return 0;} /* open",
        (
            &["cparser", "--dump", "tokens", "r14.c"],
            (1, Some(Fault::Lexical { at: 26 }), false),
            "",
            "r14.c:1:27: error: no token here\n",
        ),
    ),
    (
        "int main(void){return 0;} /* open",
        (
            &["cparser", "--dump", "tree", "r14.c"],
            (1, Some(Fault::Lexical { at: 26 }), false),
            "",
            "r14.c:1:27: error: no token here\n",
        ),
    ),
];

#[test]
fn open_comment(rt: HostRuntime) {
    assert_all(&rt, rt.alloc(), &OPEN_COMMENT);
}

static FAULTS: [Case<'static>; 2] = [
    (
        "int main(void){return 7}",
        (
            &["cparser", "--dump", "tree", "r29.c"],
            (1, Some(Fault::Syntax { at: 23 }), false),
            "",
            "r29.c:1:24: error: syntax error\n",
        ),
    ),
    (
        "int x=2147483648;",
        (
            &["cparser", "--dump", "tokens", "r29.c"],
            (1, Some(Fault::Lexical { at: 6 }), false),
            "",
            "r29.c:1:7: error: no token here\n",
        ),
    ),
];

#[test]
fn faults_of_reading(rt: HostRuntime) {
    assert_all(&rt, rt.alloc(), &FAULTS);
}

// Pieces of a text, each so many times, and what a call is to do.
type Long = (&'static [(&'static str, usize)], Wanted<'static>);

fn repeated(alloc: Global, pieces: &[(&str, usize)]) -> Result<Bytes, AllocError> {
    let mut text = Bytes::new(alloc);
    for (piece, times) in pieces {
        for _ in 0..*times {
            text.push_all(piece.as_bytes())?;
        }
    }
    Ok(text)
}

// The call on files of this text does what it is to.
fn does_long(alloc: Global, host: &Host, check: Check, long: &Long) -> bool
    requires { 0 < host.now.piece }
{
    let (pieces, wanted) = long;
    let Ok(text) = repeated(alloc, pieces) else {
        return false;
    };
    does_on(alloc, host, text.as_slice(), check, wanted)
}

const SIXTEEN_BLANKS: &str = "                ";

// A file of blanks, as long as the limit, has no tree.
static BLANKS: Long = (
    &[(SIXTEEN_BLANKS, 262_144)],
    (
        &["cparser", "--dump", "tree", "r20.c"],
        (1, Some(Fault::Syntax { at: 4_194_304 }), false),
        "",
        "r20.c:1:4194305: error: syntax error\n",
    ),
);

// One that is longer is not judged.
static TOO_LONG: Long = (
    &[(SIXTEEN_BLANKS, 262_144), (" ", 1)],
    (
        &["cparser", "--dump", "tree", "r20.c"],
        (5, Some(Fault::TooLong { input: false }), false),
        "",
        "cparser: r20.c: longer than 4194304 bytes\n",
    ),
);

const ONE_FILE: Host = Host {
    files: &["r20.c"],
    ..NO_FAULT
};

#[test]
fn too_long(rt: HostRuntime) {
    assert!(rt; does_long(rt.alloc(), &ONE_FILE, Check::Output, &BLANKS));
    assert!(rt; does_long(rt.alloc(), &ONE_FILE, Check::Output, &TOO_LONG));
}

// The unit that returns 0, which stands in 495 pairs of parentheses.
static NESTED: Long = (
    &[
        ("int main(void){return ", 1),
        ("(", 495),
        ("0", 1),
        (")", 495),
        (";}", 1),
    ],
    (
        &["cparser", "--dump", "tree", "r25.c"],
        DUMPED,
        " int 0\n",
        "",
    ),
);

// One pair more.
static TOO_DEEP: Long = (
    &[
        ("int main(void){return ", 1),
        ("(", 496),
        ("0", 1),
        (")", 496),
        (";}", 1),
    ],
    (
        &["cparser", "--dump", "tree", "r25.c"],
        (5, Some(Fault::TooDeep { at: 518 }), false),
        "",
        "r25.c:1:519: error: nested too deep\n",
    ),
);

const WITH_ROOM: Host = Host {
    files: &["r25.c"],
    piece: 4096,
    room: 1_048_576,
    ..NO_FAULT
};

#[test]
fn nested_parentheses(rt: HostRuntime) {
    assert!(rt; does_long(rt.alloc(), &WITH_ROOM, Check::OutputEnd, &NESTED));
    assert!(rt; does_long(rt.alloc(), &WITH_ROOM, Check::Output, &TOO_DEEP));
}
