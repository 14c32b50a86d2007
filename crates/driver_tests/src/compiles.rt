// Units that are compiled, and units that are not yet.
use crate::calls::{Answer, COMPILED, Case, assert_all, does};
use cp_driver::Fault;

// The unit that writes `Hi`.
pub const HI: &str = "int putchar(int);int main(void){putchar(72);putchar(105);return 0;}";

// Its assembly.
pub static HI_TEXT: &str = "\
    \t.text\n\
    \t.globl _start\n\
    _start:\n\
    \tlui t0, %hi(c_main)\n\
    \tjalr ra, %lo(c_main)(t0)\n\
    \taddi a7, zero, 93\n\
    \tecall\n\
    c_getchar:\n\
    \taddi a0, zero, 0\n\
    \tlui a1, %hi(cdata)\n\
    \taddi a1, a1, %lo(cdata)\n\
    \taddi a2, zero, 1\n\
    \taddi a7, zero, 63\n\
    \tecall\n\
    \tbge zero, a0, .Lend\n\
    \tlbu a0, 0(a1)\n\
    \tjalr zero, 0(ra)\n\
    .Lend:\n\
    \taddi a0, zero, -1\n\
    \tjalr zero, 0(ra)\n\
    c_putchar:\n\
    \tandi t1, a0, 255\n\
    \tlui a1, %hi(cdata)\n\
    \taddi a1, a1, %lo(cdata)\n\
    \tsb t1, 0(a1)\n\
    \taddi a0, zero, 1\n\
    \taddi a2, zero, 1\n\
    \taddi a7, zero, 64\n\
    \tecall\n\
    \taddi a0, t1, 0\n\
    \tjalr zero, 0(ra)\n\
    c_main:\n\
    \taddi sp, sp, -16\n\
    \tsw ra, 0(sp)\n\
    \taddi a0, zero, 72\n\
    \tlui t0, %hi(c_putchar)\n\
    \tjalr ra, %lo(c_putchar)(t0)\n\
    \taddi a0, zero, 105\n\
    \tlui t0, %hi(c_putchar)\n\
    \tjalr ra, %lo(c_putchar)(t0)\n\
    \taddi a0, zero, 0\n\
    \tlw ra, 0(sp)\n\
    \taddi sp, sp, 16\n\
    \tjalr zero, 0(ra)\n\
    \t.data\n\
    \t.balign 16\n\
    cdata:\n\
    \t.zero 1\n\
";

#[test]
fn hi(rt: HostRuntime) {
    assert!(rt;
        does(
            rt.alloc(),
            &(HI, (&["cparser", "hi.c"], COMPILED, HI_TEXT, ""))
        )
    );
}

const REFUSED: Answer = (1, Some(Fault::NotYet), false);

// Units that are not of the first form.
static NOT_YET: [Case<'static>; 2] = [
    (
        "int main(void){return 7;}",
        (
            &["cparser", "-S", "r1.c"],
            REFUSED,
            "",
            "cparser: r1.c: not yet\n",
        ),
    ),
    (
        "int putchar(int);int main(void){putchar(256);putchar(105);return 0;}",
        (
            &["cparser", "-S", "r2.c"],
            REFUSED,
            "",
            "cparser: r2.c: not yet\n",
        ),
    ),
];

#[test]
fn not_yet(rt: HostRuntime) {
    assert_all(&rt, rt.alloc(), &NOT_YET);
}
