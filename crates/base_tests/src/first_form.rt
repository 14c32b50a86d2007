// Whole texts, compiled by the calls of `cp_first`.
use cp_first::compile_first;
use std::alloc::{AllocError, Global};
use std::test::Fail;

// A text, and the number of lines of its `main`, where it is of the first form.
static UNITS: [(&[u8], Option<usize>); 9] = [
    (b"int putchar(int);int main(void){return 0;}", Some(6)),
    (
        b"int putchar(int);int main(void){putchar(255);return 7;}\n",
        Some(9),
    ),
    (
        b"int putchar(int);int main(void){putchar(0);putchar(10);return 255;}",
        Some(12),
    ),
    (
        b"int putchar(int);int main(void){putchar(256);return 0;}",
        None,
    ),
    (
        b"int putchar(int);int main(void){putchar(07);return 0;}",
        None,
    ),
    (
        b"int putchar(int);int main(void){putchar(7); return 0;}",
        None,
    ),
    (b"int putchar(int);int main(void){return 0;}\n\n", None),
    (b"int main(void){return 0;}", None),
    (b"", None),
];

// How many lines the one function has, where the text is compiled; 0, where there is not one function.
fn lines_of(alloc: Global, text: &[u8]) -> Result<Option<usize>, AllocError> {
    let Some(unit) = compile_first(alloc, text)? else {
        return Ok(None);
    };
    match unit.functions.as_slice() {
        [main] => Ok(Some(main.lines.len())),
        _ => Ok(Some(0)),
    }
}

#[test]
fn first_forms(rt: HostRuntime) -> Result<(), Fail> {
    for (text, lines) in &UNITS {
        assert!(rt; lines_of(rt.alloc(), text)? == *lines, "{text:?}");
    }
    Ok(())
}
