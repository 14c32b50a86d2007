// Places in a text, by line and column.
ghost use Rattle.std.specs.Prelude.{◌≡◌, ◌≤◌, ◌+◌, ◌==◌, length, take, count_by};
ghost use Rattle.c_lexer.specs.Characters.{newline};
ghost use Rattle.c_lexer.specs.Tokens.{line_front};
ghost use Rattle.c_lexer.specs.Places.{line_number, column_number};

/// The line and the column of a byte offset, both counted from 1. A line ends with its newline.
pub fn line_of(bytes: &[u8], at: usize) -> (usize, usize)
    requires { at ≤ length bytes.now }
    ensures line { result.0 ≡ line_number bytes.now at }
    ensures column { result.1 ≡ column_number bytes.now at }
{
    let (before, _) = bytes.split_at(at);
    (lines(before) + 1, columns(before) + 1)
}

// The newlines of a text.
fn lines(text: &[u8]) -> usize
    ensures { result ≡ count_by (λ b. b == newline) text.now }
{
    text.iter().filter(|byte| **byte == b'\n').count()
}

// The bytes since its last newline.
fn columns(text: &[u8]) -> usize
    ensures { result ≡ length (line_front text.now) }
{
    text.iter().rev().take_while(|byte| **byte != b'\n').count()
}
