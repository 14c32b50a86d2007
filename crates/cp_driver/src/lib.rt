// The top call: words, files and sinks in, an answer out.
//
// In come the words of the command line, the files and the two sinks. Out goes what the job makes of
// its file on the one sink, or one line about the fault on the other, and an answer with the status.
//
// The idea: a job is a task and a file (`job`). `words` reads the job by `clap`; `make` has the passes that
// make a task's text of the file's bytes, each with its own contract: `cp_first` and `rv_code` compile and
// print a unit of the first form (calls of `putchar` on constants, and a return, which is all that is
// compiled so far), `c_lexer` lists tokens, `c_parser` finds their syntax tree; `message` writes a fault's
// line. The call, in `driver`, composes them; `report` has its answer.
//
// The invariant: of each fault it is known why it came, and what the output has gained by then.
// `specs/Jobs.antt` says which job the words ask for, `specs/Making.antt` what each task makes and refuses,
// `specs/Messages.antt` the status and the line of each fault, `specs/Causes.antt` what holds of the inner
// functions, `specs/Answers.antt` what holds of the call.
//
// The theorem, on `cparser`: where the words ask to compile a file, the files tell its bytes, these are a
// unit of the first form and at most 4,194,304, no count of faults rose and memory was not wanting, the
// answer has status 0 and the unit's assembly, which is well formed, and the output has gained exactly its
// text. Wherever there is an assembly of such a file, on every layout that holds it with a stack of at least
// 16 bytes, whatever the stack holds at the start and for every input, there is a number of steps from which
// on the machine that runs it has written the unit's bytes and ended with its status. In the same way the
// tokens of a file that has a token list are written, where the words ask for them, and its syntax tree,
// where the list has one that is at most 500 high.
//
// Each fault has its cause, its status and its line, and there is an order among them. Where the line cannot
// be written, the status is 4, and a front of the line is written. With a fault the output has gained
// nothing, but with a failed write of it a front of the text.
//
// Source: POSIX, chapter Utility Conventions (the words, `-`, the two sinks and the status).
#![tactic(auto)]

mod driver;
mod job;
mod make;
mod message;
mod report;
mod words;

pub use driver::cparser;
pub use report::{Done, Fault, Report};
