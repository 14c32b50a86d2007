// The program `cparser`: it makes the real files and sinks, calls `cparser` of cp_driver with its
// words, and ends with the status that it answers.
#![tactic(auto)]

use cp_base::{Items, Name, Names, StdFiles, StdSink};
use cp_driver::cparser;
use std::alloc::AllocError;
use std::env;
use std::io::ErrorKind;
use std::process::ExitCode;
use std::rt::Env;

// The status where there is no memory for the words.
const OUT_OF_MEMORY: u8 = 6;

fn main(rt: HostRuntime) -> ExitCode {
    let Ok(words) = words(&rt) else {
        return ExitCode::from(OUT_OF_MEMORY);
    };
    let mut files = StdFiles::new(&rt);
    let mut out = StdSink::new(rt.stdout());
    let mut err = StdSink::new(rt.stderr());
    let done = cparser(rt.alloc(), &words, &mut files, &mut out, &mut err);
    ExitCode::from(done.status)
}

// The words of the command line, the program's name first. Words that are not text are no words.
fn words<R: Env + AllocGlobal>(rt: &R) -> Result<Names, AllocError> {
    let mut words = Items::new(rt.alloc());
    match env::args(rt) {
        Ok(args) => {
            for arg in args {
                let mut word = Name::new(rt.alloc());
                word.push_all(arg.as_str())?;
                words.push(word)?;
            }
        }
        Err(error) if error.kind() == ErrorKind::OutOfMemory => return Err(AllocError),
        Err(_) => {}
    }
    Ok(words)
}
