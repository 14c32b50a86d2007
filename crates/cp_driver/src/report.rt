// What a call of `cparser` answers.
use rv_code::AsmUnit;

/// Why a job was not done. `input` says which file it was about: INPUT, or else FILE.
#[derive(Clone, Copy, Debug, PartialEq, Eq)]
pub enum Fault {
    /// At this byte offset of FILE there is no token.
    Lexical { at: usize },
    /// The token at this byte offset of FILE cannot stand there; at the end, FILE cannot end there.
    Syntax { at: usize },
    /// What stands before this byte offset of FILE nests too deep.
    TooDeep { at: usize },
    /// The words are no job.
    Usage,
    /// A file is not there, or could not be read.
    ReadFault { input: bool },
    /// The output, or a line on the error sink, could not be written.
    WriteFault,
    /// A file has more than 4,194,304 bytes.
    TooLong { input: bool },
    /// The unit is not of the first form, the only one that is compiled so far.
    NotYet,
    OutOfMemory,
}

/// What a job that compiles made.
#[derive(Debug, Drop)]
pub struct Report {
    pub asm: AsmUnit,
}

/// The answer: the status that the program ends with, the fault if there was one, and the report
/// where the job compiles and was done.
#[derive(Debug, Drop)]
pub struct Done {
    pub status: u8,
    pub fault: Option<Fault>,
    pub report: Option<Report>,
}
