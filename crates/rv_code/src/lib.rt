// Assembly of RV32IM: its form, its text, and the machine that runs it.
//
// In comes an `AsmUnit`: functions of lines, and the items of the data section. Out goes its text,
// which an assembler reads.
//
// The idea: what a unit means is in definitions, and code only prints. `specs/Text.antt` is the text,
// `specs/WellFormed.antt` what makes a unit well formed. `specs/Routines.antt` has the instructions before
// the functions, `specs/Places.antt` the instructions of a unit in their order and where labels are among
// them, `specs/Loading.antt` the instructions and the bytes in memory (labels, `%hi` and `%lo` have become
// numbers there), and `specs/Machine.antt` the machine: its step, its run, the environment calls.
//
// The invariant of a run: it comes from one state to another after at least some steps
// (`proofs/Runs.antt`, `Comes`), and this composes. There is one lemma for each class of instruction.
// `proofs/UnitStands.antt` has where the functions and the start-up code of a unit are.
// `proofs/StartLines.antt`: what is printed before the functions is the text of the instructions there.
// `proofs/RoutineRuns.antt`: what `_start`, `c_getchar` and `c_putchar` do, from any state at the first
// instruction (and `_start` from the one behind its call), with the code in place at a multiple of 4 and,
// for the two routines, the buffer byte accessible; they change no register but t1, a0 to a2 and a7.
//
// The theorem, on `text_of`: the bytes are exactly the text of the unit, where it is well formed. The laws:
// a run that has ended, or is stuck, is the same at every greater number of steps (`run_stays`), and two
// well-formed units of one text have the same names, lines and data (`one_unit_per_text`; the proof reads
// two texts side by side, piece by piece: `proofs/Splits.antt`, `proofs/UnitTexts.antt`).
//
// Source: The RISC-V Instruction Set Manual, Volume I, edition of December 2019, 2 (RV32I) and 7
// (M); the RISC-V Assembly Programmer's Manual, for the spelling of lines, the names of registers,
// `%hi` and `%lo`.
#![tactic(auto)]

mod assembly;
mod form;
mod instr;
mod laws;
mod machine;
mod start;
mod text;

pub use assembly::{
    AsmFunction, AsmFunctions, AsmInstr, AsmLine, AsmLines, AsmUnit, DataItem, DataItems, Operand,
    RvName, Symbol,
};
pub use form::Form;
pub use laws::{one_unit_per_text, run_stays};
pub use machine::RvOutcome;
pub use text::text_of;
