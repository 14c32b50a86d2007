// The stepper: runs a unit of assembly on the machine of RV32IM, step by step.
//
// In come a unit, its layout, the bytes of the input, a number of steps and a sink. Out go what the run comes to
// after so many steps, and its output to the sink; or a refusal, where a write failed or there was no memory.
//
// The idea: the unit is loaded once, and then run. Loading makes each instruction a small value whose operand is
// a number (`symbols`, `code`, `load`), and lays the bytes of the data and then those of the stack into one
// vector (`data`, `memory`). A step fetches the instruction at the program counter by its index, finds what it
// does by its name and the words of its registers (`effect`), and does that to the state (`state`). Output waits
// in a vector of 4096 bytes; it is written where that is full, after every 65536 steps, and before the answer
// (`output`, `run`). A step looks nothing up by name and takes no memory: all memory is taken before the first.
//
// The invariant: the state stands for a state of the machine of `rv_code` (`specs/States.antt`, `machine_of`): the
// same program counter, registers and position in the input, and at each address of the data or the stack the byte
// at the index of `specs/Space.antt`. A step of the stepper is a step of the machine, and what is left of the
// run stays the same (`specs/Output.antt`, `SoFar`).
//
// The theorem, on `simulate`, for every unit, whether it is well formed or not: after `Ok` the outcome is that of
// `rv_run` at this number of steps, from a stack of zeros, and the sink has gained exactly its output. After
// `WriteFault` the sink has gained a front of that output and not all, and its count of faults rose or stands at
// its type's end. After `OutOfMemory` the sink is as it was. `specs/Simulation.antt` says this; the other files of
// `specs/` are named by the contracts inside alone.
//
// Source: The RISC-V Instruction Set Manual, Volume I, edition of December 2019, 2 (RV32I) and 7 (M). The label of
// a jump is found by reading the lines of its function once for each jump when the unit is loaded.
#![tactic(auto)]

mod code;
mod data;
mod effect;
mod load;
mod memory;
mod output;
mod program;
mod run;
mod simulation;
mod start;
mod state;
mod symbols;

pub use simulation::simulate;
