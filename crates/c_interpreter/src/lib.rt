// The interpreter: runs a typed unit as C has it.
//
// In come a typed unit that is well made, a layout that has room for its data, the bytes of the input, a depth, a number of
// turns, and a sink. Out go the outcome of the run, and its output to the sink; or a refusal, where a write failed or there
// was no memory.
//
// The idea: the pending work stands in a vector, so that no tree is walked on the host's stack. A machine has a task, what
// comes next, and frames, each a construct that waits for the value or the end of its part (`frame`). A step either opens
// its task, which pushes a frame and goes on with the first part (`machine`, `statements`), or has a value, and gives it to
// the last frame (`machine`, `calls`). `data` and `labels` have what needs no frame: accesses, and the group of a
// `switch`. The locals of all active calls stand in one vector, those of the present call last; arguments
// are frames until all are known. Two loops run: one steps up to the next turn, call or end (`run`), the other takes what
// stands there (`turns`) and hands on the output, once there are 4,096 bytes of it and before the answer (`rounds`).
// `unit` lays out the data, and begins with `main`.
//
// The invariant: a frame means what is left of its construct in the definition of C, and a moment means what the frames
// make of the task, the last frame first (`specs/Machine.antt`, `means`). A step changes the moment, and not its meaning;
// between two turns the sizes of what is left to do fall (`specs/Weights.antt`), and from turn to turn the turns. A frame
// and a value that do not fit are undefined on both sides, so nothing is asked of the types of frames.
//
// The theorem, on `interpret`: after `Ok` the outcome is that of `c_run` at this depth and number of turns, and the sink has
// gained exactly its output. After `WriteFault` it has gained a front of that output and not all, and its count of faults
// rose or stands at its type's end; after `OutOfMemory` it has gained a prefix. `specs/Faults.antt` says what a refusal
// leaves; the other files of `specs/` are named by the contracts inside alone.
//
// Source: the definitions of `c_meaning`, which have the sections of C99. A machine of pending work in place of a recursion
// is as in Felleisen and Friedman, Control Operators, the SECD-Machine, and the λ-Calculus (1986).
#![tactic(auto)]

mod calls;
mod data;
mod frame;
mod labels;
mod machine;
mod rounds;
mod run;
mod statements;
mod turns;
mod unit;

pub use unit::interpret;
