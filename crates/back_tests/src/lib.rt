// Tests of the crates behind the C meaning: assembly and its machine.
//
// They call what `rv_stepper`, `rv_code` and `cp_first` make public, and nothing else. The expected values are
// those of The RISC-V Instruction Set Manual, Volume I, 2 and 7, worked by hand, and those of the examples.
//
// `stepper` runs a unit that was made by hand, and texts of the first form; `instructions` runs a short program
// for each row of a table of instructions; `outcomes` has the environment calls and each cause of being stuck.
#![tactic(auto)]

#[cfg(test)]
mod instructions;
#[cfg(test)]
mod outcomes;
#[cfg(test)]
mod programs;
#[cfg(test)]
mod stepper;
