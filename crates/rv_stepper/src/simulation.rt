// The stepper's one call.
ghost use Rattle.std.specs.Prelude.{◌≡◌, [], ◌≤◌, All, IfOk, IfErr};
ghost use Rattle.cp_base.specs.Outside.{last_count};
ghost use Rattle.rv_code.specs.Machine.{LoadedProgram, run, rv_run};
ghost use Rattle.rv_stepper.specs.Simulation.{Answers, Refuses};
ghost use Rattle.rv_stepper.specs.States.{machine_of};
ghost use Rattle.rv_stepper.specs.Output.{IsOf, HasRun};

use crate::load::{Image, load};
use crate::output::Waiting;
use crate::run::run;
use cp_base::{Layout, RunFault, Sink};
use rv_code::{AsmUnit, RvOutcome};
use std::alloc::{AllocError, Global};

/// So many steps of the unit at the layout, from a stack of zeros: the outcome, and the output to the sink.
/// All memory is taken before the first step.
pub fn simulate<O: Sink>(
    alloc: Global,
    asm: &AsmUnit,
    layout: &Layout,
    input: &[u8],
    steps: u64,
    out: &mut O,
) -> Result<RvOutcome, RunFault>
    ensures count { O.faults out.old ≤ O.faults out.new }
    ensures bound { O.faults out.old ≤ last_count → O.faults out.new ≤ last_count }
    ensures ok { IfOk result (λ outcome. Answers (O.written out.old) (O.written out.new) outcome (rv_run asm.now layout.now (λ _. 0) input.now steps)) }
    ensures err { IfErr result (λ fault. Refuses fault (O.written out.old) (O.written out.new) (O.faults out.old) (O.faults out.new) (rv_run asm.now layout.now (λ _. 0) input.now steps).1) }
{
    match load(alloc, asm, layout) {
        Ok(Some(mut image)) => match Waiting::new(alloc) {
            Ok(mut waiting) => run_image(&mut image, input, steps, &mut waiting, out),
            Err(_) => Err(RunFault::OutOfMemory),
        },
        Ok(None) => Ok(RvOutcome::Stuck { pc: layout.code }),
        Err(AllocError) => Err(RunFault::OutOfMemory),
    }
}

// The run of a program in memory.
fn run_image<O: Sink>(
    image: &mut Image,
    input: &[u8],
    steps: u64,
    waiting: &mut Waiting,
    out: &mut O,
) -> Result<RvOutcome, RunFault>
    requires { waiting.old ≡ [] }
    ensures count { O.faults out.old ≤ O.faults out.new }
    ensures bound { O.faults out.old ≤ last_count → O.faults out.new ≤ last_count }
    ensures ok { IfOk result (λ outcome. (p : LoadedProgram) → IsOf p image.old.code.items image.old.state → HasRun (O.written out.old) (O.written out.new) outcome (run p input.now steps (machine_of image.old.state []))) }
    ensures err { IfErr result (λ fault. (p : LoadedProgram) → IsOf p image.old.code.items image.old.state → Refuses fault (O.written out.old) (O.written out.new) (O.faults out.old) (O.faults out.new) (run p input.now steps (machine_of image.old.state [])).1) }
{
    let Image { code, state } = image;
    match run(code, input, state, steps, waiting, out) {
        Ok(outcome) => Ok(outcome),
        Err(_) => Err(RunFault::WriteFault),
    }
}
