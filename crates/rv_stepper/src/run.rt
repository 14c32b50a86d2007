// A run by steps.
ghost use Rattle.std.specs.Prelude.{◌≡◌, [], ◌≤◌, All, IfOk, OnErr};
ghost use Rattle.cp_base.specs.Outside.{Rose, last_count, gained, GainsFront};
ghost use Rattle.rv_code.specs.Machine.{LoadedProgram, run};
ghost use Rattle.rv_stepper.specs.States.{machine_of};
ghost use Rattle.rv_stepper.specs.Output.{IsOf, HasRun};

use crate::output::Waiting;
use crate::program::Instr;
use crate::state::{State, Stepped};
use cp_base::{Failed, Sink};
use rv_code::RvOutcome;

// After how many steps the output is shown.
const SHOWN: u64 = 65536;

/// The run of so many steps, from a state in which no output waits.
pub fn run<O: Sink>(
    code: &[Instr],
    input: &[u8],
    state: &mut State,
    steps: u64,
    waiting: &mut Waiting,
    out: &mut O,
) -> Result<RvOutcome, Failed>
    requires { waiting.old ≡ [] }
    ensures count { O.faults out.old ≤ O.faults out.new }
    ensures bound { O.faults out.old ≤ last_count → O.faults out.new ≤ last_count }
    ensures ok { IfOk result (λ outcome. (p : LoadedProgram) → IsOf p code.now state.old → HasRun (O.written out.old) (O.written out.new) outcome (run p input.now steps (machine_of state.old []))) }
    ensures err { OnErr result ((p : LoadedProgram) → IsOf p code.now state.old → GainsFront (O.written out.old) (O.written out.new) (run p input.now steps (machine_of state.old [])).1) }
    ensures failed { OnErr result (Rose (O.faults out.old) (O.faults out.new)) }
{
    let mut left = steps;
    while left > 0 {
        let pc = state.pc;
        match state.step(code, input) {
            Stepped::Went => (),
            Stepped::Wrote(byte) => waiting.push(byte),
            Stepped::Ended(status) => return answer(RvOutcome::Ended(status), waiting, out),
            Stepped::Stuck => return answer(RvOutcome::Stuck { pc }, waiting, out),
        }
        left -= 1;
        waiting.flush_at(left % SHOWN == 0, out)?;
    }
    answer(RvOutcome::Running, waiting, out)
}

// The outcome, after all that waits is written.
fn answer<O: Sink>(
    outcome: RvOutcome,
    waiting: &mut Waiting,
    out: &mut O,
) -> Result<RvOutcome, Failed>
    ensures count { O.faults out.old ≤ O.faults out.new }
    ensures bound { O.faults out.old ≤ last_count → O.faults out.new ≤ last_count }
    ensures ok { IfOk result (λ o. (o ≡ outcome) × (O.written out.new ≡ gained (O.written out.old) waiting.old)) }
    ensures err { OnErr result (GainsFront (O.written out.old) (O.written out.new) waiting.old) }
    ensures failed { OnErr result (Rose (O.faults out.old) (O.faults out.new)) }
{
    waiting.flush(out)?;
    Ok(outcome)
}
