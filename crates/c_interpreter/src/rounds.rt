// Whole runs, and their output.
ghost use Rattle.std.specs.Prelude.{◌≡◌, ℕ, ◌≤◌, List, [], Option, IfOk, IfErr, OnOk, OnErr};
ghost use Rattle.cp_base.specs.Outside.{Rose, last_count, gained, GainsFront};
ghost use Rattle.c_interpreter.specs.Faults.{Refuses};
ghost use Rattle.c_meaning.specs.Runs.{Ran};
ghost use Rattle.c_interpreter.specs.Machine.{seen, IsSound};
ghost use Rattle.c_interpreter.specs.Leading.{Nears, IsPlaced};
ghost use Rattle.c_interpreter.specs.Outputs.{start_of, RunsTo, IsOnWay};

use crate::frame::Task;
use crate::machine::{Machine, Place};
use cp_base::{Failed, RunFault, Sink, put_all};
use run_model::Outcome;
use std::alloc::AllocError;

// As many bytes of output are handed on together.
const PIECE: usize = 4096;

impl<'u> Machine<'u> {
    // The steps up to a pause, and what comes there.
    #[tactic(auto, using(crate::proofs::RoundLaws::round_done))]
    fn round(&mut self, place: &Place<'u>, task: Task<'u>) -> Result<Task<'u>, AllocError>
        requires placed { IsPlaced place.now }
        requires sound { IsSound (seen self.old) }
        ensures { IfOk result (λ next. Nears place.now (seen self.old) task.entry (seen self.new) next) }
    {
        let pause = self.run_on(place, task)?;
        self.advance(place, pause)
    }

    // Hands the output on.
    fn flush<O: Sink>(&mut self, out: &mut O) -> Result<(), Failed>
        ensures count { O.faults out.old ≤ O.faults out.new }
        ensures bound { O.faults out.old ≤ last_count → O.faults out.new ≤ last_count }
        ensures rest { OnOk result (seen self.new ≡ record (seen self.old) { out = [] }) }
        ensures ok { OnOk result (O.written out.new ≡ gained (O.written out.old) self.old.out.items) }
        ensures err { OnErr result (GainsFront (O.written out.old) (O.written out.new) self.old.out.items) }
        ensures failed { OnErr result (Rose (O.faults out.old) (O.faults out.new)) }
    {
        put_all(out, &self.out)?;
        self.out.clear();
        Ok(())
    }

    // Hands the output on where it is long.
    fn hand_on<O: Sink>(&mut self, out: &mut O) -> Result<(), Failed>
        ensures count { O.faults out.old ≤ O.faults out.new }
        ensures bound { O.faults out.old ≤ last_count → O.faults out.new ≤ last_count }
        ensures turns { OnOk result (self.new.turns ≡ self.old.turns) }
        ensures way { (place : Place) (ran : Ran) (bound : ℕ) (told : Option (List ℕ)) (task : Task) →
            IsOnWay place ran bound told (seen self.old) task (O.written out.old) →
            OnOk result (IsOnWay place ran bound told (seen self.new) task (O.written out.new)) }
        ensures err { OnErr result (GainsFront (O.written out.old) (O.written out.new) self.old.out.items) }
        ensures failed { OnErr result (Rose (O.faults out.old) (O.faults out.new)) }
    {
        if self.out.len() < PIECE {
            return Ok(());
        }
        self.flush(out)
    }

    /// Runs to the end, and hands all output on.
    pub fn run<O: Sink>(
        &mut self,
        place: &Place<'u>,
        start: Task<'u>,
        out: &mut O,
    ) -> Result<Outcome, RunFault>
        requires placed { IsPlaced place.now }
        requires sound { IsSound (seen self.old) }
        ensures count { O.faults out.old ≤ O.faults out.new }
        ensures bound { O.faults out.old ≤ last_count → O.faults out.new ≤ last_count }
        ensures ok { IfOk result (λ outcome. RunsTo (start_of place.now (seen self.old) start.entry) outcome (O.written out.old) (O.written out.new)) }
        ensures err { IfErr result (λ fault. Refuses fault (O.written out.old) (O.written out.new) (O.faults out.old) (O.faults out.new) (start_of place.now (seen self.old) start.entry).out) }
    {
        let mut task = start;
        'rounds: loop {
            if let Task::Stop(outcome) = task {
                self.flush(out)?;
                return Ok(outcome);
            }
            task = self.round(place, task)?;
            self.hand_on(out)?;
        }
    }
}
