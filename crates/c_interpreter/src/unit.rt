// A run of a unit.
ghost use Rattle.std.specs.Prelude.{◌≡◌, ◌≤◌, ◌<◌, Some, None, IfOk, OnOk, IfErr, MatchOption};
ghost use Rattle.cp_base.specs.Outside.{gained, last_count};
ghost use Rattle.c_interpreter.specs.Faults.{Refuses};
ghost use Rattle.cp_base.specs.Regions.{Holds};
ghost use Rattle.c_types.specs.Placing.{data_size};
ghost use Rattle.c_types.specs.WellMade.{IsWellMade};
ghost use Rattle.c_meaning.specs.Runs as runs;
ghost use Rattle.c_meaning.specs.Runs.{c_run};
ghost use Rattle.c_interpreter.specs.Machine.{seen};
ghost use Rattle.c_interpreter.specs.Outputs.{RunsTo, first_moment};

use crate::calls::is_main;
use crate::frame::Task;
use crate::machine::{Machine, Place};
use crate::turns::push_unset;
use c_types::{Func, Unit, image, place};
use cp_base::{Layout, RunFault, Sink};
use run_model::Outcome;
use std::alloc::{AllocError, Global};

/// Runs the unit over so many turns, at a depth, and hands its output on.
pub fn interpret<O: Sink>(
    alloc: Global,
    unit: &Unit,
    layout: &Layout,
    input: &[u8],
    depth: u64,
    turns: u64,
    out: &mut O,
) -> Result<Outcome, RunFault>
    requires made { IsWellMade unit.now }
    requires holds { Holds layout.now 0 (data_size unit.now.objects) }
    ensures count { O.faults out.old ≤ O.faults out.new }
    ensures bound { O.faults out.old ≤ last_count → O.faults out.new ≤ last_count }
    ensures outcome { IfOk result (λ outcome. outcome ≡ (c_run unit.now layout.now input.now depth turns).outcome) }
    ensures written { OnOk result (O.written out.new ≡ gained (O.written out.old) (c_run unit.now layout.now input.now depth turns).out) }
    ensures err { IfErr result (λ fault. Refuses fault (O.written out.old) (O.written out.new) (O.faults out.old) (O.faults out.new) (c_run unit.now layout.now input.now depth turns).out) }
{
    if depth == 0 {
        return Ok(Outcome::Deep);
    }
    match main_of(unit.functions.as_slice()) {
        Some(main) => run_main(alloc, unit, layout, input, depth, turns, main, out),
        None => Ok(Outcome::Undefined),
    }
}

// Runs the function where the program starts.
fn run_main<O: Sink>(
    alloc: Global,
    unit: &Unit,
    layout: &Layout,
    input: &[u8],
    depth: u64,
    turns: u64,
    main: &Func,
    out: &mut O,
) -> Result<Outcome, RunFault>
    requires made { IsWellMade unit.now }
    requires main { runs.main_of unit.now.functions ≡ Some main.now }
    requires some { 0 < depth }
    ensures count { O.faults out.old ≤ O.faults out.new }
    ensures bound { O.faults out.old ≤ last_count → O.faults out.new ≤ last_count }
    ensures ok { IfOk result (λ outcome. RunsTo (c_run unit.now layout.now input.now depth turns) outcome (O.written out.old) (O.written out.new)) }
    ensures err { IfErr result (λ fault. Refuses fault (O.written out.old) (O.written out.new) (O.faults out.old) (O.faults out.new) (c_run unit.now layout.now input.now depth turns).out) }
{
    let places = place(alloc, unit)?;
    let mut machine = Machine::start(alloc, unit, layout.cdata, main, turns)?;
    let place = Place {
        unit,
        offsets: places.offsets.as_slice(),
        base: layout.cdata,
        input,
        depth,
    };
    machine.run(&place, Task::Stmt(&main.body), out)
}

fn main_of<'u>(functions: &'u [Func]) -> Option<&'u Func>
    ensures { MatchOption result (runs.main_of functions.entry.now ≡ None) (λ main. runs.main_of functions.entry.now ≡ Some main.now) }
{
    for function in functions {
        if is_main(function) {
            return Some(function);
        }
    }
    None
}

impl<'u> Machine<'u> {
    // The moment where the body of `main` begins.
    fn start(
        alloc: Global,
        unit: &Unit,
        base: u32,
        main: &Func,
        turns: u64,
    ) -> Result<Machine<'u>, AllocError>
        requires { IsWellMade unit.now }
        ensures { IfOk result (λ machine. seen machine ≡ first_moment unit.now base main.now turns) }
    {
        let bytes = image(alloc, unit, base)?;
        let mut words = Vec::new(alloc);
        push_unset(&mut words, main.locals)?;
        Ok(Machine {
            frames: Vec::new(alloc),
            words,
            base: 0,
            arguments: Vec::new(alloc),
            bytes: Vec::from_slice(alloc, bytes.as_slice())?,
            taken: 0,
            out: Vec::new(alloc),
            turns,
            active: 1,
        })
    }
}
