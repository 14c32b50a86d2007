// What holds of all runs of the machine, and of all texts.
ghost use Rattle.rv_code.specs.Machine.{EndedRunStays, StuckRunStays};
ghost use Rattle.rv_code.specs.OneText.{OneUnitPerText};

/// A run that has ended, or is stuck, is the same at every greater number of steps.
pub fn run_stays()
    ensures ended { EndedRunStays }
    ensures stuck { StuckRunStays }
{}

/// Two well-formed units of one text have the same names, lines and data.
pub fn one_unit_per_text()
    ensures { OneUnitPerText }
{}
