//! Worked examples, computed from the definitions: what the generator makes.
ghost use Rattle.script_text.specs.Worked.{SeventhRounds, LeastScript};

/// The numbers that follow from seed 7, and what two rounds make of them.
pub fn worked_rounds()
    ensures { SeventhRounds }
{}

/// The shortest script that the generator makes is what its text means.
pub fn worked_least()
    ensures { LeastScript }
{}
