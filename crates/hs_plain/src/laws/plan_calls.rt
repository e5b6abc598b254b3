//! The calls of a plan.
ghost use Rattle.hs_plain.specs.inside.PlanCalls.{InTurnAreMerged};

/// Copies that are made one after the other are one of the ways in which those of a plan may be merged.
pub fn copies_in_turn_are_merged()
    ensures { InTurnAreMerged }
{}
