//! The tick counts entries.
ghost use Rattle.hs_plain.specs.Ticks.{TickCounts};
ghost use Rattle.hs_plain.specs.inside.Ticks.{TickRises};

/// The tick is the number of entries that a namenode has journalled, whatever they did.
pub fn tick_counts_entries()
    ensures from_the_start { TickCounts }
    ensures from_a_state { TickRises }
{}
