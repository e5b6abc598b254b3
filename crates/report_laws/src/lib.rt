//! Laws of what a report costs: functions without a body, each for its contract.
#![tactic(auto)]

ghost use Rattle.report_laws.specs.Chains.{ClimbBeginsLaw, ClimbGoesOnLaw, ClimbIsWithinLaw, ChainHasRowLaw};
ghost use Rattle.report_laws.specs.Costs.{CostLaw, ReportCostLaw};
ghost use Rattle.report_laws.specs.EndRows.{EndReadsLaw};
ghost use Rattle.report_laws.specs.Ends.{EntriesDifferLaw, EndsDifferLaw, WholeEndsDifferLaw};
ghost use Rattle.report_laws.specs.Listed.{RowsDifferLaw};

/// Between the live tree before and after entries of a journal at most two entries of child lists differ for each of these.
pub fn entries_differ()
    ensures { EntriesDifferLaw }
{}

/// Between the two ends of a report likewise, for each entry between their ticks.
pub fn ends_differ()
    ensures plain { EndsDifferLaw }
    ensures whole { WholeEndsDifferLaw }
{}

/// So the lists of a table's rows have at most two entries at one end alone for each entry of the journal between them.
pub fn rows_differ()
    ensures { RowsDifferLaw }
{}

/// The rows of a table at an end of a report are read as the tree of that end.
pub fn end_reads()
    ensures { EndReadsLaw }
{}

/// A walk up that stops at a row where it was before looks at no more rows than a chain has, and one more at which it stops.
pub fn climbs()
    ensures begins { ClimbBeginsLaw }
    ensures goes_on { ClimbGoesOnLaw }
    ensures within { ClimbIsWithinLaw }
    ensures row { ChainHasRowLaw }
{}

/// So many walks, and so many rows beside them, are no more than a report may look at; and so are those of its inodes and of the
/// entries by which their lists differ.
pub fn costs()
    ensures walks { CostLaw }
    ensures report { ReportCostLaw }
{}
