//! The lines of a report.
ghost use Rattle.hs_plain.specs.Ordered.{ReportsAreOrdered};
ghost use Rattle.hs_plain.specs.inside.Ordered.{ReportIsOrdered};

/// The lines of a report stand strictly in the order of paths and kinds: no two have one path and one kind.
pub fn report_is_ordered()
    ensures { ReportIsOrdered }
{}

/// So do the lines of each report on a snapshottable directory, between its own snapshots or the current state.
pub fn reports_are_ordered()
    ensures { ReportsAreOrdered }
{}
