//! What the calls of a table do to its rows. Each law is the contract of a function that does nothing.
ghost use Rattle.table_laws.specs.Steps.{ChangesRowLaw, ChangedLaw, InsertedLaw, MarkedLaw};

/// A change of one row keeps its earlier readings, and changes its current state.
pub fn changes_row()
    ensures { ChangesRowLaw }
{}

/// A change of one row of a table.
pub fn changed()
    ensures { ChangedLaw }
{}

/// A new row.
pub fn inserted()
    ensures { InsertedLaw }
{}

/// Other marks of one row.
pub fn marked()
    ensures { MarkedLaw }
{}
