//! Names: each id in a list has a row, which knows how many lists name it, an id stands in at most one current list, and going up
//! ends.
ghost use Rattle.table_laws.specs.Naming.{QuietNamesLaw, RemoveNamesLaw, AddNamesLaw, InsertNamesLaw, MarkNamesLaw, MergeNamesLaw, ReleaseNamesLaw, AllNamesLaw, StartNamesLaw};

/// A change of mode, body or spot names nothing otherwise.
pub fn quiet_change()
    ensures { QuietNamesLaw }
{}

/// An entry less.
pub fn entry_removed()
    ensures { RemoveNamesLaw }
{}

/// An entry more, of a new row or of one that was removed elsewhere.
pub fn entry_added()
    ensures { AddNamesLaw }
{}

/// A new row is named by no list yet.
pub fn row_inserted()
    ensures { InsertNamesLaw }
{}

/// Marks name nothing.
pub fn row_marked()
    ensures { MarkNamesLaw }
{}

/// A record less: the ids that it alone kept are named once less.
pub fn record_merged()
    ensures { MergeNamesLaw }
{}

/// A release leaves named rows alone.
pub fn rows_released()
    ensures { ReleaseNamesLaw }
{}

/// Where no row may be unnamed, all are named.
pub fn all_named()
    ensures { AllNamesLaw }
{}

/// The first table names nothing.
pub fn first_named()
    ensures { StartNamesLaw }
{}
