//! What the laws of names ask for, from a tree that is read.
ghost use Rattle.table_laws.specs.NameReads.{EntryThereLaw, EntryFreeLaw, NotRootLaw, NoRowLaw, LiveLaw};

/// A child's entry is in its parent's list.
pub fn entry_there()
    ensures { EntryThereLaw }
{}

/// A free name has a place.
pub fn entry_free()
    ensures { EntryFreeLaw }
{}

/// A child isn't the root.
pub fn not_root()
    ensures { NotRootLaw }
{}

/// An id above all has no row.
pub fn no_row()
    ensures { NoRowLaw }
{}

/// A directory of the live tree.
pub fn live()
    ensures { LiveLaw }
{}
