//! Rows, current lists and the soundness of directories in each step of a table, whatever else holds of it.
ghost use Rattle.table_laws.specs.NameLists.{ChangedRowsLaw, QuietListsLaw, RemoveListsLaw, AddListsLaw, MarkListsLaw, ChangedSoundLaw, InsertedSoundLaw, MarkedSoundLaw, MergedSoundLaw, ReleasedSoundLaw};

/// A change takes no row away, makes none, and changes the states of one.
pub fn changed_rows()
    ensures { ChangedRowsLaw }
{}

/// A change of mode, body or spot leaves all lists.
pub fn quiet_lists()
    ensures { QuietListsLaw }
{}

/// An entry less in one list.
pub fn removed_lists()
    ensures { RemoveListsLaw }
{}

/// An entry more in one list.
pub fn added_lists()
    ensures { AddListsLaw }
{}

/// Marks leave all lists.
pub fn marked_lists()
    ensures { MarkListsLaw }
{}

/// Directories stay sound as a row changes.
pub fn changed_sound()
    ensures { ChangedSoundLaw }
{}

/// As a row comes.
pub fn inserted_sound()
    ensures { InsertedSoundLaw }
{}

/// As a row gets other marks.
pub fn marked_sound()
    ensures { MarkedSoundLaw }
{}

/// As a record goes.
pub fn merged_sound()
    ensures { MergedSoundLaw }
{}

/// As rows go.
pub fn released_sound()
    ensures { ReleasedSoundLaw }
{}
