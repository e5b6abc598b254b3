//! Worked examples, computed from the definitions: what a namenode is asked, and what it answers.
ghost use Rattle.hs_plain.specs.worked.Moves.{MovedOut, RenamedDirectory, Overwritten, HeldInPlace, NestedNowhere};
ghost use Rattle.hs_plain.specs.worked.Pages.{MiddleDeleted, PagesOfTwo, MovedReport};
ghost use Rattle.hs_plain.specs.worked.Refusals.{RefusedCalls, GrownBehind};
ghost use Rattle.hs_plain.specs.worked.Syncs.{RenameBeside, Swapped, NewDirectories, SwappedLead, CreatedLead};

/// Calls with bad paths, reserved paths, paths into snapshots, and more that is refused: none leaves an entry.
pub fn worked_refused()
    ensures { RefusedCalls }
{}

/// A file is appended to after a snapshot was made: the snapshot has the bytes that it had.
pub fn worked_grown()
    ensures { GrownBehind }
{}

/// A file is moved out of a snapshottable directory and then appended to: the snapshot has the bytes that it had, and the
/// report says that it is gone.
pub fn worked_moved_out()
    ensures { MovedOut }
{}

/// A directory is renamed and a file below it appended to: the report has the directory's `R` line, and the file's `M` line
/// at the path that it had at the first end; the other way round, at the path that it has now.
pub fn worked_renamed_directory()
    ensures { RenamedDirectory }
{}

/// A file is made over another and gets the same bytes: the report has a `-` and a `+` on one path.
pub fn worked_overwritten()
    ensures { Overwritten }
{}

/// What would delete or move a directory with snapshots is refused, and so is `disallowSnapshot`.
pub fn worked_held()
    ensures { HeldInPlace }
{}

/// What would put one snapshottable directory below another is refused; allowing one again is accepted.
pub fn worked_nested()
    ensures { NestedNowhere }
{}

/// Of three snapshots the one in the middle is deleted: the others list what they listed.
pub fn worked_middle_deleted()
    ensures { MiddleDeleted }
{}

/// A snapshot is listed page by page: its cursor stays good when the snapshot is renamed, and is refused once it is deleted,
/// also where a new snapshot has its name.
pub fn worked_pages()
    ensures { PagesOfTwo }
{}

/// A report up to the current state is asked to go on after an entry more: it is refused with both ticks.
pub fn worked_moved_report()
    ensures { MovedReport }
{}

/// A file is renamed and a new file takes its name, and a sync follows: it moves the one and copies the other, and ends with
/// a target that is equal to the snapshot.
pub fn worked_rename_beside()
    ensures { RenameBeside }
{}

/// Two directories change names, and a child leaves a directory that is deleted: the sync moves all four out, deepest first,
/// puts back what is still there, and copies nothing.
pub fn worked_swapped()
    ensures { Swapped }
{}

/// A new directory has a moved file, a new file, and a new directory in it: the sync lists both, makes each before what comes
/// into it, and copies the two new files.
pub fn worked_new_directories()
    ensures { NewDirectories }
{}

/// Where a report leads paths of the first tree, and paths that its `+` lines show.
pub fn worked_leads()
    ensures moved { SwappedLead }
    ensures created { CreatedLead }
{}
