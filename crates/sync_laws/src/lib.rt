//! Laws of what lasts while a sync is at work: functions without a body, each for its contract.
#![tactic(auto)]

ghost use Rattle.sync_laws.specs.Lasting.{SnapshotsLast, StaysNeverGone, NamesLast, NamedIdsLast, RootsLast, MemberLasts, UntouchedTreesStay, UntouchedReportsStay, TakenWasDeleted, GoneWasDeleted};
ghost use Rattle.sync_laws.specs.Shown.{SnapsAreShown, SnapsAreOk, ReportsBetween, ReportsToNow, FirstLinesToNow, FirstLinesBetween, FrozenDirsAreListed, FrozenFilesAreRead, ListsAreGone, ReadsAreGone, ReportsAreGone};

/// A snapshot that no entry takes away or gives another name is there throughout a span of the journal, with its name.
pub fn snapshots_last()
    ensures by_id { SnapshotsLast }
    ensures never_gone { StaysNeverGone }
    ensures by_name { NamesLast }
    ensures name { NamedIdsLast }
{}

/// A directory with a snapshot that stays is at its path and snapshottable throughout: it can't be deleted, renamed or disallowed,
/// nor can one above it be deleted or renamed.
pub fn roots_last()
    ensures root { RootsLast }
    ensures member { MemberLasts }
{}

/// A directory with a snapshot that stays keeps its tree while no entry touches it, and with it its report since the snapshot.
pub fn untouched_stays()
    ensures tree { UntouchedTreesStay }
    ensures report { UntouchedReportsStay }
{}

/// Where a snapshot isn't there any more, or a cursor with its id is gone, an accepted entry deleted it.
pub fn taken_was_deleted()
    ensures taken { TakenWasDeleted }
    ensures gone { GoneWasDeleted }
{}

/// A list of a directory's snapshots has each name's id, and is shown where a snapshottable directory is at the path.
pub fn snapshots_are_shown()
    ensures shown { SnapsAreShown }
    ensures ok { SnapsAreOk }
{}

/// A report between live snapshots, or from one to the current state, is shown by a cursor with their ids.
pub fn reports_are_shown()
    ensures between { ReportsBetween }
    ensures to_now { ReportsToNow }
    ensures first_to_now { FirstLinesToNow }
    ensures first_between { FirstLinesBetween }
{}

/// The directories and files of a live snapshot's tree are shown by cursors with their ids.
pub fn frozen_is_shown()
    ensures items { FrozenDirsAreListed }
    ensures bytes { FrozenFilesAreRead }
{}

/// A cursor is refused Gone exactly where a snapshot that it names was deleted, or never made.
pub fn gone_is_deleted()
    ensures lists { ListsAreGone }
    ensures reads { ReadsAreGone }
    ensures reports { ReportsAreGone }
{}
