//! What each step of a table leaves of its records and of its index. Each law is the contract of a function that does nothing.
ghost use Rattle.table_laws.specs.RecordIndex.{NotedLaw, NextTickLaw, BetweenLaw, MergedFoundLaw};
ghost use Rattle.table_laws.specs.Recording.{StartRecordsLaw, ChangeRecordsLaw, ChangeFilledLaw, NoRecordLaw, AgainRecordsLaw, NeedRecordsLaw, LiveRecordsLaw, InsertRecordsLaw, InsertFilledLaw, MarkRecordsLaw, ReleaseRecordsLaw, SnapRecordsLaw, SnappedRecordsLaw, ResnappedLaw, RenamedRecordsLaw, RenamedStandsLaw, NumbersRecordsLaw, BareRecordsLaw};
ghost use Rattle.table_laws.specs.RecordFound.{FoundLaw, FoundNowLaw, SameOrFoundLaw, SameOrFoundNowLaw};
ghost use Rattle.table_laws.specs.RecordTurns.{TurnsRecordsLaw, TurnsFilledLaw};
ghost use Rattle.table_laws.specs.RecordCalls.{CallRecordsLaw, CallFilledLaw};
ghost use Rattle.table_laws.specs.RecordDropping.{UnsnappedLaw, GoneRecordsLaw, MergeRecordsLaw, MergeIndexLaw, KeepRecordsLaw, LeftRecordsLaw, WhichLostLaw, NoneLostLaw};
ghost use Rattle.table_laws.specs.RecordDropped.{DroppedRecordsLaw, DroppedStandsLaw};
ghost use Rattle.table_laws.specs.RecordTold.{NumberToldLaw, NoNumberToldLaw, NumbersCountLaw, LiveToldLaw};

/// An entry more in the index.
pub fn noted()
    ensures { NotedLaw }
{}

/// The next call begins.
pub fn next_tick()
    ensures { NextTickLaw }
{}

/// The index has at most three ids for each tick between two.
pub fn between()
    ensures { BetweenLaw }
{}

/// What may lose a record as a snapshot goes is found from the snapshot's tick on.
pub fn merged_found()
    ensures { MergedFoundLaw }
{}

/// The first table has no records.
pub fn start_records()
    ensures { StartRecordsLaw }
{}

/// A row is changed at a number that its records may have.
pub fn change_records()
    ensures { ChangeRecordsLaw }
{}

/// Which adds at most one entry to the index.
pub fn change_filled()
    ensures { ChangeFilledLaw }
{}

/// Or none, where no record is started.
pub fn no_record()
    ensures { NoRecordLaw }
{}

/// A row may be changed again at the same number.
pub fn again_records()
    ensures { AgainRecordsLaw }
{}

/// A row's need is a number at which it may be changed.
pub fn need_records()
    ensures { NeedRecordsLaw }
{}

/// So is that of a live row by the cover that its chain gives.
pub fn live_records()
    ensures { LiveRecordsLaw }
{}

/// Rows are changed in turn, as one call does it.
pub fn turns_records()
    ensures { TurnsRecordsLaw }
{}

/// Which adds at most one entry for each row to the index.
pub fn turns_filled()
    ensures { TurnsFilledLaw }
{}

/// So are live rows, each at its need, in a call of a namenode.
pub fn call_records()
    ensures { CallRecordsLaw }
{}

/// And the index likewise.
pub fn call_filled()
    ensures { CallFilledLaw }
{}

/// A row is made.
pub fn insert_records()
    ensures { InsertRecordsLaw }
{}

/// Which adds one entry to the index.
pub fn insert_filled()
    ensures { InsertFilledLaw }
{}

/// A row gets other marks.
pub fn mark_records()
    ensures { MarkRecordsLaw }
{}

/// Rows that no list names go.
pub fn release_records()
    ensures { ReleaseRecordsLaw }
{}

/// A snapshot is made.
pub fn snap_records()
    ensures { SnapRecordsLaw }
{}

/// As the plain machine makes it.
pub fn snapped_records()
    ensures { SnappedRecordsLaw }
{}

/// A snapshot gets another name.
pub fn renamed_records()
    ensures { RenamedRecordsLaw }
{}

/// And the table stands for what it stood for.
pub fn renamed_stands()
    ensures { RenamedStandsLaw }
{}

/// As the plain machine renames a snapshot, it is the same but for its name.
pub fn resnapped()
    ensures { ResnappedLaw }
{}

/// As the plain machine deletes a snapshot, that one is gone and no other.
pub fn unsnapped()
    ensures { UnsnappedLaw }
{}

/// A snapshot is gone: the rows to be looked at are found by the index.
pub fn gone_records()
    ensures { GoneRecordsLaw }
{}

/// The record of a row that lost the last live id of its interval is merged away.
pub fn merge_records()
    ensures { MergeRecordsLaw }
{}

/// Which leaves the index.
pub fn merge_index()
    ensures { MergeIndexLaw }
{}

/// A row that lost nothing stays.
pub fn keep_records()
    ensures { KeepRecordsLaw }
{}

/// Once all these rows were looked at, records and index are as they should be.
pub fn left_records()
    ensures { LeftRecordsLaw }
{}

/// Which record was lost.
pub fn which_lost()
    ensures { WhichLostLaw }
{}

/// Where each record's interval has a live id, none was lost.
pub fn none_lost()
    ensures { NoneLostLaw }
{}

/// So a snapshot is deleted: records and index.
pub fn dropped_records()
    ensures { DroppedRecordsLaw }
{}

/// And what the table stands for.
pub fn dropped_stands()
    ensures { DroppedStandsLaw }
{}

/// The numbers of each row rise, and were issued.
pub fn numbers_records()
    ensures { NumbersRecordsLaw }
{}

/// Without snapshots there are no records.
pub fn bare_records()
    ensures { BareRecordsLaw }
{}

/// A row reads alike at two snapshots, or the index has it between their ticks.
pub fn found()
    ensures { FoundLaw }
{}

/// At a snapshot and now likewise.
pub fn found_now()
    ensures { FoundNowLaw }
{}

/// So an inode of two copied trees is the same there, or is found.
pub fn same_or_found()
    ensures { SameOrFoundLaw }
{}

/// And one of a copied tree and the live one.
pub fn same_or_found_now()
    ensures { SameOrFoundNowLaw }
{}

/// The number of a record, as rows tell it, ends its interval.
pub fn number_told()
    ensures { NumberToldLaw }
{}

/// Where they tell none there is no such record.
pub fn no_number_told()
    ensures { NoNumberToldLaw }
{}

/// There are as many numbers as records.
pub fn numbers_count()
    ensures { NumbersCountLaw }
{}

/// Whether a live id lies between two numbers, as snapshots tell it.
pub fn live_told()
    ensures { LiveToldLaw }
{}
