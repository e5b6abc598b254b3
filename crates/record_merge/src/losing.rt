//! Which record of a row has no live snapshot in its interval.
ghost use Rattle.std.specs.Prelude.{◌≡◌, ◌≢◌, ℕ, suc, ◌<◌, List, None, length, IfSome};
ghost use Rattle.hs_types.specs.declared.ids.InodeId.{InodeId};
ghost use Rattle.inode_table.specs.declared.row.Row.{Row};
ghost use Rattle.inode_table.specs.Numbered.{row_of, history_of};
ghost use Rattle.inode_table.specs.Records.{before_at, at_or};
ghost use Rattle.inode_table.specs.Whole.{numbers_in};
ghost use Rattle.table_laws.specs.RecordTold.{number_told};
ghost use Rattle.record_merge.specs.Dropping.{AllLive, IsLost, IsLostOf, AllLiveOf};

use hs_types::{InodeId, SnapId};
use inode_table::{Row, Rows, Table};
use snapshot_manager::Snaps;

/// The number of record `i`.
fn number_of(rows: &Rows, i: usize) -> Option<SnapId>
    ensures { result ≡ number_told (history_of rows.now) i }
{
    match rows {
        Rows::File(file) => file.number(i),
        Rows::Dir(dir) => dir.number(i),
    }
}

/// The number of record `i`, which is there.
fn number_at(rows: &Rows, i: usize) -> SnapId
    requires { i < length (numbers_in (history_of rows.now)) }
    ensures at { at_or (numbers_in (history_of rows.now)) i ≡ result.0 }
    ensures next { before_at 0 (numbers_in (history_of rows.now)) (suc i) ≡ result.0 }
{
    match number_of(rows, i) {
        Some(number) => number,
        None => unreachable!(),
    }
}

/// How many records a row has.
fn count_of(rows: &Rows) -> usize
    ensures { result ≡ length (numbers_in (history_of rows.now)) }
{
    match rows {
        Rows::File(file) => file.count(),
        Rows::Dir(dir) => dir.count(),
    }
}

/// The first record whose interval has no live id.
fn lost_in(rows: &Rows, snaps: &Snaps) -> Option<usize>
    ensures some { IfSome result (λ i. IsLost snaps.now (numbers_in (history_of rows.now)) i) }
    ensures none { result ≡ None → AllLive snaps.now (numbers_in (history_of rows.now)) }
{
    let mut low = SnapId(0);
    for i in 0..count_of(rows) {
        let number = number_at(rows, i);
        if !snaps.live_between(low, number) {
            return Some(i);
        }
        low = number;
    }
    None
}

/// The same of the row of an inode.
pub fn lost_of(table: &Table, snaps: &Snaps, id: InodeId) -> Option<usize>
    ensures some { IfSome result (λ i. IsLostOf snaps.now (row_of table.now.rows id) i) }
    ensures none { result ≡ None → AllLiveOf snaps.now (row_of table.now.rows id) }
{
    match table.row(id) {
        Some(row) => lost_in(&row.rows, snaps),
        None => None,
    }
}
