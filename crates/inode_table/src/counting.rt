//! How much a table keeps.
ghost use Rattle.std.specs.Prelude.{◌≡◌, ◌+◌, ◌^◌, ◌<◌, ◌≤◌};
ghost use Rattle.dir_changes.specs.Counts.{list_entries};
ghost use Rattle.inode_table.specs.Kept.{told};
ghost use Rattle.inode_table.specs.Numbered.{history_of};
ghost use Rattle.inode_table.specs.Slots.{table_in};
ghost use Rattle.inode_table.specs.Places.{entries_at, slot_rows, slot_records, slot_entries, slot_weight};
ghost use Rattle.inode_table.specs.Totals.{counts_of, records_in, entries_of, weight};

use crate::row::{Row, Rows};
use crate::table::Table;
use dir_changes::DirRows;

/// How many rows, records and entries of lists there are.
#[derive(Clone, Copy, Debug, PartialEq, Eq)]
pub struct TableCounts {
    pub rows: u64,
    pub records: u64,
    pub list_entries: u64,
}

impl Table {
    /// Counted anew, in one pass over the rows.
    pub fn counts(&self) -> TableCounts
        ensures { result ≡ counts_of (told self.now).rows }
    {
        count_rows(self.rows.as_slice())
    }
}

fn count_rows(rows: &[Option<Row>]) -> TableCounts
    requires { weight (table_in rows.now) ≤ 2 ^ 32 + 2 }
    ensures { result ≡ counts_of (table_in rows.now) }
{
    let mut counts = TableCounts {
        rows: 0,
        records: 0,
        list_entries: 0,
    };
    for slot in rows {
        counts = plus(counts, slot);
    }
    counts
}

/// With those of one row more, where it is there.
fn plus(counts: TableCounts, slot: &Option<Row>) -> TableCounts
    requires { counts.rows + (counts.records + counts.list_entries) + slot_weight slot.now < 2 ^ 63 }
    ensures rows { result.rows ≡ counts.rows + slot_rows slot.now }
    ensures records { result.records ≡ counts.records + slot_records slot.now }
    ensures entries { result.list_entries ≡ counts.list_entries + slot_entries slot.now }
{
    match slot {
        Some(row) => TableCounts {
            rows: counts.rows + 1,
            records: counts.records + records_of(&row.rows),
            list_entries: counts.list_entries + entries_of(&row.rows),
        },
        None => counts,
    }
}

fn records_of(rows: &Rows) -> u64
    ensures { result ≡ records_in (history_of rows.now) }
{
    match rows {
        Rows::File(file) => file.count() as u64,
        Rows::Dir(dir) => dir.count() as u64,
    }
}

fn entries_of(rows: &Rows) -> u64
    requires { entries_of (history_of rows.now) < 2 ^ 63 }
    ensures { result ≡ entries_of (history_of rows.now) }
{
    match rows {
        Rows::File(_) => 0,
        Rows::Dir(dir) => entries_of_dir(dir),
    }
}

fn entries_of_dir(dir: &DirRows) -> u64
    requires { list_entries dir.now.history < 2 ^ 63 }
    ensures { result ≡ list_entries dir.now.history }
{
    let mut entries = dir.current().len() as u64;
    for i in 0..dir.count() {
        entries += entries_at(dir, i);
    }
    entries
}

/// The entries of record `i`.
fn entries_at(dir: &DirRows, i: usize) -> u64
    requires { list_entries dir.now.history < 2 ^ 63 }
    ensures { result ≡ entries_at i dir.now.history.records }
{
    match dir.saved(i) {
        Some(saved) => saved.created.len() as u64 + saved.deleted.len() as u64,
        None => 0,
    }
}
