//! A new row.
ghost use Rattle.std.specs.Prelude.{◌≡◌, ◌≢◌, ◌+◌, ◌^◌, ◌<◌, ◌≤◌, Some, None, IsOk, IfOk, OnOk, OnErr, vec_len, vec_capacity};
ghost use Rattle.std.specs.FinMap.Entries.{put};
ghost use Rattle.hs_types.specs.declared.ids.InodeId.{InodeId};
ghost use Rattle.inode_table.specs.Indexed.{noted, IsRising};
ghost use Rattle.inode_table.specs.Kept.{told, rows_in, IsBare, HasInsertRoom, UsesInsert};
ghost use Rattle.inode_table.specs.Numbered.{row_of, at_place, history_of, state_of};
ghost use Rattle.inode_table.specs.RowHistory.{id_order};
ghost use Rattle.inode_table.specs.Slots.{table_in};
ghost use Rattle.inode_table.specs.Tabled.{inserted, stamp_of};
ghost use Rattle.inode_table.specs.Totals.{weight, block_count};

use crate::noted::{Noted, note};
use crate::preparing::make_room;
use crate::row::{Row, Rows};
use crate::table::Table;
use hs_types::{InodeId, NoMemory, SnapId};

impl Table {
    /// A new row, of which no list is told yet.
    pub fn insert(&mut self, id: InodeId, rows: Rows, since: SnapId) -> Result<(), NoMemory>
        requires above { self.old.greatest < id.0 }
        requires bare { IsBare (history_of rows) }
        requires bound { weight (told self.old).rows < 2 ^ 32 }
        ensures ok { OnOk result (told self.new ≡ inserted id (history_of rows) since.0 (told self.old)) }
        ensures err { OnErr result (told self.new ≡ told self.old) }
        ensures here { OnOk result (rows_in (row_of self.new.rows id) ≡ Some rows) }
        ensures there { (other : InodeId) → other ≢ id → row_of self.new.rows other ≡ row_of self.old.rows other }
        ensures room { HasInsertRoom id (history_of rows) self.old.greatest self.old.room → IsOk result }
        ensures kept { OnOk result (UsesInsert id (history_of rows) self.old.greatest self.old.room self.new.room) }
    {
        let blocks = sum(self.blocks, blocks_of(&rows))?;
        make_place(&mut self.rows, &mut self.index, &mut self.unnamed, id)?;
        note(&mut self.index, stamp(&rows), id);
        self.unnamed.push_reserved(id);
        place(&mut self.rows, id, fresh(rows, since));
        self.blocks = blocks;
        Ok(())
    }
}

/// A new row's marks, and no names.
fn fresh(rows: Rows, since: SnapId) -> Row
    ensures { result ≡ record { since = since; carry = record { 0 = 0 }; names = 0; rows = rows } }
{
    Row {
        since,
        carry: SnapId(0),
        names: 0,
        rows,
    }
}

/// The sum, where the memory of a machine can have so many.
pub fn sum(a: usize, b: usize) -> Result<usize, NoMemory>
    ensures ok { IfOk result (λ sum. sum ≡ a + b) }
    ensures room { a + b < 2 ^ 64 → IsOk result }
{
    if b <= usize::MAX - a {
        Ok(a + b)
    } else {
        Err(NoMemory)
    }
}

/// The stamp of the current state.
fn stamp(rows: &Rows) -> u64
    ensures { result ≡ stamp_of (history_of rows.now) }
{
    match rows {
        Rows::File(file) => file.current().stamp,
        Rows::Dir(dir) => dir.marks_at(SnapId(0)).stamp,
    }
}

/// How many blocks new rows name.
fn blocks_of(rows: &Rows) -> usize
    requires { IsBare (history_of rows.now) }
    ensures { result ≡ block_count (history_of rows.now) }
{
    match rows {
        Rows::File(file) => file.current().blocks.len(),
        Rows::Dir(_) => 0,
    }
}

/// Makes room for a row at that place, which is behind all.
fn make_place(
    rows: &mut Vec<Option<Row>>,
    index: &mut Vec<Noted>,
    unnamed: &mut Vec<InodeId>,
    id: InodeId,
) -> Result<(), NoMemory>
    requires some { 0 < vec_len rows.old }
    requires behind { vec_len rows.old ≤ id.0 }
    ensures rows { rows.new.items ≡ rows.old.items }
    ensures rows_capacity { vec_capacity rows.old ≤ vec_capacity rows.new }
    ensures index { index.new.items ≡ index.old.items }
    ensures index_capacity { vec_capacity index.old ≤ vec_capacity index.new }
    ensures unnamed { unnamed.new.items ≡ unnamed.old.items }
    ensures unnamed_capacity { vec_capacity unnamed.old ≤ vec_capacity unnamed.new }
    ensures slot { OnOk result (id.0 < vec_capacity rows.new) }
    ensures entry { OnOk result (vec_len index.new < vec_capacity index.new) }
    ensures stack { OnOk result (vec_len unnamed.new + (id.0 + 2) ≤ vec_capacity unnamed.new) }
    ensures room { id.0 < vec_capacity rows.old → vec_len index.old < vec_capacity index.old → vec_len unnamed.old + (id.0 + 2) ≤ vec_capacity unnamed.old → IsOk result }
{
    let place = id.0 as usize;
    rows.reserve((place - rows.len()).saturating_add(1))?;
    make_room(index, unnamed, place.saturating_add(1), 1)
}

/// Puts a row at its place, which is behind all, where there is room.
fn place(rows: &mut Vec<Option<Row>>, id: InodeId, row: Row)
    requires behind { vec_len rows.old ≤ id.0 }
    requires room { id.0 < vec_capacity rows.old }
    ensures told { table_in rows.new.items ≡ put id_order id (state_of row) (table_in rows.old.items) }
    ensures here { at_place rows.new.items id ≡ Some row }
    ensures there { (other : InodeId) → other ≢ id → at_place rows.new.items other ≡ at_place rows.old.items other }
    ensures free { at_place rows.old.items id ≡ None }
    ensures len { vec_len rows.new ≡ id.0 + 1 }
    ensures capacity { vec_capacity rows.new ≡ vec_capacity rows.old }
{
    let at = id.0 as usize;
    'fill: while rows.len() < at {
        rows.push_reserved(None);
    }
    rows.push_reserved(Some(row));
}
