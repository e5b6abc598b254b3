//! A record that no snapshot needs any more is taken away.
ghost use Rattle.std.specs.Prelude.{◌≡◌, ◌≢◌, ◌<◌, length, slice_set, Some, OnOk, vec_len, vec_capacity};
ghost use Rattle.std.specs.List.{Contains};
ghost use Rattle.std.specs.Option.{option_map};
ghost use Rattle.hs_types.specs.declared.ids.InodeId.{InodeId};
ghost use Rattle.inode_table.specs.declared.row.Rows.TheVariants as kinds;
ghost use Rattle.inode_table.specs.Dropping.{HasRecord, Drops, DropsRow, DropsAt};
ghost use Rattle.inode_table.specs.Kept.{told, rows_in, KeepsRoom};
ghost use Rattle.inode_table.specs.Merged.{merged, ids_dropped_at, IsMergeable, IsRowMergeable, CanMerge, KeepsRow, LeavesRow, LeavesRoom};
ghost use Rattle.inode_table.specs.Numbered.{row_of, at_place, history_of, state_of};
ghost use Rattle.inode_table.specs.Slots.{table_in};
ghost use Rattle.inode_table.specs.Totals.{records_in};

use crate::releasing::{name_all_less, saved_blocks, wait};
use crate::row::{Row, Rows};
use crate::table::Table;
use dir_changes::DirRows;
use file_changes::FileRows;
use hs_types::{BlockId, InodeId, List, NoMemory};
use std::alloc::Global;

/// What goes with a record: the entries that no list has any more, by their inodes, and the blocks that no state of the row names any more.
#[derive(Debug, Drop)]
pub struct Dropped {
    pub ids: List<InodeId>,
    pub blocks: List<BlockId>,
    /// How many blocks the record named.
    pub count: usize,
}

impl Table {
    /// Takes record `i` of a row away: a file's is dropped, a directory's is taken into the one before it, or dropped as the first.
    /// It takes no memory.
    pub fn merge(&mut self, id: InodeId, i: usize)
        requires { CanMerge self.old id i }
        ensures merged { told self.new ≡ merged id i (told self.old) }
        ensures here { LeavesRow (rows_in (row_of self.old.rows id)) (rows_in (row_of self.new.rows id)) }
        ensures there { (other : InodeId) → other ≢ id → rows_in (row_of self.new.rows other) ≡ rows_in (row_of self.old.rows other) }
        ensures room { LeavesRoom (length (ids_dropped_at i (row_of self.old.rows id))) self.old.room self.new.room }
    {
        let alloc = *self.rows.allocator();
        let dropped = drop_record(&mut self.rows, alloc, id, i);
        name_all_less(&mut self.rows, &mut self.unnamed, dropped.ids.items());
        wait(&mut self.waiting, dropped.blocks.items());
        self.blocks -= dropped.count;
    }
}

/// Takes record `i` of the row at an inode's place away.
fn drop_record(rows: &mut Vec<Option<Row>>, alloc: Global, id: InodeId, i: usize) -> Dropped
    requires { HasRecord i (at_place rows.old.items id) }
    ensures dropped { DropsAt i (at_place rows.old.items id) (at_place rows.new.items id) result }
    ensures rows { rows.new.items ≡ slice_set rows.old.items id.0 (at_place rows.new.items id) }
    ensures slots { vec_capacity rows.new ≡ vec_capacity rows.old }
{
    match &mut rows[id.0 as usize] {
        Some(row) => drop_of_row(row, alloc, i),
        None => unreachable!(),
    }
}

fn drop_of_row(row: &mut Row, alloc: Global, i: usize) -> Dropped
    requires has { i < records_in (history_of row.old.rows) }
    requires prepared { IsMergeable row.old.rows }
    ensures { DropsRow i row.old row.new result }
{
    drop_of_rows(&mut row.rows, alloc, i)
}

fn drop_of_rows(rows: &mut Rows, alloc: Global, i: usize) -> Dropped
    requires has { i < records_in (history_of rows.old) }
    requires prepared { IsMergeable rows.old }
    ensures { Drops i rows.old rows.new result }
{
    match rows {
        Rows::File(file) => drop_of_file(file, alloc, i),
        Rows::Dir(dir) => drop_of_dir(dir, alloc, i),
    }
}

fn drop_of_file(file: &mut FileRows, alloc: Global, i: usize) -> Dropped
    requires { i < length file.old.history.records }
    ensures { Drops i (kinds.File file.old) (kinds.File file.new) result }
{
    let count = saved_blocks(file, i);
    let blocks = file.drop_at(i);
    Dropped {
        ids: List::new(alloc),
        blocks,
        count,
    }
}

fn drop_of_dir(dir: &mut DirRows, alloc: Global, i: usize) -> Dropped
    requires has { i < length dir.old.history.records }
    requires prepared { 0 < dir.old.room.merges }
    ensures { Drops i (kinds.Dir dir.old) (kinds.Dir dir.new) result }
{
    match dir.combine(i) {
        Ok(ids) => Dropped {
            ids,
            blocks: List::new(alloc),
            count: 0,
        },
        Err(_) => unreachable!(),
    }
}
