//! Room for calls to come.
ghost use Rattle.std.specs.Prelude.{◌≡◌, ℕ, ◌+◌, ◌*◌, ◌<◌, ◌≤◌, length, Some, IsTrue, IsOk, IfOk, OnOk, vec_len, vec_capacity};
ghost use Rattle.std.specs.List.{Contains};
ghost use Rattle.std.specs.Option.{option_map};
ghost use Rattle.hs_types.specs.declared.ids.InodeId.{InodeId};
ghost use Rattle.inode_table.specs.Kept.{told, IsRowReady, KeepsRoom, IsPrepared, blocks_ahead, all_ahead};
ghost use Rattle.inode_table.specs.Merged.{IsRowMergeable, KeepsRow};
ghost use Rattle.inode_table.specs.Numbered.{row_of, at_place, history_of, state_of};
ghost use Rattle.inode_table.specs.Prepared.{IsPreparedRow};
ghost use Rattle.inode_table.specs.RowHistory.{rows_at};
ghost use Rattle.inode_table.specs.Slots.{table_in};

use crate::inserting::sum;
use crate::noted::Noted;
use crate::row::{Row, Rows};
use crate::table::{Table, row_at};
use file_changes::FileRows;
use hs_types::{BlockId, InodeId, List, NoMemory};

impl Table {
    /// Makes room: afterwards an insertion of the next id without blocks, the next three calls of `change` with one cover on each
    /// of these rows that is there, and the next release, can't want memory, where each body has at most one block more than the
    /// one before it.
    pub fn prepare(&mut self, ids: &List<InodeId>) -> Result<(), NoMemory>
        ensures same { told self.new ≡ told self.old }
        ensures kept { KeepsRoom self.old.room self.new.room }
        ensures rows_kept { (id : InodeId) → KeepsRow (row_of self.old.rows id) (row_of self.new.rows id) }
        ensures room { OnOk result (IsPrepared (3 * length ids.now) (all_ahead (told self.old).rows ids.now) self.new.room) }
        ensures rows { OnOk result ((id : InodeId) → Contains ids.now id → (cover : ℕ) → IsRowReady 3 cover (row_of self.new.rows id)) }
    {
        let blocks = with_all_ahead(&self.rows, ids.items(), self.blocks)?;
        make_ahead(
            &mut self.rows,
            &mut self.index,
            &mut self.unnamed,
            ids.len(),
        )?;
        self.waiting.reserve(blocks)?;
        prepare_rows(&mut self.rows, ids.items(), true)
    }

    /// Makes room: afterwards one `merge` of each of these rows that is there, and the next release, can't want memory.
    pub fn prepare_merge(&mut self, ids: &List<InodeId>) -> Result<(), NoMemory>
        ensures same { told self.new ≡ told self.old }
        ensures kept { KeepsRoom self.old.room self.new.room }
        ensures rows_kept { (id : InodeId) → KeepsRow (row_of self.old.rows id) (row_of self.new.rows id) }
        ensures room { OnOk result (0 < self.new.room.blocks) }
        ensures rows { OnOk result ((id : InodeId) → Contains ids.now id → IsRowMergeable (row_of self.new.rows id)) }
    {
        self.waiting.reserve(self.blocks)?;
        prepare_rows(&mut self.rows, ids.items(), false)
    }
}

/// The sum of these blocks and of those that three changes of each of these rows may name beside them.
fn with_all_ahead(
    rows: &Vec<Option<Row>>,
    ids: &[InodeId],
    blocks: usize,
) -> Result<usize, NoMemory>
    ensures { IfOk result (λ sum. sum ≡ blocks + all_ahead (table_in rows.now.items) ids.now) }
{
    let mut all = blocks;
    for id in ids {
        all = with_ahead(rows, *id, all)?;
    }
    Ok(all)
}

fn with_ahead(rows: &Vec<Option<Row>>, id: InodeId, blocks: usize) -> Result<usize, NoMemory>
    ensures { IfOk result (λ sum. sum ≡ blocks + blocks_ahead (rows_at (table_in rows.now.items) id)) }
{
    match row_at(rows, id) {
        Some(row) => with_ahead_of(&row.rows, blocks),
        None => Ok(blocks),
    }
}

fn with_ahead_of(rows: &Rows, blocks: usize) -> Result<usize, NoMemory>
    ensures { IfOk result (λ sum. sum ≡ blocks + blocks_ahead (Some (history_of rows.now))) }
{
    match rows {
        Rows::File(file) => sum(blocks, sum(file.current().blocks.len(), 3)?),
        Rows::Dir(_) => Ok(blocks),
    }
}

/// Makes room for a row at the next place, and for three changes of each of so many rows.
fn make_ahead(
    rows: &mut Vec<Option<Row>>,
    index: &mut Vec<Noted>,
    unnamed: &mut Vec<InodeId>,
    count: usize,
) -> Result<(), NoMemory>
    ensures rows { rows.new.items ≡ rows.old.items }
    ensures rows_capacity { vec_capacity rows.old ≤ vec_capacity rows.new }
    ensures index { index.new.items ≡ index.old.items }
    ensures index_capacity { vec_capacity index.old ≤ vec_capacity index.new }
    ensures unnamed { unnamed.new.items ≡ unnamed.old.items }
    ensures unnamed_capacity { vec_capacity unnamed.old ≤ vec_capacity unnamed.new }
    ensures slot { OnOk result (vec_len rows.new < vec_capacity rows.new) }
    ensures entries { OnOk result (vec_len index.new + (3 * count + 1) ≤ vec_capacity index.new) }
    ensures stack { OnOk result (vec_len unnamed.new + vec_len rows.new + (3 * count + 2) ≤ vec_capacity unnamed.new) }
{
    let changes = count.saturating_mul(3);
    rows.reserve(1)?;
    let places = rows.len().saturating_add(1);
    make_room(index, unnamed, places, changes.saturating_add(1))
}

/// Makes room for so many entries more of the index, and for as many ids more on the stack than there are rows.
pub fn make_room(
    index: &mut Vec<Noted>,
    unnamed: &mut Vec<InodeId>,
    rows: usize,
    more: usize,
) -> Result<(), NoMemory>
    ensures index { index.new.items ≡ index.old.items }
    ensures index_capacity { vec_capacity index.old ≤ vec_capacity index.new }
    ensures unnamed { unnamed.new.items ≡ unnamed.old.items }
    ensures unnamed_capacity { vec_capacity unnamed.old ≤ vec_capacity unnamed.new }
    ensures entries { OnOk result (vec_len index.new + more ≤ vec_capacity index.new) }
    ensures stack { OnOk result (vec_len unnamed.new + (rows + more) ≤ vec_capacity unnamed.new) }
    ensures room { vec_len index.old + more ≤ vec_capacity index.old → vec_len unnamed.old + (rows + more) ≤ vec_capacity unnamed.old → IsOk result }
{
    index.reserve(more)?;
    unnamed.reserve(rows.saturating_add(more))?;
    Ok(())
}

/// Prepares each of these rows that is there for a merge, and where so for three changes too.
fn prepare_rows(rows: &mut Vec<Option<Row>>, ids: &[InodeId], changes: bool) -> Result<(), NoMemory>
    ensures told { table_in rows.new.items ≡ table_in rows.old.items }
    ensures len { vec_len rows.new ≡ vec_len rows.old }
    ensures capacity { vec_capacity rows.new ≡ vec_capacity rows.old }
    ensures kept { (id : InodeId) → KeepsRow (at_place rows.old.items id) (at_place rows.new.items id) }
    ensures ready { OnOk result ((id : InodeId) → Contains ids.now id → IsPreparedRow changes (at_place rows.new.items id)) }
{
    for id in ids {
        prepare_at(rows, *id, changes)?;
    }
    Ok(())
}

/// Prepares the row of an inode, where it is there.
fn prepare_at(rows: &mut Vec<Option<Row>>, id: InodeId, changes: bool) -> Result<(), NoMemory>
    ensures told { table_in rows.new.items ≡ table_in rows.old.items }
    ensures len { vec_len rows.new ≡ vec_len rows.old }
    ensures capacity { vec_capacity rows.new ≡ vec_capacity rows.old }
    ensures kept { (other : InodeId) → KeepsRow (at_place rows.old.items other) (at_place rows.new.items other) }
    ensures ready { OnOk result (IsPreparedRow changes (at_place rows.new.items id)) }
{
    let place = id.0 as usize;
    if place < rows.len() {
        prepare_slot(&mut rows[place], changes)
    } else {
        Ok(())
    }
}

fn prepare_slot(slot: &mut Option<Row>, changes: bool) -> Result<(), NoMemory>
    ensures same { option_map state_of slot.new ≡ option_map state_of slot.old }
    ensures kept { KeepsRow slot.old slot.new }
    ensures ready { OnOk result (IsPreparedRow changes slot.new) }
{
    match slot {
        Some(row) => prepare_row(row, changes),
        None => Ok(()),
    }
}

fn prepare_row(row: &mut Row, changes: bool) -> Result<(), NoMemory>
    ensures same { state_of row.new ≡ state_of row.old }
    ensures kept { KeepsRow (Some row.old) (Some row.new) }
    ensures ready { OnOk result (IsPreparedRow changes (Some row.new)) }
{
    match &mut row.rows {
        Rows::File(file) => prepare_file(file, changes),
        Rows::Dir(dir) => dir.prepare(),
    }
}

/// A file's records are dropped without memory.
fn prepare_file(file: &mut FileRows, changes: bool) -> Result<(), NoMemory>
    ensures same { file.new.history ≡ file.old.history }
    ensures kept { 0 < file.old.saves → 0 < file.new.saves }
    ensures ready { OnOk result (IsTrue changes → 0 < file.new.saves) }
{
    if changes { file.prepare() } else { Ok(()) }
}
