//! A change of one row.
ghost use Rattle.std.specs.Prelude.{◌≡◌, ◌≢◌, ℕ, ◌+◌, ◌^◌, ◌<◌, ◌≤◌, Some, None, IsOk, IfOk, OnOk, OnErr, cond, nat_lt, length, slice_set, vec_len, vec_capacity};
ghost use Rattle.std.specs.Option.{option_map};
ghost use Rattle.hs_types.specs.declared.ids.InodeId.{InodeId};
ghost use Rattle.dir_changes.specs.Entries.{id_at};
ghost use Rattle.dir_changes.specs.History.{last_number, added, removed};
ghost use Rattle.dir_changes.specs.Sound.{IsSound};
ghost use Rattle.inode_table.specs.declared.change.Recount.TheVariants as recounts;
ghost use Rattle.file_changes.specs.History as files;
ghost use Rattle.inode_table.specs.Edited.{begun, stamp_dir};
ghost use Rattle.inode_table.specs.Kept.{told, rows_in, AreSound, CanChange, FitsFile, FitsDir, FitsRows, IsReady, IsRowReady, HasChangeRoom, UsesChange, blocks_grown, blocks_more};
ghost use Rattle.inode_table.specs.Numbered.{row_of, at_place, history_of, state_of};
ghost use Rattle.inode_table.specs.RowHistory.{File, last_in, row_at};
ghost use Rattle.inode_table.specs.Recounts.{FitsSlot, IsSoundSlot, blocks_edited};
ghost use Rattle.inode_table.specs.Tabled.{changed, changed_rows, changed_row, begun_file, begun_rows, edited_file, edited_dir, lost_unless, recount_in, recount_of, recount_dir, recount_removed, starts_in};
ghost use Rattle.inode_table.specs.Totals.{weight, block_count};

use crate::change::{Change, Recount};
use crate::inserting::sum;
use crate::noted::note_start;
use crate::preparing::make_room;
use crate::recounting::recount;
use crate::row::{Row, Rows};
use crate::table::{Table, row_at};
use dir_changes::DirRows;
use file_changes::FileRows;
use hs_types::{InodeId, Name, NoMemory, SnapId};

impl Table {
    /// Changes the current state of a row that is there. `cover` is the number of the record that saves the present state: where it
    /// is above the row's last number such a record is started before, and else, as with 0, none is. The definitions say when a live
    /// snapshot needs one (`need`).
    pub fn change(
        &mut self,
        id: InodeId,
        cover: SnapId,
        tick: u64,
        what: Change,
    ) -> Result<(), NoMemory>
        requires can { CanChange (told self.old).rows id what }
        requires bound { weight (told self.old).rows < 2 ^ 32 }
        ensures ok { OnOk result (told self.new ≡ changed id cover.0 tick what (told self.old)) }
        ensures err { OnErr result (told self.new ≡ told self.old) }
        ensures there { (other : InodeId) → other ≢ id → rows_in (row_of self.new.rows other) ≡ rows_in (row_of self.old.rows other) }
        ensures room { HasChangeRoom (blocks_grown cover.0 tick what (row_at (told self.old).rows id)) self.old.room → IsRowReady 1 cover.0 (row_of self.old.rows id) → IsOk result }
        ensures kept { OnOk result (UsesChange (blocks_grown cover.0 tick what (row_at (told self.old).rows id)) self.old.room self.new.room) }
        ensures ready { OnOk result ((n : ℕ) → IsRowReady (n + 1) cover.0 (row_of self.old.rows id) → IsRowReady n cover.0 (row_of self.new.rows id)) }
    {
        let blocks = blocks_after(&self.rows, id, cover, &what, self.blocks)?;
        let starts = starts_at(&self.rows, id, cover);
        make_room(&mut self.index, &mut self.unnamed, self.rows.len(), 1)?;
        let counted = change_at(&mut self.rows, id, cover, tick, what)?;
        recount(&mut self.rows, &mut self.unnamed, counted);
        note_start(&mut self.index, starts, tick, id);
        self.blocks = blocks;
        Ok(())
    }
}

/// Starts a record where its number is above the last.
fn begin_file(file: &mut FileRows, cover: SnapId) -> Result<(), NoMemory>
    ensures ok { OnOk result (file.new.history ≡ begun_file cover.0 file.old.history) }
    ensures covered { OnOk result (cover.0 ≤ files.last_number file.new.history) }
    ensures err { OnErr result (file.new.history ≡ file.old.history) }
    ensures room { (files.last_number file.old.history < cover.0 → 0 < file.old.saves) → IsOk result }
{
    if file.last_number() < cover {
        file.save(cover)?;
    }
    Ok(())
}

/// Changes a file's current state.
fn edit_file(file: &mut FileRows, tick: u64, what: Change)
    requires { FitsFile what }
    ensures edited { file.new.history ≡ edited_file tick what file.old.history }
    ensures last { files.last_number file.new.history ≡ files.last_number file.old.history }
{
    match what {
        Change::Mode(mode) => file.set_mode(mode, tick),
        Change::Body { size, blocks } => file.set_body(size, blocks, tick),
        Change::Move(spot) => file.set_spot(spot),
        Change::Add { .. } => unreachable!(),
        Change::Remove { .. } => unreachable!(),
    }
}

/// A record where its number is above the last, and then the change.
fn change_file(file: &mut FileRows, cover: SnapId, tick: u64, what: Change) -> Result<(), NoMemory>
    requires { FitsFile what }
    ensures ok { OnOk result (file.new.history ≡ edited_file tick what (begun_file cover.0 file.old.history)) }
    ensures covered { OnOk result (cover.0 ≤ files.last_number file.new.history) }
    ensures err { OnErr result (file.new.history ≡ file.old.history) }
    ensures room { (files.last_number file.old.history < cover.0 → 0 < file.old.saves) → IsOk result }
{
    begin_file(file, cover)?;
    edit_file(file, tick, what);
    Ok(())
}

/// Starts a record where its number is above the last, with room for an edit.
fn begin_dir(dir: &mut DirRows, cover: SnapId) -> Result<(), NoMemory>
    ensures sound { IsSound dir.old.history }
    ensures ok { OnOk result (dir.new.history ≡ begun cover.0 dir.old.history) }
    ensures covered { OnOk result (cover.0 ≤ last_number dir.new.history) }
    ensures ready { OnOk result (last_number dir.old.history < cover.0 → 0 < dir.new.room.edits) }
    ensures kept { OnOk result (dir.old.room.edits ≤ dir.new.room.edits) }
    ensures err { OnErr result (dir.new.history ≡ dir.old.history) }
    ensures room { (last_number dir.old.history < cover.0 → (0 < dir.old.room.starts) × (0 < dir.old.room.edits)) → IsOk result }
{
    let ready = dir.is_ready();
    if dir.last_number() < cover {
        if !ready {
            dir.prepare()?;
        }
        dir.start_record(cover)?;
    }
    Ok(())
}

/// Sets the stamp alone.
fn stamp_now(dir: &mut DirRows, tick: u64)
    ensures stamped { dir.new.history ≡ stamp_dir tick dir.old.history }
    ensures last { last_number dir.new.history ≡ last_number dir.old.history }
    ensures room { dir.new.room ≡ dir.old.room }
{
    let mode = dir.marks_at(SnapId(0)).mode;
    dir.set_mode(mode, tick);
}

fn add_entry(dir: &mut DirRows, name: Name, id: InodeId, tick: u64) -> Result<Recount, NoMemory>
    requires { id_at name dir.old.history.children ≡ None }
    ensures recount { IfOk result (λ recount. recount ≡ recounts.More id) }
    ensures ok { OnOk result (dir.new.history ≡ stamp_dir tick (added name id dir.old.history)) }
    ensures last { OnOk result (last_number dir.new.history ≡ last_number dir.old.history) }
    ensures err { OnErr result (dir.new.history ≡ dir.old.history) }
    ensures room { 0 < dir.old.room.edits → IsOk result }
    ensures kept { OnOk result (dir.old.room.edits ≤ dir.new.room.edits + 1) }
{
    dir.add(name, id)?;
    stamp_now(dir, tick);
    Ok(Recount::More(id))
}

fn remove_entry(dir: &mut DirRows, name: &Name, tick: u64) -> Result<Recount, NoMemory>
    ensures recount { IfOk result (λ recount. recount ≡ recount_removed name.now dir.old.history) }
    ensures ok { OnOk result (dir.new.history ≡ stamp_dir tick (removed name.now dir.old.history)) }
    ensures last { OnOk result (last_number dir.new.history ≡ last_number dir.old.history) }
    ensures err { OnErr result (dir.new.history ≡ dir.old.history) }
    ensures room { 0 < dir.old.room.edits → IsOk result }
    ensures kept { OnOk result (dir.old.room.edits ≤ dir.new.room.edits + 1) }
{
    let keeps = dir.keeps_removed(name);
    let id = dir.remove(name)?;
    stamp_now(dir, tick);
    Ok(recount_of_removed(id, keeps))
}

/// A removed entry is named as often where a deleted list gets it.
fn recount_of_removed(id: Option<InodeId>, keeps: bool) -> Recount
    ensures { result ≡ lost_unless keeps id }
{
    match id {
        Some(id) => {
            if keeps {
                Recount::Same
            } else {
                Recount::Less(id)
            }
        }
        None => Recount::Same,
    }
}

/// Changes a directory's current state.
fn edit_dir(dir: &mut DirRows, tick: u64, what: Change) -> Result<Recount, NoMemory>
    requires { FitsDir what dir.old.history }
    ensures recount { IfOk result (λ recount. recount ≡ recount_dir what dir.old.history) }
    ensures ok { OnOk result (dir.new.history ≡ edited_dir tick what dir.old.history) }
    ensures last { OnOk result (last_number dir.new.history ≡ last_number dir.old.history) }
    ensures err { OnErr result (dir.new.history ≡ dir.old.history) }
    ensures room { 0 < dir.old.room.edits → IsOk result }
    ensures kept { OnOk result (dir.old.room.edits ≤ dir.new.room.edits + 1) }
{
    match what {
        Change::Mode(mode) => {
            dir.set_mode(mode, tick);
            Ok(Recount::Same)
        }
        Change::Move(spot) => {
            dir.set_spot(spot);
            Ok(Recount::Same)
        }
        Change::Add { name, id } => add_entry(dir, name, id, tick),
        Change::Remove { name } => remove_entry(dir, &name, tick),
        Change::Body { .. } => unreachable!(),
    }
}

/// A record where its number is above the last, and then the change.
fn change_dir(
    dir: &mut DirRows,
    cover: SnapId,
    tick: u64,
    what: Change,
) -> Result<Recount, NoMemory>
    requires { FitsDir what dir.old.history }
    ensures sound { IsSound dir.old.history }
    ensures recount { IfOk result (λ recount. recount ≡ recount_dir what (begun cover.0 dir.old.history)) }
    ensures ok { OnOk result (dir.new.history ≡ edited_dir tick what (begun cover.0 dir.old.history)) }
    ensures covered { OnOk result (cover.0 ≤ last_number dir.new.history) }
    ensures err { OnErr result (dir.new.history ≡ dir.old.history) }
    ensures room { (last_number dir.old.history < cover.0 → 0 < dir.old.room.starts) → 0 < dir.old.room.edits → IsOk result }
    ensures kept { OnOk result (dir.old.room.edits ≤ dir.new.room.edits + 1) }
{
    begin_dir(dir, cover)?;
    edit_dir(dir, tick, what)
}

/// A row changed, and what it means for how often rows are named.
fn change_row(row: &mut Row, cover: SnapId, tick: u64, what: Change) -> Result<Recount, NoMemory>
    requires { FitsRows what (history_of row.old.rows) }
    ensures sound { AreSound (history_of row.old.rows) }
    ensures recount { IfOk result (λ recount. recount ≡ recount_of what (begun_rows cover.0 (history_of row.old.rows))) }
    ensures ok { OnOk result (state_of row.new ≡ changed_row cover.0 tick what (state_of row.old)) }
    ensures err { OnErr result (state_of row.new ≡ state_of row.old) }
    ensures room { IsReady 1 cover.0 row.old.rows → IsOk result }
    ensures kept { OnOk result ((n : ℕ) → IsReady (n + 1) cover.0 row.old.rows → IsReady n cover.0 row.new.rows) }
{
    match &mut row.rows {
        Rows::File(file) => {
            change_file(file, cover, tick, what)?;
            Ok(Recount::Same)
        }
        Rows::Dir(dir) => change_dir(dir, cover, tick, what),
    }
}

fn change_slot(
    slot: &mut Option<Row>,
    cover: SnapId,
    tick: u64,
    what: Change,
) -> Result<Recount, NoMemory>
    requires { FitsSlot what slot.old }
    ensures sound { IsSoundSlot slot.old }
    ensures recount { IfOk result (λ recount. recount ≡ recount_in cover.0 what (option_map state_of slot.old)) }
    ensures ok { OnOk result (option_map state_of slot.new ≡ option_map (changed_row cover.0 tick what) (option_map state_of slot.old)) }
    ensures err { OnErr result (option_map state_of slot.new ≡ option_map state_of slot.old) }
    ensures room { IsRowReady 1 cover.0 slot.old → IsOk result }
    ensures kept { OnOk result ((n : ℕ) → IsRowReady (n + 1) cover.0 slot.old → IsRowReady n cover.0 slot.new) }
{
    match slot {
        Some(row) => change_row(row, cover, tick, what),
        None => unreachable!(),
    }
}

/// Changes the row at an inode's place.
fn change_at(
    rows: &mut Vec<Option<Row>>,
    id: InodeId,
    cover: SnapId,
    tick: u64,
    what: Change,
) -> Result<Recount, NoMemory>
    requires { FitsSlot what (at_place rows.old.items id) }
    ensures set { rows.new.items ≡ slice_set rows.old.items id.0 (at_place rows.new.items id) }
    ensures sound { IsSoundSlot (at_place rows.old.items id) }
    ensures recount { IfOk result (λ recount. recount ≡ recount_in cover.0 what (option_map state_of (at_place rows.old.items id))) }
    ensures ok { OnOk result (option_map state_of (at_place rows.new.items id) ≡ option_map (changed_row cover.0 tick what) (option_map state_of (at_place rows.old.items id))) }
    ensures err { OnErr result (option_map state_of (at_place rows.new.items id) ≡ option_map state_of (at_place rows.old.items id)) }
    ensures room { IsRowReady 1 cover.0 (at_place rows.old.items id) → IsOk result }
    ensures kept { OnOk result ((n : ℕ) → IsRowReady (n + 1) cover.0 (at_place rows.old.items id) → IsRowReady n cover.0 (at_place rows.new.items id)) }
    ensures len { vec_len rows.new ≡ vec_len rows.old }
    ensures capacity { vec_capacity rows.new ≡ vec_capacity rows.old }
{
    change_slot(&mut rows[id.0 as usize], cover, tick, what)
}

/// Whether a change with that cover starts a record.
pub fn starts_at(rows: &Vec<Option<Row>>, id: InodeId, cover: SnapId) -> bool
    ensures { result ≡ starts_in cover.0 (option_map state_of (at_place rows.now.items id)) }
{
    match row_at(rows, id) {
        Some(row) => last_of(row) < cover,
        None => false,
    }
}

/// The number of the last record, or 0.
fn last_of(row: &Row) -> SnapId
    ensures { result.0 ≡ last_in (history_of row.now.rows) }
{
    match &row.rows {
        Rows::File(file) => file.last_number(),
        Rows::Dir(dir) => dir.last_number(),
    }
}

/// How many blocks the states of all rows name after a change, where these are named before it.
fn blocks_after(
    rows: &Vec<Option<Row>>,
    id: InodeId,
    cover: SnapId,
    what: &Change,
    blocks: usize,
) -> Result<usize, NoMemory>
    requires { (row : Row) → at_place rows.now.items id ≡ Some row → block_count (history_of row.rows) ≤ blocks }
    ensures ok { IfOk result (λ after. (row : Row) → at_place rows.now.items id ≡ Some row → (tick : ℕ) → after + block_count (history_of row.rows) ≡ blocks + block_count (changed_rows cover.0 tick what.now (history_of row.rows))) }
    ensures room { ((tick : ℕ) → blocks + blocks_grown cover.0 tick what.now (option_map state_of (at_place rows.now.items id)) < 2 ^ 64) → IsOk result }
{
    match row_at(rows, id) {
        Some(row) => blocks_of_row(&row.rows, cover, what, blocks),
        None => Ok(blocks),
    }
}

fn blocks_of_row(
    rows: &Rows,
    cover: SnapId,
    what: &Change,
    blocks: usize,
) -> Result<usize, NoMemory>
    requires { block_count (history_of rows.now) ≤ blocks }
    ensures ok { IfOk result (λ after. (tick : ℕ) → after + block_count (history_of rows.now) ≡ blocks + block_count (changed_rows cover.0 tick what.now (history_of rows.now))) }
    ensures room { ((tick : ℕ) → blocks + blocks_more (history_of rows.now) (changed_rows cover.0 tick what.now (history_of rows.now)) < 2 ^ 64) → IsOk result }
{
    match rows {
        Rows::File(file) => blocks_of_file(file, cover, what, blocks),
        Rows::Dir(_) => Ok(blocks),
    }
}

fn blocks_of_file(
    file: &FileRows,
    cover: SnapId,
    what: &Change,
    blocks: usize,
) -> Result<usize, NoMemory>
    requires { block_count (File file.now.history) ≤ blocks }
    ensures ok { IfOk result (λ after. (tick : ℕ) → after + block_count (File file.now.history) ≡ blocks + block_count (changed_rows cover.0 tick what.now (File file.now.history))) }
    ensures room { ((tick : ℕ) → blocks + blocks_more (File file.now.history) (changed_rows cover.0 tick what.now (File file.now.history)) < 2 ^ 64) → IsOk result }
{
    let own = own_blocks(file);
    let others = blocks_of_others(file, cover, own, blocks);
    let now = blocks_of_change(what, own);
    sum(others, now)
}

fn own_blocks(file: &FileRows) -> usize
    ensures { result ≡ length file.now.history.current.blocks }
{
    file.current().blocks.len()
}

/// All but those of the current state, which count where a record is started that saves it.
fn blocks_of_others(file: &FileRows, cover: SnapId, own: usize, blocks: usize) -> usize
    requires { own ≤ blocks }
    ensures { result + own ≡ blocks + cond (nat_lt (files.last_number file.now.history) cover.0) own 0 }
{
    if file.last_number() < cover {
        blocks
    } else {
        blocks - own
    }
}

/// How many blocks the current state of a file names after a change.
fn blocks_of_change(what: &Change, own: usize) -> usize
    ensures { result ≡ blocks_edited what.now own }
{
    match what {
        Change::Body { blocks, .. } => blocks.len(),
        Change::Mode(_) => own,
        Change::Add { .. } => own,
        Change::Remove { .. } => own,
        Change::Move(_) => own,
    }
}
