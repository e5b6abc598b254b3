//! A file's list of blocks, lent while it grows, so that no id in it is copied.
ghost use Rattle.std.specs.Prelude.{◌≡◌, ◌≢◌, ◌+◌, ◌<◌, ◌≤◌, [], Some, length, slice_set, vec_len, vec_capacity};
ghost use Rattle.std.specs.Option.{option_map};
ghost use Rattle.hs_types.specs.declared.ids.InodeId.{InodeId};
ghost use Rattle.inode_table.specs.Kept.{told};
ghost use Rattle.inode_table.specs.Lent.{current_blocks, given_for, row_with, with_blocks, LendsRoom};
ghost use Rattle.inode_table.specs.Numbered.{row_of, at_place, state_of};
ghost use Rattle.inode_table.specs.RowHistory.{row_at, rows_at};
ghost use Rattle.inode_table.specs.Tabled.{starts_in};

use crate::changing::starts_at;
use crate::row::{Row, Rows};
use crate::table::Table;
use file_changes::FileRows;
use hs_types::{BlockId, InodeId, List, SnapId};

impl Table {
    /// Whether a change with that cover starts a record.
    pub fn starts_record(&self, id: InodeId, cover: SnapId) -> bool
        ensures { result ≡ starts_in cover.0 (row_at (told self.now).rows id) }
    {
        starts_at(&self.rows, id, cover)
    }

    /// Takes the list of blocks out of the current state of a file, and leaves an empty one. It takes no memory.
    pub fn take_blocks(&mut self, id: InodeId) -> List<BlockId>
        ensures blocks { result ≡ current_blocks (rows_at (told self.old).rows id) }
        ensures whole { told self.new ≡ with_blocks id [] (told self.old) }
        ensures there { (other : InodeId) → other ≢ id → row_of self.new.rows other ≡ row_of self.old.rows other }
        ensures room { LendsRoom (length result) self.old.room self.new.room }
    {
        let alloc = *self.rows.allocator();
        let taken = swap_at(&mut self.rows, id, List::new(alloc));
        self.blocks -= taken.len();
        taken
    }

    /// Puts a list of blocks into the current state of a file, in place of the one there. It takes no memory. Where there is no file
    /// the list is dropped.
    pub fn put_blocks(&mut self, id: InodeId, blocks: List<BlockId>)
        requires room { length blocks < self.old.room.blocks }
        ensures whole { told self.new ≡ with_blocks id blocks (told self.old) }
        ensures there { (other : InodeId) → other ≢ id → row_of self.new.rows other ≡ row_of self.old.rows other }
        ensures slots { self.new.room.slots ≡ self.old.room.slots }
        ensures index { self.new.room.index ≡ self.old.room.index }
        ensures stack { self.new.room.stack ≡ self.old.room.stack }
        ensures blocks { self.old.room.blocks ≤ self.new.room.blocks + length blocks }
    {
        let count = blocks.len();
        let stood = swap_at(&mut self.rows, id, blocks);
        self.blocks = self.blocks + count - stood.len();
    }
}

/// Exchanges the list of blocks of the file at an inode's place. Where there is no file the list is given back.
fn swap_at(rows: &mut Vec<Option<Row>>, id: InodeId, blocks: List<BlockId>) -> List<BlockId>
    ensures set { rows.new.items ≡ slice_set rows.old.items id.0 (at_place rows.new.items id) }
    ensures state { option_map state_of (at_place rows.new.items id) ≡ option_map (row_with blocks) (option_map state_of (at_place rows.old.items id)) }
    ensures given { result ≡ given_for blocks (option_map state_of (at_place rows.old.items id)) }
    ensures len { vec_len rows.new ≡ vec_len rows.old }
    ensures capacity { vec_capacity rows.new ≡ vec_capacity rows.old }
{
    let place = id.0 as usize;
    if place < rows.len() {
        swap_slot(&mut rows[place], blocks)
    } else {
        blocks
    }
}

fn swap_slot(slot: &mut Option<Row>, blocks: List<BlockId>) -> List<BlockId>
    ensures state { option_map state_of slot.new ≡ option_map (row_with blocks) (option_map state_of slot.old) }
    ensures given { result ≡ given_for blocks (option_map state_of slot.old) }
{
    match slot {
        Some(row) => swap_row(row, blocks),
        None => blocks,
    }
}

fn swap_row(row: &mut Row, blocks: List<BlockId>) -> List<BlockId>
    ensures state { state_of row.new ≡ row_with blocks (state_of row.old) }
    ensures given { result ≡ given_for blocks (Some (state_of row.old)) }
{
    match &mut row.rows {
        Rows::File(file) => swap_file(file, blocks),
        Rows::Dir(_) => blocks,
    }
}

/// The list goes in with the size and the stamp that are there.
fn swap_file(file: &mut FileRows, blocks: List<BlockId>) -> List<BlockId>
    ensures history { file.new.history ≡ record file.old.history { current = record file.old.history.current { blocks = blocks } } }
    ensures given { result ≡ file.old.history.current.blocks }
{
    let stood = file.take_blocks();
    let size = file.current().size;
    let stamp = file.current().stamp;
    file.set_body(size, blocks, stamp);
    stood
}
