//! Rows that no list names are removed, with all that only they name.
ghost use Rattle.std.specs.Prelude.{◌≡◌, ℕ, ◌+◌, ◌^◌, ◌<◌, ◌≤◌, List, [], ◌++◌, length, slice_get, IsOk, IsSome, IfOk, OnErr, vec_len, vec_capacity};
ghost use Rattle.hs_types.specs.declared.ids.BlockId.{BlockId};
ghost use Rattle.file_changes.specs.History.{blocks_at};
ghost use Rattle.dir_changes.specs.History.{ids_of};
ghost use Rattle.dir_changes.specs.Counts as counts;
ghost use Rattle.dir_changes.specs.Counts.{deleted_ids};
ghost use Rattle.inode_table.specs.Names.{named_in};
ghost use Rattle.inode_table.specs.Numbered.{row_of, at_place, history_of};
ghost use Rattle.inode_table.specs.RowHistory.{File};
ghost use Rattle.inode_table.specs.Kept.{told, rows_in, KeepsRoom};
ghost use Rattle.inode_table.specs.Totals.{block_count, weight};
ghost use Rattle.inode_table.specs.Released.{blocks_below, blocks_in, Releasing};
ghost use Rattle.inode_table.specs.Slots.{Slots, table_in, named_rows, AreListed, AreListedBut};
ghost use Rattle.inode_table.specs.Lessened.{is_last, is_unnamed, lessen_at, lessen_all, ended, ended_at, deleted_of, TakenAt, StaysOrGoes, Steady, HaveGone};

use crate::freed::Freed;
use crate::row::{Row, Rows};
use crate::table::Table;
use dir_changes::{Child, DirRows};
use file_changes::FileRows;
use hs_types::{BlockId, InodeId, List, NoMemory};
use std::mem;

/// Counts one name less for the row of an inode, where it is there, and tells whether it was the last.
fn lessen(rows: &mut Vec<Option<Row>>, id: InodeId) -> bool
    ensures rows { rows.new.items ≡ lessen_at id rows.old.items }
    ensures last { result ≡ is_last (at_place rows.old.items id) }
    ensures capacity { vec_capacity rows.new ≡ vec_capacity rows.old }
{
    let place = id.0 as usize;
    if place < rows.len() {
        if let Some(row) = &mut rows[place] {
            let last = row.names == 1;
            row.names = row.names.saturating_sub(1);
            return last;
        }
    }
    false
}

/// Counts one name less, and puts the inode on the stack where it was the last.
fn name_less(rows: &mut Vec<Option<Row>>, unnamed: &mut Vec<InodeId>, id: InodeId)
    requires { vec_len unnamed.old + named_rows rows.old.items ≤ vec_capacity unnamed.old }
    ensures rows { rows.new.items ≡ lessen_at id rows.old.items }
    ensures unnamed { unnamed.new.items ≡ unnamed.old.items ++ ended_at id rows.old.items }
    ensures room { vec_len unnamed.new + named_rows rows.new.items ≤ vec_capacity unnamed.new }
    ensures capacity { vec_capacity unnamed.new ≡ vec_capacity unnamed.old }
    ensures slots { vec_capacity rows.new ≡ vec_capacity rows.old }
{
    if lessen(rows, id) {
        unnamed.push_reserved(id);
    }
}

/// The same for each of these inodes.
pub fn name_all_less(rows: &mut Vec<Option<Row>>, unnamed: &mut Vec<InodeId>, ids: &[InodeId])
    requires { vec_len unnamed.old + named_rows rows.old.items ≤ vec_capacity unnamed.old }
    ensures rows { rows.new.items ≡ lessen_all ids.now rows.old.items }
    ensures unnamed { unnamed.new.items ≡ unnamed.old.items ++ ended ids.now rows.old.items }
    ensures room { vec_len unnamed.new + named_rows rows.new.items ≤ vec_capacity unnamed.new }
    ensures capacity { vec_capacity unnamed.new ≡ vec_capacity unnamed.old }
    ensures slots { vec_capacity rows.new ≡ vec_capacity rows.old }
{
    for id in ids {
        name_less(rows, unnamed, *id);
    }
}

/// The same for each entry of a list.
fn name_entries_less(rows: &mut Vec<Option<Row>>, unnamed: &mut Vec<InodeId>, children: &[Child])
    requires { vec_len unnamed.old + named_rows rows.old.items ≤ vec_capacity unnamed.old }
    ensures rows { rows.new.items ≡ lessen_all (ids_of children.now) rows.old.items }
    ensures unnamed { unnamed.new.items ≡ unnamed.old.items ++ ended (ids_of children.now) rows.old.items }
    ensures room { vec_len unnamed.new + named_rows rows.new.items ≤ vec_capacity unnamed.new }
    ensures capacity { vec_capacity unnamed.new ≡ vec_capacity unnamed.old }
    ensures slots { vec_capacity rows.new ≡ vec_capacity rows.old }
{
    for child in children {
        name_less(rows, unnamed, child.id);
    }
}

/// The same for each deleted entry of record `i`.
fn name_record_less(
    rows: &mut Vec<Option<Row>>,
    unnamed: &mut Vec<InodeId>,
    dir: &DirRows,
    i: usize,
)
    requires { vec_len unnamed.old + named_rows rows.old.items ≤ vec_capacity unnamed.old }
    ensures rows { rows.new.items ≡ lessen_all (ids_of (deleted_of (slice_get dir.now.history.records i))) rows.old.items }
    ensures unnamed { unnamed.new.items ≡ unnamed.old.items ++ ended (ids_of (deleted_of (slice_get dir.now.history.records i))) rows.old.items }
    ensures room { vec_len unnamed.new + named_rows rows.new.items ≤ vec_capacity unnamed.new }
    ensures capacity { vec_capacity unnamed.new ≡ vec_capacity unnamed.old }
    ensures slots { vec_capacity rows.new ≡ vec_capacity rows.old }
{
    match dir.saved(i) {
        Some(record) => name_entries_less(rows, unnamed, record.deleted.items()),
        None => {}
    }
}

/// The same for each deleted entry of all records.
fn name_deleted_less(rows: &mut Vec<Option<Row>>, unnamed: &mut Vec<InodeId>, dir: &DirRows)
    requires { vec_len unnamed.old + named_rows rows.old.items ≤ vec_capacity unnamed.old }
    ensures rows { rows.new.items ≡ lessen_all (deleted_ids dir.now.history.records) rows.old.items }
    ensures unnamed { unnamed.new.items ≡ unnamed.old.items ++ ended (deleted_ids dir.now.history.records) rows.old.items }
    ensures room { vec_len unnamed.new + named_rows rows.new.items ≤ vec_capacity unnamed.new }
    ensures capacity { vec_capacity unnamed.new ≡ vec_capacity unnamed.old }
    ensures slots { vec_capacity rows.new ≡ vec_capacity rows.old }
{
    for i in 0..dir.count() {
        name_record_less(rows, unnamed, dir, i);
    }
}

/// The same for all that the lists of a directory name.
fn name_dir_less(rows: &mut Vec<Option<Row>>, unnamed: &mut Vec<InodeId>, dir: &DirRows)
    requires { vec_len unnamed.old + named_rows rows.old.items ≤ vec_capacity unnamed.old }
    ensures rows { rows.new.items ≡ lessen_all (counts.named_in dir.now.history) rows.old.items }
    ensures unnamed { unnamed.new.items ≡ unnamed.old.items ++ ended (counts.named_in dir.now.history) rows.old.items }
    ensures room { vec_len unnamed.new + named_rows rows.new.items ≤ vec_capacity unnamed.new }
    ensures capacity { vec_capacity unnamed.new ≡ vec_capacity unnamed.old }
    ensures slots { vec_capacity rows.new ≡ vec_capacity rows.old }
{
    name_entries_less(rows, unnamed, dir.current().items());
    name_deleted_less(rows, unnamed, dir);
}

/// Puts blocks behind those that wait.
pub fn wait(waiting: &mut Vec<BlockId>, blocks: &[BlockId])
    requires { vec_len waiting.old + length blocks.now ≤ vec_capacity waiting.old }
    ensures blocks { waiting.new.items ≡ waiting.old.items ++ blocks.now }
    ensures capacity { vec_capacity waiting.new ≡ vec_capacity waiting.old }
{
    for block in blocks {
        waiting.push_reserved(*block);
    }
}

/// Puts the blocks of all states of a file behind those that wait, each once.
fn wait_all(waiting: &mut Vec<BlockId>, mut file: FileRows)
    requires { vec_len waiting.old + block_count (File file.history) ≤ vec_capacity waiting.old }
    ensures blocks { waiting.new.items ≡ waiting.old.items ++ blocks_below (length file.history.records) file.history }
    ensures capacity { vec_capacity waiting.new ≡ vec_capacity waiting.old }
{
    let mut left = file.count();
    while left > 0 {
        left -= 1;
        let blocks = file.drop_at(left);
        wait(waiting, blocks.items());
    }
    let blocks = file.take_blocks();
    wait(waiting, blocks.items());
}

/// What goes with a row: it names others no more, and its blocks wait.
fn let_go(
    rows: &mut Vec<Option<Row>>,
    unnamed: &mut Vec<InodeId>,
    waiting: &mut Vec<BlockId>,
    gone: Rows,
)
    requires stack { vec_len unnamed.old + named_rows rows.old.items ≤ vec_capacity unnamed.old }
    requires blocks { vec_len waiting.old + block_count (history_of gone) ≤ vec_capacity waiting.old }
    ensures rows { rows.new.items ≡ lessen_all (named_in (history_of gone)) rows.old.items }
    ensures unnamed { unnamed.new.items ≡ unnamed.old.items ++ ended (named_in (history_of gone)) rows.old.items }
    ensures waiting { waiting.new.items ≡ waiting.old.items ++ blocks_in (history_of gone) }
    ensures room { vec_len unnamed.new + named_rows rows.new.items ≤ vec_capacity unnamed.new }
    ensures capacity { vec_capacity unnamed.new ≡ vec_capacity unnamed.old }
    ensures slots { vec_capacity rows.new ≡ vec_capacity rows.old }
    ensures waiting_capacity { vec_capacity waiting.new ≡ vec_capacity waiting.old }
{
    match gone {
        Rows::File(file) => wait_all(waiting, file),
        Rows::Dir(dir) => name_dir_less(rows, unnamed, &dir),
    }
}

/// Whether a row is there that no list names.
fn is_unnamed(slot: &Option<Row>) -> bool
    ensures { result ≡ is_unnamed slot.now }
{
    match slot {
        Some(row) => row.names == 0,
        None => false,
    }
}

/// Takes out the row of an inode, where it isn't the root and no list names it.
fn take_unnamed(rows: &mut Vec<Option<Row>>, id: InodeId) -> Option<Row>
    ensures taken { TakenAt id rows.old.items result rows.new.items }
    ensures slots { vec_capacity rows.new ≡ vec_capacity rows.old }
{
    let place = id.0 as usize;
    if id != InodeId::ROOT && place < rows.len() && is_unnamed(&rows[place]) {
        rows[place].take()
    } else {
        None
    }
}

/// How many blocks record `i` names.
pub fn saved_blocks(file: &FileRows, i: usize) -> usize
    ensures { result ≡ length (blocks_at file.now.history.records i) }
{
    match file.saved(i) {
        Some(state) => state.blocks.len(),
        None => 0,
    }
}

/// How many blocks the states of a file name, each as often as it is named.
fn file_blocks(file: &FileRows) -> usize
    requires { block_count (File file.now.history) < 2 ^ 64 }
    ensures { result ≡ block_count (File file.now.history) }
{
    let mut blocks = file.current().blocks.len();
    for i in 0..file.count() {
        blocks += saved_blocks(file, i);
    }
    blocks
}

/// The same of any rows.
fn blocks_of(rows: &Rows) -> usize
    requires { block_count (history_of rows.now) < 2 ^ 64 }
    ensures { result ≡ block_count (history_of rows.now) }
{
    match rows {
        Rows::File(file) => file_blocks(file),
        Rows::Dir(_) => 0,
    }
}

/// Lets a row go that was taken out, and counts its blocks no more.
fn release_row(
    rows: &mut Vec<Option<Row>>,
    unnamed: &mut Vec<InodeId>,
    waiting: &mut Vec<BlockId>,
    blocks: &mut usize,
    row: Row,
)
    requires stack { vec_len unnamed.old + named_rows rows.old.items ≤ vec_capacity unnamed.old }
    requires room { vec_len waiting.old + block_count (history_of row.rows) ≤ vec_capacity waiting.old }
    requires blocks { block_count (history_of row.rows) ≤ blocks.old }
    ensures rows { rows.new.items ≡ lessen_all (named_in (history_of row.rows)) rows.old.items }
    ensures unnamed { unnamed.new.items ≡ unnamed.old.items ++ ended (named_in (history_of row.rows)) rows.old.items }
    ensures waiting { waiting.new.items ≡ waiting.old.items ++ blocks_in (history_of row.rows) }
    ensures blocks { blocks.new + block_count (history_of row.rows) ≡ blocks.old }
    ensures stack { vec_len unnamed.new + named_rows rows.new.items ≤ vec_capacity unnamed.new }
    ensures capacity { vec_capacity unnamed.new ≡ vec_capacity unnamed.old }
    ensures slots { vec_capacity rows.new ≡ vec_capacity rows.old }
    ensures waiting_capacity { vec_capacity waiting.new ≡ vec_capacity waiting.old }
{
    let Row { rows: gone, .. } = row;
    *blocks -= blocks_of(&gone);
    let_go(rows, unnamed, waiting, gone);
}

/// Lets the row of an inode go, where no list names it, and tells how many went.
fn release_one(
    rows: &mut Vec<Option<Row>>,
    unnamed: &mut Vec<InodeId>,
    waiting: &mut Vec<BlockId>,
    blocks: &mut usize,
    id: InodeId,
) -> u64
    requires steady { Steady rows.old.items (vec_len unnamed.old) (vec_capacity unnamed.old) (vec_len waiting.old) (vec_capacity waiting.old) blocks.old }
    requires listed { AreListedBut id rows.old.items unnamed.old.items }
    ensures one { result ≤ 1 }
    ensures gone { (n : ℕ) (old : Slots) (waited : List BlockId) → HaveGone n old rows.old.items waited waiting.old.items → HaveGone (n + result) old rows.new.items waited waiting.new.items }
    ensures left { (old : Slots) → StaysOrGoes old rows.old.items → StaysOrGoes old rows.new.items }
    ensures uncounted { blocks.new ≤ blocks.old }
    ensures steady { Steady rows.new.items (vec_len unnamed.new) (vec_capacity unnamed.new) (vec_len waiting.new) (vec_capacity waiting.new) blocks.new }
    ensures listed { AreListed rows.new.items unnamed.new.items }
    ensures fewer { vec_len unnamed.new + named_rows rows.new.items ≤ vec_len unnamed.old + named_rows rows.old.items }
    ensures len { vec_len rows.new ≡ vec_len rows.old }
    ensures weight { weight (table_in rows.new.items) ≤ weight (table_in rows.old.items) }
    ensures capacity { vec_capacity unnamed.new ≡ vec_capacity unnamed.old }
    ensures slots { vec_capacity rows.new ≡ vec_capacity rows.old }
    ensures waiting_capacity { vec_capacity waiting.new ≡ vec_capacity waiting.old }
{
    match take_unnamed(rows, id) {
        Some(row) => {
            release_row(rows, unnamed, waiting, blocks, row);
            1
        }
        None => 0,
    }
}

/// Lets rows go in turn, until each that is left is named, and tells how many went.
fn release_all(
    rows: &mut Vec<Option<Row>>,
    unnamed: &mut Vec<InodeId>,
    waiting: &mut Vec<BlockId>,
    blocks: &mut usize,
) -> u64
    requires steady { Steady rows.old.items (vec_len unnamed.old) (vec_capacity unnamed.old) (vec_len waiting.old) (vec_capacity waiting.old) blocks.old }
    requires listed { AreListed rows.old.items unnamed.old.items }
    ensures gone { HaveGone result rows.old.items rows.new.items waiting.old.items waiting.new.items }
    ensures left { StaysOrGoes rows.old.items rows.new.items }
    ensures uncounted { blocks.new ≤ blocks.old }
    ensures steady { Steady rows.new.items (vec_len unnamed.new) (vec_capacity unnamed.new) (vec_len waiting.new) (vec_capacity waiting.new) blocks.new }
    ensures listed { AreListed rows.new.items unnamed.new.items }
    ensures empty { unnamed.new.items ≡ [] }
    ensures len { vec_len rows.new ≡ vec_len rows.old }
    ensures weight { weight (table_in rows.new.items) ≤ weight (table_in rows.old.items) }
    ensures capacity { vec_capacity unnamed.new ≡ vec_capacity unnamed.old }
    ensures slots { vec_capacity rows.new ≡ vec_capacity rows.old }
    ensures waiting_capacity { vec_capacity waiting.new ≡ vec_capacity waiting.old }
{
    let mut gone = 0;
    while let Some(id) = unnamed.pop() {
        gone += release_one(rows, unnamed, waiting, blocks, id);
    }
    gone
}

/// Hands out the blocks that wait. Where there are none, the room for them stays.
fn hand_out(waiting: &mut Vec<BlockId>) -> List<BlockId>
    ensures blocks { result ≡ waiting.old.items }
    ensures empty { waiting.new.items ≡ [] }
    ensures room { waiting.old.items ≡ [] → vec_capacity waiting.new ≡ vec_capacity waiting.old }
{
    let alloc = *waiting.allocator();
    if waiting.is_empty() {
        List::new(alloc)
    } else {
        List::of(mem::replace(waiting, Vec::new(alloc)))
    }
}

impl Table {
    /// Removes all rows that no list names, in turn, with the blocks of their states, and hands out these blocks and those that
    /// wait since a merge. It wants memory only where none was made beforehand. Rows that are left keep what was made for them; the room
    /// for blocks goes with the blocks that are handed out.
    pub fn release(&mut self) -> Result<Freed, NoMemory>
        ensures ok { IfOk result (λ freed. Releasing (told self.old) freed (told self.new)) }
        ensures err { OnErr result (told self.new ≡ told self.old) }
        ensures room { 0 < self.old.room.blocks → IsOk result }
        ensures slots { self.new.room.slots ≡ self.old.room.slots }
        ensures index { self.new.room.index ≡ self.old.room.index }
        ensures stack { self.old.room.stack ≤ self.new.room.stack }
        ensures blocks { IfOk result (λ freed. freed.blocks ≡ [] → self.old.room.blocks ≤ self.new.room.blocks) }
        ensures there { (id : InodeId) → IsSome (row_of self.new.rows id) → rows_in (row_of self.new.rows id) ≡ rows_in (row_of self.old.rows id) }
        ensures err_there { OnErr result (self.new.rows ≡ self.old.rows) }
        ensures err_room { OnErr result (KeepsRoom self.old.room self.new.room) }
    {
        self.waiting.reserve(self.blocks)?;
        let rows = release_all(
            &mut self.rows,
            &mut self.unnamed,
            &mut self.waiting,
            &mut self.blocks,
        );
        let blocks = hand_out(&mut self.waiting);
        Ok(Freed { rows, blocks })
    }
}
