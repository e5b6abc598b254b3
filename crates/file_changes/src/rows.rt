//! A file's current state and its records.
ghost use Rattle.std.specs.Prelude.{◌≡◌, ℕ, ◌+◌, ◌<◌, ◌≤◌, [], length, slice_get, IsTrue, IsOk, OnOk, OnErr};
ghost use Rattle.std.specs.Option.{option_map, option_copied};
ghost use Rattle.file_changes.specs.View.{shown};
ghost use Rattle.file_changes.specs.History.{state_at, saved, last_number, rising, number_at, number_before, without_record, only_at, LastRemoved};

use crate::past::{FilePast, drop_record, let_go, push_saved, ready_past, records_of};
use crate::state::{FileRecord, FileState, FileView};
use change_history::{last_number, records_at};
use hs_types::{BlockId, List, Mode, NoMemory, SnapId, Spot};
use std::alloc::Global;
use std::marker::Model;

/// A file's inode through time: its current state, and the states that records saved, by rising numbers. Records, and
/// what was made for the next one, stand behind one box; there is none without them.
#[derive(Debug, Drop)]
pub struct FileRows {
    alloc: Global,
    current: FileState,
    past: Option<Box<FilePast>>,
}

impl Model for FileRows {
    ghost use Rattle.file_changes.specs.History.{FileValue};

    ghost Value = { FileValue };

    ghost use Rattle.file_changes.specs.Inside.{file_value, IsKept};

    ghost view = { file_value };

    ghost invariant = { IsKept };
}

impl FileRows {
    /// A new empty file without records. It takes no memory.
    pub fn new(alloc: Global, spot: Spot, mode: Mode, stamp: u64) -> FileRows
        ensures history { result.history ≡ record { current = record { spot = spot; mode = mode; stamp = stamp; size = 0; blocks = [] }; records = [] } }
        ensures saves { result.saves ≡ 0 }
    {
        FileRows {
            alloc,
            current: FileState {
                spot,
                mode,
                stamp,
                size: 0,
                blocks: List::new(alloc),
            },
            past: None,
        }
    }

    /// The state at a snapshot.
    pub fn at(&self, s: SnapId) -> FileView<'_>
        ensures { shown result ≡ state_at s.0 self.now.history }
    {
        self.state_at(s).view()
    }

    fn state_at(&self, s: SnapId) -> &FileState
        ensures { result.now ≡ state_at s.0 self.now.history }
    {
        match records_at(records_of(&self.past), s).first() {
            Some(saved) => &saved.state,
            None => &self.current,
        }
    }

    /// The number of the last record, or 0: the test of what `save` requires.
    pub fn last_number(&self) -> SnapId
        ensures { result.0 ≡ last_number self.now.history }
    {
        last_number(records_of(&self.past))
    }

    /// Starts a record that saves the present state.
    pub fn save(&mut self, number: SnapId) -> Result<(), NoMemory>
        requires { last_number self.old.history < number.0 }
        ensures ok { OnOk result (self.new.history ≡ saved number self.old.history) }
        ensures last { OnOk result (last_number self.new.history ≡ number.0) }
        ensures records { OnOk result (length self.new.history.records ≡ length self.old.history.records + 1) }
        ensures rising { IsTrue (rising 0 self.new.history.records) }
        ensures saved_there { OnOk result ((s : ℕ) → last_number self.old.history < s → s ≤ number.0 → state_at s self.new.history ≡ self.old.history.current) }
        ensures reads_as_before { OnOk result ((s : ℕ) → state_at s self.new.history ≡ state_at s self.old.history) }
        ensures err { OnErr result (self.new.history ≡ self.old.history) }
        ensures room { 0 < self.old.saves → IsOk result }
    {
        self.prepare()?;
        self.push_saved(number);
        Ok(())
    }

    fn push_saved(&mut self, number: SnapId)
        requires above { last_number self.old.history < number.0 }
        requires room { 0 < self.old.saves }
        ensures saved { self.new.history ≡ saved number self.old.history }
        ensures rising { IsTrue (rising 0 self.old.history.records) }
    {
        push_saved(&mut self.past, number, &self.current);
    }

    /// Makes room, so that the next `save` can't want memory, unless a `set`, `set_spot`, `set_body` or `release_room`
    /// stands between. `take_blocks` by itself leaves the room, but the `set_body` that puts the list back need not. It
    /// copies no id of a block.
    pub fn prepare(&mut self) -> Result<(), NoMemory>
        ensures same { self.new.history ≡ self.old.history }
        ensures ok { OnOk result (1 ≤ self.new.saves) }
        ensures rising { IsTrue (rising 0 self.new.history.records) }
        ensures room { 0 < self.old.saves → IsOk result }
    {
        ready_past(self.alloc, &mut self.past, &self.current)
    }

    /// Lets the room go that was made and not used.
    pub fn release_room(&mut self)
        ensures same { self.new.history ≡ self.old.history }
        ensures rising { IsTrue (rising 0 self.new.history.records) }
        ensures room { self.new.saves ≡ 0 }
    {
        let_go(&mut self.past);
    }

    /// Replaces the current state, and takes no memory.
    pub fn set(&mut self, state: FileState)
        ensures current { self.new.history ≡ record self.old.history { current = state } }
        ensures reads_as_before { (s : ℕ) → 0 < s → s ≤ last_number self.old.history → state_at s self.new.history ≡ state_at s self.old.history }
        ensures last { last_number self.new.history ≡ last_number self.old.history }
        ensures rising { IsTrue (rising 0 self.new.history.records) }
        ensures room { self.new.saves ≡ 0 }
    {
        let_go(&mut self.past);
        self.current = state;
    }

    /// Replaces where the file stands now, and takes no memory.
    pub fn set_spot(&mut self, spot: Spot)
        ensures current { self.new.history ≡ record self.old.history { current = record self.old.history.current { spot = spot } } }
        ensures reads_as_before { (s : ℕ) → 0 < s → s ≤ last_number self.old.history → state_at s self.new.history ≡ state_at s self.old.history }
        ensures last { last_number self.new.history ≡ last_number self.old.history }
        ensures rising { IsTrue (rising 0 self.new.history.records) }
        ensures room { self.new.saves ≡ 0 }
    {
        let_go(&mut self.past);
        self.current.spot = spot;
    }

    /// Replaces the mode and the stamp of now, and takes no memory.
    pub fn set_mode(&mut self, mode: Mode, stamp: u64)
        ensures current { self.new.history ≡ record self.old.history { current = record self.old.history.current { mode = mode; stamp = stamp } } }
        ensures reads_as_before { (s : ℕ) → 0 < s → s ≤ last_number self.old.history → state_at s self.new.history ≡ state_at s self.old.history }
        ensures last { last_number self.new.history ≡ last_number self.old.history }
        ensures rising { IsTrue (rising 0 self.new.history.records) }
        ensures room { self.new.saves ≡ self.old.saves }
    {
        self.current.mode = mode;
        self.current.stamp = stamp;
    }

    /// Replaces the body and the stamp of now, and takes no memory.
    pub fn set_body(&mut self, size: u64, blocks: List<BlockId>, stamp: u64)
        ensures current { self.new.history ≡ record self.old.history { current = record self.old.history.current { size = size; blocks = blocks; stamp = stamp } } }
        ensures reads_as_before { (s : ℕ) → 0 < s → s ≤ last_number self.old.history → state_at s self.new.history ≡ state_at s self.old.history }
        ensures last { last_number self.new.history ≡ last_number self.old.history }
        ensures rising { IsTrue (rising 0 self.new.history.records) }
    {
        self.current.size = size;
        self.current.blocks = blocks;
        self.current.stamp = stamp;
    }

    /// Takes the list of blocks out of the state of now, so that no id need be copied, and leaves an empty list. It is
    /// put back, changed or not, by `set_body`.
    pub fn take_blocks(&mut self) -> List<BlockId>
        ensures blocks { result ≡ self.old.history.current.blocks }
        ensures current { self.new.history ≡ record self.old.history { current = record self.old.history.current { blocks = [] } } }
        ensures reads_as_before { (s : ℕ) → 0 < s → s ≤ last_number self.old.history → state_at s self.new.history ≡ state_at s self.old.history }
        ensures last { last_number self.new.history ≡ last_number self.old.history }
        ensures rising { IsTrue (rising 0 self.new.history.records) }
        ensures room { self.old.saves ≤ self.new.saves }
    {
        List::of(self.current.blocks.take())
    }

    /// Removes record `i`, and hands out the blocks that only it named, in its order. It takes no memory.
    pub fn drop_at(&mut self, i: usize) -> List<BlockId>
        requires { i < length self.old.history.records }
        ensures removed { self.new.history ≡ without_record i self.old.history }
        ensures blocks { result ≡ only_at i self.old.history }
        ensures last { LastRemoved i self.old.history self.new.history }
        ensures records { length self.new.history.records + 1 ≡ length self.old.history.records }
        ensures rising { IsTrue (rising 0 self.new.history.records) }
        ensures reads_below { (s : ℕ) → s ≤ number_before self.old.history.records i → state_at s self.new.history ≡ state_at s self.old.history }
        ensures reads_above { (s : ℕ) → number_at self.old.history.records i < s → state_at s self.new.history ≡ state_at s self.old.history }
        ensures room { self.new.saves ≡ self.old.saves }
    {
        drop_record(&mut self.past, i, &self.current)
    }

    pub fn current(&self) -> &FileState
        ensures { result.now ≡ self.now.history.current }
    {
        &self.current
    }

    /// The state that record `i` saved. `None` exactly where there is no record `i`.
    pub fn saved(&self, i: usize) -> Option<&FileState>
        ensures { option_copied result ≡ option_map (λ r. r.state) (slice_get self.now.history.records i) }
    {
        match records_of(&self.past).get(i) {
            Some(record) => Some(&record.state),
            None => None,
        }
    }

    /// How many records there are.
    pub fn count(&self) -> usize
        ensures count { result ≡ length self.now.history.records }
        ensures rising { IsTrue (rising 0 self.now.history.records) }
    {
        records_of(&self.past).len()
    }

    /// The number of record `i`. `None` exactly where there is no record `i`.
    pub fn number(&self, i: usize) -> Option<SnapId>
        ensures { result ≡ option_map (λ r. r.number) (slice_get self.now.history.records i) }
    {
        match records_of(&self.past).get(i) {
            Some(record) => Some(record.number),
            None => None,
        }
    }
}
