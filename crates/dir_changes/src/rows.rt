//! A directory's current child list, its marks and its records.
ghost use Rattle.std.specs.Prelude.{◌≡◌, ℕ, ◌+◌, ◌<◌, ◌≤◌, [], length, slice_get, IsTrue, IsOk, IfOk, OnOk, OnErr, Some, None, ◌-◌};
ghost use Rattle.std.specs.Option.{option_map, option_copied};
ghost use Rattle.dir_changes.specs.Counts.{keeps_removed};
ghost use Rattle.dir_changes.specs.Edits.{CountsAdded, CountsCombined, LastCombined, RemovedCounts};
ghost use Rattle.dir_changes.specs.Entries.{in_order, id_at, without_name};
ghost use Rattle.dir_changes.specs.History.{children_at, marks_at, last_number, started, added, removed, change_last, note_removed, number_at, number_before, without_record, dropped_at, ids_of};
ghost use Rattle.dir_changes.specs.Inside.{records_in, edits_in, fresh_in, merge_in, IsPastReady, HasEdit};
ghost use Rattle.dir_changes.specs.Recorded.{past_of, marks_shown, marks_of};
ghost use Rattle.dir_changes.specs.Sound.{IsSound};
ghost use Rattle.dir_changes.specs.Spare.{one_if};
ghost use Rattle.dir_changes.specs.Rows.{KeepsRoom, UsesEdit, UsesStart, UsesMerge};

use crate::boxed::{
    combine_in, forget_fresh, is_ready, let_go, note_added, note_removed, push_record, ready_all,
    ready_combine, ready_edit, ready_start, records_of,
};
use crate::child::Child;
use crate::children::Children;
use crate::past::DirPast;
use crate::reading::{id_before, records_at, undo_all};
use crate::recorded::{DirMarks, DirRecord, DirView, keeps};
use change_history::last_number;
use hs_types::{Duplicate, InodeId, List, Mode, Name, NoMemory, SnapId, Spot};
use std::alloc::Global;
use std::marker::Model;

/// A directory's inode through time: its child list and marks of now, and its records by rising numbers. Records, and
/// what was made for changes to come, stand behind one box; there is none without them.
#[derive(Debug, Drop)]
pub struct DirRows {
    spot: Spot,
    mode: Mode,
    stamp: u64,
    children: Children,
    past: Option<Box<DirPast>>,
}

impl Model for DirRows {
    ghost use Rattle.dir_changes.specs.Rows.{DirValue};

    ghost Value = { DirValue };

    ghost use Rattle.dir_changes.specs.Inside.{dir_value, IsKept};

    ghost view = { dir_value };

    ghost invariant = { IsKept };
}

impl DirRows {
    /// A new empty directory without records. It takes no memory.
    pub fn new(alloc: Global, spot: Spot, mode: Mode, stamp: u64) -> DirRows
        ensures history { result.history ≡ record { marks = record { spot = spot; mode = mode; stamp = stamp }; children = []; records = [] } }
        ensures sound { IsSound result.history }
    {
        DirRows {
            spot,
            mode,
            stamp,
            children: Children::new(alloc),
            past: None,
        }
    }

    /// The current child list.
    pub fn current(&self) -> &Children
        ensures { result.now.entries ≡ self.now.history.children }
    {
        &self.children
    }

    /// Record `i`. `None` exactly where it isn't there.
    pub fn saved(&self, i: usize) -> Option<&DirRecord>
        ensures { option_map past_of (option_copied result) ≡ slice_get self.now.history.records i }
    {
        records_of(&self.past).get(i)
    }

    /// How many records there are.
    pub fn count(&self) -> usize
        ensures count { result ≡ length self.now.history.records }
        ensures sound { IsSound self.now.history }
    {
        records_of(&self.past).len()
    }

    /// The number of record `i`. `None` exactly where it isn't there.
    pub fn number(&self, i: usize) -> Option<SnapId>
        ensures { result ≡ option_map (λ r. r.number) (slice_get self.now.history.records i) }
    {
        match records_of(&self.past).get(i) {
            Some(saved) => Some(saved.number),
            None => None,
        }
    }

    /// The number of the last record, or 0: the test of what `start_record` requires.
    pub fn last_number(&self) -> SnapId
        ensures { result.0 ≡ last_number self.now.history }
    {
        last_number(records_of(&self.past))
    }

    /// The state and the child list at a snapshot.
    pub fn at(&self, s: SnapId) -> Result<DirView, NoMemory>
        ensures marks { IfOk result (λ view. marks_of view ≡ marks_at s.0 self.now.history) }
        ensures children { IfOk result (λ view. view.children ≡ children_at s.0 self.now.history) }
        ensures in_order { IsTrue (in_order (children_at s.0 self.now.history)) }
    {
        let children = self.children_at(s)?;
        let marks = self.marks_at(s);
        Ok(DirView {
            spot: marks.spot.copy()?,
            mode: marks.mode,
            stamp: marks.stamp,
            children: List::of(children),
        })
    }

    fn children_at(&self, s: SnapId) -> Result<Vec<Child>, NoMemory>
        ensures list { IfOk result (λ list. list.items ≡ children_at s.0 self.now.history) }
        ensures sound { IsSound self.now.history }
    {
        let records = records_at(records_of(&self.past), s);
        undo_all(self.children.allocator(), records, &self.children)
    }

    /// The id under a name at a snapshot. Each list that is asked is searched by halves.
    pub fn child_at(&self, s: SnapId, name: &Name) -> Option<InodeId>
        ensures { result ≡ id_at name.now (children_at s.0 self.now.history) }
    {
        let records = records_at(records_of(&self.past), s);
        id_before(records, &self.children, name)
    }

    /// The marks at a snapshot.
    pub fn marks_at(&self, s: SnapId) -> DirMarks<'_>
        ensures { marks_shown result ≡ marks_at s.0 self.now.history }
    {
        let records = records_at(records_of(&self.past), s);
        match records.first() {
            Some(saved) => saved.marks(),
            None => self.current_marks(),
        }
    }

    fn current_marks(&self) -> DirMarks<'_>
        ensures { marks_shown result ≡ self.now.history.marks }
    {
        DirMarks {
            spot: &self.spot,
            mode: self.mode,
            stamp: self.stamp,
        }
    }

    /// Replaces the marks of now, and takes no memory.
    pub fn set_marks(&mut self, spot: Spot, mode: Mode, stamp: u64)
        ensures marks { self.new.history ≡ record self.old.history { marks = record { spot = spot; mode = mode; stamp = stamp } } }
        ensures marks_as_before { (s : ℕ) → 0 < s → s ≤ last_number self.old.history → marks_at s self.new.history ≡ marks_at s self.old.history }
        ensures children_as_before { (s : ℕ) → children_at s self.new.history ≡ children_at s self.old.history }
        ensures sound { IsSound self.new.history }
        ensures last { last_number self.new.history ≡ last_number self.old.history }
        ensures room { UsesStart self.old.room self.new.room }
    {
        self.set_spot(spot);
        self.set_mode(mode, stamp);
    }

    /// Replaces where the directory stands now, and takes no memory.
    pub fn set_spot(&mut self, spot: Spot)
        ensures marks { self.new.history ≡ record self.old.history { marks = record self.old.history.marks { spot = spot } } }
        ensures marks_as_before { (s : ℕ) → 0 < s → s ≤ last_number self.old.history → marks_at s self.new.history ≡ marks_at s self.old.history }
        ensures children_as_before { (s : ℕ) → children_at s self.new.history ≡ children_at s self.old.history }
        ensures sound { IsSound self.new.history }
        ensures last { last_number self.new.history ≡ last_number self.old.history }
        ensures room { UsesStart self.old.room self.new.room }
    {
        forget_fresh(&mut self.past);
        self.spot = spot;
    }

    /// Replaces the mode and the stamp of now, and takes no memory.
    pub fn set_mode(&mut self, mode: Mode, stamp: u64)
        ensures marks { self.new.history ≡ record self.old.history { marks = record self.old.history.marks { mode = mode; stamp = stamp } } }
        ensures marks_as_before { (s : ℕ) → 0 < s → s ≤ last_number self.old.history → marks_at s self.new.history ≡ marks_at s self.old.history }
        ensures children_as_before { (s : ℕ) → children_at s self.new.history ≡ children_at s self.old.history }
        ensures sound { IsSound self.new.history }
        ensures last { last_number self.new.history ≡ last_number self.old.history }
        ensures room { self.new.room ≡ self.old.room }
    {
        self.mode = mode;
        self.stamp = stamp;
    }

    /// Makes room, so that the next `combine` can't want memory. Neither can the next `start_record`, unless a
    /// `set_marks` or `set_spot` stands between, nor the next three calls of `add` and `remove` together. Without
    /// records nothing is made to put lists together. `release_room` lets all of it go.
    pub fn prepare(&mut self) -> Result<(), NoMemory>
        ensures same { self.new.history ≡ self.old.history }
        ensures edits { OnOk result (3 ≤ self.new.room.edits) }
        ensures starts { OnOk result (1 ≤ self.new.room.starts) }
        ensures merges { OnOk result (1 ≤ self.new.room.merges) }
        ensures kept { KeepsRoom self.old.room self.new.room }
    {
        let alloc = self.children.allocator();
        self.children.reserve(3)?;
        ready_all(alloc, &mut self.past, &self.spot)
    }

    /// Whether the next `start_record` and an `add` or `remove` can't want memory.
    pub fn is_ready(&self) -> bool
        ensures sound { IsSound self.now.history }
        ensures edits { IsTrue result → 0 < self.now.room.edits }
        ensures starts { IsTrue result → 0 < self.now.room.starts }
        ensures ready { 0 < self.now.room.edits → 0 < self.now.room.starts → IsTrue result }
    {
        is_ready(&self.past)
    }

    /// Lets the room go that was made and not used.
    pub fn release_room(&mut self)
        ensures same { self.new.history ≡ self.old.history }
        ensures sound { IsSound self.new.history }
        ensures room { self.new.room ≡ record { edits = 0; starts = 0; merges = 0 } }
    {
        let alloc = self.children.allocator();
        let_go(alloc, &mut self.past);
    }

    /// Starts a record that saves the present marks. It makes no room to combine, but what was promised stays.
    pub fn start_record(&mut self, number: SnapId) -> Result<(), NoMemory>
        requires { last_number self.old.history < number.0 }
        ensures ok { OnOk result (self.new.history ≡ started number self.old.history) }
        ensures saved_children { OnOk result ((s : ℕ) → last_number self.old.history < s → s ≤ number.0 → children_at s self.new.history ≡ self.old.history.children) }
        ensures saved_marks { OnOk result ((s : ℕ) → last_number self.old.history < s → s ≤ number.0 → marks_at s self.new.history ≡ self.old.history.marks) }
        ensures children_as_before { OnOk result ((s : ℕ) → children_at s self.new.history ≡ children_at s self.old.history) }
        ensures marks_as_before { OnOk result ((s : ℕ) → marks_at s self.new.history ≡ marks_at s self.old.history) }
        ensures sound { IsSound self.new.history }
        ensures last { OnOk result (last_number self.new.history ≡ number.0) }
        ensures err { OnErr result (self.new.history ≡ self.old.history) }
        ensures room { 0 < self.old.room.starts → IsOk result }
        ensures kept { OnOk result (UsesStart self.old.room self.new.room) }
        ensures err_room { OnErr result (KeepsRoom self.old.room self.new.room) }
    {
        self.prepare_start()?;
        self.push_started(number);
        Ok(())
    }

    /// Makes room where there is none for a new record.
    fn prepare_start(&mut self) -> Result<(), NoMemory>
        ensures same { self.new.history ≡ self.old.history }
        ensures sound { IsSound self.new.history }
        ensures ok { OnOk result (0 < self.new.room.starts) }
        ensures room { 0 < self.old.room.starts → IsOk result }
        ensures kept { KeepsRoom self.old.room self.new.room }
    {
        ready_start(self.children.allocator(), &mut self.past, &self.spot)
    }

    fn push_started(&mut self, number: SnapId)
        requires above { last_number self.old.history < number.0 }
        requires room { 0 < self.old.room.starts }
        ensures started { self.new.history ≡ started number self.old.history }
        ensures sound { IsSound self.new.history }
        ensures kept { UsesStart self.old.room self.new.room }
    {
        push_record(&mut self.past, number, &self.spot, self.mode, self.stamp);
    }

    /// Adds an entry. Its name isn't there yet.
    pub fn add(&mut self, name: Name, id: InodeId) -> Result<(), NoMemory>
        requires { id_at name self.old.history.children ≡ None }
        ensures ok { OnOk result (self.new.history ≡ added name id self.old.history) }
        ensures children_as_before { OnOk result ((s : ℕ) → 0 < s → s ≤ last_number self.old.history → children_at s self.new.history ≡ children_at s self.old.history) }
        ensures marks_as_before { OnOk result ((s : ℕ) → marks_at s self.new.history ≡ marks_at s self.old.history) }
        ensures sound { IsSound self.new.history }
        ensures last { last_number self.new.history ≡ last_number self.old.history }
        ensures counts { OnOk result (CountsAdded id self.old.history self.new.history) }
        ensures err { OnErr result (self.new.history ≡ self.old.history) }
        ensures room { 0 < self.old.room.edits → IsOk result }
        ensures kept { OnOk result (UsesEdit self.old.room self.new.room) }
        ensures err_room { OnErr result (KeepsRoom self.old.room self.new.room) }
    {
        self.try_add(name, id)?;
        Ok(())
    }

    fn try_add(&mut self, name: Name, id: InodeId) -> Result<(), NoMemory>
        requires { id_at name self.old.history.children ≡ None }
        ensures before { IsSound self.old.history }
        ensures ok { OnOk result (self.new.history ≡ added name id self.old.history) }
        ensures err { OnErr result (self.new.history ≡ self.old.history) }
        ensures room { 0 < self.old.room.edits → IsOk result }
        ensures kept { OnOk result (UsesEdit self.old.room self.new.room) }
        ensures err_room { OnErr result (KeepsRoom self.old.room self.new.room) }
    {
        self.children.reserve(1)?;
        ready_edit(self.children.allocator(), &mut self.past)?;
        note_added(&mut self.past, &name, id);
        self.children.put(Child { name, id });
        Ok(())
    }

    /// Removes the entry of that name, and hands out its id. `None` exactly where the name isn't there; then nothing is
    /// made or changed.
    pub fn remove(&mut self, name: &Name) -> Result<Option<InodeId>, NoMemory>
        ensures id { IfOk result (λ id. id ≡ id_at name.now self.old.history.children) }
        ensures ok { OnOk result (self.new.history ≡ removed name.now self.old.history) }
        ensures children_as_before { OnOk result ((s : ℕ) → 0 < s → s ≤ last_number self.old.history → children_at s self.new.history ≡ children_at s self.old.history) }
        ensures marks_as_before { OnOk result ((s : ℕ) → marks_at s self.new.history ≡ marks_at s self.old.history) }
        ensures sound { IsSound self.new.history }
        ensures last { last_number self.new.history ≡ last_number self.old.history }
        ensures counts { OnOk result (RemovedCounts name.now self.old.history self.new.history) }
        ensures err { OnErr result (self.new.history ≡ self.old.history) }
        ensures room { 0 < self.old.room.edits → IsOk result }
        ensures absent { id_at name.now self.old.history.children ≡ None → IsOk result }
        ensures kept { OnOk result (UsesEdit self.old.room self.new.room) }
        ensures err_room { OnErr result (KeepsRoom self.old.room self.new.room) }
    {
        let id = self.try_remove(name)?;
        Ok(id)
    }

    fn try_remove(&mut self, name: &Name) -> Result<Option<InodeId>, NoMemory>
        ensures before { IsSound self.old.history }
        ensures id { IfOk result (λ id. id ≡ id_at name.now self.old.history.children) }
        ensures ok { OnOk result (self.new.history ≡ removed name.now self.old.history) }
        ensures err { OnErr result (self.new.history ≡ self.old.history) }
        ensures room { 0 < self.old.room.edits → IsOk result }
        ensures absent { id_at name.now self.old.history.children ≡ None → IsOk result }
        ensures kept { OnOk result (UsesEdit self.old.room self.new.room) }
        ensures err_room { OnErr result (KeepsRoom self.old.room self.new.room) }
    {
        match self.children.id_of(name) {
            Some(id) => {
                ready_edit(self.children.allocator(), &mut self.past)?;
                take_known(&mut self.children, &mut self.past, name, id);
                Ok(Some(id))
            }
            None => Ok(None),
        }
    }

    /// Whether the entry of that name, removed now, goes to a deleted list, which then names its inode.
    pub fn keeps_removed(&self, name: &Name) -> bool
        ensures { result ≡ keeps_removed name.now self.now.history }
    {
        match self.children.id_of(name) {
            Some(id) => keeps(records_of(&self.past), name, id),
            None => false,
        }
    }

    /// Takes record `i` into the one before it, which keeps its number and its marks, or drops it as the first.
    /// Hands back the ids of the deleted entries that go: those that record `i` deleted and the one before had created,
    /// which stand in neither list then, and of a first record all.
    pub fn combine(&mut self, i: usize) -> Result<List<InodeId>, NoMemory>
        requires { i < length self.old.history.records }
        ensures ids { IfOk result (λ ids. ids ≡ ids_of (dropped_at i self.old.history.records)) }
        ensures ok { OnOk result (self.new.history ≡ without_record i self.old.history) }
        ensures children_below { OnOk result ((s : ℕ) → s ≤ number_before self.old.history.records i → children_at s self.new.history ≡ children_at s self.old.history) }
        ensures children_above { OnOk result ((s : ℕ) → number_at self.old.history.records i < s → children_at s self.new.history ≡ children_at s self.old.history) }
        ensures marks_below { OnOk result ((s : ℕ) → s ≤ number_before self.old.history.records i → marks_at s self.new.history ≡ marks_at s self.old.history) }
        ensures marks_above { OnOk result ((s : ℕ) → number_at self.old.history.records i < s → marks_at s self.new.history ≡ marks_at s self.old.history) }
        ensures sound { IsSound self.new.history }
        ensures last { OnOk result (LastCombined i self.old.history self.new.history) }
        ensures counts { IfOk result (λ ids. CountsCombined i ids self.old.history self.new.history) }
        ensures err { OnErr result (self.new.history ≡ self.old.history) }
        ensures room { 0 < self.old.room.merges → IsOk result }
        ensures kept { OnOk result (UsesMerge self.old.room self.new.room) }
        ensures err_room { OnErr result (KeepsRoom self.old.room self.new.room) }
    {
        self.prepare_combine()?;
        Ok(self.combine_prepared(i))
    }

    /// Makes room where there is none to combine.
    fn prepare_combine(&mut self) -> Result<(), NoMemory>
        requires { 0 < length self.old.history.records }
        ensures same { self.new.history ≡ self.old.history }
        ensures sound { IsSound self.new.history }
        ensures ok { OnOk result (0 < self.new.room.merges) }
        ensures room { 0 < self.old.room.merges → IsOk result }
        ensures kept { KeepsRoom self.old.room self.new.room }
    {
        ready_combine(self.children.allocator(), &mut self.past)
    }

    fn combine_prepared(&mut self, i: usize) -> List<InodeId>
        requires there { i < length self.old.history.records }
        requires room { 0 < self.old.room.merges }
        ensures ids { result ≡ ids_of (dropped_at i self.old.history.records) }
        ensures combined { self.new.history ≡ without_record i self.old.history }
        ensures sound { IsSound self.new.history }
        ensures kept { UsesMerge self.old.room self.new.room }
    {
        combine_in(&mut self.past, i)
    }
}

/// Takes an entry that is there out of the list, and enters it in the last record.
fn take_known(children: &mut Children, past: &mut Option<Box<DirPast>>, name: &Name, id: InodeId)
    requires there { id_at name.now children.old.entries ≡ Some id }
    requires ready { IsPastReady past.old }
    requires room { HasEdit past.old }
    ensures taken { children.new.entries ≡ without_name name.now children.old.entries }
    ensures list_room { children.old.room ≤ children.new.room }
    ensures ready { IsPastReady past.new }
    ensures records { records_in past.new ≡ change_last (note_removed name.now id) (records_in past.old) }
    ensures fresh { fresh_in past.new ≡ fresh_in past.old }
    ensures merge { one_if (merge_in past.new) ≡ one_if (merge_in past.old) }
    ensures edits { edits_in past.new ≡ edits_in past.old - 1 }
{
    match children.take(name) {
        Some(child) => note_removed(past, child),
        None => unreachable!(),
    }
}
