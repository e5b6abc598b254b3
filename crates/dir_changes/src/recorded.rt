//! Change records of a directory.
ghost use Rattle.std.specs.Prelude.{◌≡◌, ◌+◌, ◌<◌, ◌≤◌, IsTrue, IfOk, length, map};
ghost use Rattle.dir_changes.specs.Entries.{in_order, holds};
ghost use Rattle.dir_changes.specs.Undo.{undo};
ghost use Rattle.dir_changes.specs.History.{note_added, note_removed};
ghost use Rattle.dir_changes.specs.Counts.{goes_to_deleted};
ghost use Rattle.dir_changes.specs.Recorded.{past_of, lists_of, noted, marks_shown};

use crate::child::Child;
use crate::children::Children;
use crate::combine::Lists;
use crate::merge::{drop_names, put_all};
use change_history::Numbered;
use hs_types::{InodeId, List, Mode, Name, NoMemory, SnapId, Spot};
use std::collections::VecDeque;

/// A change record. Its number is a snapshot id: the record tells the directory at that snapshot, and at each one
/// after the record before. It saves where the directory stood, its mode and its stamp. Of the child list it keeps
/// what was created and what was deleted since.
#[derive(Debug, Drop)]
pub struct DirRecord {
    pub number: SnapId,
    pub spot: Spot,
    pub mode: Mode,
    pub stamp: u64,
    pub created: Children,
    pub deleted: Children,
}

/// The state of a directory at a snapshot, with its whole child list.
#[derive(Debug, Drop)]
pub struct DirView {
    pub spot: Spot,
    pub mode: Mode,
    pub stamp: u64,
    pub children: List<Child>,
}

/// Where a directory stood, and its mode and stamp, lent.
#[derive(Clone, Copy, Debug)]
pub struct DirMarks<'a> {
    pub spot: &'a Spot,
    pub mode: Mode,
    pub stamp: u64,
}

impl Numbered for DirRecord {
    ghost number_of = { λ r. r.number.0 };

    fn number(&self) -> SnapId {
        self.number
    }
}

impl DirRecord {
    /// The marks that the record saved.
    pub(crate) fn marks(&self) -> DirMarks<'_>
        ensures { marks_shown result ≡ record { spot = self.now.spot; mode = self.now.mode; stamp = self.now.stamp } }
    {
        DirMarks {
            spot: &self.spot,
            mode: self.mode,
            stamp: self.stamp,
        }
    }
}

/// The child list before the changes of these lists.
pub fn undone(mut list: Vec<Child>, lists: Lists) -> Result<Vec<Child>, NoMemory>
    requires { IsTrue (in_order list.items) }
    ensures { IfOk result (λ before. before.items ≡ undo (lists_of lists) list.items) }
{
    drop_names(&mut list, lists.created.items());
    if lists.deleted.is_empty() {
        return Ok(list);
    }
    let deleted = lists.deleted.into_vec();
    let room = list.len().checked_add(deleted.len()).ok_or(NoMemory)?;
    let mut before = Vec::with_capacity(*list.allocator(), room)?;
    put_all(&mut before, VecDeque::from(list), VecDeque::from(deleted));
    Ok(before)
}

/// Enters an added entry. There is room in the created list.
pub fn note_created(record_: &mut DirRecord, child: Child)
    requires { 0 < record_.old.created.room }
    ensures noted { past_of record_.new ≡ noted (note_added child.0 child.1) (past_of record_.old) }
    ensures created_room { record_.old.created.room ≤ record_.new.created.room + 1 }
    ensures created_len { length record_.new.created.entries ≤ length record_.old.created.entries + 1 }
    ensures deleted { record_.new.deleted ≡ record_.old.deleted }
{
    record_.created.put(child);
}

/// Enters a removed entry: one that was created since goes out of that list, any other one into the deleted list,
/// in which there is room.
pub fn note_deleted(record_: &mut DirRecord, child: Child)
    requires { 0 < record_.old.deleted.room }
    ensures noted { past_of record_.new ≡ noted (note_removed child.0 child.1) (past_of record_.old) }
    ensures created_room { record_.old.created.room ≤ record_.new.created.room }
    ensures created_len { length record_.new.created.entries ≤ length record_.old.created.entries }
    ensures deleted_room { record_.old.deleted.room ≤ record_.new.deleted.room + 1 }
    ensures deleted_len { length record_.new.deleted.entries ≤ length record_.old.deleted.entries + 1 }
{
    if is_created(record_, &child) {
        record_.created.take(&child.name);
    } else {
        record_.deleted.put(child);
    }
}

/// Whether the entry stands in the created list with the same id.
fn is_created(record_: &DirRecord, child: &Child) -> bool
    ensures { result ≡ holds record_.now.created.entries child.now }
{
    has_created(record_, &child.name, child.id)
}

fn has_created(record_: &DirRecord, name: &Name, id: InodeId) -> bool
    ensures { result ≡ holds record_.now.created.entries (name.now, id) }
{
    match record_.created.id_of(name) {
        Some(other) => id == other,
        None => false,
    }
}

/// Whether an entry, once removed, goes to the last record's deleted list.
pub fn keeps(records: &[DirRecord], name: &Name, id: InodeId) -> bool
    ensures { result ≡ goes_to_deleted name.now id (map past_of records.now) }
{
    match records.last() {
        Some(last) => !has_created(last, name, id),
        None => false,
    }
}
