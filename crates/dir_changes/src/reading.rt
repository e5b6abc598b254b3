//! Which record tells a snapshot, and what the child list was there.
ghost use Rattle.std.specs.Prelude.{◌≡◌, ◌<◌, IsTrue, IfOk, map, length};
ghost use Rattle.dir_changes.specs.Entries.{id_at};
ghost use Rattle.dir_changes.specs.Undo.{combined};
ghost use Rattle.dir_changes.specs.History.{rising, records_at, undo_all, can_undo_all};
ghost use Rattle.dir_changes.specs.Recorded.{past_of, diff_of, lists_of};
ghost use Rattle.dir_changes.specs.Together.{StandsForAll};

use crate::child::Child;
use crate::children::Children;
use crate::combine::{Lists, merge_lists};
use crate::merge::copies;
use crate::recorded::{DirRecord, undone};
use hs_types::{InodeId, Name, NoMemory, SnapId};
use std::alloc::Global;

/// The records that tell a snapshot, the first of them first. 0 is no snapshot: none tells it.
pub fn records_at(records: &[DirRecord], s: SnapId) -> &[DirRecord]
    requires { IsTrue (rising 0 (map past_of records.now)) }
    ensures { map past_of result.now ≡ records_at s.0 (map past_of records.now) }
{
    change_history::records_at(records, s)
}

/// The list with these records undone. Their lists are put together, two halves at a time, and undone once.
pub fn undo_all(
    alloc: Global,
    records: &[DirRecord],
    children: &Children,
) -> Result<Vec<Child>, NoMemory>
    requires { IsTrue (can_undo_all (map past_of records.now) children.now.entries) }
    ensures { IfOk result (λ list. list.items ≡ undo_all (map past_of records.now) children.now.entries) }
{
    let list = copies(alloc, children.items())?;
    if records.is_empty() {
        return Ok(list);
    }
    let lists = together(alloc, records)?;
    undone(list, lists)
}

/// Lists that stand for those of all these records. There is one at least.
fn together(alloc: Global, records: &[DirRecord]) -> Result<Lists, NoMemory>
    requires { 0 < length records.now }
    ensures { IfOk result (λ lists. StandsForAll (lists_of lists) (map past_of records.now)) }
{
    let half = records.len() / 2;
    if half == 0 {
        return copied(alloc, &records[0]);
    }
    let (front, back) = records.split_at(half);
    let earlier = together(alloc, front)?;
    let later = together(alloc, back)?;
    joined(alloc, earlier, later)
}

/// A copy of the record's lists.
fn copied(alloc: Global, saved: &DirRecord) -> Result<Lists, NoMemory>
    ensures { IfOk result (λ lists. lists_of lists ≡ diff_of saved.now) }
{
    Ok(Lists {
        created: Children::of_vec(copies(alloc, saved.created.items())?),
        deleted: Children::of_vec(copies(alloc, saved.deleted.items())?),
    })
}

/// The lists put together, in new memory.
fn joined(alloc: Global, earlier: Lists, later: Lists) -> Result<Lists, NoMemory>
    ensures { IfOk result (λ lists. lists_of lists ≡ combined (lists_of earlier) (lists_of later)) }
{
    let room = earlier
        .created
        .len()
        .checked_add(later.created.len())
        .ok_or(NoMemory)?;
    let created = Vec::with_capacity(alloc, room)?;
    let room = earlier
        .deleted
        .len()
        .checked_add(later.deleted.len())
        .ok_or(NoMemory)?;
    let deleted = Vec::with_capacity(alloc, room)?;
    let found = Vec::with_capacity(alloc, later.deleted.len())?;
    let (lists, _found) = merge_lists(earlier, later, created, deleted, found);
    Ok(lists)
}

/// The id under a name, in the list with these records undone. Each record is asked in turn, the first one first,
/// until one tells.
pub fn id_before(records: &[DirRecord], children: &Children, name: &Name) -> Option<InodeId>
    ensures { result ≡ id_at name.now (undo_all (map past_of records.now) children.now.entries) }
{
    for saved in records {
        if let Some(id) = saved.deleted.id_of(name) {
            return Some(id);
        }
        if saved.created.id_of(name).is_some() {
            return None;
        }
    }
    children.id_of(name)
}
