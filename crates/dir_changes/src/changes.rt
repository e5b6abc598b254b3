//! Changes of the last record, and room in it.
ghost use Rattle.std.specs.Prelude.{◌≡◌, ℕ, ◌+◌, ◌<◌, ◌≤◌, map, OnOk, vec_len, vec_capacity};
ghost use Rattle.dir_changes.specs.History.{change_last, note_added as with_added, note_removed as with_removed};
ghost use Rattle.dir_changes.specs.Recorded.{past_of};
ghost use Rattle.dir_changes.specs.Spare.{LastHasRoom, PairsFit, created_len, deleted_len};

use crate::child::Child;
use crate::name_room::NameRoom;
use crate::recorded::{DirRecord, note_created, note_deleted};
use hs_types::{Duplicate, InodeId, Name, NoMemory};

/// Enters an added entry in the last record, where there is one.
pub fn note_added(records: &mut Vec<DirRecord>, names: &mut Vec<NameRoom>, name: &Name, id: InodeId)
    requires room { LastHasRoom 1 records.old.items }
    requires names { 0 < vec_len names.old }
    ensures noted { map past_of records.new.items ≡ change_last (with_added name.now id) (map past_of records.old.items) }
    ensures last_room { (n : ℕ) → LastHasRoom (n + 1) records.old.items → LastHasRoom n records.new.items }
    ensures created_fit { (most : ℕ) → PairsFit created_len most records.old.items → PairsFit created_len (most + 1) records.new.items }
    ensures deleted_fit { (most : ℕ) → PairsFit deleted_len most records.old.items → PairsFit deleted_len most records.new.items }
    ensures len { vec_len records.new ≡ vec_len records.old }
    ensures capacity { vec_capacity records.new ≡ vec_capacity records.old }
    ensures names { vec_len names.old ≤ vec_len names.new + 1 }
{
    if let Some(mut last) = records.pop() {
        let name = copy_of(name, names);
        note_created(&mut last, Child { name, id });
        records.push_reserved(last);
    }
}

/// Enters a removed entry in the last record, where there is one.
pub fn note_removed(records: &mut Vec<DirRecord>, child: Child)
    requires { LastHasRoom 1 records.old.items }
    ensures noted { map past_of records.new.items ≡ change_last (with_removed child.0 child.1) (map past_of records.old.items) }
    ensures last_room { (n : ℕ) → LastHasRoom (n + 1) records.old.items → LastHasRoom n records.new.items }
    ensures created_fit { (most : ℕ) → PairsFit created_len most records.old.items → PairsFit created_len most records.new.items }
    ensures deleted_fit { (most : ℕ) → PairsFit deleted_len most records.old.items → PairsFit deleted_len (most + 1) records.new.items }
    ensures len { vec_len records.new ≡ vec_len records.old }
    ensures capacity { vec_capacity records.new ≡ vec_capacity records.old }
{
    if let Some(mut last) = records.pop() {
        note_deleted(&mut last, child);
        records.push_reserved(last);
    }
}

/// A copy of a name. Where no memory is left it takes some that was put aside.
fn copy_of(name: &Name, names: &mut Vec<NameRoom>) -> Name
    requires { 0 < vec_len names.old }
    ensures copy { result ≡ name.now }
    ensures names { vec_len names.old ≤ vec_len names.new + 1 }
{
    match name.copy() {
        Ok(copy) => copy,
        Err(NoMemory) => match names.pop() {
            Some(room) => room.copy_of(name),
            None => unreachable!(),
        },
    }
}

/// Makes room for so many entries more in both lists of the last record.
pub fn reserve_last(records: &mut Vec<DirRecord>, more: usize) -> Result<(), NoMemory>
    ensures same { map past_of records.new.items ≡ map past_of records.old.items }
    ensures ok { OnOk result (LastHasRoom more records.new.items) }
    ensures last_room { (n : ℕ) → LastHasRoom n records.old.items → LastHasRoom n records.new.items }
    ensures created_fit { (most : ℕ) → PairsFit created_len most records.old.items → PairsFit created_len most records.new.items }
    ensures deleted_fit { (most : ℕ) → PairsFit deleted_len most records.old.items → PairsFit deleted_len most records.new.items }
    ensures len { vec_len records.new ≡ vec_len records.old }
    ensures capacity { vec_capacity records.new ≡ vec_capacity records.old }
{
    match records.pop() {
        Some(mut last) => {
            let reserved = reserve_lists(&mut last, more);
            records.push_reserved(last);
            reserved
        }
        None => Ok(()),
    }
}

/// Makes room for so many entries more in both lists.
fn reserve_lists(last: &mut DirRecord, more: usize) -> Result<(), NoMemory>
    ensures same { past_of last.new ≡ past_of last.old }
    ensures ok { OnOk result ((more ≤ last.new.created.room) × (more ≤ last.new.deleted.room)) }
    ensures created_room { last.old.created.room ≤ last.new.created.room }
    ensures deleted_room { last.old.deleted.room ≤ last.new.deleted.room }
{
    last.created.reserve(more)?;
    last.deleted.reserve(more)?;
    Ok(())
}
