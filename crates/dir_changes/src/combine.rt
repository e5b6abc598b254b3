//! A record is taken into the one before it.
ghost use Rattle.std.specs.Prelude.{◌≡◌, ℕ, ◌+◌, ◌<◌, ◌≤◌, [], ◌++◌, IsTrue, length, map, take, drop, vec_len, vec_capacity};
ghost use Rattle.std.specs.VecDeque.{deque_len};
ghost use Rattle.dir_changes.specs.Entries.{in_order, among, without, with_all};
ghost use Rattle.dir_changes.specs.Undo.{combined};
ghost use Rattle.dir_changes.specs.History.{cancelled, ids_of, with_later, combined_at, dropped_at};
ghost use Rattle.dir_changes.specs.Recorded.{past_of, diff_of, lists_of};
ghost use Rattle.dir_changes.specs.Spare.{IsEmptyRoom, IsMeasured, HoldsBoth, HoldsIds, HoldsPairs, LastHasRoom};

use crate::child::Child;
use crate::children::Children;
use crate::merge::{drop_names, put_all, stands_in};
use crate::recorded::DirRecord;
use crate::spare::MergeRoom;
use hs_types::{InodeId, List};
use std::collections::VecDeque;
use std::mem::replace;

/// The two lists of a record, or of several for which they stand.
#[derive(Debug, Drop)]
pub struct Lists {
    pub created: Children,
    pub deleted: Children,
}

/// The lists of two records put together, in the memory of `created` and `deleted`, and what the later one deleted and
/// the earlier one had created: it was there only in between, and stands in neither list then.
pub fn merge_lists(
    earlier: Lists,
    later: Lists,
    created: Vec<Child>,
    deleted: Vec<Child>,
    mut found: Vec<Child>,
) -> (Lists, Vec<Child>)
    requires empty_created { created.items ≡ [] }
    requires empty_deleted { deleted.items ≡ [] }
    requires empty_found { found.items ≡ [] }
    requires created_room { length earlier.created.entries + length later.created.entries ≤ vec_capacity created }
    requires deleted_room { length earlier.deleted.entries + length later.deleted.entries ≤ vec_capacity deleted }
    requires found_room { length later.deleted.entries ≤ vec_capacity found }
    ensures merged { lists_of result.0 ≡ combined (lists_of earlier) (lists_of later) }
    ensures found { result.1.items ≡ cancelled (lists_of earlier) (lists_of later) }
    ensures few { vec_len result.1 ≤ length later.deleted.entries }
    ensures created_left { vec_capacity created ≤ result.0.created.room + (length earlier.created.entries + length later.created.entries) }
    ensures deleted_left { vec_capacity deleted ≤ result.0.deleted.room + (length earlier.deleted.entries + length later.deleted.entries) }
{
    let mut later_deleted = VecDeque::from(later.deleted.into_vec());
    take_found(&mut later_deleted, earlier.created.items(), &mut found);
    let deleted = put_together(deleted, earlier.deleted.into_vec(), later_deleted);
    let mut earlier_created = earlier.created.into_vec();
    drop_names(&mut earlier_created, found.as_slice());
    let later_created = VecDeque::from(later.created.into_vec());
    let created = put_together(created, earlier_created, later_created);
    (Lists { created, deleted }, found)
}

/// Takes the later record's lists into the earlier one, and gives memory back but for `keep` entries more. Hands back
/// the ids of what the later one deleted and the earlier one had created: it stands in neither list then.
pub fn take_later(
    earlier: &mut DirRecord,
    later: DirRecord,
    room: MergeRoom,
    keep: usize,
) -> List<InodeId>
    requires empty { IsEmptyRoom room }
    requires holds { HoldsBoth earlier.old later room }
    ensures past { past_of earlier.new ≡ with_later (past_of earlier.old) (past_of later) }
    ensures ids { result ≡ ids_of (cancelled (diff_of earlier.old) (diff_of later)) }
    ensures created_room { (n : ℕ) → n ≤ keep → n + (length earlier.old.created.entries + length later.created.entries) ≤ vec_capacity room.created → n ≤ earlier.new.created.room }
    ensures deleted_room { (n : ℕ) → n ≤ keep → n + (length earlier.old.deleted.entries + length later.deleted.entries) ≤ vec_capacity room.deleted → n ≤ earlier.new.deleted.room }
{
    let alloc = earlier.created.allocator();
    let lists = Lists {
        created: replace(&mut earlier.created, Children::new(alloc)),
        deleted: replace(&mut earlier.deleted, Children::new(alloc)),
    };
    let later = Lists {
        created: later.created,
        deleted: later.deleted,
    };
    let (merged, found) = merge_lists(lists, later, room.created, room.deleted, room.found);
    earlier.created = shrunk(merged.created, keep);
    earlier.deleted = shrunk(merged.deleted, keep);
    ids_in(room.ids, found.as_slice())
}

/// The list without the memory that it doesn't need.
fn shrunk(mut list: Children, keep: usize) -> Children
    ensures same { result.entries ≡ list.entries }
    ensures room { (n : ℕ) → n ≤ keep → n ≤ list.room → n ≤ result.room }
{
    list.shrink(keep);
    list
}

/// The list with each of `more` in its place, in the memory of `out`.
fn put_together(mut out: Vec<Child>, list: Vec<Child>, more: VecDeque<Child>) -> Children
    requires empty { out.items ≡ [] }
    requires list_in_order { IsTrue (in_order list.items) }
    requires more_in_order { IsTrue (in_order more.items) }
    requires room { vec_len list + deque_len more ≤ vec_capacity out }
    ensures put { result.entries ≡ with_all more.items list.items }
    ensures room { vec_capacity out ≤ result.room + (vec_len list + deque_len more) }
{
    put_all(&mut out, VecDeque::from(list), more);
    Children::of_vec(out)
}

/// Moves the entries whose names stand in `names` to `found`. The others stay, in order.
fn take_found(list: &mut VecDeque<Child>, names: &[Child], found: &mut Vec<Child>)
    requires in_order { IsTrue (in_order names.now) }
    requires room { vec_len found.old + deque_len list.old ≤ vec_capacity found.old }
    ensures rest { list.new.items ≡ without names.now list.old.items }
    ensures found { found.new.items ≡ found.old.items ++ among names.now list.old.items }
    ensures len { deque_len list.new + vec_len found.new ≡ deque_len list.old + vec_len found.old }
    ensures capacity { vec_capacity found.new ≡ vec_capacity found.old }
{
    for _ in 0..list.len() {
        turn(list, names, found);
    }
}

/// Moves the first entry to `found`, where its name stands in `names`, and else to the end.
fn turn(list: &mut VecDeque<Child>, names: &[Child], found: &mut Vec<Child>)
    requires in_order { IsTrue (in_order names.now) }
    requires room { vec_len found.old < vec_capacity found.old }
    ensures rest { list.new.items ≡ drop 1 list.old.items ++ without names.now (take 1 list.old.items) }
    ensures found { found.new.items ≡ found.old.items ++ among names.now (take 1 list.old.items) }
    ensures len { deque_len list.new + vec_len found.new ≡ deque_len list.old + vec_len found.old }
    ensures few { vec_len found.new ≤ vec_len found.old + 1 }
    ensures capacity { vec_capacity found.new ≡ vec_capacity found.old }
{
    if let Some(child) = list.pop_front() {
        if stands_in(names, &child) {
            found.push_reserved(child);
        } else {
            list.push_back_reserved(child);
        }
    }
}

/// The ids of these entries, in the memory of `ids`.
pub fn ids_in(mut ids: Vec<InodeId>, children: &[Child]) -> List<InodeId>
    requires empty { ids.items ≡ [] }
    requires room { length children.now ≤ vec_capacity ids }
    ensures { result ≡ ids_of children.now }
{
    for child in children {
        ids.push_reserved(child.id);
    }
    List::of(ids)
}

/// Takes record `i` into the one before it, or drops it as the first. Hands back the ids of the deleted entries that
/// go: those that the one before had created, and of a first record all. A list that was put together keeps room for
/// `keep` entries more.
pub fn combine_at(
    records: &mut Vec<DirRecord>,
    i: usize,
    room: MergeRoom,
    keep: usize,
) -> List<InodeId>
    requires there { i < vec_len records.old }
    requires empty { IsEmptyRoom room }
    requires measured { IsMeasured records.old.items room }
    requires ids { HoldsIds keep room }
    requires pairs { 2 ≤ vec_len records.old → HoldsPairs keep room }
    ensures combined { map past_of records.new.items ≡ combined_at i (map past_of records.old.items) }
    ensures ids { result ≡ ids_of (dropped_at i (map past_of records.old.items)) }
    ensures last_room { LastHasRoom keep records.old.items → LastHasRoom keep records.new.items }
    ensures len { vec_len records.new + 1 ≡ vec_len records.old }
    ensures capacity { vec_capacity records.new ≡ vec_capacity records.old }
{
    let later = records.remove(i);
    if i == 0 {
        drop_first(later, room)
    } else {
        take_later(&mut records[i - 1], later, room, keep)
    }
}

/// The ids of all its deleted entries.
fn drop_first(first: DirRecord, room: MergeRoom) -> List<InodeId>
    requires empty { room.ids.items ≡ [] }
    requires room { length first.deleted.entries ≤ vec_capacity room.ids }
    ensures { result ≡ ids_of first.deleted.entries }
{
    ids_in(room.ids, first.deleted.items())
}
