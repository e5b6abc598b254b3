//! Room that is made before a change, so that the change can't want memory.
ghost use Rattle.std.specs.Prelude.{◌≡◌, ℕ, ◌+◌, ◌<◌, ◌≤◌, length, IfSome, IfOk, IsOk, OnOk, OnErr, vec_len, vec_capacity};
ghost use Rattle.std.specs.Option.{ForSome, option_map};
ghost use Rattle.dir_changes.specs.Inside.{HasSpot};
ghost use Rattle.dir_changes.specs.Spare.{PairsFit, created_len, deleted_len, one_if, IsFresh, IsMergeRoom, IsEmptyRoom, IsMeasured, IsSameMeasure, IsWider, HoldsIds, HoldsPairs, created_raised, deleted_raised};

use crate::child::Child;
use crate::children::Children;
use crate::name_room::NameRoom;
use crate::recorded::DirRecord;
use hs_types::{Duplicate, InodeId, NoMemory, Spot};
use std::alloc::Global;

/// What the next record takes: a copy of the present spot, and two lists with room for three entries.
#[derive(Debug, Drop)]
pub struct FreshRecord {
    pub spot: Spot,
    pub created: Children,
    pub deleted: Children,
}

/// What the next `combine` takes: lists for what two records have together, and for the entries that cancel out.
#[derive(Debug, Drop)]
pub struct MergeRoom {
    pub created: Vec<Child>,
    pub deleted: Vec<Child>,
    pub found: Vec<Child>,
    pub ids: Vec<InodeId>,
    /// No two neighbouring records have more created entries together.
    pub most_created: usize,
    /// No two neighbouring records have more deleted entries together.
    pub most_deleted: usize,
}

/// Makes the next record and a place for it, where that isn't done.
pub fn ready_fresh(
    fresh: &mut Option<FreshRecord>,
    records: &mut Vec<DirRecord>,
    spot: &Spot,
) -> Result<(), NoMemory>
    requires fresh { ForSome fresh.old (IsFresh (vec_len records.old) (vec_capacity records.old)) }
    requires spot { HasSpot spot.now fresh.old }
    ensures fresh { ForSome fresh.new (IsFresh (vec_len records.new) (vec_capacity records.new)) }
    ensures spot { HasSpot spot.now fresh.new }
    ensures ok { OnOk result (1 ≤ one_if fresh.new) }
    ensures err { OnErr result (fresh.new ≡ fresh.old) }
    ensures kept { one_if fresh.old ≤ one_if fresh.new }
    ensures room { 0 < one_if fresh.old → IsOk result }
    ensures records { records.new.items ≡ records.old.items }
    ensures len { vec_len records.new ≡ vec_len records.old }
{
    if fresh.is_some() {
        return Ok(());
    }
    records.reserve(1)?;
    *fresh = Some(FreshRecord {
        spot: spot.copy()?,
        created: Children::with_room(*records.allocator(), 3)?,
        deleted: Children::with_room(*records.allocator(), 3)?,
    });
    Ok(())
}

/// Puts memory for so many names aside.
pub fn fill_names(alloc: Global, names: &mut Vec<NameRoom>, count: usize) -> Result<(), NoMemory>
    ensures ok { OnOk result (count ≤ vec_len names.new) }
    ensures kept { vec_len names.old ≤ vec_len names.new }
{
    while names.len() < count {
        names.push(NameRoom::new(alloc)?)?;
    }
    Ok(())
}

/// The greatest numbers of created and of deleted entries that a record and the next one have together. `None`
/// where a number is too large for its type.
fn most_together(records: &[DirRecord]) -> Option<(usize, usize)>
    ensures created { IfSome result (λ most. PairsFit created_len most.0 records.now) }
    ensures deleted { IfSome result (λ most. PairsFit deleted_len most.1 records.now) }
{
    let mut most_created = 0usize;
    let mut most_deleted = 0usize;
    let mut next_created = 0usize;
    let mut next_deleted = 0usize;
    let mut left = records.len();
    while left > 0 {
        left -= 1;
        let saved = &records[left];
        let created = saved.created.len();
        let deleted = saved.deleted.len();
        most_created = most_created.max(created.checked_add(next_created)?);
        most_deleted = most_deleted.max(deleted.checked_add(next_deleted)?);
        next_created = created;
        next_deleted = deleted;
    }
    Some((most_created, most_deleted))
}

/// Empty lists, and the measure of these records.
fn measured(alloc: Global, records: &[DirRecord]) -> Result<MergeRoom, NoMemory>
    ensures empty { IfOk result IsEmptyRoom }
    ensures measured { IfOk result (IsMeasured records.now) }
{
    let (most_created, most_deleted) = most_together(records).ok_or(NoMemory)?;
    Ok(MergeRoom {
        created: Vec::new(alloc),
        deleted: Vec::new(alloc),
        found: Vec::new(alloc),
        ids: Vec::new(alloc),
        most_created,
        most_deleted,
    })
}

/// Makes room for ids as long as any deleted list can be after so many edits.
fn widen_ids(room: &mut MergeRoom, edits: usize) -> Result<(), NoMemory>
    requires { IsEmptyRoom room.old }
    ensures same { IsSameMeasure room.old room.new }
    ensures empty { IsEmptyRoom room.new }
    ensures wider { IsWider room.old room.new }
    ensures ok { OnOk result (HoldsIds edits room.new) }
    ensures succeeds { HoldsIds edits room.old → IsOk result }
{
    let _created = room.most_created.checked_add(edits).ok_or(NoMemory)?;
    let deleted = room.most_deleted.checked_add(edits).ok_or(NoMemory)?;
    room.ids.reserve(deleted)?;
    Ok(())
}

/// Makes the lists as long as two neighbours can be together after so many edits.
fn widen_pairs(room: &mut MergeRoom, edits: usize) -> Result<(), NoMemory>
    requires { IsEmptyRoom room.old }
    ensures same { IsSameMeasure room.old room.new }
    ensures empty { IsEmptyRoom room.new }
    ensures wider { IsWider room.old room.new }
    ensures ok { OnOk result (HoldsPairs edits room.new) }
{
    let created = room.most_created.checked_add(edits).ok_or(NoMemory)?;
    let deleted = room.most_deleted.checked_add(edits).ok_or(NoMemory)?;
    room.created.reserve(created)?;
    room.deleted.reserve(deleted)?;
    room.found.reserve(deleted)?;
    Ok(())
}

/// Makes all that a `combine` takes after so many edits; without a record there is nothing to put together.
fn widen(room: &mut MergeRoom, edits: usize, count: usize) -> Result<(), NoMemory>
    requires { IsEmptyRoom room.old }
    ensures same { IsSameMeasure room.old room.new }
    ensures empty { IsEmptyRoom room.new }
    ensures wider { IsWider room.old room.new }
    ensures ids { OnOk result (HoldsIds edits room.new) }
    ensures pairs { OnOk result (0 < count → HoldsPairs edits room.new) }
{
    widen_ids(room, edits)?;
    if count > 0 {
        return widen_pairs(room, edits);
    }
    Ok(())
}

/// Makes the room that the next `combine` takes, also where so many edits and a new record stand between.
pub fn ready_merge(
    alloc: Global,
    merge: &mut Option<MergeRoom>,
    records: &[DirRecord],
    edits: usize,
) -> Result<(), NoMemory>
    requires { ForSome merge.old (λ room. IsEmptyRoom room × IsMeasured records.now room) }
    ensures kept { (fewer n : ℕ) → fewer ≤ edits → n ≤ length records.now + 1 → ForSome merge.old (IsMergeRoom records.now fewer n) → ForSome merge.new (IsMergeRoom records.now fewer n) }
    ensures ok { OnOk result (ForSome merge.new (IsMergeRoom records.now edits (length records.now + 1))) }
    ensures some { OnOk result (1 ≤ one_if merge.new) }
    ensures same { one_if merge.old ≤ one_if merge.new }
    ensures none { OnErr result (one_if merge.new ≡ one_if merge.old) }
{
    match merge.take() {
        Some(mut room) => {
            let widened = widen(&mut room, edits, records.len());
            *merge = Some(room);
            widened
        }
        None => {
            let mut room = measured(alloc, records)?;
            widen(&mut room, edits, records.len())?;
            *merge = Some(room);
            Ok(())
        }
    }
}

/// One created entry more stands in the last record.
pub fn raise_created(merge: &mut Option<MergeRoom>)
    requires { ForSome merge.old (HoldsIds 1) }
    ensures { merge.new ≡ option_map created_raised merge.old }
{
    if let Some(room) = merge {
        room.most_created += 1;
    }
}

/// One deleted entry more stands in the last record.
pub fn raise_deleted(merge: &mut Option<MergeRoom>)
    requires { ForSome merge.old (HoldsIds 1) }
    ensures { merge.new ≡ option_map deleted_raised merge.old }
{
    if let Some(room) = merge {
        room.most_deleted += 1;
    }
}
