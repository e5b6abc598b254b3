//! The records of a directory, and what is made for changes to come.
ghost use Rattle.std.specs.Prelude.{◌≡◌, ℕ, ◌+◌, ◌<◌, ◌≤◌, [], ◌∷◌, ◌++◌, length, max, IsOk, OnOk, OnErr, None};
ghost use Rattle.std.specs.Option.{ForSome};
ghost use Rattle.dir_changes.specs.History.{change_last, note_added as with_added, note_removed as with_removed, combined_at, dropped_at, ids_of};
ghost use Rattle.dir_changes.specs.Inside.{pasts_of, IsReady, IsWide, records_in, edits_in, fresh_in, merge_in, IsPastReady, HasSpot};
ghost use Rattle.dir_changes.specs.Spare.{one_if, IsEmptyRoom, IsMeasured, IsMergeRoom};

use crate::changes::{note_added, note_removed, reserve_last};
use crate::child::Child;
use crate::combine::combine_at;
use crate::name_room::NameRoom;
use crate::recorded::DirRecord;
use crate::spare::{
    FreshRecord, MergeRoom, fill_names, raise_created, raise_deleted, ready_fresh, ready_merge,
};
use hs_types::{InodeId, List, Mode, Name, NoMemory, SnapId, Spot};
use std::alloc::Global;

/// The records of a directory by rising numbers, and what is made for changes to come.
#[derive(Debug, Drop)]
pub struct DirPast {
    pub records: Vec<DirRecord>,
    /// So many calls of `add` and `remove` find room.
    pub edits: usize,
    pub names: Vec<NameRoom>,
    pub fresh: Option<FreshRecord>,
    pub merge: Option<MergeRoom>,
}

/// No records, and nothing made. It takes no memory.
pub fn bare_past(alloc: Global) -> DirPast
    ensures records { result.records.items ≡ [] }
    ensures edits { result.edits ≡ 0 }
    ensures fresh { result.fresh ≡ None }
    ensures merge { result.merge ≡ None }
{
    DirPast {
        records: Vec::new(alloc),
        edits: 0,
        names: Vec::new(alloc),
        fresh: None,
        merge: None,
    }
}

/// Makes room for so many edits: in the last record's lists, and where a `combine` is promised in its lists.
pub fn make_edits(past: &mut DirPast, alloc: Global, edits: usize) -> Result<(), NoMemory>
    requires few { edits ≤ 3 }
    requires ready { IsReady past.old }
    ensures ready { IsReady past.new }
    ensures records { pasts_of past.new ≡ pasts_of past.old }
    ensures fresh { past.new.fresh ≡ past.old.fresh }
    ensures merge { one_if past.new.merge ≡ one_if past.old.merge }
    ensures edits { past.old.edits ≤ past.new.edits }
    ensures most { past.new.edits ≤ max edits past.old.edits }
    ensures ok { OnOk result (edits ≤ past.new.edits) }
    ensures err { OnErr result (past.new.edits ≡ past.old.edits) }
    ensures succeeds { edits ≤ past.old.edits → IsOk result }
{
    if edits <= past.edits {
        return Ok(());
    }
    fill_names(alloc, &mut past.names, edits)?;
    reserve_last(&mut past.records, edits)?;
    keep_merge(alloc, &mut past.merge, past.records.as_slice(), edits)?;
    past.edits = edits;
    Ok(())
}

/// Where a `combine` is promised, its lists are made to hold so many edits more.
fn keep_merge(
    alloc: Global,
    merge: &mut Option<MergeRoom>,
    records: &[DirRecord],
    edits: usize,
) -> Result<(), NoMemory>
    requires { ForSome merge.old (λ room. IsEmptyRoom room × IsMeasured records.now room) }
    ensures kept { (fewer n : ℕ) → fewer ≤ edits → n ≤ length records.now + 1 → ForSome merge.old (IsMergeRoom records.now fewer n) → ForSome merge.new (IsMergeRoom records.now fewer n) }
    ensures ok { OnOk result (ForSome merge.new (IsMergeRoom records.now edits (length records.now + 1))) }
    ensures same { one_if merge.new ≡ one_if merge.old }
{
    if merge.is_none() {
        return Ok(());
    }
    ready_merge(alloc, merge, records, edits)
}

/// Makes the room that the next `combine` takes.
pub fn make_merge(past: &mut DirPast, alloc: Global) -> Result<(), NoMemory>
    requires { IsReady past.old }
    ensures ready { IsReady past.new }
    ensures records { pasts_of past.new ≡ pasts_of past.old }
    ensures fresh { past.new.fresh ≡ past.old.fresh }
    ensures edits { past.new.edits ≡ past.old.edits }
    ensures merge { one_if past.old.merge ≤ one_if past.new.merge }
    ensures ok { OnOk result (1 ≤ one_if past.new.merge) }
    ensures wide { OnOk result (IsWide past.new) }
{
    ready_merge(alloc, &mut past.merge, past.records.as_slice(), past.edits)
}

/// Makes the next record and a place for it. Where a `combine` is promised, its lists are made to hold that record too.
pub fn make_fresh(past: &mut DirPast, alloc: Global, spot: &Spot) -> Result<(), NoMemory>
    requires ready { IsReady past.old }
    requires spot { HasSpot spot.now past.old.fresh }
    ensures ready { IsReady past.new }
    ensures spot { HasSpot spot.now past.new.fresh }
    ensures records { pasts_of past.new ≡ pasts_of past.old }
    ensures edits { past.new.edits ≡ past.old.edits }
    ensures merge { one_if past.old.merge ≤ one_if past.new.merge }
    ensures fresh { one_if past.old.fresh ≤ one_if past.new.fresh }
    ensures ok { OnOk result (1 ≤ one_if past.new.fresh) }
    ensures succeeds { 0 < one_if past.old.fresh → IsOk result }
{
    if past.fresh.is_some() {
        return Ok(());
    }
    make_wide(past, alloc)?;
    add_fresh(past, spot)
}

/// Where a `combine` is promised, its lists are made to hold one record more.
fn make_wide(past: &mut DirPast, alloc: Global) -> Result<(), NoMemory>
    requires { IsReady past.old }
    ensures ready { IsReady past.new }
    ensures records { pasts_of past.new ≡ pasts_of past.old }
    ensures fresh { past.new.fresh ≡ past.old.fresh }
    ensures edits { past.new.edits ≡ past.old.edits }
    ensures merge { one_if past.old.merge ≤ one_if past.new.merge }
    ensures wide { OnOk result (IsWide past.new) }
{
    if past.merge.is_none() {
        return Ok(());
    }
    make_merge(past, alloc)
}

fn add_fresh(past: &mut DirPast, spot: &Spot) -> Result<(), NoMemory>
    requires ready { IsReady past.old }
    requires wide { IsWide past.old }
    requires spot { HasSpot spot.now past.old.fresh }
    ensures ready { IsReady past.new }
    ensures spot { HasSpot spot.now past.new.fresh }
    ensures records { pasts_of past.new ≡ pasts_of past.old }
    ensures edits { past.new.edits ≡ past.old.edits }
    ensures merge { past.new.merge ≡ past.old.merge }
    ensures fresh { one_if past.old.fresh ≤ one_if past.new.fresh }
    ensures ok { OnOk result (1 ≤ one_if past.new.fresh) }
{
    ready_fresh(&mut past.fresh, &mut past.records, spot)
}

/// Makes room for three edits, the next `combine` and the next record.
pub fn make_all(past: &mut DirPast, alloc: Global, spot: &Spot) -> Result<(), NoMemory>
    requires ready { IsReady past.old }
    requires spot { HasSpot spot.now past.old.fresh }
    ensures ready { IsReady past.new }
    ensures spot { HasSpot spot.now past.new.fresh }
    ensures records { pasts_of past.new ≡ pasts_of past.old }
    ensures edits { past.old.edits ≤ past.new.edits }
    ensures most { past.new.edits ≤ 3 }
    ensures merge { one_if past.old.merge ≤ one_if past.new.merge }
    ensures fresh { one_if past.old.fresh ≤ one_if past.new.fresh }
    ensures ok_edits { OnOk result (3 ≤ past.new.edits) }
    ensures ok_merge { OnOk result (1 ≤ one_if past.new.merge) }
    ensures ok_fresh { OnOk result (1 ≤ one_if past.new.fresh) }
{
    make_edits(past, alloc, 3)?;
    make_merge(past, alloc)?;
    make_fresh(past, alloc, spot)
}

/// Enters an added entry in the last record, where there is one.
pub fn enter_added(past: &mut DirPast, name: &Name, id: InodeId)
    requires ready { IsReady past.old }
    requires room { 0 < past.old.edits }
    ensures ready { IsReady past.new }
    ensures records { pasts_of past.new ≡ change_last (with_added name.now id) (pasts_of past.old) }
    ensures fresh { past.new.fresh ≡ past.old.fresh }
    ensures merge { one_if past.new.merge ≡ one_if past.old.merge }
    ensures edits { past.new.edits + 1 ≡ past.old.edits }
{
    note_added(&mut past.records, &mut past.names, name, id);
    raise_created(&mut past.merge);
    past.edits -= 1;
    past.names.truncate(past.edits);
}

/// Enters a removed entry in the last record, where there is one.
pub fn enter_removed(past: &mut DirPast, child: Child)
    requires ready { IsReady past.old }
    requires room { 0 < past.old.edits }
    ensures ready { IsReady past.new }
    ensures records { pasts_of past.new ≡ change_last (with_removed child.0 child.1) (pasts_of past.old) }
    ensures fresh { past.new.fresh ≡ past.old.fresh }
    ensures merge { one_if past.new.merge ≡ one_if past.old.merge }
    ensures edits { past.new.edits + 1 ≡ past.old.edits }
{
    note_removed(&mut past.records, child);
    raise_deleted(&mut past.merge);
    past.edits -= 1;
    past.names.truncate(past.edits);
}

/// Puts a record of these marks behind the others.
pub fn push_fresh(past: &mut DirPast, number: SnapId, mode: Mode, stamp: u64, spot: &Spot)
    requires ready { IsReady past.old }
    requires spot { HasSpot spot.now past.old.fresh }
    requires room { 0 < one_if past.old.fresh }
    ensures ready { IsReady past.new }
    ensures records { pasts_of past.new ≡ pasts_of past.old ++ record { number = number; marks = record { spot = spot.now; mode = mode; stamp = stamp }; diff = record { created = []; deleted = [] } } ∷ [] }
    ensures fresh { past.new.fresh ≡ None }
    ensures merge { past.new.merge ≡ past.old.merge }
    ensures edits { past.new.edits ≡ past.old.edits }
{
    match past.fresh.take() {
        Some(fresh) => past.records.push_reserved(DirRecord {
            number,
            spot: fresh.spot,
            mode,
            stamp,
            created: fresh.created,
            deleted: fresh.deleted,
        }),
        None => unreachable!(),
    }
}

/// Takes record `i` into the one before it, or drops it as the first.
pub fn combine_ready(past: &mut DirPast, i: usize) -> List<InodeId>
    requires ready { IsReady past.old }
    requires there { i < length (pasts_of past.old) }
    requires room { 0 < one_if past.old.merge }
    ensures ready { IsReady past.new }
    ensures records { pasts_of past.new ≡ combined_at i (pasts_of past.old) }
    ensures ids { result ≡ ids_of (dropped_at i (pasts_of past.old)) }
    ensures fresh { past.new.fresh ≡ past.old.fresh }
    ensures edits { past.new.edits ≡ past.old.edits }
{
    match past.merge.take() {
        Some(room) => combine_at(&mut past.records, i, room, past.edits),
        None => unreachable!(),
    }
}

/// Lets go all that was made.
pub fn empty_room(past: &mut DirPast, alloc: Global)
    requires { IsReady past.old }
    ensures ready { IsReady past.new }
    ensures records { pasts_of past.new ≡ pasts_of past.old }
    ensures fresh { past.new.fresh ≡ None }
    ensures merge { past.new.merge ≡ None }
    ensures edits { past.new.edits ≡ 0 }
{
    past.fresh = None;
    past.merge = None;
    past.edits = 0;
    past.names = Vec::new(alloc);
}

/// Nothing, where there is no record and nothing is made.
pub fn unless_bare(past: Box<DirPast>) -> Option<Box<DirPast>>
    requires { IsReady past.value }
    ensures ready { IsPastReady result }
    ensures records { records_in result ≡ pasts_of past.value }
    ensures edits { edits_in result ≡ past.value.edits }
    ensures fresh { fresh_in result ≡ past.value.fresh }
    ensures merge { merge_in result ≡ past.value.merge }
{
    if past.records.is_empty() && past.edits == 0 && past.fresh.is_none() && past.merge.is_none() {
        None
    } else {
        Some(past)
    }
}
