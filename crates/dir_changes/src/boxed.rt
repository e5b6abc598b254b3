//! Records and room behind one box. Where there is none, there are no records, and nothing is made.
ghost use Rattle.std.specs.Prelude.{◌≡◌, ◌+◌, ◌-◌, ◌<◌, ◌≤◌, [], ◌∷◌, ◌++◌, length, map, max, IsTrue, IsOk, OnOk, OnErr, None};
ghost use Rattle.dir_changes.specs.History.{change_last, note_added as with_added, note_removed as with_removed, combined_at, dropped_at, ids_of};
ghost use Rattle.dir_changes.specs.Inside.{pasts_of, IsReady, records_in, edits_in, fresh_in, merge_in, IsPastReady, HasEdit, HasSpot};
ghost use Rattle.dir_changes.specs.Recorded.{past_of};
ghost use Rattle.dir_changes.specs.Spare.{one_if};

use crate::child::Child;
use crate::past::{
    DirPast, bare_past, combine_ready, empty_room, enter_added, enter_removed, make_all,
    make_edits, make_fresh, make_merge, push_fresh, unless_bare,
};
use crate::recorded::DirRecord;
use hs_types::{InodeId, List, Mode, Name, NoMemory, SnapId, Spot};
use std::alloc::Global;

pub fn records_of(past: &Option<Box<DirPast>>) -> &[DirRecord]
    ensures { map past_of result.now ≡ records_in past.now }
{
    match past {
        Some(past) => past.records.as_slice(),
        None => &[],
    }
}

/// Makes room for one edit. Without records, and where nothing is made, it needs none here.
pub fn ready_edit(alloc: Global, past: &mut Option<Box<DirPast>>) -> Result<(), NoMemory>
    requires { IsPastReady past.old }
    ensures ready { IsPastReady past.new }
    ensures records { records_in past.new ≡ records_in past.old }
    ensures fresh { fresh_in past.new ≡ fresh_in past.old }
    ensures merge { one_if (merge_in past.new) ≡ one_if (merge_in past.old) }
    ensures edits { edits_in past.old ≤ edits_in past.new }
    ensures most { edits_in past.new ≤ max 1 (edits_in past.old) }
    ensures ok { OnOk result (HasEdit past.new) }
    ensures err { OnErr result (edits_in past.new ≡ edits_in past.old) }
    ensures succeeds { 0 < edits_in past.old → IsOk result }
{
    match past.take() {
        Some(mut kept) => {
            let made = make_edits(&mut *kept, alloc, 1);
            *past = Some(kept);
            made
        }
        None => Ok(()),
    }
}

/// Whether there is room for the next record and an edit.
pub fn is_ready(past: &Option<Box<DirPast>>) -> bool
    ensures edits { IsTrue result → 0 < edits_in past.now }
    ensures starts { IsTrue result → 0 < one_if (fresh_in past.now) }
    ensures ready { 0 < edits_in past.now → 0 < one_if (fresh_in past.now) → IsTrue result }
{
    match past {
        Some(past) => past.edits > 0 && past.fresh.is_some(),
        None => false,
    }
}

/// Makes room for three edits, the next `combine` and the next record.
pub fn ready_all(
    alloc: Global,
    past: &mut Option<Box<DirPast>>,
    spot: &Spot,
) -> Result<(), NoMemory>
    requires ready { IsPastReady past.old }
    requires spot { HasSpot spot.now (fresh_in past.old) }
    ensures ready { IsPastReady past.new }
    ensures spot { HasSpot spot.now (fresh_in past.new) }
    ensures records { records_in past.new ≡ records_in past.old }
    ensures fresh { one_if (fresh_in past.old) ≤ one_if (fresh_in past.new) }
    ensures merge { one_if (merge_in past.old) ≤ one_if (merge_in past.new) }
    ensures edits { edits_in past.old ≤ edits_in past.new }
    ensures most { edits_in past.new ≤ 3 }
    ensures ok_edits { OnOk result (3 ≤ edits_in past.new) }
    ensures ok_merge { OnOk result (1 ≤ one_if (merge_in past.new)) }
    ensures ok_fresh { OnOk result (1 ≤ one_if (fresh_in past.new)) }
{
    match past.take() {
        Some(mut kept) => {
            let made = make_all(&mut *kept, alloc, spot);
            *past = Some(kept);
            made
        }
        None => {
            let mut kept = bare_past(alloc);
            make_all(&mut kept, alloc, spot)?;
            *past = Some(Box::new(alloc, kept)?);
            Ok(())
        }
    }
}

/// Makes the next record and a place for it.
pub fn ready_start(
    alloc: Global,
    past: &mut Option<Box<DirPast>>,
    spot: &Spot,
) -> Result<(), NoMemory>
    requires ready { IsPastReady past.old }
    requires spot { HasSpot spot.now (fresh_in past.old) }
    ensures ready { IsPastReady past.new }
    ensures spot { HasSpot spot.now (fresh_in past.new) }
    ensures records { records_in past.new ≡ records_in past.old }
    ensures merge { one_if (merge_in past.old) ≤ one_if (merge_in past.new) }
    ensures fresh { one_if (fresh_in past.old) ≤ one_if (fresh_in past.new) }
    ensures edits { edits_in past.new ≡ edits_in past.old }
    ensures ok { OnOk result (0 < one_if (fresh_in past.new)) }
    ensures succeeds { 0 < one_if (fresh_in past.old) → IsOk result }
{
    match past.take() {
        Some(mut kept) => {
            let made = make_fresh(&mut *kept, alloc, spot);
            *past = Some(kept);
            made
        }
        None => {
            let mut kept = bare_past(alloc);
            make_fresh(&mut kept, alloc, spot)?;
            *past = Some(Box::new(alloc, kept)?);
            Ok(())
        }
    }
}

/// Makes the room that the next `combine` takes, where there are records.
pub fn ready_combine(alloc: Global, past: &mut Option<Box<DirPast>>) -> Result<(), NoMemory>
    requires ready { IsPastReady past.old }
    requires there { 0 < length (records_in past.old) }
    ensures ready { IsPastReady past.new }
    ensures records { records_in past.new ≡ records_in past.old }
    ensures fresh { fresh_in past.new ≡ fresh_in past.old }
    ensures edits { edits_in past.new ≡ edits_in past.old }
    ensures merge { one_if (merge_in past.old) ≤ one_if (merge_in past.new) }
    ensures ok { OnOk result (0 < one_if (merge_in past.new)) }
    ensures succeeds { 0 < one_if (merge_in past.old) → IsOk result }
{
    match past.take() {
        Some(mut kept) => {
            let made = ready_kept(&mut *kept, alloc);
            *past = Some(kept);
            made
        }
        None => unreachable!(),
    }
}

fn ready_kept(past: &mut DirPast, alloc: Global) -> Result<(), NoMemory>
    requires { IsReady past.old }
    ensures ready { IsReady past.new }
    ensures records { pasts_of past.new ≡ pasts_of past.old }
    ensures fresh { past.new.fresh ≡ past.old.fresh }
    ensures edits { past.new.edits ≡ past.old.edits }
    ensures merge { one_if past.old.merge ≤ one_if past.new.merge }
    ensures ok { OnOk result (0 < one_if past.new.merge) }
    ensures succeeds { 0 < one_if past.old.merge → IsOk result }
{
    if past.merge.is_some() {
        return Ok(());
    }
    make_merge(past, alloc)
}

/// Enters an added entry in the last record, where there is one.
pub fn note_added(past: &mut Option<Box<DirPast>>, name: &Name, id: InodeId)
    requires ready { IsPastReady past.old }
    requires room { HasEdit past.old }
    ensures ready { IsPastReady past.new }
    ensures records { records_in past.new ≡ change_last (with_added name.now id) (records_in past.old) }
    ensures fresh { fresh_in past.new ≡ fresh_in past.old }
    ensures merge { one_if (merge_in past.new) ≡ one_if (merge_in past.old) }
    ensures edits { edits_in past.new ≡ edits_in past.old - 1 }
{
    if let Some(mut kept) = past.take() {
        enter_added(&mut *kept, name, id);
        *past = Some(kept);
    }
}

/// Enters a removed entry in the last record, where there is one.
pub fn note_removed(past: &mut Option<Box<DirPast>>, child: Child)
    requires ready { IsPastReady past.old }
    requires room { HasEdit past.old }
    ensures ready { IsPastReady past.new }
    ensures records { records_in past.new ≡ change_last (with_removed child.0 child.1) (records_in past.old) }
    ensures fresh { fresh_in past.new ≡ fresh_in past.old }
    ensures merge { one_if (merge_in past.new) ≡ one_if (merge_in past.old) }
    ensures edits { edits_in past.new ≡ edits_in past.old - 1 }
{
    if let Some(mut kept) = past.take() {
        enter_removed(&mut *kept, child);
        *past = Some(kept);
    }
}

/// Puts a record of these marks behind the others.
pub fn push_record(
    past: &mut Option<Box<DirPast>>,
    number: SnapId,
    spot: &Spot,
    mode: Mode,
    stamp: u64,
)
    requires ready { IsPastReady past.old }
    requires spot { HasSpot spot.now (fresh_in past.old) }
    requires room { 0 < one_if (fresh_in past.old) }
    ensures ready { IsPastReady past.new }
    ensures records { records_in past.new ≡ records_in past.old ++ record { number = number; marks = record { spot = spot.now; mode = mode; stamp = stamp }; diff = record { created = []; deleted = [] } } ∷ [] }
    ensures fresh { fresh_in past.new ≡ None }
    ensures merge { merge_in past.new ≡ merge_in past.old }
    ensures edits { edits_in past.new ≡ edits_in past.old }
{
    match past.take() {
        Some(mut kept) => {
            push_fresh(&mut *kept, number, mode, stamp, spot);
            *past = Some(kept);
        }
        None => unreachable!(),
    }
}

/// Takes record `i` into the one before it, or drops it as the first.
pub fn combine_in(past: &mut Option<Box<DirPast>>, i: usize) -> List<InodeId>
    requires ready { IsPastReady past.old }
    requires there { i < length (records_in past.old) }
    requires room { 0 < one_if (merge_in past.old) }
    ensures ready { IsPastReady past.new }
    ensures records { records_in past.new ≡ combined_at i (records_in past.old) }
    ensures ids { result ≡ ids_of (dropped_at i (records_in past.old)) }
    ensures fresh { fresh_in past.new ≡ fresh_in past.old }
    ensures edits { edits_in past.new ≡ edits_in past.old }
{
    match past.take() {
        Some(mut kept) => {
            let ids = combine_ready(&mut *kept, i);
            *past = unless_bare(kept);
            ids
        }
        None => unreachable!(),
    }
}

/// Lets go what was made for the next record: it has another spot now.
pub fn forget_fresh(past: &mut Option<Box<DirPast>>)
    requires { IsPastReady past.old }
    ensures ready { IsPastReady past.new }
    ensures records { records_in past.new ≡ records_in past.old }
    ensures fresh { fresh_in past.new ≡ None }
    ensures merge { merge_in past.new ≡ merge_in past.old }
    ensures edits { edits_in past.new ≡ edits_in past.old }
{
    if let Some(mut kept) = past.take() {
        kept.fresh = None;
        *past = unless_bare(kept);
    }
}

/// Lets go all that was made.
pub fn let_go(alloc: Global, past: &mut Option<Box<DirPast>>)
    requires { IsPastReady past.old }
    ensures ready { IsPastReady past.new }
    ensures records { records_in past.new ≡ records_in past.old }
    ensures fresh { fresh_in past.new ≡ None }
    ensures merge { merge_in past.new ≡ None }
    ensures edits { edits_in past.new ≡ 0 }
{
    if let Some(mut kept) = past.take() {
        empty_room(&mut *kept, alloc);
        *past = unless_bare(kept);
    }
}
