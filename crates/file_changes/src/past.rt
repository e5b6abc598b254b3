//! The records of a file, and what the next one takes.
ghost use Rattle.std.specs.Prelude.{◌≡◌, ℕ, ◌+◌, ◌<◌, ◌≤◌, [], ◌∷◌, ◌++◌, length, remove, get_or, IsTrue, IsOk, IfOk, OnOk, vec_len, vec_capacity, Some, None};
ghost use Rattle.file_changes.specs.History.{blocks_at, only_at, saved, without_record};
ghost use Rattle.hs_types.specs.declared.name.Spot.{Spot};
ghost use Rattle.file_changes.specs.declared.state.FileState.{FileState};
ghost use Rattle.file_changes.specs.Inside.{records_in, saves_in, saves_of, IsSpareOf, IsPastKept, IsReady};

use crate::blocks::keep_unnamed;
use crate::state::{FileRecord, FileState};
use hs_types::{BlockId, Duplicate, List, NoMemory, SnapId, Spot};
use std::alloc::Global;

/// The records by rising numbers, and what the next one takes.
#[derive(Debug, Drop)]
pub struct FilePast {
    pub records: Vec<FileRecord>,
    pub spare: Option<SpareCopy>,
}

/// A copy of the present spot, and memory for the ids of the present blocks.
#[derive(Debug, Drop)]
pub struct SpareCopy {
    pub spot: Spot,
    pub ids: Vec<BlockId>,
}

/// The records. There are none where nothing is kept.
pub fn records_of(past: &Option<Box<FilePast>>) -> &[FileRecord]
    ensures { result.now ≡ records_in past.now }
{
    match past {
        Some(past) => past.records.as_slice(),
        None => &[],
    }
}

/// Makes a place for the next record, copies the spot and makes memory for the ids of the blocks, where that isn't done.
pub fn ready_past(
    alloc: Global,
    past: &mut Option<Box<FilePast>>,
    current: &FileState,
) -> Result<(), NoMemory>
    requires { IsPastKept current.now.spot past.old }
    ensures records { records_in past.new ≡ records_in past.old }
    ensures kept { IsPastKept current.now.spot past.new }
    ensures ok { OnOk result (0 < saves_in current.now past.new) }
    ensures room { 0 < saves_in current.now past.old → IsOk result }
{
    match past.take() {
        Some(mut kept) => {
            let ready = ready_spare(&mut *kept, current);
            *past = Some(kept);
            ready
        }
        None => {
            let mut kept = FilePast {
                records: Vec::new(alloc),
                spare: None,
            };
            ready_spare(&mut kept, current)?;
            *past = Some(Box::new(alloc, kept)?);
            Ok(())
        }
    }
}

fn ready_spare(past: &mut FilePast, current: &FileState) -> Result<(), NoMemory>
    requires { IsReady current.now.spot past.old }
    ensures records { past.new.records.items ≡ past.old.records.items }
    ensures kept { IsReady current.now.spot past.new }
    ensures ok { OnOk result (0 < saves_of current.now past.new.spare) }
    ensures room { 0 < saves_of current.now past.old.spare → IsOk result }
{
    match past.spare.take() {
        Some(mut spare) => {
            let reserved = spare.ids.reserve(current.blocks.len());
            past.spare = Some(spare);
            reserved?;
            Ok(())
        }
        None => {
            past.records.reserve(1)?;
            let alloc = *past.records.allocator();
            past.spare = Some(SpareCopy {
                spot: current.spot.copy()?,
                ids: Vec::with_capacity(alloc, current.blocks.len())?,
            });
            Ok(())
        }
    }
}

/// Puts a record of the present state behind the others, in the memory that was made.
pub fn push_saved(past: &mut Option<Box<FilePast>>, number: SnapId, current: &FileState)
    requires kept { IsPastKept current.now.spot past.old }
    requires room { 0 < saves_in current.now past.old }
    ensures records { records_in past.new ≡ records_in past.old ++ record { number = number; state = current.now } ∷ [] }
    ensures kept { IsPastKept current.now.spot past.new }
{
    match past.take() {
        Some(mut kept) => {
            push_record(&mut *kept, number, current);
            *past = Some(kept);
        }
        None => unreachable!(),
    }
}

fn push_record(past: &mut FilePast, number: SnapId, current: &FileState)
    requires kept { IsReady current.now.spot past.old }
    requires room { 0 < saves_of current.now past.old.spare }
    ensures records { past.new.records.items ≡ past.old.records.items ++ record { number = number; state = current.now } ∷ [] }
    ensures none { past.new.spare ≡ None }
{
    match past.spare.take() {
        Some(spare) => {
            let SpareCopy { spot, ids } = spare;
            past.records.push_reserved(FileRecord {
                number,
                state: FileState {
                    spot,
                    mode: current.mode,
                    stamp: current.stamp,
                    size: current.size,
                    blocks: filled(ids, current.blocks.items()),
                },
            });
        }
        None => unreachable!(),
    }
}

/// A copy of the blocks, in the memory of `ids`.
fn filled(mut ids: Vec<BlockId>, blocks: &[BlockId]) -> List<BlockId>
    requires empty { ids.items ≡ [] }
    requires room { length blocks.now ≤ vec_capacity ids }
    ensures { result ≡ blocks.now }
{
    match ids.extend_from_slice(blocks) {
        Ok(()) => List::of(ids),
        Err(_) => unreachable!(),
    }
}

/// Lets go what was made for the next record. Without records nothing is kept.
pub fn let_go(past: &mut Option<Box<FilePast>>)
    ensures records { records_in past.new ≡ records_in past.old }
    ensures kept { (present : Spot) → IsPastKept present past.new }
    ensures saves { (current : FileState) → saves_in current past.new ≡ 0 }
{
    if let Some(mut kept) = past.take() {
        kept.spare = None;
        *past = unless_bare(kept);
    }
}

/// Nothing, where there is no record and nothing made for one.
fn unless_bare(past: Box<FilePast>) -> Option<Box<FilePast>>
    ensures records { records_in result ≡ past.value.records.items }
    ensures kept { (present : Spot) → IsReady present past.value → IsPastKept present result }
    ensures saves { (current : FileState) → saves_in current result ≡ saves_of current past.value.spare }
{
    if past.records.is_empty() && past.spare.is_none() {
        None
    } else {
        Some(past)
    }
}

/// Removes record `i`, and hands out the blocks that no other state names.
pub fn drop_record(past: &mut Option<Box<FilePast>>, i: usize, current: &FileState) -> List<BlockId>
    requires there { i < length (records_in past.old) }
    requires kept { IsPastKept current.now.spot past.old }
    ensures records { records_in past.new ≡ remove (records_in past.old) i }
    ensures blocks { result ≡ only_at i (record { current = current.now; records = records_in past.old }) }
    ensures kept { IsPastKept current.now.spot past.new }
    ensures saves { saves_in current.now past.new ≡ saves_in current.now past.old }
{
    match past.take() {
        Some(mut kept) => {
            let blocks = remove_record(&mut kept.records, i, current);
            *past = unless_bare(kept);
            blocks
        }
        None => unreachable!(),
    }
}

fn remove_record(records: &mut Vec<FileRecord>, i: usize, current: &FileState) -> List<BlockId>
    requires { i < vec_len records.old }
    ensures records { records.new.items ≡ remove records.old.items i }
    ensures blocks { result ≡ only_at i (record { current = current.now; records = records.old.items }) }
    ensures len { vec_len records.new ≤ vec_len records.old }
    ensures capacity { vec_capacity records.new ≡ vec_capacity records.old }
{
    let FileRecord { number: _, state } = records.remove(i);
    let FileState {
        spot: _,
        mode: _,
        stamp: _,
        size: _,
        blocks,
    } = state;
    let blocks = keep_unnamed(blocks.into_vec(), records.as_slice(), current, i);
    List::of(blocks)
}
