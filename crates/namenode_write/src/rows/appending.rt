//! Bytes more at the end of a file.
ghost use Rattle.std.specs.Prelude.{◌≡◌, ◌+◌, ◌^◌, ◌<◌, ℕ, List, [], ◌∷◌, ◌++◌, length, Ok, IfOk, OnOk, false, vec_len, vec_capacity};
ghost use Rattle.hs_types.specs.declared.ids.BlockId.{BlockId};
ghost use Rattle.hs_types.specs.declared.call.Call.TheVariants as calls;
ghost use Rattle.inode_table.specs.declared.change.Change.TheVariants as changes;
ghost use Rattle.inode_table.specs.Ahead.{HasRoomFor, prepared_for};
ghost use Rattle.inode_table.specs.Kept.{told, CanChange};
ghost use Rattle.inode_table.specs.Lent.{current_blocks};
ghost use Rattle.inode_table.specs.RowHistory.{row_at, rows_at};
ghost use Rattle.inode_table.specs.Tabled.{starts_in};
ghost use Rattle.namenode_write.specs.Appending.{file_now, IsCopyFor, IsTried};
ghost use Rattle.namenode_write.specs.Outcome.{HasPlace, IsOutcome, tick_of};
ghost use Rattle.namenode_write.specs.RowFiles.{file_in as file_in_row};
ghost use Rattle.namenode_write.specs.Rows.{all_of, held, IsStanding};

use crate::rows::append_refusals::append_at;
use crate::rows::faults::fault_of;
use crate::rows::making::{change_ready, prepare_seat};
use crate::rows::place::make_place;
use crate::rows::reading::file_in;
use crate::rows::seats::{Seat, seat_at};
use crate::rows::space::RowSpace;
use block_store::BlockStore;
use hs_plain::{AskFault, FileBlocks};
use hs_types::{BlockId, Chunk, InodeId, List, NoMemory, PathText, Reply, SnapId};
use inode_table::{Change, Table};
use std::alloc::Global;

/// Adds bytes at the end of the file at a path. Blocks that were made in vain wait to be freed.
pub(crate) fn append<B: BlockStore>(
    alloc: Global,
    space: &mut RowSpace<B>,
    path: &PathText,
    bytes: &Chunk,
) -> Result<Reply, AskFault>
    requires standing { IsStanding (held B.blocks B.greatest space.old) (tick_of space.old) }
    ensures { IsOutcome B.blocks B.greatest B.faults space.old space.new (calls.Append path.now bytes.now) result }
{
    let path = append_at(alloc, &space.table, path)?;
    let tick = make_place(space)?;
    let seat = seat_at(alloc, &space.table, &space.snaps, path.items())?;
    let size = size_to_extend(&space.table, seat.id, bytes.bytes().len())?;
    let copy = copy_for_record(alloc, &space.table, seat)?;
    make_room(alloc, space, seat)?;
    append_ready(alloc, space, seat, tick, size, copy, bytes)
}

/// The size of the file that a row is now, where so many bytes more still have a size: no file that memory holds comes to 2^64 bytes.
fn size_to_extend(table: &Table, id: InodeId, more: usize) -> Result<u64, NoMemory>
    ensures row { IfOk result (λ size. file_in_row 0 (rows_at (told table.now).rows id) ≡ Ok (file_now size (rows_at (told table.now).rows id))) }
    ensures small { IfOk result (λ size. size + more < 2 ^ 64) }
{
    let Ok((size, _)) = file_in(table, SnapId(0), id) else {
        return Err(NoMemory);
    };
    if size.checked_add(more as u64).is_none() {
        return Err(NoMemory);
    }
    Ok(size)
}

/// A copy of a file's list of blocks, where a record is to keep the list itself.
fn copy_for_record(
    alloc: Global,
    table: &Table,
    seat: Seat,
) -> Result<Option<List<BlockId>>, NoMemory>
    ensures { IfOk result (IsCopyFor (told table.now) seat) }
{
    if table.starts_record(seat.id, seat.need) {
        let blocks = copy_of_blocks(alloc, table, seat.id)?;
        Ok(Some(blocks))
    } else {
        Ok(None)
    }
}

fn copy_of_blocks(alloc: Global, table: &Table, id: InodeId) -> Result<List<BlockId>, NoMemory>
    ensures { IfOk result (λ copy. copy ≡ current_blocks (rows_at (told table.now).rows id)) }
{
    match file_in(table, SnapId(0), id) {
        Ok((_, blocks)) => copy_for_append(alloc, blocks),
        Err(_) => Err(NoMemory),
    }
}

/// A copy with a place for one block more.
fn copy_for_append(alloc: Global, blocks: &List<BlockId>) -> Result<List<BlockId>, NoMemory>
    ensures { IfOk result (λ copy. copy ≡ blocks.now) }
{
    let mut copy = Vec::with_capacity(alloc, blocks.len().saturating_add(1))?;
    copy.extend_from_slice(blocks.items())?;
    Ok(List::of(copy))
}

/// Makes room for the change of a row, and for one list of blocks that waits.
fn make_room<B: BlockStore>(
    alloc: Global,
    space: &mut RowSpace<B>,
    seat: Seat,
) -> Result<(), NoMemory>
    ensures table { told space.new.table ≡ told space.old.table }
    ensures room { OnOk result (HasRoomFor (prepared_for (seat.id ∷ []) (λ id. seat.need.0)) space.new.table) }
    ensures waiting { space.new.waiting.items ≡ space.old.waiting.items }
    ensures waiting_room { OnOk result (vec_len space.new.waiting < vec_capacity space.new.waiting) }
    ensures kept { space.new ≡ record space.old { table = space.new.table; waiting = space.new.waiting } }
{
    space.waiting.reserve(1)?;
    prepare_seat(alloc, &mut space.table, seat)
}

/// Puts blocks behind those that wait. There is room for a list more.
fn set_aside(waiting: &mut Vec<List<BlockId>>, blocks: List<BlockId>)
    requires { vec_len waiting.old < vec_capacity waiting.old }
    ensures { all_of waiting.new.items ≡ all_of waiting.old.items ++ blocks }
{
    if !blocks.is_empty() {
        waiting.push_reserved(blocks);
    }
}

/// Adds bytes at the end of a file for whose change there is room: its own list of blocks grows, or where a record keeps that, the copy.
fn append_ready<B: BlockStore>(
    alloc: Global,
    space: &mut RowSpace<B>,
    seat: Seat,
    tick: u64,
    size: u64,
    copy: Option<List<BlockId>>,
    bytes: &Chunk,
) -> Result<Reply, AskFault>
    requires standing { IsStanding (held B.blocks B.greatest space.old) (tick_of space.old) }
    requires tick { tick ≡ tick_of space.old + 1 }
    requires row { file_in_row 0 (rows_at (told space.old.table).rows seat.id) ≡ Ok (file_now size (rows_at (told space.old.table).rows seat.id)) }
    requires small { size + length bytes.now < 2 ^ 64 }
    requires copy { IsCopyFor (told space.old.table) seat copy }
    requires can { (size : ℕ) (blocks : List BlockId) → CanChange (told space.old.table).rows seat.id (changes.Body size blocks) }
    requires room { HasRoomFor (prepared_for (seat.id ∷ []) (λ id. seat.need.0)) space.old.table }
    requires waiting_room { vec_len space.old.waiting < vec_capacity space.old.waiting }
    requires place { HasPlace space.old }
    ensures { IsTried B.blocks B.greatest B.faults space.old space.new seat (file_now size (rows_at (told space.old.table).rows seat.id)) bytes.now result }
{
    match copy {
        Some(blocks) => append_copy(alloc, space, seat, tick, FileBlocks { size, blocks }, bytes),
        None => append_lent(alloc, space, seat, tick, size, bytes),
    }
}

/// The list in the row stays, for the record that is started.
fn append_copy<B: BlockStore>(
    alloc: Global,
    space: &mut RowSpace<B>,
    seat: Seat,
    tick: u64,
    file: FileBlocks,
    bytes: &Chunk,
) -> Result<Reply, AskFault>
    requires standing { IsStanding (held B.blocks B.greatest space.old) (tick_of space.old) }
    requires tick { tick ≡ tick_of space.old + 1 }
    requires row { file_in_row 0 (rows_at (told space.old.table).rows seat.id) ≡ Ok file }
    requires small { file.size + length bytes.now < 2 ^ 64 }
    requires can { (size : ℕ) (blocks : List BlockId) → CanChange (told space.old.table).rows seat.id (changes.Body size blocks) }
    requires room { HasRoomFor (prepared_for (seat.id ∷ []) (λ id. seat.need.0)) space.old.table }
    requires waiting_room { vec_len space.old.waiting < vec_capacity space.old.waiting }
    requires place { HasPlace space.old }
    ensures { IsTried B.blocks B.greatest B.faults space.old space.new seat file bytes.now result }
{
    let FileBlocks { size, mut blocks } = file;
    let mut spare = List::new(alloc);
    match block_contents::append(&mut space.store, &mut blocks, size, bytes, &mut spare) {
        Ok(size) => {
            change_ready(&mut space.table, seat, tick, Change::Body { size, blocks });
            Ok(Reply::Done)
        }
        Err(error) => {
            set_aside(&mut space.waiting, spare);
            Err(fault_of(error))
        }
    }
}

/// The list is lent by the row, and goes back as it was where the store fails.
fn append_lent<B: BlockStore>(
    alloc: Global,
    space: &mut RowSpace<B>,
    seat: Seat,
    tick: u64,
    size: u64,
    bytes: &Chunk,
) -> Result<Reply, AskFault>
    requires standing { IsStanding (held B.blocks B.greatest space.old) (tick_of space.old) }
    requires tick { tick ≡ tick_of space.old + 1 }
    requires row { file_in_row 0 (rows_at (told space.old.table).rows seat.id) ≡ Ok (file_now size (rows_at (told space.old.table).rows seat.id)) }
    requires small { size + length bytes.now < 2 ^ 64 }
    requires none { starts_in seat.need.0 (row_at (told space.old.table).rows seat.id) ≡ false }
    requires can { (size : ℕ) (blocks : List BlockId) → CanChange (told space.old.table).rows seat.id (changes.Body size blocks) }
    requires room { HasRoomFor (prepared_for (seat.id ∷ []) (λ id. seat.need.0)) space.old.table }
    requires waiting_room { vec_len space.old.waiting < vec_capacity space.old.waiting }
    requires place { HasPlace space.old }
    ensures { IsTried B.blocks B.greatest B.faults space.old space.new seat (file_now size (rows_at (told space.old.table).rows seat.id)) bytes.now result }
{
    let mut blocks = space.table.take_blocks(seat.id);
    let mut spare = List::new(alloc);
    match block_contents::append(&mut space.store, &mut blocks, size, bytes, &mut spare) {
        Ok(size) => {
            change_ready(&mut space.table, seat, tick, Change::Body { size, blocks });
            Ok(Reply::Done)
        }
        Err(error) => {
            space.table.put_blocks(seat.id, blocks);
            set_aside(&mut space.waiting, spare);
            Err(fault_of(error))
        }
    }
}
