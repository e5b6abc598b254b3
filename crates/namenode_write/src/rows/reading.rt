//! Reads of files over a table of rows, as they are now and at snapshots.
ghost use Rattle.std.specs.Prelude.{◌≡◌, ◌≤◌, Ok, Err, MatchResult, IfOk, IfSome, IsErrOf};
ghost use Rattle.hs_types.specs.Blocks.{IsFile, HoldsFile};
ghost use Rattle.hs_types.specs.Faults.{Rose};
ghost use Rattle.hs_types.specs.declared.call.Call.TheVariants as calls;
ghost use Rattle.hs_plain.specs.declared.state.State.{State};
ghost use Rattle.hs_plain.specs.declared.state.FileBlocks.{FileBlocks};
ghost use Rattle.hs_plain.specs.inside.Faults.{IsFaultOf};
ghost use Rattle.hs_plain.specs.Answer.{blanked};
ghost use Rattle.hs_plain.specs.Files.{block_files};
ghost use Rattle.hs_plain.specs.Reading.{found_file as plain_found_file, next_file as plain_next_file, page_at as plain_page_at};
ghost use Rattle.hs_plain.specs.Viewed.{bytes_in};
ghost use Rattle.block_store.specs.declared.store.StoreErr.TheVariants as store_errors;
ghost use Rattle.inode_table.specs.Kept.{told};
ghost use Rattle.inode_table.specs.RowHistory.{rows_at};
ghost use Rattle.inode_table.specs.Whole.{StandsFor};
ghost use Rattle.namenode_write.specs.Outcome.{IsOutcome, tick_of};
ghost use Rattle.namenode_write.specs.RowFiles.{file_in as file_in_row, file_placed, placed_file, HasFile};
ghost use Rattle.namenode_write.specs.Rows.{held, IsStanding};

use crate::rows::faults::fault_of;
use crate::rows::place::make_place;
use crate::rows::space::RowSpace;
use block_store::{BlockStore, StoreErr};
use hs_plain::AskFault;
use hs_plain::answer::{next_read, read_path};
use hs_types::{
    BlockId, InodeId, List, PathText, Place, ReadCursor, ReadLen, Refusal, Reply, SnapId,
};
use inode_table::{Rows, Table};
use path_resolver::by_rows::resolve;
use path_resolver::upward::stands_at;
use snapshot_manager::Snaps;
use std::alloc::Global;

/// The file that a row is at a snapshot, at 0 now: its size and its blocks.
pub(crate) fn file_in(
    table: &Table,
    s: SnapId,
    id: InodeId,
) -> Result<(u64, &List<BlockId>), Refusal>
    ensures { MatchResult result (λ at. file_in_row s.0 (rows_at (told table.now).rows id) ≡ Ok (record { size = at.0; blocks = at.1.now })) (λ why. file_in_row s.0 (rows_at (told table.now).rows id) ≡ Err why) }
{
    match table.row(id) {
        None => Err(Refusal::NotFound),
        Some(row) => match &row.rows {
            Rows::File(file) => {
                let view = file.at(s);
                Ok((view.size, view.blocks))
            }
            Rows::Dir(_) => Err(Refusal::NotFile),
        },
    }
}

/// The file at a place that is there.
fn file_there(table: &Table, place: Place) -> Result<(u64, &List<BlockId>), Refusal>
    ensures { MatchResult result (λ at. file_placed (told table.now).rows place ≡ Ok (record { size = at.0; blocks = at.1.now })) (λ why. file_placed (told table.now).rows place ≡ Err why) }
{
    match place {
        Place::Live(id) => file_in(table, SnapId(0), id),
        Place::Frozen(id, s) => file_in(table, s, id),
        Place::SnapshotsOf(_) => Err(Refusal::NotFile),
    }
}

/// The place of the file at a path.
fn found_file(
    alloc: Global,
    table: &Table,
    snaps: &Snaps,
    text: &PathText,
) -> Result<Place, AskFault>
    ensures found { (state : State FileBlocks) → StandsFor (told table.now) snaps.now state → MatchResult result (λ place. plain_found_file state text.now ≡ placed_file (told table.now).rows place) (IsFaultOf (plain_found_file state text.now)) }
    ensures file { IfOk result (HasFile (told table.now).rows) }
{
    let path = read_path(alloc, text)?;
    let place = resolve(table, snaps, &path)?;
    let _file = file_there(table, place)?;
    Ok(place)
}

/// Whether a file is at the place of a cursor, or why none is.
fn next_file(table: &Table, snaps: &Snaps, place: Place) -> Result<(), Refusal>
    ensures found { (state : State FileBlocks) → StandsFor (told table.now) snaps.now state → MatchResult result (λ unit. plain_next_file state place ≡ placed_file (told table.now).rows place) (λ why. plain_next_file state place ≡ Err why) }
    ensures file { IfOk result (λ unit. HasFile (told table.now).rows place) }
{
    stands_at(table, snaps, place)?;
    let _file = file_there(table, place)?;
    Ok(())
}

/// A page of a file that stands at a place.
fn page_at<B: BlockStore>(
    alloc: Global,
    store: &mut B,
    place: Place,
    size: u64,
    blocks: &List<BlockId>,
    offset: u64,
    len: ReadLen,
) -> Result<Reply, StoreErr>
    requires file { IsFile size blocks.now }
    requires held { IfSome (B.blocks store.old) (λ map. HoldsFile map size blocks.now) }
    ensures sized { IfOk result (λ reply. blanked reply ≡ plain_page_at block_files offset len (place, record { size = size; blocks = blocks.now })) }
    ensures told { IfOk result (λ reply. IfSome (B.blocks store.old) (λ map. reply ≡ plain_page_at (record block_files { bytes = bytes_in map }) offset len (place, record { size = size; blocks = blocks.now }))) }
    ensures kept { B.blocks store.new ≡ B.blocks store.old }
    ensures greatest { B.greatest store.new ≡ B.greatest store.old }
    ensures count { B.faults store.old ≤ B.faults store.new }
    ensures cause { IsErrOf result store_errors.Failed → Rose (B.faults store.old) (B.faults store.new) }
{
    let bytes = block_contents::read(alloc, store, blocks, size, offset, len)?;
    Ok(Reply::Bytes {
        bytes,
        next: next_read(place, size, offset, len),
    })
}

/// A page of the file at a place.
fn read_at<B: BlockStore>(
    alloc: Global,
    space: &mut RowSpace<B>,
    place: Place,
    offset: u64,
    len: ReadLen,
) -> Result<Reply, StoreErr>
    requires standing { IsStanding (held B.blocks B.greatest space.old) (tick_of space.old) }
    requires file { HasFile (told space.old.table).rows place }
    ensures sized { (file : FileBlocks) → file_placed (told space.old.table).rows place ≡ Ok file → IfOk result (λ reply. blanked reply ≡ plain_page_at block_files offset len (place, file)) }
    ensures told { (file : FileBlocks) → file_placed (told space.old.table).rows place ≡ Ok file → IfOk result (λ reply. IfSome (B.blocks space.old.store) (λ map. reply ≡ plain_page_at (record block_files { bytes = bytes_in map }) offset len (place, file))) }
    ensures kept { B.blocks space.new.store ≡ B.blocks space.old.store }
    ensures greatest { B.greatest space.new.store ≡ B.greatest space.old.store }
    ensures rest { space.new ≡ record space.old { store = space.new.store } }
    ensures count { B.faults space.old.store ≤ B.faults space.new.store }
    ensures cause { IsErrOf result store_errors.Failed → Rose (B.faults space.old.store) (B.faults space.new.store) }
{
    let Ok((size, blocks)) = file_there(&space.table, place) else {
        unreachable!()
    };
    page_at(alloc, &mut space.store, place, size, blocks, offset, len)
}

/// A page of the file at a path.
pub(crate) fn read<B: BlockStore>(
    alloc: Global,
    space: &mut RowSpace<B>,
    path: &PathText,
    offset: u64,
    len: ReadLen,
) -> Result<Reply, AskFault>
    requires standing { IsStanding (held B.blocks B.greatest space.old) (tick_of space.old) }
    ensures { IsOutcome B.blocks B.greatest B.faults space.old space.new (calls.Read path.now offset len) result }
{
    let place = found_file(alloc, &space.table, &space.snaps, path)?;
    make_place(space)?;
    match read_at(alloc, space, place, offset, len) {
        Ok(reply) => Ok(reply),
        Err(error) => Err(fault_of(error)),
    }
}

/// The next page of a file.
pub(crate) fn read_next<B: BlockStore>(
    alloc: Global,
    space: &mut RowSpace<B>,
    cursor: ReadCursor,
    len: ReadLen,
) -> Result<Reply, AskFault>
    requires standing { IsStanding (held B.blocks B.greatest space.old) (tick_of space.old) }
    ensures { IsOutcome B.blocks B.greatest B.faults space.old space.new (calls.ReadNext cursor len) result }
{
    next_file(&space.table, &space.snaps, cursor.place)?;
    make_place(space)?;
    match read_at(alloc, space, cursor.place, cursor.offset, len) {
        Ok(reply) => Ok(reply),
        Err(error) => Err(fault_of(error)),
    }
}
