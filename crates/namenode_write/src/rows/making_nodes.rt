//! New directories and files.
ghost use Rattle.std.specs.Prelude.{◌≡◌, ◌+◌, ◌^◌, ◌<◌, [], ◌∷◌, IfOk, OnErr};
ghost use Rattle.hs_types.specs.declared.call.Call.TheVariants as calls;
ghost use Rattle.hs_types.specs.declared.reply.Reply.TheVariants as replies;
ghost use Rattle.hs_plain.specs.declared.state.State.{State};
ghost use Rattle.hs_plain.specs.declared.state.FileBlocks.{FileBlocks};
ghost use Rattle.inode_table.specs.Ahead.{HasRoomFor, prepared_for};
ghost use Rattle.inode_table.specs.Kept.{told};
ghost use Rattle.inode_table.specs.Numbered.{history_of};
ghost use Rattle.inode_table.specs.Released.{Releasing};
ghost use Rattle.inode_table.specs.Totals.{weight, block_count};
ghost use Rattle.table_laws.specs.WholeMay.{MayMake};
ghost use Rattle.namenode_write.specs.Called.{IsCalled};
ghost use Rattle.namenode_write.specs.NewNodes.{next_id, IsNewPlace, HasNodeRoom, MayTakePlace, entered, without_entry, IsCalledFreeing, IsFilePut, AsksDir, AsksFile, IsFree, IsTaken, mkdir_call, create_call};
ghost use Rattle.namenode_write.specs.Outcome.{IsOutcome, tick_of};
ghost use Rattle.namenode_write.specs.Rows.{held, all_of, IsStanding};

use crate::rows::freeing::free_waiting;
use crate::rows::making::{change_ready, insert_ready, prepare_seat, release_ready};
use crate::rows::place::make_place;
use crate::rows::refusals::{create_at, mkdir_at};
use crate::rows::seats::{Seat, seat_at};
use crate::rows::space::RowSpace;
use block_store::BlockStore;
use dir_changes::DirRows;
use file_changes::FileRows;
use hs_plain::AskFault;
use hs_types::{
    BlockId, Duplicate, InodeId, List, Mode, Name, NoMemory, PathText, Reply, SnapId, Spot,
};
use inode_table::{Change, Freed, Rows, Table};
use path_resolver::by_rows::node_there;
use snapshot_manager::Snaps;
use std::alloc::Global;

/// Where a node is made: the row of the directory above it, and its name, once for the entry and once for the spot.
#[derive(Debug, Drop)]
struct NewPlace {
    parent: Seat,
    name: Name,
    spot: Spot,
}

/// The place at the end of a path, which isn't the root's.
fn place_for(
    alloc: Global,
    table: &Table,
    snaps: &Snaps,
    path: &[Name],
) -> Result<NewPlace, NoMemory>
    ensures { IfOk result (IsNewPlace (told table.now) snaps.now path.now) }
{
    let Some((last, above)) = path.split_last() else {
        return Err(NoMemory);
    };
    let parent = seat_at(alloc, table, snaps, above)?;
    let spot = Spot {
        parent: parent.id,
        name: last.copy()?,
    };
    let name = last.copy()?;
    Ok(NewPlace { parent, name, spot })
}

/// The place at the end of a path, with room for a new row, and for three changes of the directory above it.
fn ready_place(
    alloc: Global,
    table: &mut Table,
    snaps: &Snaps,
    path: &[Name],
) -> Result<NewPlace, NoMemory>
    ensures same { told table.new ≡ told table.old }
    ensures place { IfOk result (IsNewPlace (told table.old) snaps.now path.now) }
    ensures room { IfOk result (λ place. HasRoomFor (prepared_for (place.parent.id ∷ []) (λ id. place.parent.need.0)) table.new) }
{
    let place = place_for(alloc, table, snaps, path)?;
    prepare_seat(alloc, table, place.parent)?;
    Ok(place)
}

/// A new row under the next id, and its entry.
fn put_node(
    table: &mut Table,
    since: SnapId,
    parent: Seat,
    name: Name,
    rows: Rows,
    tick: u64,
) -> InodeId
    requires may { MayMake (told table.old) since.0 parent.id (next_id table.old.greatest) name (history_of rows) }
    requires empty { block_count (history_of rows) ≡ 0 }
    requires ids { table.old.greatest + 1 < 2 ^ 64 }
    requires bound { weight (told table.old).rows + 1 < 2 ^ 32 }
    requires room { HasNodeRoom 1 parent table.old }
    ensures next { result ≡ next_id table.old.greatest }
    ensures entered { told table.new ≡ entered parent name (history_of rows) since.0 tick (told table.old) }
    ensures room { 0 < table.new.room.blocks }
{
    let id = insert_ready(table, rows, since);
    change_ready(table, parent, tick, Change::Add { name, id });
    id
}

/// A new row in the place of another, whose entry goes first; last go the rows that no list names any more.
fn replace_node(
    table: &mut Table,
    since: SnapId,
    parent: Seat,
    gone: Name,
    name: Name,
    rows: Rows,
    tick: u64,
) -> (InodeId, Freed)
    requires same { gone ≡ name }
    requires may { MayTakePlace (told table.old) parent name (history_of rows) since.0 tick }
    requires empty { block_count (history_of rows) ≡ 0 }
    requires ids { table.old.greatest + 1 < 2 ^ 64 }
    requires bound { weight (told table.old).rows < 2 ^ 32 }
    requires left { weight (without_entry parent name tick (told table.old)).rows + 1 < 2 ^ 32 }
    requires room { HasNodeRoom 2 parent table.old }
    ensures next { result.0 ≡ next_id table.old.greatest }
    ensures replaced { Releasing (entered parent name (history_of rows) since.0 tick (without_entry parent name tick (told table.old))) result.1 (told table.new) }
{
    change_ready(table, parent, tick, Change::Remove { name: gone });
    let id = put_node(table, since, parent, name, rows, tick);
    (id, release_ready(table))
}

/// Makes an empty directory at a path.
fn new_dir(
    alloc: Global,
    table: &mut Table,
    snaps: &Snaps,
    path: &[Name],
    tick: u64,
) -> Result<InodeId, NoMemory>
    requires asks { (state : State FileBlocks) × AsksDir (told table.old) snaps.now path.now tick state }
    requires ids { table.old.greatest + 1 < 2 ^ 64 }
    requires bound { weight (told table.old).rows + 10 < 2 ^ 32 }
    ensures called { IfOk result (λ id. (state : State FileBlocks) → (asks : AsksDir (told table.old) snaps.now path.now tick state) → IsCalled (told table.old) (told table.new) snaps.now (mkdir_call asks) (replies.Made id) state) }
    ensures err { OnErr result (told table.new ≡ told table.old) }
{
    let NewPlace { parent, name, spot } = ready_place(alloc, table, snaps, path)?;
    let rows = Rows::Dir(DirRows::new(alloc, spot, Mode::of_directory(), tick));
    Ok(put_node(table, snaps.issued(), parent, name, rows, tick))
}

/// Makes an empty file at a path at which no node is.
fn new_file(
    alloc: Global,
    table: &mut Table,
    snaps: &Snaps,
    path: &[Name],
    tick: u64,
) -> Result<InodeId, NoMemory>
    requires asks { (state : State FileBlocks) × AsksFile (told table.old) snaps.now path.now tick state }
    requires free { IsFree (told table.old) snaps.now path.now }
    requires ids { table.old.greatest + 1 < 2 ^ 64 }
    requires bound { weight (told table.old).rows + 10 < 2 ^ 32 }
    ensures called { IfOk result (λ id. (state : State FileBlocks) → (asks : AsksFile (told table.old) snaps.now path.now tick state) → IsCalled (told table.old) (told table.new) snaps.now (create_call asks) (replies.Made id) state) }
    ensures err { OnErr result (told table.new ≡ told table.old) }
{
    let NewPlace { parent, name, spot } = ready_place(alloc, table, snaps, path)?;
    let rows = Rows::File(FileRows::new(alloc, spot, Mode::of_file(), tick));
    Ok(put_node(table, snaps.issued(), parent, name, rows, tick))
}

/// Makes an empty file in the place of the one at a path, and hands out the blocks that no state names any more.
fn file_over(
    alloc: Global,
    table: &mut Table,
    snaps: &Snaps,
    path: &[Name],
    tick: u64,
) -> Result<(InodeId, List<BlockId>), NoMemory>
    requires asks { (state : State FileBlocks) × AsksFile (told table.old) snaps.now path.now tick state }
    requires there { IsTaken (told table.old) snaps.now path.now }
    requires ids { table.old.greatest + 1 < 2 ^ 64 }
    requires bound { weight (told table.old).rows + 10 < 2 ^ 32 }
    ensures called { IfOk result (λ made. (state : State FileBlocks) → (asks : AsksFile (told table.old) snaps.now path.now tick state) → IsCalledFreeing (told table.old) (told table.new) made.1 snaps.now (create_call asks) (replies.Made made.0) state) }
    ensures err { OnErr result (told table.new ≡ told table.old) }
{
    let NewPlace { parent, name, spot } = ready_place(alloc, table, snaps, path)?;
    let gone = name.copy()?;
    let rows = Rows::File(FileRows::new(alloc, spot, Mode::of_file(), tick));
    let (id, freed) = replace_node(table, snaps.issued(), parent, gone, name, rows, tick);
    Ok((id, freed.blocks))
}

/// Makes an empty file in the place of the one at a path. The blocks that no state names any more wait then.
fn put_over(
    alloc: Global,
    table: &mut Table,
    snaps: &Snaps,
    waiting: &mut Vec<List<BlockId>>,
    path: &[Name],
    tick: u64,
) -> Result<InodeId, NoMemory>
    requires asks { (state : State FileBlocks) × AsksFile (told table.old) snaps.now path.now tick state }
    requires there { IsTaken (told table.old) snaps.now path.now }
    requires ids { table.old.greatest + 1 < 2 ^ 64 }
    requires bound { weight (told table.old).rows + 10 < 2 ^ 32 }
    ensures put { IfOk result (IsFilePut (told table.old) (told table.new) snaps.now (all_of waiting.old.items) (all_of waiting.new.items) path.now tick) }
    ensures err { OnErr result (told table.new ≡ told table.old) }
    ensures waits { OnErr result (waiting.new.items ≡ waiting.old.items) }
{
    waiting.reserve(1)?;
    let (id, freed) = file_over(alloc, table, snaps, path, tick)?;
    waiting.push_reserved(freed);
    Ok(id)
}

/// Makes an empty file at a path, also in the place of one.
fn put_file(
    alloc: Global,
    table: &mut Table,
    snaps: &Snaps,
    waiting: &mut Vec<List<BlockId>>,
    path: &[Name],
    tick: u64,
) -> Result<InodeId, NoMemory>
    requires asks { (state : State FileBlocks) × AsksFile (told table.old) snaps.now path.now tick state }
    requires ids { table.old.greatest + 1 < 2 ^ 64 }
    requires bound { weight (told table.old).rows + 10 < 2 ^ 32 }
    ensures put { IfOk result (IsFilePut (told table.old) (told table.new) snaps.now (all_of waiting.old.items) (all_of waiting.new.items) path.now tick) }
    ensures err { OnErr result (told table.new ≡ told table.old) }
    ensures waits { OnErr result (waiting.new.items ≡ waiting.old.items) }
{
    if node_there(table, path).is_some() {
        put_over(alloc, table, snaps, waiting, path, tick)
    } else {
        new_file(alloc, table, snaps, path, tick)
    }
}

/// Makes an empty directory.
pub(crate) fn mkdir<B: BlockStore>(
    alloc: Global,
    space: &mut RowSpace<B>,
    path: &PathText,
) -> Result<Reply, AskFault>
    requires standing { IsStanding (held B.blocks B.greatest space.old) (tick_of space.old) }
    ensures { IsOutcome B.blocks B.greatest B.faults space.old space.new (calls.Mkdir path.now) result }
{
    let path = mkdir_at(alloc, &space.table, path)?;
    let tick = make_place(space)?;
    let id = new_dir(alloc, &mut space.table, &space.snaps, path.items(), tick)?;
    Ok(Reply::Made { id })
}

/// Makes an empty file, with `over` also in the place of one, and frees the blocks that wait.
pub(crate) fn create<B: BlockStore>(
    alloc: Global,
    space: &mut RowSpace<B>,
    path: &PathText,
    over: bool,
) -> Result<Reply, AskFault>
    requires standing { IsStanding (held B.blocks B.greatest space.old) (tick_of space.old) }
    ensures { IsOutcome B.blocks B.greatest B.faults space.old space.new (calls.Create path.now over) result }
{
    let path = create_at(alloc, &space.table, path, over)?;
    let tick = make_place(space)?;
    let id = put_file(
        alloc,
        &mut space.table,
        &space.snaps,
        &mut space.waiting,
        path.items(),
        tick,
    )?;
    free_waiting(&mut space.store, &mut space.waiting);
    Ok(Reply::Made { id })
}
