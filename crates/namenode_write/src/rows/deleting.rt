//! A node goes with all below it.
ghost use Rattle.std.specs.Prelude.{◌≡◌, ◌+◌, ◌^◌, ◌<◌, ◌++◌, ◌∷◌, [], false, bytes_eq, Some, IfOk, OnOk, vec_len, vec_capacity};
ghost use Rattle.std.specs.List.{Contains, starts_with};
ghost use Rattle.hs_types.specs.Names.{Names};
ghost use Rattle.hs_types.specs.declared.ids.InodeId.{InodeId};
ghost use Rattle.hs_types.specs.declared.call.Call.TheVariants as calls;
ghost use Rattle.hs_plain.specs.declared.state.State.{State};
ghost use Rattle.hs_plain.specs.declared.state.FileBlocks.{FileBlocks};
ghost use Rattle.hs_plain.specs.Tree.{node_at, is_root_path};
ghost use Rattle.snapshot_manager.specs.Snapshots.{Snapshots, snaps_in};
ghost use Rattle.inode_table.specs.declared.change.Change.TheVariants as changes;
ghost use Rattle.inode_table.specs.Ahead.{HasRoomFor, prepared_for};
ghost use Rattle.inode_table.specs.Kept.{told, CanChange};
ghost use Rattle.inode_table.specs.Reads.{id_of};
ghost use Rattle.inode_table.specs.Totals.{weight};
ghost use Rattle.inode_table.specs.Whole.{StandsFor};
ghost use Rattle.table_laws.specs.WholeCalls.{all_disallowed};
ghost use Rattle.table_laws.specs.WholeLaws.{AreGone};
ghost use Rattle.namenode_write.specs.GoneDirs.{push_if, IsGoing, IsRemoved};
ghost use Rattle.namenode_write.specs.Outcome.{IsOutcome, tick_of};
ghost use Rattle.namenode_write.specs.Rows.{held, IsStanding};

use crate::rows::delete_refusals::delete_at;
use crate::rows::freeing::free_waiting;
use crate::rows::making::{change_ready, prepare_seat, release_ready};
use crate::rows::place::make_place;
use crate::rows::seats::{Seat, seat_at};
use crate::rows::space::RowSpace;
use block_store::BlockStore;
use hs_plain::AskFault;
use hs_types::{InodeId, List, Name, NoMemory, PathText, Reply};
use inode_table::{Change, Table};
use path_resolver::above::is_under;
use path_resolver::by_rows::live;
use snapshot_manager::Snaps;
use std::alloc::Global;

/// What goes with a node: its entry in the directory above it, and the directories that are snapshottable no more.
#[derive(Drop)]
struct Going {
    parent: Seat,
    name: Name,
    gone: List<InodeId>,
}

/// Notes a directory where it stands at an inode of the live tree or below it.
fn note_under(
    gone: &mut List<InodeId>,
    table: &Table,
    above: InodeId,
    dir: InodeId,
) -> Result<(), NoMemory>
    ensures { OnOk result ((snaps : Snapshots) (state : State FileBlocks) → StandsFor (told table.now) snaps state → (path place : Names) → id_of (node_at state.tree path) ≡ Some above → id_of (node_at state.tree place) ≡ Some dir → gone.new ≡ push_if (starts_with bytes_eq place path) dir gone.old) }
{
    if is_under(table, above, dir) {
        gone.push(dir)
    } else {
        Ok(())
    }
}

/// The snapshottable directories at an inode of the live tree or below it. It costs a look-up for each directory above each
/// snapshottable one, whatever stands below the inode.
fn snapshottable_under(
    alloc: Global,
    table: &Table,
    snaps: &Snaps,
    id: InodeId,
) -> Result<List<InodeId>, NoMemory>
    ensures { IfOk result (λ gone. (state : State FileBlocks) → StandsFor (told table.now) snaps.now state → (path : Names) → id_of (node_at state.tree path) ≡ Some id → AreGone state path gone) }
{
    snaps.always();
    let mut gone = List::new(alloc);
    let mut next = snaps.dir_at(0);
    while let Some(dir) = next {
        note_under(&mut gone, table, id, dir)?;
        next = snaps.dir_after(dir);
    }
    Ok(gone)
}

/// The last name of a path below the root.
fn last_name(path: List<Name>) -> Name
    requires { is_root_path path ≡ false }
    ensures { (above : Names) × (path ≡ above ++ result ∷ []) }
{
    match path.into_vec().pop() {
        Some(name) => name,
        None => unreachable!(),
    }
}

/// Finds what goes with the node at a path below the root, at which one is known to be.
fn going_at(
    alloc: Global,
    table: &Table,
    snaps: &Snaps,
    path: List<Name>,
) -> Result<Going, NoMemory>
    requires { is_root_path path ≡ false }
    ensures { IfOk result (λ going. (state : State FileBlocks) → StandsFor (told table.now) snaps.now state → IsGoing (told table.now).rows state path going) }
{
    let names = path.items();
    let parent = seat_at(alloc, table, snaps, &names[..names.len() - 1])?;
    let Ok(id) = live(table, names) else {
        return Err(NoMemory);
    };
    let gone = snapshottable_under(alloc, table, snaps, id)?;
    let name = last_name(path);
    Ok(Going { parent, name, gone })
}

/// Makes room for a deletion, and for a list of blocks. Nothing that is held changes.
fn make_ready<B: BlockStore>(
    alloc: Global,
    space: &mut RowSpace<B>,
    seat: Seat,
) -> Result<(), NoMemory>
    ensures same { told space.new.table ≡ told space.old.table }
    ensures waiting { space.new.waiting.items ≡ space.old.waiting.items }
    ensures rest { space.new ≡ record space.old { table = space.new.table; waiting = space.new.waiting } }
    ensures list { OnOk result (vec_len space.new.waiting < vec_capacity space.new.waiting) }
    ensures room { OnOk result (HasRoomFor (prepared_for (seat.id ∷ []) (λ id. seat.need.0)) space.new.table) }
{
    space.waiting.reserve(1)?;
    prepare_seat(alloc, &mut space.table, seat)
}

/// These directories have no snapshots, and are snapshottable no more.
fn disallow_all(snaps: &mut Snaps, dirs: &[InodeId])
    requires { (dir : InodeId) → Contains dirs.now dir → snaps_in snaps.old dir ≡ [] }
    ensures { snaps.new ≡ all_disallowed dirs.now snaps.old }
{
    for dir in dirs {
        snaps.disallow(*dir);
    }
}

/// Takes out the entry, for which there is room, with the rows that no list names any more. Their blocks wait.
fn remove<B: BlockStore>(space: &mut RowSpace<B>, going: Going, tick: u64)
    requires can { CanChange (told space.old.table).rows going.parent.id (changes.Remove going.name) }
    requires bound { weight (told space.old.table).rows < 2 ^ 32 }
    requires room { HasRoomFor (prepared_for (going.parent.id ∷ []) (λ id. going.parent.need.0)) space.old.table }
    requires list { vec_len space.old.waiting < vec_capacity space.old.waiting }
    requires free { (dir : InodeId) → Contains going.gone dir → snaps_in space.old.snaps dir ≡ [] }
    ensures { IsRemoved space.old space.new going tick }
{
    let Going { parent, name, gone } = going;
    change_ready(&mut space.table, parent, tick, Change::Remove { name });
    disallow_all(&mut space.snaps, gone.items());
    let freed = release_ready(&mut space.table);
    space.waiting.push_reserved(freed.blocks);
}

/// Deletes the node at a path with all below it. Directories that go are snapshottable no more, and the blocks that no state names any
/// more are freed.
pub(crate) fn delete<B: BlockStore>(
    alloc: Global,
    space: &mut RowSpace<B>,
    path: &PathText,
    recursive: bool,
) -> Result<Reply, AskFault>
    requires standing { IsStanding (held B.blocks B.greatest space.old) (tick_of space.old) }
    ensures { IsOutcome B.blocks B.greatest B.faults space.old space.new (calls.Delete path.now recursive) result }
{
    let path = delete_at(alloc, &space.table, &space.snaps, path, recursive)?;
    let tick = make_place(space)?;
    let going = going_at(alloc, &space.table, &space.snaps, path)?;
    make_ready(alloc, space, going.parent)?;
    remove(space, going, tick);
    free_waiting(&mut space.store, &mut space.waiting);
    Ok(Reply::Done)
}
