//! Renames over a table of rows: an entry out, an entry in, the node's new spot, and its marks. They cost the rows that change, not
//! what stands below them.
ghost use Rattle.std.specs.Prelude.{◌≡◌, ℕ, ◌+◌, ◌<◌, ◌^◌, List, Ok, IfOk, OnOk, OnErr};
ghost use Rattle.hs_types.specs.declared.call.Call.TheVariants as calls;
ghost use Rattle.hs_types.specs.declared.ids.InodeId.{InodeId};
ghost use Rattle.hs_types.specs.declared.reply.Reply.TheVariants as replies;
ghost use Rattle.hs_plain.specs.declared.state.State.{State};
ghost use Rattle.hs_plain.specs.declared.state.FileBlocks.{FileBlocks};
ghost use Rattle.hs_plain.specs.Modifying;
ghost use Rattle.hs_plain.specs.Report.{last_of};
ghost use Rattle.inode_table.specs.Ahead.{HasRoomFor, prepared_for};
ghost use Rattle.inode_table.specs.Kept.{told};
ghost use Rattle.inode_table.specs.Totals.{weight};
ghost use Rattle.inode_table.specs.Whole.{StandsFor};
ghost use Rattle.namenode_write.specs.Called.{IsCalled};
ghost use Rattle.namenode_write.specs.Moving.{AreMoveSeats, CanMove, IsLight, HaveNeeds, ids_of, moved};
ghost use Rattle.namenode_write.specs.Outcome.{IsOutcome, tick_of};
ghost use Rattle.namenode_write.specs.Rows.{held, IsStanding};

use crate::rows::making::change_ready;
use crate::rows::place::make_place;
use crate::rows::rename_refusals::rename_at;
use crate::rows::seats::{Seat, seat_at};
use crate::rows::space::RowSpace;
use block_store::BlockStore;
use hs_plain::AskFault;
use hs_plain::change::parent_of;
use hs_types::{Duplicate, InodeId, List, Name, NoMemory, PathText, Reply, Spot};
use inode_table::{Change, Table};
use rename_refs::arrive;
use snapshot_manager::Snaps;
use std::alloc::Global;

/// The rows that a rename changes: the directory from which the node goes, the one to which it goes, and its own.
#[derive(Clone, Copy, Debug)]
pub(crate) struct MoveSeats {
    pub(crate) from: Seat,
    pub(crate) to: Seat,
    pub(crate) node: Seat,
}

/// The name of the entry that goes, that of the one that comes, and where the node stands then.
#[derive(Drop)]
pub(crate) struct MoveNames {
    pub(crate) old: Name,
    pub(crate) new: Name,
    pub(crate) spot: Spot,
}

/// The rows of a move between two paths.
fn move_seats(
    alloc: Global,
    table: &Table,
    snaps: &Snaps,
    old: &[Name],
    new: &[Name],
) -> Result<MoveSeats, NoMemory>
    ensures { IfOk result (λ seats. (state : State FileBlocks) → StandsFor (told table.now) snaps.now state → AreMoveSeats (told table.now).rows state old.now new.now seats) }
{
    let from = seat_at(alloc, table, snaps, parent_of(old))?;
    let to = seat_at(alloc, table, snaps, parent_of(new))?;
    let node = seat_at(alloc, table, snaps, old)?;
    Ok(MoveSeats { from, to, node })
}

#[tactic(auto, using(hs_plain::proofs::Reports::last_of_at))]
/// A copy of the last name of a path.
fn last_name(path: &[Name]) -> Result<Name, NoMemory>
    ensures { IfOk result (λ name. name ≡ last_of path.now) }
{
    path.last().ok_or(NoMemory)?.copy()
}

/// The names of a move between two paths, to a directory.
fn move_names(parent: InodeId, old: &[Name], new: &[Name]) -> Result<MoveNames, NoMemory>
    ensures old_name { IfOk result (λ names. names.old ≡ last_of old.now) }
    ensures new_name { IfOk result (λ names. names.new ≡ last_of new.now) }
    ensures spot { IfOk result (λ names. names.spot ≡ record { parent = parent; name = last_of new.now }) }
{
    let old = last_name(old)?;
    let name = last_name(new)?;
    let new = name.copy()?;
    let spot = Spot { parent, name };
    Ok(MoveNames { old, new, spot })
}

/// Makes room for the changes of a move.
fn make_ready(alloc: Global, table: &mut Table, seats: &MoveSeats) -> Result<(), NoMemory>
    ensures same { told table.new ≡ told table.old }
    ensures room { OnOk result ((need : InodeId → ℕ) → HasRoomFor (prepared_for (ids_of seats.now) need) table.new) }
{
    let ids = vec![in alloc; seats.from.id, seats.to.id, seats.node.id]?;
    table.prepare(&List::of(ids))
}

/// Moves a row for whose changes there is room.
fn move_row(table: &mut Table, snaps: &Snaps, tick: u64, seats: MoveSeats, names: MoveNames)
    requires can { CanMove tick seats names (told table.old) }
    requires light { IsLight tick seats names (told table.old) }
    requires needs { HaveNeeds seats }
    requires room { (need : InodeId → ℕ) → HasRoomFor (prepared_for (ids_of seats) need) table.old }
    ensures { told table.new ≡ moved snaps.now.issued.0 tick seats names (told table.old) }
{
    let MoveNames { old, new, spot } = names;
    let id = seats.node.id;
    change_ready(table, seats.from, tick, Change::Remove { name: old });
    change_ready(table, seats.to, tick, Change::Add { name: new, id });
    change_ready(table, seats.node, tick, Change::Move(spot));
    arrive(table, snaps, id, seats.node.cover);
}

/// Moves the node at a path to another path, where no test refuses it.
fn move_node(
    alloc: Global,
    table: &mut Table,
    snaps: &Snaps,
    tick: u64,
    old: &[Name],
    new: &[Name],
) -> Result<(), NoMemory>
    requires may { (state : State FileBlocks) × StandsFor (told table.old) snaps.now state × (tick ≡ state.tick + 1) × (old_text : List ℕ) × (new_text : List ℕ) × (Modifying.rename_at state old_text new_text ≡ Ok (old.now, new.now)) }
    requires light { weight (told table.old).rows + 10 < 2 ^ 32 }
    ensures moved { OnOk result ((state : State FileBlocks) (old_text new_text : List ℕ) → StandsFor (told table.old) snaps.now state → tick ≡ state.tick + 1 → Modifying.rename_at state old_text new_text ≡ Ok (old.now, new.now) → IsCalled (told table.old) (told table.new) snaps.now (calls.Rename old_text new_text) replies.Done state) }
    ensures unchanged { OnErr result (told table.new ≡ told table.old) }
{
    let seats = move_seats(alloc, table, snaps, old, new)?;
    let names = move_names(seats.to.id, old, new)?;
    make_ready(alloc, table, &seats)?;
    move_row(table, snaps, tick, seats, names);
    Ok(())
}

/// Moves the node at a path, with all below it, to another path.
pub(crate) fn rename<B: BlockStore>(
    alloc: Global,
    space: &mut RowSpace<B>,
    old: &PathText,
    new: &PathText,
) -> Result<Reply, AskFault>
    requires standing { IsStanding (held B.blocks B.greatest space.old) (tick_of space.old) }
    ensures { IsOutcome B.blocks B.greatest B.faults space.old space.new (calls.Rename old.now new.now) result }
{
    let (old, new) = rename_at(alloc, &space.table, &space.snaps, old, new)?;
    let tick = make_place(space)?;
    move_node(
        alloc,
        &mut space.table,
        &space.snaps,
        tick,
        old.items(),
        new.items(),
    )?;
    Ok(Reply::Done)
}
