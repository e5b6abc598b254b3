//! Rows of the live tree, with the numbers that snapshots ask of them before they change.
ghost use Rattle.std.specs.Prelude.{IfOk};
ghost use Rattle.hs_plain.specs.declared.state.State.{State};
ghost use Rattle.hs_plain.specs.declared.state.FileBlocks.{FileBlocks};
ghost use Rattle.inode_table.specs.Kept.{told};
ghost use Rattle.inode_table.specs.Whole.{StandsFor};
ghost use Rattle.namenode_write.specs.Seats.{IsSeat};

use hs_types::{InodeId, Name, NoMemory, SnapId};
use inode_table::Table;
use path_resolver::by_rows::{chain, live};
use rename_refs::{cover, need};
use snapshot_manager::Snaps;
use std::alloc::Global;

/// A row of the live tree, with its cover and its need.
#[derive(Clone, Copy, Debug)]
pub(crate) struct Seat {
    pub(crate) id: InodeId,
    pub(crate) cover: SnapId,
    pub(crate) need: SnapId,
}

/// The row at a path at which a node is known to be.
pub(crate) fn seat_at(
    alloc: Global,
    table: &Table,
    snaps: &Snaps,
    path: &[Name],
) -> Result<Seat, NoMemory>
    ensures { IfOk result (λ seat. (state : State FileBlocks) → StandsFor (told table.now) snaps.now state → IsSeat (told table.now).rows state path.now seat) }
{
    let Ok(id) = live(table, path) else {
        return Err(NoMemory);
    };
    let Ok(chain) = chain(alloc, table, path) else {
        return Err(NoMemory);
    };
    let cover = cover(table, snaps, &chain);
    let need = need(table, snaps, id, cover);
    Ok(Seat { id, cover, need })
}
