//! Another mode of a node.
ghost use Rattle.hs_types.specs.declared.call.Call.TheVariants as calls;
ghost use Rattle.namenode_write.specs.Outcome.{IsOutcome, tick_of};
ghost use Rattle.namenode_write.specs.Rows.{held, IsStanding};

use crate::rows::making::{change_ready, prepare_seat};
use crate::rows::place::make_place;
use crate::rows::refusals::set_mode_at;
use crate::rows::seats::seat_at;
use crate::rows::space::RowSpace;
use block_store::BlockStore;
use hs_plain::AskFault;
use hs_types::{Mode, PathText, Reply};
use inode_table::Change;
use std::alloc::Global;

/// Gives the node at a path another mode.
pub(crate) fn set_mode<B: BlockStore>(
    alloc: Global,
    space: &mut RowSpace<B>,
    path: &PathText,
    mode: Mode,
) -> Result<Reply, AskFault>
    requires standing { IsStanding (held B.blocks B.greatest space.old) (tick_of space.old) }
    ensures { IsOutcome B.blocks B.greatest B.faults space.old space.new (calls.SetMode path.now mode) result }
{
    let path = set_mode_at(alloc, &space.table, path)?;
    let tick = make_place(space)?;
    let seat = seat_at(alloc, &space.table, &space.snaps, path.items())?;
    prepare_seat(alloc, &mut space.table, seat)?;
    change_ready(&mut space.table, seat, tick, Change::Mode(mode));
    Ok(Reply::Done)
}
