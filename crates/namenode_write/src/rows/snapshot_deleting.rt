//! Snapshots that go.
ghost use Rattle.std.specs.Prelude.{◌≡◌, ◌<◌, OnOk, vec_len, vec_capacity};
ghost use Rattle.hs_types.specs.declared.call.Call.TheVariants as calls;
ghost use Rattle.namenode_write.specs.Outcome.{IsOutcome, tick_of};
ghost use Rattle.namenode_write.specs.Rows.{held, IsStanding};

use crate::rows::freeing::free_waiting;
use crate::rows::place::make_place;
use crate::rows::snapshot_refusals::snap_del_at;
use crate::rows::space::RowSpace;
use block_store::BlockStore;
use hs_plain::AskFault;
use hs_types::{BlockId, List, NameText, NoMemory, PathText, Reply};
use record_merge::drop_snapshot;
use std::alloc::Global;

/// Makes room for one list of blocks more.
fn make_list_room(waiting: &mut Vec<List<BlockId>>) -> Result<(), NoMemory>
    ensures room { OnOk result (vec_len waiting.new < vec_capacity waiting.new) }
    ensures items { waiting.new.items ≡ waiting.old.items }
{
    Ok(waiting.reserve(1)?)
}

/// Deletes a snapshot, and frees the blocks that it alone kept.
pub(crate) fn snap_del<B: BlockStore>(
    alloc: Global,
    space: &mut RowSpace<B>,
    path: &PathText,
    name: &NameText,
) -> Result<Reply, AskFault>
    requires standing { IsStanding (held B.blocks B.greatest space.old) (tick_of space.old) }
    ensures { IsOutcome B.blocks B.greatest B.faults space.old space.new (calls.SnapDel path.now name.now) result }
{
    let id = snap_del_at(alloc, &space.table, &space.snaps, path, name)?;
    make_place(space)?;
    space.snaps.always();
    make_list_room(&mut space.waiting)?;
    let freed = drop_snapshot(&mut space.table, &mut space.snaps, id)?;
    space.waiting.push_reserved(freed.blocks);
    free_waiting(&mut space.store, &mut space.waiting);
    Ok(Reply::Done)
}
