//! Snapshottable directories, and snapshots that are made and get other names.
ghost use Rattle.std.specs.Prelude.{◌≡◌, ◌+◌, ◌<◌, ◌^◌, [], length, false, IsSome, IsTrue, IfOk, OnOk, OnErr};
ghost use Rattle.hs_types.specs.declared.call.Call.TheVariants as calls;
ghost use Rattle.snapshot_manager.specs.Snapshots.{snaps_of, snaps_in, is_named, added, changed, renamed};
ghost use Rattle.namenode_write.specs.Outcome.{IsOutcome, tick_of};
ghost use Rattle.namenode_write.specs.Rows.{held, IsStanding};

use crate::rows::place::make_place;
use crate::rows::snapshot_refusals::{Renaming, allow_at, disallow_at, snap_at, snap_ren_at};
use crate::rows::space::RowSpace;
use block_store::BlockStore;
use hs_plain::AskFault;
use hs_types::{InodeId, Name, NameText, NoMemory, PathText, Reply, SnapId};
use snapshot_manager::{AddFault, RenameFault, SNAPSHOT_LIMIT, Snaps};
use std::alloc::Global;

/// Makes a directory snapshottable.
pub(crate) fn allow<B: BlockStore>(
    alloc: Global,
    space: &mut RowSpace<B>,
    path: &PathText,
) -> Result<Reply, AskFault>
    requires standing { IsStanding (held B.blocks B.greatest space.old) (tick_of space.old) }
    ensures { IsOutcome B.blocks B.greatest B.faults space.old space.new (calls.Allow path.now) result }
{
    let dir = allow_at(alloc, &space.table, &space.snaps, path)?;
    make_place(space)?;
    space.snaps.always();
    space.snaps.allow(dir)?;
    Ok(Reply::Done)
}

/// Makes a directory without snapshots snapshottable no more.
pub(crate) fn disallow<B: BlockStore>(
    alloc: Global,
    space: &mut RowSpace<B>,
    path: &PathText,
) -> Result<Reply, AskFault>
    requires standing { IsStanding (held B.blocks B.greatest space.old) (tick_of space.old) }
    ensures { IsOutcome B.blocks B.greatest B.faults space.old space.new (calls.Disallow path.now) result }
{
    let dir = disallow_at(alloc, &space.table, &space.snaps, path)?;
    make_place(space)?;
    space.snaps.disallow(dir);
    Ok(Reply::Done)
}

/// One snapshot more of a directory that may have it.
fn add_free(snaps: &mut Snaps, dir: InodeId, name: Name, tick: u64) -> Result<SnapId, NoMemory>
    requires snapshottable { IsSome (snaps_of snaps.old dir) }
    requires fresh { is_named name (snaps_in snaps.old dir) ≡ false }
    requires below_limit { length (snaps_in snaps.old dir) < SNAPSHOT_LIMIT }
    requires room { snaps.old.issued.0 + 1 < 2 ^ 64 }
    ensures next_id { IfOk result (λ id. id.0 ≡ snaps.old.issued.0 + 1) }
    ensures ok { IfOk result (λ id. snaps.new ≡ added dir (record { id = id; tick = tick; name = name }) snaps.old) }
    ensures err { OnErr result (snaps.new ≡ snaps.old) }
{
    match snaps.add(dir, name, tick) {
        Ok(id) => Ok(id),
        Err(AddFault::NoMemory) => Err(NoMemory),
        Err(_) => unreachable!(),
    }
}

/// Freezes a directory under a name.
pub(crate) fn snap<B: BlockStore>(
    alloc: Global,
    space: &mut RowSpace<B>,
    path: &PathText,
    name: &NameText,
) -> Result<Reply, AskFault>
    requires standing { IsStanding (held B.blocks B.greatest space.old) (tick_of space.old) }
    ensures { IsOutcome B.blocks B.greatest B.faults space.old space.new (calls.Snap path.now name.now) result }
{
    let (dir, name) = snap_at(alloc, &space.table, &space.snaps, path, name)?;
    let tick = make_place(space)?;
    let id = add_free(&mut space.snaps, dir, name, tick)?;
    Ok(Reply::SnapMade { id })
}

/// Another name for a snapshot that may have it.
fn rename_free(snaps: &mut Snaps, at: Renaming) -> Result<(), NoMemory>
    requires fresh { is_named at.new (snaps_in snaps.old at.dir) ≡ false }
    requires found { IsTrue (is_named at.old (snaps_in snaps.old at.dir)) }
    ensures ok { OnOk result (snaps.new ≡ changed at.dir (renamed at.old at.new) snaps.old) }
    ensures err { OnErr result (snaps.new ≡ snaps.old) }
{
    let Renaming { dir, old, new, .. } = at;
    match snaps.rename(dir, &old, new) {
        Ok(()) => Ok(()),
        Err(RenameFault::NoMemory) => Err(NoMemory),
        Err(_) => unreachable!(),
    }
}

/// Gives a snapshot another name.
pub(crate) fn snap_ren<B: BlockStore>(
    alloc: Global,
    space: &mut RowSpace<B>,
    path: &PathText,
    old: &NameText,
    new: &NameText,
) -> Result<Reply, AskFault>
    requires standing { IsStanding (held B.blocks B.greatest space.old) (tick_of space.old) }
    ensures { IsOutcome B.blocks B.greatest B.faults space.old space.new (calls.SnapRen path.now old.now new.now) result }
{
    let at = snap_ren_at(alloc, &space.table, &space.snaps, path, old, new)?;
    make_place(space)?;
    rename_free(&mut space.snaps, at)?;
    Ok(Reply::Done)
}
