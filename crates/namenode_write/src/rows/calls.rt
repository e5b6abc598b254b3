//! All exclusive calls over rows.
ghost use Rattle.std.specs.Prelude.{◌≡◌, true};
ghost use Rattle.hs_plain.specs.Answer.{is_exclusive};
ghost use Rattle.namenode_write.specs.Outcome.{IsOutcome, is_arranging, tick_of};
ghost use Rattle.namenode_write.specs.Rows.{held, IsStanding};

use crate::rows::appending::append;
use crate::rows::deleting::delete;
use crate::rows::making_nodes::{create, mkdir};
use crate::rows::modes::set_mode;
use crate::rows::reading::{read, read_next};
use crate::rows::renaming::rename;
use crate::rows::snapshot_deleting::snap_del;
use crate::rows::snapshots::{allow, disallow, snap, snap_ren};
use crate::rows::space::RowSpace;
use block_store::BlockStore;
use hs_plain::AskFault;
use hs_types::{Call, Reply};
use std::alloc::Global;

/// Makes an exclusive call, but for its entry.
pub(crate) fn make_call<B: BlockStore>(
    alloc: Global,
    space: &mut RowSpace<B>,
    call: &Call,
) -> Result<Reply, AskFault>
    requires exclusive { is_exclusive call.now ≡ true }
    requires standing { IsStanding (held B.blocks B.greatest space.old) (tick_of space.old) }
    ensures { IsOutcome B.blocks B.greatest B.faults space.old space.new call.now result }
{
    match call {
        Call::Append { path, bytes } => append(alloc, space, path, bytes),
        Call::Read { path, offset, len } => read(alloc, space, path, *offset, *len),
        Call::ReadNext { cursor, len } => read_next(alloc, space, *cursor, *len),
        Call::Allow { path } => allow(alloc, space, path),
        Call::Disallow { path } => disallow(alloc, space, path),
        Call::Snap { path, name } => snap(alloc, space, path, name),
        Call::SnapDel { path, name } => snap_del(alloc, space, path, name),
        Call::SnapRen { path, old, new } => snap_ren(alloc, space, path, old, new),
        _ => change_tree(alloc, space, call),
    }
}

/// Makes a call that changes the tree, but for the bytes of its files.
fn change_tree<B: BlockStore>(
    alloc: Global,
    space: &mut RowSpace<B>,
    call: &Call,
) -> Result<Reply, AskFault>
    requires arranging { is_arranging call.now ≡ true }
    requires standing { IsStanding (held B.blocks B.greatest space.old) (tick_of space.old) }
    ensures { IsOutcome B.blocks B.greatest B.faults space.old space.new call.now result }
{
    match call {
        Call::Mkdir { path } => mkdir(alloc, space, path),
        Call::Create { path, over } => create(alloc, space, path, *over),
        Call::Delete { path, recursive } => delete(alloc, space, path, *recursive),
        Call::Rename { old, new } => rename(alloc, space, old, new),
        Call::SetMode { path, mode } => set_mode(alloc, space, path, *mode),
        _ => unreachable!(),
    }
}
