//! Whether a node may move, by the rows of a table: the plain machine's tests by look-ups. Each number is tested on the path from
//! which the node goes, and then on the one to which it goes.
ghost use Rattle.std.specs.Prelude.{◌≡◌, Ok, Some, IfOk, MatchResult};
ghost use Rattle.hs_types.specs.Names.{Names};
ghost use Rattle.hs_plain.specs.declared.state.State.{State};
ghost use Rattle.hs_plain.specs.declared.state.FileBlocks.{FileBlocks};
ghost use Rattle.hs_plain.specs.Asked;
ghost use Rattle.hs_plain.specs.Modifying;
ghost use Rattle.hs_plain.specs.Tree.{node_at, walk, walks_above};
ghost use Rattle.hs_plain.specs.inside.Faults.{IsFaultOf};
ghost use Rattle.snapshot_manager.specs.Snapshots.{Snapshots};
ghost use Rattle.inode_table.specs.Kept.{told};
ghost use Rattle.inode_table.specs.Reads.{id_of};
ghost use Rattle.inode_table.specs.Whole.{StandsFor};
ghost use Rattle.namenode_write.specs.Moving.{first_id};

use hs_plain::AskFault;
use hs_plain::modifying::{first_of, live_paths, refuse_if};
use hs_plain::tree::{is_above, is_root_path};
use hs_types::{InodeId, List, Name, PathText, Refusal};
use inode_table::Table;
use path_resolver::above::{holds_snapshots, holds_snapshottable, is_in_snapshottable};
use path_resolver::by_rows::{live, node_there, walks_above};
use snapshot_manager::Snaps;
use std::alloc::Global;

/// The node that is to move, where the parent of its new place is there too.
fn walk_both(table: &Table, old: &[Name], new: &[Name]) -> Result<InodeId, Refusal>
    ensures walk { (snaps : Snapshots) (state : State FileBlocks) → StandsFor (told table.now) snaps state → result ≡ first_id (Asked.both (walk state.tree old.now) (walks_above state.tree new.now)) }
    ensures there { IfOk result (λ id. (snaps : Snapshots) (state : State FileBlocks) → StandsFor (told table.now) snaps state → id_of (node_at state.tree old.now) ≡ Some id) }
{
    match (live(table, old), walks_above(table, new)) {
        (Ok(id), Ok(())) => Ok(id),
        (Ok(_), Err(why)) => Err(why),
        (Err(why), Ok(())) => Err(why),
        (Err(a), Err(b)) => Err(first_of(a, b)),
    }
}

/// Whether a move of the node at a path would put a snapshottable directory below another.
fn would_nest(table: &Table, snaps: &Snaps, id: InodeId, new: &[Name]) -> bool
    ensures { (state : State FileBlocks) → StandsFor (told table.now) snaps.now state → (old : Names) → id_of (node_at state.tree old) ≡ Some id → result ≡ Modifying.would_nest state old new.now }
{
    holds_snapshottable(table, snaps, id) && is_in_snapshottable(table, snaps, new)
}

/// Whether a node may move from one path to another.
fn may_move(table: &Table, snaps: &Snaps, old: &[Name], new: &[Name]) -> Result<(), Refusal>
    ensures { (state : State FileBlocks) → StandsFor (told table.now) snaps.now state → result ≡ Modifying.may_move state old.now new.now }
{
    let id = walk_both(table, old, new)?;
    let taken = node_there(table, new).is_some();
    refuse_if(taken, Refusal::Exists)?;
    refuse_if(is_root_path(old), Refusal::IsRoot)?;
    let held = holds_snapshots(table, snaps, id);
    refuse_if(held, Refusal::HasSnapshots)?;
    refuse_if(is_above(old, new), Refusal::IntoItself)?;
    let nested = would_nest(table, snaps, id, new);
    refuse_if(nested, Refusal::Nested)
}

/// The paths from which and to which a node may move.
pub(crate) fn rename_at(
    alloc: Global,
    table: &Table,
    snaps: &Snaps,
    old: &PathText,
    new: &PathText,
) -> Result<(List<Name>, List<Name>), AskFault>
    ensures { (state : State FileBlocks) → StandsFor (told table.now) snaps.now state → MatchResult result (λ paths. Modifying.rename_at state old.now new.now ≡ Ok paths) (IsFaultOf (Modifying.rename_at state old.now new.now)) }
{
    let paths = live_paths(alloc, old, new)?;
    may_move(table, snaps, paths.0.items(), paths.1.items())?;
    Ok(paths)
}
