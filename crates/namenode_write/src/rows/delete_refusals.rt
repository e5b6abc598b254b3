//! What a deletion asks for, or why it is refused, by the rows of a table.
ghost use Rattle.std.specs.Prelude.{◌≡◌, Ok, Some, MatchResult};
ghost use Rattle.hs_types.specs.Names.{Names};
ghost use Rattle.hs_plain.specs.declared.state.State.{State};
ghost use Rattle.hs_plain.specs.declared.state.FileBlocks.{FileBlocks};
ghost use Rattle.hs_plain.specs.Modifying;
ghost use Rattle.hs_plain.specs.Tree.{node_at};
ghost use Rattle.hs_plain.specs.inside.Faults.{IsFaultOf};
ghost use Rattle.snapshot_manager.specs.Snapshots.{Snapshots};
ghost use Rattle.inode_table.specs.Kept.{told};
ghost use Rattle.inode_table.specs.Reads.{id_of};
ghost use Rattle.inode_table.specs.Whole.{StandsFor};
ghost use Rattle.namenode_write.specs.GoneDirs.{may_go as plain_may_go};

use hs_plain::AskFault;
use hs_plain::modifying::{live_path, refuse_if};
use hs_plain::tree::is_root_path;
use hs_types::{InodeId, List, Name, PathText, Refusal};
use inode_table::Table;
use path_resolver::above::holds_snapshots;
use path_resolver::by_rows::{child_count, live};
use snapshot_manager::Snaps;
use std::alloc::Global;

/// Whether a directory with children is to be deleted without them.
fn spares_children(table: &Table, id: InodeId, recursive: bool) -> bool
    ensures { (snaps : Snapshots) (state : State FileBlocks) → StandsFor (told table.now) snaps state → (path : Names) → id_of (node_at state.tree path) ≡ Some id → result ≡ Modifying.spares_children state.tree path recursive }
{
    !recursive && child_count(table, id) > 0
}

/// Whether the node at a path may be deleted.
fn may_go(table: &Table, snaps: &Snaps, path: &[Name], recursive: bool) -> Result<(), Refusal>
    ensures { (state : State FileBlocks) → StandsFor (told table.now) snaps.now state → result ≡ plain_may_go state path.now recursive }
{
    let id = live(table, path)?;
    refuse_if(is_root_path(path), Refusal::IsRoot)?;
    let spares = spares_children(table, id, recursive);
    refuse_if(spares, Refusal::NotEmpty)?;
    refuse_if(holds_snapshots(table, snaps, id), Refusal::HasSnapshots)
}

/// The path of a node that may be deleted.
pub(crate) fn delete_at(
    alloc: Global,
    table: &Table,
    snaps: &Snaps,
    text: &PathText,
    recursive: bool,
) -> Result<List<Name>, AskFault>
    ensures { (state : State FileBlocks) → StandsFor (told table.now) snaps.now state → MatchResult result (λ path. Modifying.delete_at state text.now recursive ≡ Ok path) (IsFaultOf (Modifying.delete_at state text.now recursive)) }
{
    let path = live_path(alloc, text)?;
    may_go(table, snaps, path.items(), recursive)?;
    Ok(path)
}
