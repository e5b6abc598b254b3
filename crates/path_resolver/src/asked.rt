//! What calls ask for, by look-ups in a table and its snapshots.
ghost use Rattle.std.specs.Prelude.{◌≡◌, Ok, MatchResult};
ghost use Rattle.hs_plain.specs.declared.state.State.{State};
ghost use Rattle.hs_plain.specs.declared.state.FileBlocks.{FileBlocks};
ghost use Rattle.hs_plain.specs.Snapshotting;
ghost use Rattle.hs_plain.specs.inside.Faults.{IsFaultOf};
ghost use Rattle.snapshot_manager.specs.Snapshots.{Snapshots};
ghost use Rattle.inode_table.specs.Kept.{told};
ghost use Rattle.inode_table.specs.Whole.{StandsFor};
ghost use Rattle.path_resolver.specs.ByRows.{dir_asked};
ghost use Rattle.path_resolver.specs.Live.{id_asked};

use crate::by_rows::{is_dir_by_rows, walk};
use hs_plain::modifying::{live_path, refuse_if};
use hs_plain::resolve::AskFault;
use hs_types::{InodeId, List, Name, PathText, Refusal, SnapId};
use inode_table::Table;
use std::alloc::Global;

fn dir_by_rows(
    alloc: Global,
    table: &Table,
    text: &PathText,
) -> Result<(List<Name>, InodeId), AskFault>
    ensures { MatchResult result (λ at. dir_asked (told table.now).rows text.now ≡ Ok at) (IsFaultOf (dir_asked (told table.now).rows text.now)) }
{
    let path = live_path(alloc, text)?;
    let id = walk(table, SnapId(0), InodeId::ROOT, path.items())?;
    refuse_if(!is_dir_by_rows(table, id), Refusal::NotDir)?;
    Ok((path, id))
}

/// The directory that a call on snapshots names: its path and its inode.
pub fn directory_at(
    alloc: Global,
    table: &Table,
    text: &PathText,
) -> Result<(List<Name>, InodeId), AskFault>
    ensures { (snaps : Snapshots) (state : State FileBlocks) → StandsFor (told table.now) snaps state → MatchResult result (λ at. id_asked (Snapshotting.directory_at state text.now) ≡ Ok at) (IsFaultOf (Snapshotting.directory_at state text.now)) }
{
    dir_by_rows(alloc, table, text)
}
