//! Which file an append asks for, or why it is refused, by the rows of a table.
ghost use Rattle.std.specs.Prelude.{◌≡◌, Ok, MatchResult};
ghost use Rattle.hs_plain.specs.declared.state.State.{State};
ghost use Rattle.hs_plain.specs.declared.state.FileBlocks.{FileBlocks};
ghost use Rattle.hs_plain.specs.Modifying;
ghost use Rattle.hs_plain.specs.inside.Faults.{IsFaultOf};
ghost use Rattle.snapshot_manager.specs.Snapshots.{Snapshots};
ghost use Rattle.inode_table.specs.Kept.{told};
ghost use Rattle.inode_table.specs.Whole.{StandsFor};
ghost use Rattle.namenode_write.specs.Appending.{append_path};

use hs_plain::AskFault;
use hs_plain::modifying::{live_path, refuse_if};
use hs_types::{List, Name, PathText, Refusal};
use inode_table::Table;
use path_resolver::by_rows::{is_dir_at, live};
use std::alloc::Global;

/// The path of a file that gets bytes.
pub(crate) fn append_at(
    alloc: Global,
    table: &Table,
    text: &PathText,
) -> Result<List<Name>, AskFault>
    ensures { (snaps : Snapshots) (state : State FileBlocks) → StandsFor (told table.now) snaps state → MatchResult result (λ path. append_path (Modifying.append_at state text.now) ≡ Ok path) (IsFaultOf (Modifying.append_at state text.now)) }
{
    let path = live_path(alloc, text)?;
    let id = live(table, path.items())?;
    refuse_if(is_dir_at(table, id), Refusal::NotFile)?;
    Ok(path)
}
