//! What calls ask for, or why they are refused, by the rows of a table: the plain machine's tests by look-ups.
ghost use Rattle.std.specs.Prelude.{◌≡◌, Ok, MatchResult};
ghost use Rattle.hs_plain.specs.declared.state.State.{State};
ghost use Rattle.hs_plain.specs.declared.state.FileBlocks.{FileBlocks};
ghost use Rattle.hs_plain.specs.Modifying;
ghost use Rattle.hs_plain.specs.Tree.{node_at};
ghost use Rattle.hs_plain.specs.inside.Faults.{IsFaultOf};
ghost use Rattle.snapshot_manager.specs.Snapshots.{Snapshots};
ghost use Rattle.inode_table.specs.Kept.{told};
ghost use Rattle.inode_table.specs.Whole.{StandsFor};

use hs_plain::AskFault;
use hs_plain::modifying::{live_path, refuse_if};
use hs_types::{List, Name, PathText, Refusal};
use inode_table::Table;
use path_resolver::by_rows::{is_dir_at, live, node_there, walks_above};
use std::alloc::Global;

/// The path of a node that may get a mode.
pub(crate) fn set_mode_at(
    alloc: Global,
    table: &Table,
    text: &PathText,
) -> Result<List<Name>, AskFault>
    ensures { (snaps : Snapshots) (state : State FileBlocks) → StandsFor (told table.now) snaps state → MatchResult result (λ path. Modifying.set_mode_at state text.now ≡ Ok path) (IsFaultOf (Modifying.set_mode_at state text.now)) }
{
    let path = live_path(alloc, text)?;
    live(table, path.items())?;
    Ok(path)
}

/// The path at which a directory may be made.
pub(crate) fn mkdir_at(
    alloc: Global,
    table: &Table,
    text: &PathText,
) -> Result<List<Name>, AskFault>
    ensures { (snaps : Snapshots) (state : State FileBlocks) → StandsFor (told table.now) snaps state → MatchResult result (λ path. Modifying.mkdir_at state text.now ≡ Ok path) (IsFaultOf (Modifying.mkdir_at state text.now)) }
{
    let path = live_path(alloc, text)?;
    walks_above(table, path.items())?;
    let taken = node_there(table, path.items()).is_some();
    refuse_if(taken, Refusal::Exists)?;
    Ok(path)
}

/// Whether a new file may stand at a path: where a node does, only over a file.
fn takes_place(table: &Table, path: &[Name], over: bool) -> Result<(), Refusal>
    ensures { (snaps : Snapshots) (state : State FileBlocks) → StandsFor (told table.now) snaps state → result ≡ Modifying.takes_place_of over (node_at state.tree path.now) }
{
    match node_there(table, path) {
        None => Ok(()),
        Some(id) => {
            if over {
                refuse_if(is_dir_at(table, id), Refusal::NotFile)
            } else {
                Err(Refusal::Exists)
            }
        }
    }
}

/// The path at which a file may be made.
pub(crate) fn create_at(
    alloc: Global,
    table: &Table,
    text: &PathText,
    over: bool,
) -> Result<List<Name>, AskFault>
    ensures { (snaps : Snapshots) (state : State FileBlocks) → StandsFor (told table.now) snaps state → MatchResult result (λ path. Modifying.create_at state text.now over ≡ Ok path) (IsFaultOf (Modifying.create_at state text.now over)) }
{
    let path = live_path(alloc, text)?;
    walks_above(table, path.items())?;
    takes_place(table, path.items(), over)?;
    Ok(path)
}
