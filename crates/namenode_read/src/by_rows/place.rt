//! Where the text of a path leads by rows.
ghost use Rattle.std.specs.Prelude.{◌≡◌, Ok, MatchResult};
ghost use Rattle.hs_plain.specs.declared.state.State.{State};
ghost use Rattle.hs_plain.specs.declared.state.FileBlocks.{FileBlocks};
ghost use Rattle.hs_plain.specs.inside.Faults.{IsFaultOf};
ghost use Rattle.inode_table.specs.Kept.{told};
ghost use Rattle.inode_table.specs.Whole.{StandsFor};
ghost use Rattle.namenode_read.specs.Places.{place_asked};

use hs_plain::AskFault;
use hs_plain::answer::read_path;
use hs_types::{PathText, Place};
use inode_table::Table;
use path_resolver::by_rows::resolve;
use snapshot_manager::Snaps;
use std::alloc::Global;

/// Where the text of a path leads.
pub fn place_of(
    alloc: Global,
    table: &Table,
    snaps: &Snaps,
    text: &PathText,
) -> Result<Place, AskFault>
    ensures { (state : State FileBlocks) → StandsFor (told table.now) snaps.now state → MatchResult result (λ place. place_asked state text.now ≡ Ok place) (IsFaultOf (place_asked state text.now)) }
{
    let path = read_path(alloc, text)?;
    Ok(resolve(table, snaps, &path)?)
}
