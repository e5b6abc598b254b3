//! The first page of a directory or of the list of its snapshots.
ghost use Rattle.std.specs.Prelude.{◌≡◌, Ok, MatchResult};
ghost use Rattle.hs_plain.specs.declared.state.State.{State};
ghost use Rattle.hs_plain.specs.declared.state.FileBlocks.{FileBlocks};
ghost use Rattle.hs_plain.specs.Reading.{list_reply};
ghost use Rattle.hs_plain.specs.inside.Faults.{IsFaultOf};
ghost use Rattle.inode_table.specs.Kept.{told};
ghost use Rattle.inode_table.specs.Whole.{StandsFor};

use crate::by_rows::place::place_of;
use hs_plain::AskFault;
use hs_types::{ListCursor, PageSize, PathText, Reply};
use inode_table::Table;
use paged_listing::page_at;
use snapshot_manager::Snaps;
use std::alloc::Global;

/// The first page of what stands at a path.
pub fn list(
    alloc: Global,
    table: &Table,
    snaps: &Snaps,
    path: &PathText,
    size: PageSize,
) -> Result<Reply, AskFault>
    ensures { (state : State FileBlocks) → StandsFor (told table.now) snaps.now state → MatchResult result (λ reply. list_reply state path.now size ≡ Ok reply) (IsFaultOf (list_reply state path.now size)) }
{
    let place = place_of(alloc, table, snaps, path)?;
    let cursor = ListCursor { place, after: None };
    page_at(alloc, table, snaps, &cursor, size)
}
