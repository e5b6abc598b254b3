//! Snapshottable directories and their snapshots, by rows.
ghost use Rattle.std.specs.Prelude.{◌≡◌, Ok, MatchResult};
ghost use Rattle.hs_plain.specs.declared.state.State.{State};
ghost use Rattle.hs_plain.specs.declared.state.FileBlocks.{FileBlocks};
ghost use Rattle.hs_plain.specs.Reading.{snapshottable_at, snaps_reply};
ghost use Rattle.hs_plain.specs.inside.Faults.{IsFaultOf};
ghost use Rattle.inode_table.specs.Kept.{told};
ghost use Rattle.inode_table.specs.RowHistory.{rows_at};
ghost use Rattle.inode_table.specs.Whole.{StandsFor};
ghost use Rattle.namenode_read.specs.ByRows.{directory_in, live_directory_found, snapshottable_found};

use crate::by_rows::place::place_of;
use hs_plain::AskFault;
use hs_types::{InodeId, PathText, Place, Refusal, Reply};
use inode_table::{Rows, Table};
use paged_listing::{rows_of, snapshot_list};
use snapshot_manager::Snaps;
use std::alloc::Global;

/// The inode, where it is a directory.
fn directory_there(table: &Table, id: InodeId) -> Result<InodeId, Refusal>
    ensures { result ≡ directory_in id (rows_at (told table.now).rows id) }
{
    match rows_of(table, id) {
        None => Err(Refusal::NotFound),
        Some(Rows::File(_)) => Err(Refusal::NotDir),
        Some(Rows::Dir(_)) => Ok(id),
    }
}

/// The directory of a place of the live tree; at another place nothing is snapshottable.
fn live_directory(table: &Table, place: Place) -> Result<InodeId, Refusal>
    ensures { result ≡ live_directory_found (told table.now).rows place }
{
    match place {
        Place::Live(id) => directory_there(table, id),
        Place::Frozen(id, _) => {
            directory_there(table, id)?;
            Err(Refusal::NotSnapshottable)
        }
        Place::SnapshotsOf(_) => Err(Refusal::NotSnapshottable),
    }
}

/// The snapshottable directory at a place that is there.
fn directory_at(table: &Table, snaps: &Snaps, place: Place) -> Result<InodeId, Refusal>
    ensures { result ≡ snapshottable_found (told table.now).rows snaps.now place }
{
    let dir = live_directory(table, place)?;
    match snaps.count_of(dir) {
        Some(_) => Ok(dir),
        None => Err(Refusal::NotSnapshottable),
    }
}

/// The snapshottable directory at a place that is there, or why there is none.
fn found_directory(table: &Table, snaps: &Snaps, place: Place) -> Result<InodeId, AskFault>
    ensures { MatchResult result (λ dir. snapshottable_found (told table.now).rows snaps.now place ≡ Ok dir) (IsFaultOf (snapshottable_found (told table.now).rows snaps.now place)) }
{
    Ok(directory_at(table, snaps, place)?)
}

/// The snapshottable directory at a path.
pub fn snapshottable_at(
    alloc: Global,
    table: &Table,
    snaps: &Snaps,
    path: &PathText,
) -> Result<InodeId, AskFault>
    ensures { (state : State FileBlocks) → StandsFor (told table.now) snaps.now state → MatchResult result (λ dir. snapshottable_at state path.now ≡ Ok dir) (IsFaultOf (snapshottable_at state path.now)) }
{
    let place = place_of(alloc, table, snaps, path)?;
    found_directory(table, snaps, place)
}

/// The snapshots of the directory at a path, in order of making.
pub fn snaps(
    alloc: Global,
    table: &Table,
    snaps: &Snaps,
    path: &PathText,
) -> Result<Reply, AskFault>
    ensures { (state : State FileBlocks) → StandsFor (told table.now) snaps.now state → MatchResult result (λ reply. snaps_reply state path.now ≡ Ok reply) (IsFaultOf (snaps_reply state path.now)) }
{
    let dir = snapshottable_at(alloc, table, snaps, path)?;
    Ok(Reply::Snaps {
        dir,
        list: snapshot_list(alloc, snaps, dir)?,
    })
}
