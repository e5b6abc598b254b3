//! What stands at a path, by rows.
ghost use Rattle.std.specs.Prelude.{◌≡◌, length, Ok, IfOk, MatchResult};
ghost use Rattle.hs_plain.specs.declared.state.State.{State};
ghost use Rattle.hs_plain.specs.declared.state.FileBlocks.{FileBlocks};
ghost use Rattle.hs_plain.specs.Files.{block_files};
ghost use Rattle.hs_plain.specs.Reading.{stat_reply};
ghost use Rattle.hs_plain.specs.inside.Faults.{IsFaultOf};
ghost use Rattle.dir_changes.specs.History.{children_at};
ghost use Rattle.snapshot_manager.specs.Snapshots.{snaps_in};
ghost use Rattle.inode_table.specs.Kept.{told};
ghost use Rattle.inode_table.specs.RowHistory.{rows_at};
ghost use Rattle.inode_table.specs.Whole.{StandsFor};
ghost use Rattle.namenode_read.specs.ByRows.{file_stat, dir_stat, stat_in, list_stat_in, stat_found};

use crate::by_rows::place::place_of;
use dir_changes::DirRows;
use file_changes::FileRows;
use hs_plain::AskFault;
use hs_types::{InodeId, NoMemory, PathText, Place, Refusal, Reply, SnapId};
use inode_table::{Rows, Table};
use paged_listing::rows_of;
use snapshot_manager::Snaps;
use std::alloc::Global;

/// How many children a directory has at a snapshot, at 0 now.
fn child_count(s: SnapId, dir: &DirRows) -> Result<usize, NoMemory>
    ensures { IfOk result (λ count. count ≡ length (children_at s.0 dir.now.history)) }
{
    if s == SnapId(0) {
        return Ok(dir.current().len());
    }
    let view = dir.at(s)?;
    Ok(view.children.len())
}

/// What a directory is at a snapshot, at 0 now.
fn dir_stat(s: SnapId, id: InodeId, dir: &DirRows) -> Result<Reply, NoMemory>
    ensures { IfOk result (λ reply. reply ≡ dir_stat s.0 id dir.now.history) }
{
    let size = child_count(s, dir)? as u64;
    let marks = dir.marks_at(s);
    Ok(Reply::Stat {
        id,
        is_dir: true,
        mode: marks.mode,
        stamp: marks.stamp,
        size,
    })
}

/// What a file is at a snapshot, at 0 now.
fn file_stat(s: SnapId, id: InodeId, file: &FileRows) -> Reply
    ensures { result ≡ file_stat s.0 id file.now.history }
{
    let state = file.at(s);
    Reply::Stat {
        id,
        is_dir: false,
        mode: state.mode,
        stamp: state.stamp,
        size: state.size,
    }
}

/// What an inode is at a snapshot, at 0 now.
fn node_stat(table: &Table, s: SnapId, id: InodeId) -> Result<Reply, AskFault>
    ensures { MatchResult result (λ reply. stat_in s.0 id (rows_at (told table.now).rows id) ≡ Ok reply) (IsFaultOf (stat_in s.0 id (rows_at (told table.now).rows id))) }
{
    match rows_of(table, id) {
        None => Err(AskFault::Refused(Refusal::NotFound)),
        Some(Rows::File(file)) => Ok(file_stat(s, id, file)),
        Some(Rows::Dir(dir)) => Ok(dir_stat(s, id, dir)?),
    }
}

/// How many snapshots a directory has; none where it isn't snapshottable.
fn snapshot_count(snaps: &Snaps, dir: InodeId) -> usize
    ensures { result ≡ length (snaps_in snaps.now dir) }
{
    match snaps.count_of(dir) {
        Some(count) => count,
        None => 0,
    }
}

/// What a directory's list of snapshots is.
fn list_stat(table: &Table, snaps: &Snaps, id: InodeId) -> Result<Reply, Refusal>
    ensures { result ≡ list_stat_in (length (snaps_in snaps.now id)) id (rows_at (told table.now).rows id) }
{
    let Some(Rows::Dir(dir)) = rows_of(table, id) else {
        return Err(Refusal::NotFound);
    };
    let marks = dir.marks_at(SnapId(0));
    Ok(Reply::Stat {
        id,
        is_dir: true,
        mode: marks.mode,
        stamp: marks.stamp,
        size: snapshot_count(snaps, id) as u64,
    })
}

/// What stands at a place that is there.
fn stat_at(table: &Table, snaps: &Snaps, place: Place) -> Result<Reply, AskFault>
    ensures { MatchResult result (λ reply. stat_found (told table.now).rows snaps.now place ≡ Ok reply) (IsFaultOf (stat_found (told table.now).rows snaps.now place)) }
{
    match place {
        Place::Live(id) => node_stat(table, SnapId(0), id),
        Place::Frozen(id, snapshot) => node_stat(table, snapshot, id),
        Place::SnapshotsOf(dir) => Ok(list_stat(table, snaps, dir)?),
    }
}

/// What stands at a path.
pub fn stat(alloc: Global, table: &Table, snaps: &Snaps, path: &PathText) -> Result<Reply, AskFault>
    ensures { (state : State FileBlocks) → StandsFor (told table.now) snaps.now state → MatchResult result (λ reply. stat_reply block_files state path.now ≡ Ok reply) (IsFaultOf (stat_reply block_files state path.now)) }
{
    let place = place_of(alloc, table, snaps, path)?;
    stat_at(table, snaps, place)
}
