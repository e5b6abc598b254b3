//! The first page of a report on a directory.
ghost use Rattle.std.specs.Prelude.{◌≡◌, Ok, MatchResult};
ghost use Rattle.hs_plain.specs.declared.state.State.{State};
ghost use Rattle.hs_plain.specs.declared.state.FileBlocks.{FileBlocks};
ghost use Rattle.hs_plain.specs.Reading.{point_id, report_reply};
ghost use Rattle.hs_plain.specs.inside.Faults.{IsFaultOf};
ghost use Rattle.inode_table.specs.Kept.{told};
ghost use Rattle.inode_table.specs.Tabled.{Tabled};
ghost use Rattle.inode_table.specs.Whole.{StandsFor};
ghost use Rattle.namenode_read.specs.Places.{first_cursor};

use crate::by_rows::snapshots::snapshottable_at;
use hs_plain::AskFault;
use hs_types::{InodeId, PageSize, PathText, Point, Reply, ReportCursor, SnapId};
use inode_table::Table;
use paged_listing::lines_from;
use path_resolver::sought::snapshot_sought;
use snapshot_manager::Snaps;
use std::alloc::Global;

/// The id of a point in time of a directory: 0 is the current state.
fn point_id(alloc: Global, snaps: &Snaps, dir: InodeId, point: &Point) -> Result<SnapId, AskFault>
    ensures { (table : Tabled) (state : State FileBlocks) → StandsFor table snaps.now state → MatchResult result (λ id. point_id state dir point.now ≡ Ok id) (IsFaultOf (point_id state dir point.now)) }
{
    match point {
        Point::Now => Ok(SnapId(0)),
        Point::Snapshot(name) => Ok(snapshot_sought(alloc, snaps, dir, name)?.0),
    }
}

/// The cursor of the first page of a report on a directory, or why a name isn't one of its snapshots'.
fn first_cursor(
    alloc: Global,
    snaps: &Snaps,
    root: InodeId,
    from: &Point,
    to: &Point,
) -> Result<ReportCursor, AskFault>
    ensures { (table : Tabled) (state : State FileBlocks) → StandsFor table snaps.now state → MatchResult result (λ cursor. first_cursor state root from.now to.now ≡ Ok cursor) (IsFaultOf (first_cursor state root from.now to.now)) }
{
    let from = point_id(alloc, snaps, root, from)?;
    let to = point_id(alloc, snaps, root, to)?;
    Ok(ReportCursor {
        root,
        from,
        to,
        tick: None,
        index: 0,
    })
}

/// The first page of the report on the directory at a path, from one point in time to another.
pub fn report_first(
    alloc: Global,
    table: &Table,
    snaps: &Snaps,
    tick: u64,
    path: &PathText,
    ends: (&Point, &Point),
    size: PageSize,
) -> Result<Reply, AskFault>
    ensures { (state : State FileBlocks) → StandsFor (told table.now) snaps.now state → tick ≡ state.tick → MatchResult result (λ reply. report_reply state path.now ends.entry.0.now ends.entry.1.now size ≡ Ok reply) (IsFaultOf (report_reply state path.now ends.entry.0.now ends.entry.1.now size)) }
{
    let root = snapshottable_at(alloc, table, snaps, path)?;
    let cursor = first_cursor(alloc, snaps, root, ends.0, ends.1)?;
    Ok(lines_from(alloc, table, snaps, tick, &cursor, size)?)
}
