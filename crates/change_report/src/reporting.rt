//! The lines of a report.
ghost use Rattle.std.specs.Prelude.{◌≡◌, IfOk};
ghost use Rattle.inode_table.specs.Kept.{told};
ghost use Rattle.change_report.specs.Between.{AreLinesBetween, LooksAtFew};

use crate::candidates::{candidates, tick_at};
use crate::ends::Ends;
use crate::moved::lines_of;
use crate::order::sorted;
use hs_types::{InodeId, Line, List, NoMemory, SnapId};
use inode_table::Counted;
use snapshot_manager::Snaps;
use std::alloc::Global;

/// All lines of the report on a directory from one point in time to another: an end is 0, the current state, or a live snapshot of
/// the directory. The ends may stand in either order. It looks at the rows that were made or got a record between the two ends, at
/// those that these rows' lists name at one end alone, and at what stands above them, and at no others.
pub fn report(
    alloc: Global,
    table: &mut Counted<'_>,
    snaps: &Snaps,
    root: InodeId,
    from: SnapId,
    to: SnapId,
) -> Result<List<Line>, NoMemory>
    ensures lines { IfOk result (AreLinesBetween (told table.old.table) snaps.now root from to) }
    ensures table { table.new.table ≡ table.old.table }
    ensures ticks { LooksAtFew (told table.old.table) snaps.now root from to table.old.ticks table.new.ticks }
{
    snaps.always();
    if from == to {
        return Ok(List::new(alloc));
    }
    let (first, last) = (tick_at(snaps, from), tick_at(snaps, to));
    let ids = candidates(table, first.min(last), first.max(last))?;
    let lines = lines_of(alloc, table, Ends { root, from, to }, ids.items())?;
    Ok(List::of(sorted(lines)))
}
