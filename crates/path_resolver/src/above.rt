//! Whether inodes of the live tree stand at others or below them, by going up; and where snapshottable directories stand.
ghost use Rattle.std.specs.Prelude.{◌≡◌, ◌+◌, bytes_eq, Some};
ghost use Rattle.std.specs.List.{list_any, starts_with};
ghost use Rattle.hs_types.specs.Names.{Names};
ghost use Rattle.hs_plain.specs.declared.state.State.{State};
ghost use Rattle.hs_plain.specs.declared.state.FileBlocks.{FileBlocks};
ghost use Rattle.hs_plain.specs.State as states;
ghost use Rattle.hs_plain.specs.Tree.{node_at};
ghost use Rattle.snapshot_manager.specs.Snapshots.{Snapshots};
ghost use Rattle.inode_table.specs.Kept.{told};
ghost use Rattle.inode_table.specs.Reads.{id_of};
ghost use Rattle.inode_table.specs.RowHistory.{shown};
ghost use Rattle.inode_table.specs.Stands.{root_id};
ghost use Rattle.inode_table.specs.Whole.{StandsFor};
ghost use Rattle.path_resolver.specs.Above.{up_from, comes_up, is_sought};
ghost use Rattle.path_resolver.specs.ByRows.{led_in};

use crate::by_rows::child_at;
use crate::upward::spot_at;
use hs_types::{InodeId, Name, SnapId};
use inode_table::Table;
use snapshot_manager::Snaps;

/// Which snapshottable directories are sought.
#[derive(Clone, Copy, Debug)]
pub enum Sought {
    /// Each at or below an inode.
    Snapshottable,
    /// Those of them that have snapshots.
    WithSnapshots,
    /// Those that aren't the inode itself.
    Below,
}

/// The directory that an inode's spot leads to, where its list names the inode. None is above the root.
fn parent_of(table: &Table, id: InodeId) -> Option<InodeId>
    ensures { result ≡ up_from (shown (told table.now).rows 0) id }
{
    if id == InodeId::ROOT {
        return None;
    }
    let spot = spot_at(table, SnapId(0), id)?;
    match child_at(table, SnapId(0), spot.parent, &spot.name) {
        Ok(named) if named == id => Some(spot.parent),
        _ => None,
    }
}

fn comes_to(table: &Table, above: InodeId, id: InodeId) -> bool
    ensures { result ≡ comes_up (shown (told table.now).rows 0) above ((told table.now).greatest + 1) id }
{
    let mut here = id;
    let mut left = table.greatest().0;
    while here != above {
        if left == 0 {
            return false;
        }
        left -= 1;
        match parent_of(table, here) {
            Some(parent) => here = parent,
            None => return false,
        }
    }
    true
}

/// Whether an inode is another one, or stands below it in the live tree. It costs a look-up for each directory above the inode,
/// and takes no memory.
pub fn is_under(table: &Table, above: InodeId, id: InodeId) -> bool
    ensures { (snaps : Snapshots) (state : State FileBlocks) → StandsFor (told table.now) snaps state → (path place : Names) → id_of (node_at state.tree path) ≡ Some above → id_of (node_at state.tree place) ≡ Some id → result ≡ starts_with bytes_eq place path }
{
    comes_to(table, above, id)
}

/// Whether a snapshottable directory is one of those that are sought at or below an inode.
fn is_one(table: &Table, snaps: &Snaps, sought: Sought, above: InodeId, dir: InodeId) -> bool
    ensures { result ≡ is_sought sought snaps.now above dir (comes_up (shown (told table.now).rows 0) above ((told table.now).greatest + 1) dir) }
{
    let passes = match sought {
        Sought::Snapshottable => true,
        Sought::WithSnapshots => snaps.last_of(dir).is_some(),
        Sought::Below => dir != above,
    };
    passes && comes_to(table, above, dir)
}

/// Whether one of those that are sought stands at or below an inode.
fn holds(table: &Table, snaps: &Snaps, sought: Sought, above: InodeId) -> bool
    ensures { result ≡ list_any (λ d. is_sought sought snaps.now above d.0 (comes_up (shown (told table.now).rows 0) above ((told table.now).greatest + 1) d.0)) snaps.now.dirs }
{
    snaps.always();
    let mut next = snaps.dir_at(0);
    while let Some(dir) = next {
        if is_one(table, snaps, sought, above, dir) {
            return true;
        }
        next = snaps.dir_after(dir);
    }
    false
}

/// Whether a directory with snapshots stands at a place of the live tree or below it. It costs a look-up for each directory above
/// each snapshottable one.
pub fn holds_snapshots(table: &Table, snaps: &Snaps, id: InodeId) -> bool
    ensures { (state : State FileBlocks) → StandsFor (told table.now) snaps.now state → (path : Names) → id_of (node_at state.tree path) ≡ Some id → result ≡ states.holds_snapshots state path }
{
    holds(table, snaps, Sought::WithSnapshots, id)
}

/// Whether a snapshottable directory stands at a place of the live tree or below it, at the same cost.
pub fn holds_snapshottable(table: &Table, snaps: &Snaps, id: InodeId) -> bool
    ensures { (state : State FileBlocks) → StandsFor (told table.now) snaps.now state → (path : Names) → id_of (node_at state.tree path) ≡ Some id → result ≡ states.holds_snapshottable state path }
{
    holds(table, snaps, Sought::Snapshottable, id)
}

fn in_by_rows(table: &Table, snaps: &Snaps, names: &[Name]) -> bool
    ensures { result ≡ led_in (told table.now).rows snaps.now root_id names.now }
{
    let mut id = InodeId::ROOT;
    for name in names {
        if snaps.count_of(id).is_some() {
            return true;
        }
        match child_at(table, SnapId(0), id, name) {
            Ok(next) => id = next,
            Err(_) => return false,
        }
    }
    false
}

/// Whether a path lies below a snapshottable directory; a node needn't be there. It costs a look-up for each component.
pub fn is_in_snapshottable(table: &Table, snaps: &Snaps, names: &[Name]) -> bool
    ensures { (state : State FileBlocks) → StandsFor (told table.now) snaps.now state → result ≡ states.is_in_snapshottable state names.now }
{
    in_by_rows(table, snaps, names)
}

/// Whether a snapshottable directory stands above a place of the live tree or below it. The place is given by its path and its inode.
pub fn meets_snapshottable(table: &Table, snaps: &Snaps, names: &[Name], id: InodeId) -> bool
    ensures { (state : State FileBlocks) → StandsFor (told table.now) snaps.now state → id_of (node_at state.tree names.now) ≡ Some id → result ≡ states.meets_snapshottable state names.now }
{
    in_by_rows(table, snaps, names) || holds(table, snaps, Sought::Below, id)
}
