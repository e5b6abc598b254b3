//! Whether places are there, and the paths of inodes, by going up from them. It costs a look-up for each directory above.
ghost use Rattle.std.specs.Prelude.{◌≡◌, ℕ, ◌+◌, ◌≤◌, ◌++◌, ◌∷◌, [], is_some, IfOk, OnOk};
ghost use Rattle.std.specs.Option.{option_copied};
ghost use Rattle.hs_plain.specs.declared.state.State.{State};
ghost use Rattle.hs_plain.specs.declared.state.FileBlocks.{FileBlocks};
ghost use Rattle.snapshot_manager.specs.Snapshots.{live_at};
ghost use Rattle.dir_changes.specs.Entries.{id_at, is_that};
ghost use Rattle.inode_table.specs.Kept.{told};
ghost use Rattle.inode_table.specs.Numbered.{row_of, history_of};
ghost use Rattle.inode_table.specs.RowHistory.{shown, spot_in, entries_in};
ghost use Rattle.inode_table.specs.Whole.{StandsFor};
ghost use Rattle.path_resolver.specs.Rising.{spot_above, row_naming, way_down, is_below, copy_placed, placed};
ghost use Rattle.path_resolver.specs.Standing.{standing};
ghost use Rattle.report_laws.specs.Chains.{HasChainsWithin};

use crate::by_rows::child_at;
use hs_plain::modifying::refuse_if;
use hs_types::{Duplicate, InodeId, List, Name, NoMemory, Place, Refusal, RelPath, SnapId, Spot};
use inode_table::{Counted, Row, Rows, Table};
use snapshot_manager::Snaps;
use std::alloc::Global;

/// Where a row stood at a snapshot, at 0 now.
pub fn spot_of(row: &Row, s: SnapId) -> &Spot
    ensures { result.now ≡ spot_in s.0 (history_of row.now.rows) }
{
    match &row.rows {
        Rows::File(file) => file.at(s).spot,
        Rows::Dir(dir) => dir.marks_at(s).spot,
    }
}

/// Where an inode stood at a snapshot, at 0 now, by its own row.
pub fn spot_at(table: &Table, s: SnapId, id: InodeId) -> Option<&Spot>
    ensures { option_copied result ≡ (shown (told table.now).rows s.0).spot id }
{
    match table.row(id) {
        None => None,
        Some(row) => Some(spot_of(row, s)),
    }
}

/// That spot, where the list of the directory there names the inode.
fn spot_above(table: &Table, s: SnapId, id: InodeId) -> Option<&Spot>
    ensures { option_copied result ≡ spot_above (shown (told table.now).rows s.0) id }
{
    let spot = spot_at(table, s, id)?;
    match child_at(table, s, spot.parent, &spot.name) {
        Ok(named) if named == id => Some(spot),
        _ => None,
    }
}

/// Whether going up from an inode at a snapshot comes to another one.
fn comes_up(table: &Table, s: SnapId, top: InodeId, id: InodeId) -> bool
    ensures { result ≡ is_some (way_down (told table.now) s.0 top id) }
{
    let mut here = id;
    let mut left = table.greatest().0;
    while here != top {
        if left == 0 {
            return false;
        }
        left -= 1;
        match spot_above(table, s, here) {
            Some(spot) => here = spot.parent,
            None => return false,
        }
    }
    true
}

fn is_below(table: &Table, s: SnapId, top: InodeId, id: InodeId) -> Result<(), Refusal>
    ensures { result ≡ is_below (told table.now) s.0 top id }
{
    refuse_if(!comes_up(table, s, top, id), Refusal::NotFound)
}

/// An inode of the copied tree of a live snapshot.
fn copy_placed(table: &Table, snaps: &Snaps, id: InodeId, snapshot: SnapId) -> Result<(), Refusal>
    ensures { result ≡ copy_placed (told table.now) id snapshot (live_at snaps.now snapshot) }
{
    match snaps.by_id(snapshot) {
        Some((dir, _)) => is_below(table, snapshot, dir, id),
        None => Err(if snapshot == SnapId(0) {
            Refusal::NotFound
        } else {
            Refusal::Gone
        }),
    }
}

fn placed(table: &Table, snaps: &Snaps, place: Place) -> Result<(), Refusal>
    ensures { result ≡ placed (told table.now) snaps.now place }
{
    match place {
        Place::Live(id) => is_below(table, SnapId(0), InodeId::ROOT, id),
        Place::Frozen(id, snapshot) => copy_placed(table, snaps, id, snapshot),
        Place::SnapshotsOf(dir) => { refuse_if(snaps.count_of(dir).is_none(), Refusal::NotFound) }
    }
}

/// Whether the place of a cursor is there still. It takes no memory.
pub fn stands_at(table: &Table, snaps: &Snaps, place: Place) -> Result<(), Refusal>
    ensures { (state : State FileBlocks) → StandsFor (told table.now) snaps.now state → result ≡ standing state place }
{
    snaps.always();
    placed(table, snaps, place)
}

fn push_name(names: &mut Vec<Name>, name: &Name) -> Result<(), NoMemory>
    ensures { OnOk result (names.new.items ≡ names.old.items ++ name.now ∷ []) }
{
    names.push(name.copy()?)?;
    Ok(())
}

/// Whether a row's list at a snapshot names an inode so.
fn names(row: &Row, s: SnapId, name: &Name, id: InodeId) -> bool
    ensures { result ≡ is_that id (id_at name.now (entries_in s.0 (history_of row.now.rows))) }
{
    match &row.rows {
        Rows::File(_) => false,
        Rows::Dir(dir) => match dir.child_at(s, name) {
            Some(named) => named == id,
            None => false,
        },
    }
}

/// The row that a spot leads to, where its list names the inode.
fn row_above<'a>(table: &mut Counted<'a>, s: SnapId, spot: &Spot, id: InodeId) -> Option<&'a Row>
    ensures row { option_copied result ≡ row_naming s.0 spot.now id (row_of table.old.table.rows spot.now.parent) }
    ensures table { table.new.table ≡ table.old.table }
    ensures ticks { table.new.ticks ≤ table.old.ticks + 1 }
{
    let row = table.row(spot.parent)?;
    if names(row, s, &spot.name, id) {
        Some(row)
    } else {
        None
    }
}

/// The path from one inode down to another at a snapshot, at 0 now. It looks at each row once, and ends at one where it was before:
/// at no more rows than a chain has, and the one at which it stops.
pub fn path_down(
    alloc: Global,
    table: &mut Counted<'_>,
    s: SnapId,
    top: InodeId,
    id: InodeId,
) -> Result<Option<RelPath>, NoMemory>
    ensures path { IfOk result (λ path. path ≡ way_down (told table.old.table) s.0 top id) }
    ensures table { table.new.table ≡ table.old.table }
    ensures ticks { (h : ℕ) → HasChainsWithin (shown (told table.old.table).rows s.0) h → table.new.ticks ≤ table.old.ticks + (1 + h) }
{
    let mut names = Vec::new(alloc);
    let mut seen = Vec::new(alloc);
    let mut here = id;
    let mut row = table.row(id);
    let mut left = table.greatest().0;
    while here != top {
        if left == 0 || seen.contains(&here) {
            return Ok(None);
        }
        left -= 1;
        let Some(found) = row else {
            return Ok(None);
        };
        let spot = spot_of(found, s);
        row = row_above(table, s, spot, here);
        if row.is_none() {
            return Ok(None);
        }
        push_name(&mut names, &spot.name)?;
        seen.push(here)?;
        here = spot.parent;
    }
    names.reverse();
    Ok(Some(List::of(names)))
}
