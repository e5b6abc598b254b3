//! Where paths lead by the rows of a table, by one look-up of a name for each component.
ghost use Rattle.std.specs.Prelude.{◌≡◌, ◌++◌, ◌∷◌, [], length, Ok, Some, IfOk, OnOk, OnErr, MatchResult};
ghost use Rattle.hs_types.specs.Names.{Names};
ghost use Rattle.hs_plain.specs.declared.state.State.{State};
ghost use Rattle.hs_plain.specs.declared.state.Node.{Node};
ghost use Rattle.hs_plain.specs.declared.state.FileBlocks.{FileBlocks};
ghost use Rattle.hs_plain.specs.Tree as trees;
ghost use Rattle.hs_plain.specs.Tree.{node_at, is_dir};
ghost use Rattle.hs_plain.specs.State.{resolve as plain_resolve};
ghost use Rattle.hs_plain.specs.inside.Faults.{IsFaultOf};
ghost use Rattle.snapshot_manager.specs.Snapshots.{Snapshots};
ghost use Rattle.inode_table.specs.Kept.{told};
ghost use Rattle.inode_table.specs.Marks.{IsChain};
ghost use Rattle.inode_table.specs.Reads.{id_of};
ghost use Rattle.inode_table.specs.RowHistory.{rows_at, entries_of};
ghost use Rattle.inode_table.specs.Stands.{root_id};
ghost use Rattle.inode_table.specs.Whole.{StandsFor};
ghost use Rattle.path_resolver.specs.ByRows.{child_of, led, root_at, resolved, is_dir_row, led_above, led_chain};
ghost use Rattle.path_resolver.specs.Live.{id_walked};

use hs_plain::resolve::AskFault;
use hs_types::{InodeId, List, Name, NoMemory, Path, PathTail, Place, Refusal, SnapId};
use inode_table::{Rows, Table};
use snapshot_manager::Snaps;
use std::alloc::Global;

/// The child of that name at a snapshot, at 0 the current one.
pub fn child_at(table: &Table, s: SnapId, id: InodeId, name: &Name) -> Result<InodeId, Refusal>
    ensures { result ≡ child_of s.0 name.now (rows_at (told table.now).rows id) }
{
    match table.row(id) {
        None => Err(Refusal::NotFound),
        Some(row) => match &row.rows {
            Rows::File(_) => Err(Refusal::NotDir),
            Rows::Dir(dir) => dir.child_at(s, name).ok_or(Refusal::NotFound),
        },
    }
}

/// The inode to which names lead from another on, at a snapshot, at 0 now. It takes no memory.
pub fn walk(table: &Table, s: SnapId, top: InodeId, names: &[Name]) -> Result<InodeId, Refusal>
    ensures { result ≡ led (told table.now).rows s.0 top names.now }
{
    let mut id = top;
    for name in names {
        id = child_at(table, s, id, name)?;
    }
    Ok(id)
}

/// The snapshottable directory at a path; else nothing is found below its `.snapshot`.
fn snapshot_root(table: &Table, snaps: &Snaps, base: &[Name]) -> Result<InodeId, Refusal>
    ensures { result ≡ root_at (told table.now).rows snaps.now base.now }
{
    match walk(table, SnapId(0), InodeId::ROOT, base) {
        Ok(id) if snaps.count_of(id).is_some() => Ok(id),
        _ => Err(Refusal::NotFound),
    }
}

fn place_at(table: &Table, snaps: &Snaps, path: &Path) -> Result<Place, Refusal>
    ensures { result ≡ resolved (told table.now).rows snaps.now path.now }
{
    let base = path.base.items();
    match &path.tail {
        PathTail::Plain => Ok(Place::Live(walk(table, SnapId(0), InodeId::ROOT, base)?)),
        PathTail::SnapshotList => Ok(Place::SnapshotsOf(snapshot_root(table, snaps, base)?)),
        PathTail::Frozen { snapshot, rest } => {
            let directory = snapshot_root(table, snaps, base)?;
            let item = snaps.by_name(directory, snapshot).ok_or(Refusal::NotFound)?;
            let id = walk(table, item.id, directory, rest.items())?;
            Ok(Place::Frozen(id, item.id))
        }
    }
}

/// Where a path leads: a node of the live tree, a list of snapshots, or a node of a copied tree. It costs a look-up for each
/// component, builds no list and takes no memory.
pub fn resolve(table: &Table, snaps: &Snaps, path: &Path) -> Result<Place, Refusal>
    ensures { (state : State FileBlocks) → StandsFor (told table.now) snaps.now state → result ≡ plain_resolve state path.now }
{
    place_at(table, snaps, path)
}

/// The inode at a path of the live tree. It takes no memory, as do all tests of paths.
pub fn live(table: &Table, names: &[Name]) -> Result<InodeId, Refusal>
    ensures walk { (snaps : Snapshots) (state : State FileBlocks) → StandsFor (told table.now) snaps state → result ≡ id_walked (trees.walk state.tree names.now) }
    ensures there { IfOk result (λ id. (snaps : Snapshots) (state : State FileBlocks) → StandsFor (told table.now) snaps state → id_of (node_at state.tree names.now) ≡ Some id) }
{
    walk(table, SnapId(0), InodeId::ROOT, names)
}

/// The inode at a path of the live tree, if there is one.
pub fn node_there(table: &Table, names: &[Name]) -> Option<InodeId>
    ensures { (snaps : Snapshots) (state : State FileBlocks) → StandsFor (told table.now) snaps state → result ≡ id_of (node_at state.tree names.now) }
{
    match walk(table, SnapId(0), InodeId::ROOT, names) {
        Ok(id) => Some(id),
        Err(_) => None,
    }
}

pub fn is_dir_by_rows(table: &Table, id: InodeId) -> bool
    ensures { result ≡ is_dir_row (rows_at (told table.now).rows id) }
{
    match table.row(id) {
        None => false,
        Some(row) => match &row.rows {
            Rows::File(_) => false,
            Rows::Dir(_) => true,
        },
    }
}

/// Whether an inode of the live tree is a directory.
pub fn is_dir_at(table: &Table, id: InodeId) -> bool
    ensures { (snaps : Snapshots) (state : State FileBlocks) → StandsFor (told table.now) snaps state → (path : Names) (node : Node FileBlocks) → node_at state.tree path ≡ Some node → node.id ≡ id → result ≡ is_dir node }
{
    is_dir_by_rows(table, id)
}

fn above_by_rows(table: &Table, names: &[Name]) -> Result<(), Refusal>
    ensures { result ≡ led_above (told table.now).rows names.now }
{
    if names.is_empty() {
        return Ok(());
    }
    let parent = walk(table, SnapId(0), InodeId::ROOT, &names[..names.len() - 1])?;
    if is_dir_by_rows(table, parent) {
        Ok(())
    } else {
        Err(Refusal::NotDir)
    }
}

/// The walk from the root to the directory above a path: `NotFound` at the first missing component, `NotDir` at the first file
/// that has components after it.
pub fn walks_above(table: &Table, names: &[Name]) -> Result<(), Refusal>
    ensures { (snaps : Snapshots) (state : State FileBlocks) → StandsFor (told table.now) snaps state → result ≡ trees.walks_above state.tree names.now }
{
    above_by_rows(table, names)
}

fn count_in(table: &Table, id: InodeId) -> usize
    ensures { result ≡ length (entries_of 0 (rows_at (told table.now).rows id)) }
{
    match table.row(id) {
        None => 0,
        Some(row) => match &row.rows {
            Rows::File(_) => 0,
            Rows::Dir(dir) => dir.current().len(),
        },
    }
}

/// How many children the directory at a place of the live tree has.
pub fn child_count(table: &Table, id: InodeId) -> usize
    ensures { (snaps : Snapshots) (state : State FileBlocks) → StandsFor (told table.now) snaps state → (path : Names) → id_of (node_at state.tree path) ≡ Some id → result ≡ trees.child_count state.tree path }
{
    count_in(table, id)
}

fn step_to(
    ids: &mut List<InodeId>,
    table: &Table,
    id: InodeId,
    name: &Name,
) -> Result<InodeId, AskFault>
    ensures asked { MatchResult result (λ next. child_of 0 name.now (rows_at (told table.now).rows id) ≡ Ok next) (IsFaultOf (child_of 0 name.now (rows_at (told table.now).rows id))) }
    ensures ids { IfOk result (λ next. ids.new ≡ ids.old ++ next ∷ []) }
{
    let next = child_at(table, SnapId(0), id, name)?;
    ids.push(next)?;
    Ok(next)
}

fn chain_by_rows(alloc: Global, table: &Table, names: &[Name]) -> Result<List<InodeId>, AskFault>
    ensures { MatchResult result (λ ids. led_chain (told table.now).rows names.now ≡ Ok ids) (IsFaultOf (led_chain (told table.now).rows names.now)) }
{
    let mut ids = List::new(alloc);
    ids.push(InodeId::ROOT)?;
    let mut id = InodeId::ROOT;
    for name in names {
        id = step_to(&mut ids, table, id, name)?;
    }
    Ok(ids)
}

/// The inodes from the root down to a path of the live tree.
pub fn chain(alloc: Global, table: &Table, names: &[Name]) -> Result<List<InodeId>, AskFault>
    ensures chain { IfOk result (λ ids. (snaps : Snapshots) (state : State FileBlocks) → StandsFor (told table.now) snaps state → IsChain (node_at state.tree) names.now ids) }
    ensures walk { (snaps : Snapshots) (state : State FileBlocks) → StandsFor (told table.now) snaps state → MatchResult result (λ ids. (node : Node FileBlocks) × (trees.walk state.tree names.now ≡ Ok node)) (IsFaultOf (trees.walk state.tree names.now)) }
{
    chain_by_rows(alloc, table, names)
}
