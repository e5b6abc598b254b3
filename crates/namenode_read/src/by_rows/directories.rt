//! All snapshottable directories, by rows: each path is found by going up, and they are put in order then.
ghost use Rattle.std.specs.Prelude.{◌≡◌, ◌++◌, ◌∷◌, [], map, Ok, IfOk, OnOk, MatchResult, length};
ghost use Rattle.hs_types.specs.declared.call.Call.TheVariants.{Dirs};
ghost use Rattle.hs_plain.specs.declared.state.State.{State};
ghost use Rattle.hs_plain.specs.declared.state.FileBlocks.{FileBlocks};
ghost use Rattle.hs_plain.specs.Answer.{asked};
ghost use Rattle.hs_plain.specs.Files.{block_files};
ghost use Rattle.hs_plain.specs.inside.Faults.{IsFaultOf};
ghost use Rattle.snapshot_manager.specs.Snapshots.{snaps_in};
ghost use Rattle.inode_table.specs.Kept.{told};
ghost use Rattle.inode_table.specs.Whole.{StandsFor};
ghost use Rattle.namenode_read.specs.Directories.{keyed, put_at, with_dir, with_dirs, as_dir, dirs_found};

use hs_plain::AskFault;
use hs_types::{DirItem, InodeId, List, Name, NoMemory, PathText, RelPath, Reply, SnapId};
use inode_table::{Counted, Table};
use path_resolver::upward::path_down;
use snapshot_manager::Snaps;
use std::alloc::Global;
use std::collections::BTreeMap;

/// By path, a directory with the number of its snapshots.
type DirPlaces = BTreeMap<Vec<Name>, (InodeId, u32)>;

/// The snapshottable directories, by rising ids.
fn directories(alloc: Global, snaps: &Snaps) -> Result<List<InodeId>, NoMemory>
    ensures { IfOk result (λ dirs. dirs ≡ map (λ d. d.0) snaps.now.dirs) }
{
    snaps.always();
    let mut dirs = List::new(alloc);
    let mut next = snaps.dir_at(0);
    while let Some(dir) = next {
        dirs.push(dir)?;
        next = snaps.dir_after(dir);
    }
    Ok(dirs)
}

/// How many snapshots a directory has. With more than a `u32` counts, which no directory has, the answer is that memory ran out.
fn snapshot_count(snaps: &Snaps, dir: InodeId) -> Result<u32, NoMemory>
    ensures { IfOk result (λ count. count ≡ length (snaps_in snaps.now dir)) }
{
    let count = snaps.count_of(dir).unwrap_or(0);
    u32::try_from(count).ok().ok_or(NoMemory)
}

fn put_at(
    places: &mut DirPlaces,
    path: Option<RelPath>,
    found: (InodeId, u32),
) -> Result<(), NoMemory>
    ensures { OnOk result (keyed places.new.entries ≡ put_at path found (keyed places.old.entries)) }
{
    match path {
        Some(path) => {
            places.insert(path.into_vec(), found)?;
            Ok(())
        }
        None => Ok(()),
    }
}

fn place_dir(
    places: &mut DirPlaces,
    alloc: Global,
    table: &Table,
    snaps: &Snaps,
    dir: InodeId,
) -> Result<(), NoMemory>
    ensures { OnOk result (keyed places.new.entries ≡ with_dir (told table.now) snaps.now dir (keyed places.old.entries)) }
{
    let count = snapshot_count(snaps, dir)?;
    let mut table = Counted::new(table);
    let path = path_down(alloc, &mut table, SnapId(0), InodeId::ROOT, dir)?;
    put_at(places, path, (dir, count))
}

fn place_dirs(
    places: &mut DirPlaces,
    alloc: Global,
    table: &Table,
    snaps: &Snaps,
    dirs: &[InodeId],
) -> Result<(), NoMemory>
    ensures { OnOk result (keyed places.new.entries ≡ with_dirs (told table.now) snaps.now dirs.now (keyed places.old.entries)) }
{
    for dir in dirs {
        place_dir(places, alloc, table, snaps, *dir)?;
    }
    Ok(())
}

fn push_dir(
    list: &mut Vec<DirItem>,
    alloc: Global,
    path: &[Name],
    found: (InodeId, u32),
) -> Result<(), NoMemory>
    ensures { OnOk result (list.new.items ≡ list.old.items ++ as_dir (path.now, found) ∷ []) }
{
    let (id, count) = found;
    list.push(DirItem {
        id,
        count,
        path: PathText::of_names(alloc, path)?,
    })?;
    Ok(())
}

fn list_of(alloc: Global, places: DirPlaces) -> Result<List<DirItem>, NoMemory>
    ensures { IfOk result (λ list. list ≡ map as_dir (keyed places.entries)) }
{
    let mut list = Vec::with_capacity(alloc, places.len())?;
    for (path, found) in places {
        push_dir(&mut list, alloc, path.as_slice(), found)?;
    }
    Ok(List::of(list))
}

fn dirs_by_rows(alloc: Global, table: &Table, snaps: &Snaps) -> Result<List<DirItem>, NoMemory>
    ensures { IfOk result (λ list. list ≡ dirs_found (told table.now) snaps.now) }
{
    let dirs = directories(alloc, snaps)?;
    let mut places = BTreeMap::new(alloc);
    place_dirs(&mut places, alloc, table, snaps, dirs.items())?;
    list_of(alloc, places)
}

/// All snapshottable directories, in path order.
pub fn dirs(alloc: Global, table: &Table, snaps: &Snaps) -> Result<Reply, AskFault>
    ensures { (state : State FileBlocks) → StandsFor (told table.now) snaps.now state → MatchResult result (λ reply. asked block_files state Dirs ≡ Ok reply) (IsFaultOf (asked block_files state Dirs)) }
{
    Ok(Reply::Dirs {
        list: dirs_by_rows(alloc, table, snaps)?,
    })
}
