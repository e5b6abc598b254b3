//! What comes to a place: what was moved out, new directories, and copied files, each by rising path.
ghost use Rattle.std.specs.Prelude.{◌≡◌, [], map, length, IfOk, OnOk};
ghost use Rattle.std.specs.List.{filter_map};
ghost use Rattle.std.specs.FinMap.Entries.{put};
ghost use Rattle.hs_plain.specs.Tree.{path_cmp};
ghost use Rattle.distcp_plan.specs.Planned.{out_path, in_places, moves_by, with_move, target_of, new_place, file_place, as_put, as_job, puts_by, copies_by};
ghost use Rattle.distcp_plan.specs.inside.Keyed.{keyed};

use crate::moves::target_of;
use crate::outs::is_out;
use hs_plain::{CopyJob, Put};
use hs_types::{Duplicate, InodeId, Line, List, Name, NoMemory, RelPath};
use std::alloc::Global;
use std::collections::BTreeMap;

/// By path, the number of the out that comes there, or none for a new directory.
type PutPlaces = BTreeMap<Vec<Name>, Option<u64>>;

/// By path, the file that is copied there.
type CopyPlaces = BTreeMap<Vec<Name>, InodeId>;

/// The targets of moves and the new directories. `outs` is how many outs the lines have.
pub(crate) fn puts_of(
    alloc: Global,
    lines: &[Line],
    outs: usize,
    dirs: List<RelPath>,
) -> Result<List<Put>, NoMemory>
    requires { outs ≡ length (filter_map out_path lines.now) }
    ensures { IfOk result (λ puts. puts ≡ puts_by lines.now dirs) }
{
    let mut places = BTreeMap::new(alloc);
    place_moves(&mut places, lines, outs)?;
    place_dirs(&mut places, dirs)?;
    puts_in(alloc, places)
}

/// An out's number is how many outs come from the lines behind its own.
fn place_moves(places: &mut PutPlaces, lines: &[Line], outs: usize) -> Result<(), NoMemory>
    requires { outs ≡ length (filter_map out_path lines.now) }
    ensures { OnOk result (keyed places.new.entries ≡ in_places (keyed places.old.entries) (moves_by lines.now)) }
{
    let mut left = outs;
    for line in lines {
        if is_out(line) {
            left -= 1;
        }
        place_move(places, line, left as u64)?;
    }
    Ok(())
}

fn place_move(places: &mut PutPlaces, line: &Line, index: u64) -> Result<(), NoMemory>
    ensures { OnOk result (keyed places.new.entries ≡ in_places (keyed places.old.entries) (with_move (target_of line.now) index [])) }
{
    match target_of(line) {
        Some(target) => place_put(places, target.copy()?, Some(index)),
        None => Ok(()),
    }
}

fn place_dirs(places: &mut PutPlaces, dirs: List<RelPath>) -> Result<(), NoMemory>
    ensures { OnOk result (keyed places.new.entries ≡ in_places (keyed places.old.entries) (map new_place dirs)) }
{
    for dir in dirs.into_vec() {
        place_put(places, dir, None)?;
    }
    Ok(())
}

fn place_put(places: &mut PutPlaces, path: RelPath, index: Option<u64>) -> Result<(), NoMemory>
    ensures { OnOk result (keyed places.new.entries ≡ put path_cmp path index (keyed places.old.entries)) }
{
    places.insert(path.into_vec(), index)?;
    Ok(())
}

fn puts_in(alloc: Global, places: PutPlaces) -> Result<List<Put>, NoMemory>
    ensures { IfOk result (λ puts. puts ≡ map as_put (keyed places.entries)) }
{
    let mut puts = Vec::with_capacity(alloc, places.len())?;
    for (path, index) in places {
        puts.push(put_at(List::of(path), index))?;
    }
    Ok(List::of(puts))
}

fn put_at(to: RelPath, index: Option<u64>) -> Put
    ensures { result ≡ as_put (to, index) }
{
    match index {
        Some(index) => Put::Back { index, to },
        None => Put::NewDir { to },
    }
}

/// The files that are copied.
pub(crate) fn copies_of(alloc: Global, files: List<CopyJob>) -> Result<List<CopyJob>, NoMemory>
    ensures { IfOk result (λ copies. copies ≡ copies_by files) }
{
    let mut places = BTreeMap::new(alloc);
    place_files(&mut places, files)?;
    copies_in(alloc, places)
}

fn place_files(places: &mut CopyPlaces, files: List<CopyJob>) -> Result<(), NoMemory>
    ensures { OnOk result (keyed places.new.entries ≡ in_places (keyed places.old.entries) (map file_place files)) }
{
    for file in files.into_vec() {
        place_file(places, file)?;
    }
    Ok(())
}

fn place_file(places: &mut CopyPlaces, file: CopyJob) -> Result<(), NoMemory>
    ensures { OnOk result (keyed places.new.entries ≡ put path_cmp file.to file.id (keyed places.old.entries)) }
{
    let CopyJob { id, to } = file;
    places.insert(to.into_vec(), id)?;
    Ok(())
}

fn copies_in(alloc: Global, places: CopyPlaces) -> Result<List<CopyJob>, NoMemory>
    ensures { IfOk result (λ copies. copies ≡ map as_job (keyed places.entries)) }
{
    let mut copies = Vec::with_capacity(alloc, places.len())?;
    for (path, id) in places {
        copies.push(CopyJob {
            id,
            to: List::of(path),
        })?;
    }
    Ok(List::of(copies))
}
