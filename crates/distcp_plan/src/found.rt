//! What is new, and which files are to be copied.
ghost use Rattle.std.specs.Prelude.{◌≡◌, ◌<◌, ◌++◌, ◌∷◌, [], length, slice_get, IfOk, OnOk};
ghost use Rattle.std.specs.Option.{option_copied};
ghost use Rattle.hs_plain.specs.Plan.{translate, translate_created};
ghost use Rattle.distcp_plan.specs.Planned.{nothing, with_item, with_changed, with_created, by_line, by_lines, by_item, by_items, by_listing, by_listings, all_found};

use crate::moves::{Moves, joined, translated};
use hs_plain::{CopyJob, Listing};
use hs_types::{Duplicate, InodeId, Item, Line, LineKind, List, Name, NoMemory, RelPath};
use std::alloc::Global;
use std::slice;

/// The new directories in the order in which they are found, and the files that are new or changed.
#[derive(Debug, Drop, PartialEq, Eq)]
pub(crate) struct Found {
    pub(crate) dirs: List<RelPath>,
    pub(crate) files: List<CopyJob>,
}

/// All that the lines tell, and the listings of new directories.
pub(crate) fn all_found<'p>(
    alloc: Global,
    lines: &'p [Line],
    listings: &'p [Listing],
) -> Result<Found, NoMemory>
    ensures { IfOk result (λ found. found ≡ all_found lines.now listings.now) }
{
    let moves = Moves::of(alloc, lines)?;
    let mut found = Found {
        dirs: List::new(alloc),
        files: List::new(alloc),
    };
    add_lines(alloc, &moves, lines, &mut found)?;
    add_listings(alloc, &moves, listings, &mut found)?;
    Ok(found)
}

fn add_lines<'p>(
    alloc: Global,
    moves: &Moves<'p>,
    lines: &'p [Line],
    found: &mut Found,
) -> Result<(), NoMemory>
    ensures { OnOk result (found.new ≡ by_lines moves.now lines.now found.old) }
{
    for line in lines {
        add_line(alloc, moves, line, found)?;
    }
    Ok(())
}

fn add_line<'p>(
    alloc: Global,
    moves: &Moves<'p>,
    line: &'p Line,
    found: &mut Found,
) -> Result<(), NoMemory>
    ensures { OnOk result (found.new ≡ by_line moves.now line.now.kind line.now found.old) }
{
    match line.kind {
        LineKind::Created => add_created(alloc, moves, line, found),
        LineKind::Modified => add_changed(alloc, moves, line, found),
        LineKind::Deleted | LineKind::Renamed => Ok(()),
    }
}

/// Adds a new item in a directory that was there, which keeps its name.
fn add_created<'p>(
    alloc: Global,
    moves: &Moves<'p>,
    line: &'p Line,
    found: &mut Found,
) -> Result<(), NoMemory>
    ensures { OnOk result (found.new ≡ with_created moves.now line.now.id line.now.is_dir line.now.path found.old) }
{
    if line.path.is_empty() {
        return Ok(());
    }
    let path = created_path(alloc, moves, line.path.items())?;
    add_item(found, line.id, line.is_dir, path)
}

fn created_path<'p>(alloc: Global, moves: &Moves<'p>, path: &'p [Name]) -> Result<RelPath, NoMemory>
    requires { 0 < length path.now }
    ensures { IfOk result (λ new. new ≡ translate_created moves.now path.now) }
{
    let above = path.len() - 1;
    let dir = translated(alloc, moves, &path[..above])?;
    with_name(dir, &path[above])
}

fn with_name(path: RelPath, name: &Name) -> Result<RelPath, NoMemory>
    ensures { IfOk result (λ whole. whole ≡ path ++ name.now ∷ []) }
{
    let mut path = path;
    path.push(name.copy()?)?;
    Ok(path)
}

/// Adds a file that was changed, where it comes to stand.
fn add_changed<'p>(
    alloc: Global,
    moves: &Moves<'p>,
    line: &'p Line,
    found: &mut Found,
) -> Result<(), NoMemory>
    ensures { OnOk result (found.new ≡ with_changed line.now.id line.now.is_dir (translate moves.now line.now.path) found.old) }
{
    if line.is_dir {
        return Ok(());
    }
    let path = translated(alloc, moves, line.path.items())?;
    add_item(found, line.id, false, path)
}

fn add_item(found: &mut Found, id: InodeId, is_dir: bool, path: RelPath) -> Result<(), NoMemory>
    ensures { OnOk result (found.new ≡ with_item id is_dir path found.old) }
{
    if is_dir {
        found.dirs.push(path)
    } else {
        found.files.push(CopyJob { id, to: path })
    }
}

/// Each listing is of the next of the new directories.
fn add_listings(
    alloc: Global,
    moves: &Moves,
    listings: &[Listing],
    found: &mut Found,
) -> Result<(), NoMemory>
    ensures { OnOk result (found.new ≡ by_listings moves.now 0 listings.now found.old) }
{
    for (at, listing) in listings.iter().enumerate() {
        add_listing(alloc, moves, at, listing.items.items(), found)?;
    }
    Ok(())
}

/// Adds what is new of the items of the directory that was found as the one with this number.
fn add_listing(
    alloc: Global,
    moves: &Moves,
    at: usize,
    items: &[Item],
    found: &mut Found,
) -> Result<(), NoMemory>
    ensures { OnOk result (found.new ≡ by_listing moves.now (slice_get found.old.dirs at) items.now found.old) }
{
    match found.dirs.get(at) {
        Some(dir) => {
            let dir = dir.copy()?;
            add_items(alloc, moves, dir.items(), items, found)
        }
        None => Ok(()),
    }
}

fn add_items(
    alloc: Global,
    moves: &Moves,
    dir: &[Name],
    items: &[Item],
    found: &mut Found,
) -> Result<(), NoMemory>
    ensures { OnOk result (found.new ≡ by_items moves.now dir.now items.now found.old) }
{
    for item in items {
        add_listed(alloc, moves, dir, item, found)?;
    }
    Ok(())
}

fn add_listed(
    alloc: Global,
    moves: &Moves,
    dir: &[Name],
    item: &Item,
    found: &mut Found,
) -> Result<(), NoMemory>
    ensures { OnOk result (found.new ≡ by_item moves.now dir.now item.now found.old) }
{
    if moves.has_id(item.id) {
        return Ok(());
    }
    let path = child_path(alloc, dir, &item.name)?;
    add_item(found, item.id, item.is_dir, path)
}

fn child_path(alloc: Global, dir: &[Name], name: &Name) -> Result<RelPath, NoMemory>
    ensures { IfOk result (λ path. path ≡ dir.now ++ name.now ∷ []) }
{
    joined(alloc, dir, slice::from_ref(name))
}
