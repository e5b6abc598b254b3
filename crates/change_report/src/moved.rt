//! The lines of a row whose inode stands at both ends.
ghost use Rattle.std.specs.Prelude.{◌≡◌, ◌≤◌, ◌*◌, ◌+◌, ℕ, ◌++◌, [], Some, IfOk, OnOk};
ghost use Rattle.std.specs.Option.{option_copied};
ghost use Rattle.hs_plain.specs.Report.{line_if};
ghost use Rattle.inode_table.specs.Kept.{told};
ghost use Rattle.inode_table.specs.Numbered.{history_of};
ghost use Rattle.report_laws.specs.Costs.{looks_at, entries_apart};
ghost use Rattle.change_report.specs.Looked.{AreWithin, sides_apart, where_both};
ghost use Rattle.change_report.specs.Found;
ghost use Rattle.change_report.specs.Found.{row_line, own_lines, list_lines, row_lines, all_lines};

use crate::ends::{Ends, Paths};
use crate::listed::{is_dir, push_side};
use hs_types::{Duplicate, InodeId, Line, LineKind, NoMemory, RelPath, SnapId, Spot};
use inode_table::{Counted, Row, Rows};
use path_resolver::upward::{path_down, spot_of};
use std::alloc::Global;

fn stamp_of(row: &Row, s: SnapId) -> u64
    ensures { result ≡ Found.stamp_in s.0 (history_of row.now.rows) }
{
    match &row.rows {
        Rows::File(file) => file.at(s).stamp,
        Rows::Dir(dir) => dir.marks_at(s).stamp,
    }
}

fn same_spot(a: &Spot, b: &Spot) -> bool
    ensures { result ≡ Found.same_spot a.now b.now }
{
    a.parent == b.parent && a.name == b.name
}

/// Whether an inode is the report's directory, or has the same parent and name at both ends.
fn has_stayed(ends: Ends, id: InodeId, row: &Row) -> bool
    ensures { result ≡ Found.has_stayed ends id (history_of row.now.rows) }
{
    id == ends.root || same_spot(spot_of(row, ends.from), spot_of(row, ends.to))
}

fn line_of(
    kind: LineKind,
    path: &RelPath,
    to: Option<&RelPath>,
    id: InodeId,
    is_dir: bool,
) -> Result<Line, NoMemory>
    ensures { IfOk result (λ line. line ≡ row_line kind path.now (option_copied to.entry) id is_dir) }
{
    let to = match to {
        Some(path) => Some(path.copy()?),
        None => None,
    };
    Ok(Line {
        kind,
        path: path.copy()?,
        to,
        id,
        is_dir,
    })
}

/// Adds a line on an inode, where a test says so.
fn push_line_if(
    lines: &mut Vec<Line>,
    test: bool,
    kind: LineKind,
    path: &RelPath,
    to: Option<&RelPath>,
    id: InodeId,
    is_dir: bool,
) -> Result<(), NoMemory>
    ensures { OnOk result (lines.new.items ≡ lines.old.items ++ line_if test (row_line kind path.now (option_copied to.entry) id is_dir) []) }
{
    if test {
        lines.push(line_of(kind, path, to, id, is_dir)?)?;
    }
    Ok(())
}

#[tactic(auto, using(hs_plain::proofs::Reports::two_lines))]
/// Adds the lines of an inode that stands at both ends: where it has moved, and where its stamp is another.
fn push_own(
    lines: &mut Vec<Line>,
    ends: Ends,
    id: InodeId,
    row: &Row,
    old: &RelPath,
    new: &RelPath,
) -> Result<(), NoMemory>
    ensures { OnOk result (lines.new.items ≡ lines.old.items ++ own_lines ends id (history_of row.now.rows) old.now new.now) }
{
    let is_dir = is_dir(Some(row));
    let moved = !has_stayed(ends, id, row);
    let changed = stamp_of(row, ends.from) != stamp_of(row, ends.to);
    push_line_if(lines, moved, LineKind::Renamed, old, Some(new), id, is_dir)?;
    push_line_if(lines, changed, LineKind::Modified, old, None, id, is_dir)
}

/// Adds the lines of what is gone from a directory's list and of what is new in it.
fn push_lists(
    lines: &mut Vec<Line>,
    alloc: Global,
    table: &mut Counted<'_>,
    ends: Ends,
    path: &RelPath,
    row: &Row,
) -> Result<(), NoMemory>
    ensures lines { OnOk result (lines.new.items ≡ lines.old.items ++ list_lines (told table.old.table) ends path.now (history_of row.now.rows)) }
    ensures table { table.new.table ≡ table.old.table }
    ensures ticks { (h : ℕ) → AreWithin (told table.old.table) ends h → table.new.ticks ≤ table.old.ticks + sides_apart ends (history_of row.now.rows) * (1 + (1 + h)) }
{
    match &row.rows {
        Rows::File(_) => Ok(()),
        Rows::Dir(dir) => {
            push_side(lines, alloc, table, ends.gone(), path, dir)?;
            push_side(lines, alloc, table, ends.new(), path, dir)
        }
    }
}

/// Where an inode stands at both ends, if it does.
fn both_paths(
    alloc: Global,
    table: &mut Counted<'_>,
    ends: Ends,
    id: InodeId,
) -> Result<Option<Paths>, NoMemory>
    ensures paths { IfOk result (λ paths. paths ≡ Found.both_paths (told table.old.table) ends id) }
    ensures table { table.new.table ≡ table.old.table }
    ensures ticks { (h : ℕ) → AreWithin (told table.old.table) ends h → table.new.ticks ≤ table.old.ticks + 2 * (1 + h) }
{
    let Some(old) = path_down(alloc, table, ends.from, ends.root, id)? else {
        return Ok(None);
    };
    match path_down(alloc, table, ends.to, ends.root, id)? {
        Some(new) => Ok(Some(Paths { old, new })),
        None => Ok(None),
    }
}

/// Adds the lines of a row whose inode stands at both ends.
fn push_at(
    lines: &mut Vec<Line>,
    alloc: Global,
    table: &mut Counted<'_>,
    ends: Ends,
    id: InodeId,
    row: &Row,
    paths: &Paths,
) -> Result<(), NoMemory>
    ensures lines { OnOk result (lines.new.items ≡ lines.old.items ++ Found.lines_at (told table.old.table) ends id (history_of row.now.rows) (Some paths.now)) }
    ensures table { table.new.table ≡ table.old.table }
    ensures ticks { (h : ℕ) → AreWithin (told table.old.table) ends h → table.new.ticks ≤ table.old.ticks + sides_apart ends (history_of row.now.rows) * (1 + (1 + h)) }
{
    push_own(lines, ends, id, row, &paths.old, &paths.new)?;
    push_lists(lines, alloc, table, ends, &paths.old, row)
}

/// Adds the lines of a row that was looked at.
fn push_between(
    lines: &mut Vec<Line>,
    alloc: Global,
    table: &mut Counted<'_>,
    ends: Ends,
    id: InodeId,
    row: &Row,
) -> Result<(), NoMemory>
    ensures lines { OnOk result (lines.new.items ≡ lines.old.items ++ Found.lines_by (told table.old.table) ends id (Some (history_of row.now.rows))) }
    ensures table { table.new.table ≡ table.old.table }
    ensures ticks { (h : ℕ) → AreWithin (told table.old.table) ends h → table.new.ticks ≤ table.old.ticks + (2 * (1 + h) + where_both (Found.both_paths (told table.old.table) ends id) (sides_apart ends (history_of row.now.rows)) * (1 + (1 + h))) }
{
    match both_paths(alloc, table, ends, id)? {
        Some(paths) => push_at(lines, alloc, table, ends, id, row, &paths),
        None => Ok(()),
    }
}

fn push_row(
    lines: &mut Vec<Line>,
    alloc: Global,
    table: &mut Counted<'_>,
    ends: Ends,
    id: InodeId,
) -> Result<(), NoMemory>
    ensures lines { OnOk result (lines.new.items ≡ lines.old.items ++ row_lines (told table.old.table) ends id) }
    ensures table { table.new.table ≡ table.old.table }
    ensures ticks { (h : ℕ) → AreWithin (told table.old.table) ends h → table.new.ticks ≤ table.old.ticks + (1 + 2 * (1 + h) + entries_apart (told table.old.table) ends.root ends.from ends.to id * (1 + (1 + h))) }
{
    match table.row(id) {
        None => Ok(()),
        Some(row) => push_between(lines, alloc, table, ends, id, row),
    }
}

/// The lines of all these rows.
pub fn lines_of(
    alloc: Global,
    table: &mut Counted<'_>,
    ends: Ends,
    ids: &[InodeId],
) -> Result<Vec<Line>, NoMemory>
    ensures lines { IfOk result (λ lines. lines.items ≡ all_lines (told table.old.table) ends ids.now) }
    ensures table { table.new.table ≡ table.old.table }
    ensures ticks { (h : ℕ) → AreWithin (told table.old.table) ends h → table.new.ticks ≤ table.old.ticks + looks_at h (entries_apart (told table.old.table) ends.root ends.from ends.to) ids.now }
{
    let mut lines = Vec::new(alloc);
    for id in ids {
        push_row(&mut lines, alloc, table, ends, *id)?;
    }
    Ok(lines)
}
