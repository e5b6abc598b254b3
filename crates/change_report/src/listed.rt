//! The entries of a directory's list at one end whose inodes don't stand at the other.
ghost use Rattle.std.specs.Prelude.{◌≡◌, ℕ, ◌+◌, ◌*◌, ◌≤◌, if◌then◌else◌, ◌++◌, ◌∷◌, [], length, None, IfOk, OnOk};
ghost use Rattle.std.specs.List.{filter_map};
ghost use Rattle.std.specs.Option.{option_copied, option_map, option_to_list};
ghost use Rattle.dir_changes.specs.Entries.{holds};
ghost use Rattle.dir_changes.specs.History.{children_at};
ghost use Rattle.inode_table.specs.Kept.{told};
ghost use Rattle.inode_table.specs.Numbered.{history_of};
ghost use Rattle.inode_table.specs.RowHistory.{rows_at, shown};
ghost use Rattle.path_resolver.specs.ByRows.{is_dir_row};
ghost use Rattle.report_laws.specs.Chains.{HasChainsWithin};
ghost use Rattle.report_laws.specs.Listed.{only_in};
ghost use Rattle.change_report.specs.Found;
ghost use Rattle.change_report.specs.Found.{row_line, side_lines};

use crate::ends::Side;
use dir_changes::{Child, DirRows};
use hs_types::{Duplicate, InodeId, Line, NoMemory, RelPath, SnapId};
use inode_table::{Counted, Row, Rows};
use path_resolver::upward::path_down;
use std::alloc::Global;

/// Whether the row of an inode is a directory's.
pub fn is_dir(row: Option<&Row>) -> bool
    ensures { result ≡ is_dir_row (option_map (λ r. history_of r.rows) (option_copied row.entry)) }
{
    match row {
        None => false,
        Some(row) => match &row.rows {
            Rows::File(_) => false,
            Rows::Dir(_) => true,
        },
    }
}

/// Whether an inode stands at an end.
fn stands_at(
    alloc: Global,
    table: &mut Counted<'_>,
    root: InodeId,
    end: SnapId,
    id: InodeId,
) -> Result<bool, NoMemory>
    ensures stands { IfOk result (λ stands. stands ≡ Found.stands_at (told table.old.table) root end id) }
    ensures table { table.new.table ≡ table.old.table }
    ensures ticks { (h : ℕ) → HasChainsWithin (shown (told table.old.table).rows end.0) h → table.new.ticks ≤ table.old.ticks + (1 + h) }
{
    Ok(path_down(alloc, table, end, root, id)?.is_some())
}

/// Whether the list at the other end hasn't an entry, and its inode doesn't stand there.
fn is_alone(
    alloc: Global,
    table: &mut Counted<'_>,
    side: Side,
    dir: &DirRows,
    child: &Child,
) -> Result<bool, NoMemory>
    ensures alone { IfOk result (λ alone. alone ≡ Found.is_alone (told table.old.table) side dir.now.history child.now) }
    ensures table { table.new.table ≡ table.old.table }
    ensures ticks { (h : ℕ) → HasChainsWithin (shown (told table.old.table).rows side.other.0) h → table.new.ticks ≤ table.old.ticks + (if holds (children_at side.other.0 dir.now.history) child.now then 0 else 1 + h) }
{
    if dir.child_at(side.other, &child.name) == Some(child.id) {
        return Ok(false);
    }
    Ok(!stands_at(alloc, table, side.root, side.other, child.id)?)
}

/// The line of an entry, below the directory's path.
fn entry_line(
    table: &mut Counted<'_>,
    side: Side,
    path: &RelPath,
    child: &Child,
) -> Result<Line, NoMemory>
    ensures line { IfOk result (λ line. line ≡ row_line side.kind (path.now ++ child.now.0 ∷ []) None child.now.1 (is_dir_row (rows_at (told table.old.table).rows child.now.1))) }
    ensures table { table.new.table ≡ table.old.table }
    ensures ticks { table.new.ticks ≤ table.old.ticks + 1 }
{
    let is_dir = is_dir(table.row(child.id));
    let mut below = path.copy()?;
    below.push(child.name.copy()?)?;
    Ok(Line {
        kind: side.kind,
        path: below,
        to: None,
        id: child.id,
        is_dir,
    })
}

fn push_entry(
    lines: &mut Vec<Line>,
    alloc: Global,
    table: &mut Counted<'_>,
    side: Side,
    path: &RelPath,
    dir: &DirRows,
    child: &Child,
) -> Result<(), NoMemory>
    ensures lines { OnOk result (lines.new.items ≡ lines.old.items ++ option_to_list (Found.entry_line (told table.old.table) side path.now dir.now.history child.now)) }
    ensures table { table.new.table ≡ table.old.table }
    ensures ticks { (h : ℕ) → HasChainsWithin (shown (told table.old.table).rows side.other.0) h → table.new.ticks ≤ table.old.ticks + (if holds (children_at side.other.0 dir.now.history) child.now then 0 else 1 + (1 + h)) }
{
    if is_alone(alloc, table, side, dir, child)? {
        lines.push(entry_line(table, side, path, child)?)?;
    }
    Ok(())
}

fn push_entries(
    lines: &mut Vec<Line>,
    alloc: Global,
    table: &mut Counted<'_>,
    side: Side,
    path: &RelPath,
    dir: &DirRows,
    children: &[Child],
) -> Result<(), NoMemory>
    ensures lines { OnOk result (lines.new.items ≡ lines.old.items ++ filter_map (Found.entry_line (told table.old.table) side path.now dir.now.history) children.now) }
    ensures table { table.new.table ≡ table.old.table }
    ensures ticks { (h : ℕ) → HasChainsWithin (shown (told table.old.table).rows side.other.0) h → table.new.ticks ≤ table.old.ticks + length (only_in children.now (children_at side.other.0 dir.now.history)) * (1 + (1 + h)) }
{
    for child in children {
        push_entry(lines, alloc, table, side, path, dir, child)?;
    }
    Ok(())
}

/// Adds the lines of all such entries of a directory.
pub fn push_side(
    lines: &mut Vec<Line>,
    alloc: Global,
    table: &mut Counted<'_>,
    side: Side,
    path: &RelPath,
    dir: &DirRows,
) -> Result<(), NoMemory>
    ensures lines { OnOk result (lines.new.items ≡ lines.old.items ++ side_lines (told table.old.table) side path.now dir.now.history) }
    ensures table { table.new.table ≡ table.old.table }
    ensures ticks { (h : ℕ) → HasChainsWithin (shown (told table.old.table).rows side.other.0) h → table.new.ticks ≤ table.old.ticks + length (only_in (children_at side.here.0 dir.now.history) (children_at side.other.0 dir.now.history)) * (1 + (1 + h)) }
{
    let view = dir.at(side.here)?;
    push_entries(lines, alloc, table, side, path, dir, view.children.items())
}
