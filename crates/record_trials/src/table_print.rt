//! What a table shows, as text.
ghost use Rattle.std.specs.Prelude.{◌≡◌};
ghost use Rattle.inode_table.specs.Numbered.{history_of};
ghost use Rattle.inode_table.specs.Totals.{records_in};

use dir_changes::{Child, DirRecord, DirRows, DirView};
use file_changes::FileRows;
use hs_types::{BlockId, InodeId, NoMemory, SnapId, Spot};
use inode_table::{Counted, Row, Rows, Table};
use std::fmt::Write;

fn print_ids(ids: &[InodeId], out: &mut String) -> Result<(), NoMemory> {
    for id in ids {
        write!(out, " {}", id.0)?;
    }
    Ok(())
}

pub fn print_blocks(blocks: &[BlockId], out: &mut String) -> Result<(), NoMemory> {
    for block in blocks {
        write!(out, " {}", block.0)?;
    }
    Ok(())
}

fn print_children(children: &[Child], out: &mut String) -> Result<(), NoMemory> {
    for child in children {
        write!(out, " {}{}", child.name.text(), child.id.0)?;
    }
    Ok(())
}

fn print_spot(spot: &Spot, bits: u16, stamp: u64, out: &mut String) -> Result<(), NoMemory> {
    write!(
        out,
        "{}/{} {bits:o} {stamp}",
        spot.parent.0,
        spot.name.text()
    )?;
    Ok(())
}

/// A file's spot, mode, stamp, size and blocks.
fn print_file(file: &FileRows, s: SnapId, out: &mut String) -> Result<(), NoMemory> {
    let view = file.at(s);
    print_spot(view.spot, view.mode.bits(), view.stamp, out)?;
    write!(out, " {}:", view.size)?;
    print_blocks(view.blocks.items(), out)
}

/// A directory's spot, mode, stamp and child list.
fn print_view(view: &DirView, out: &mut String) -> Result<(), NoMemory> {
    print_spot(&view.spot, view.mode.bits(), view.stamp, out)?;
    out.push_str(":")?;
    print_children(view.children.items(), out)
}

fn print_dir(dir: &DirRows, s: SnapId, out: &mut String) -> Result<(), NoMemory> {
    let view = dir.at(s)?;
    print_view(&view, out)
}

/// What a row was at a snapshot; at 0 what it is now.
pub fn print_at(row: Option<&Row>, s: SnapId, out: &mut String) -> Result<(), NoMemory> {
    match row {
        Some(row) => match &row.rows {
            Rows::File(file) => print_file(file, s, out),
            Rows::Dir(dir) => print_dir(dir, s, out),
        },
        None => print_none(out),
    }
}

fn print_none(out: &mut String) -> Result<(), NoMemory> {
    out.push_str("none")?;
    Ok(())
}

fn print_dir_record(saved: &DirRecord, out: &mut String) -> Result<(), NoMemory> {
    write!(out, "{} +", saved.number.0)?;
    print_children(saved.created.items(), out)?;
    out.push_str(" -")?;
    print_children(saved.deleted.items(), out)
}

/// The number of each record, the entries created and deleted, the first one first.
fn print_dir_records(dir: &DirRows, out: &mut String) -> Result<(), NoMemory> {
    for i in 0..dir.count() {
        out.push_str(" | ")?;
        if let Some(saved) = dir.saved(i) {
            print_dir_record(saved, out)?;
        }
    }
    Ok(())
}

/// The number of each record, the stamp and the size that it saved, the first one first.
fn print_file_records(file: &FileRows, out: &mut String) -> Result<(), NoMemory> {
    for i in 0..file.count() {
        let number = file.number(i).map_or(0, |number| number.0);
        let stamp = file.saved(i).map_or(0, |state| state.stamp);
        let size = file.saved(i).map_or(0, |state| state.size);
        write!(out, " | {number} {stamp} {size}")?;
    }
    Ok(())
}

fn print_records_of(rows: &Rows, out: &mut String) -> Result<(), NoMemory> {
    match rows {
        Rows::File(file) => print_file_records(file, out),
        Rows::Dir(dir) => print_dir_records(dir, out),
    }
}

/// How many records there are, and each of them.
pub fn print_records(row: Option<&Row>, out: &mut String) -> Result<(), NoMemory> {
    match row {
        Some(row) => {
            write!(out, "{}", records_of(&row.rows))?;
            print_records_of(&row.rows, out)
        }
        None => print_none(out),
    }
}

pub fn records_of(rows: &Rows) -> usize
    ensures { result ≡ records_in (history_of rows.now) }
{
    match rows {
        Rows::File(file) => file.count(),
        Rows::Dir(dir) => dir.count(),
    }
}

/// The two marks, and how many lists name the row.
pub fn print_marks(row: Option<&Row>, out: &mut String) -> Result<(), NoMemory> {
    match row {
        Some(row) => {
            write!(out, "{} {} {}", row.since.0, row.carry.0, row.names)?;
            Ok(())
        }
        None => print_none(out),
    }
}

/// Rows, records, and entries of lists.
pub fn print_counts(table: &Table, out: &mut String) -> Result<(), NoMemory> {
    let counts = table.counts();
    write!(
        out,
        "{} {} {}",
        counts.rows, counts.records, counts.list_entries
    )?;
    Ok(())
}

/// What was made, or got a record, at a tick above `low` and at most `high`.
pub fn print_made(table: &Table, low: u64, high: u64, out: &mut String) -> Result<(), NoMemory> {
    let ids = table.made_between(low, high)?;
    out.push_str("made")?;
    print_ids(ids.items(), out)
}

/// The marks of a row, and what was made, by a table whose rows are counted.
pub fn print_counted(
    table: &Table,
    id: InodeId,
    low: u64,
    high: u64,
    out: &mut String,
) -> Result<(), NoMemory> {
    let mut counted = Counted::new(table);
    print_marks(counted.row(id), out)?;
    print_made_in(&counted, low, high, out)
}

fn print_made_in(
    counted: &Counted<'_>,
    low: u64,
    high: u64,
    out: &mut String,
) -> Result<(), NoMemory> {
    let ids = counted.made_between(low, high)?;
    out.push_str(" made")?;
    print_ids(ids.items(), out)
}
