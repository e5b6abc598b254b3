//! A table of rows with its snapshots, by direct calls: steps of commands, and what they print.
ghost use Rattle.std.specs.Prelude.{◌≡◌, ◌<◌, Some, IsTrue, IfOk, OnOk};
ghost use Rattle.std.specs.List.{Contains};
ghost use Rattle.inode_table.specs.declared.row.Row.{Row};
ghost use Rattle.inode_table.specs.Kept.{IsBare};
ghost use Rattle.inode_table.specs.Numbered.{row_of, history_of};
ghost use Rattle.inode_table.specs.Totals.{records_in};

use crate::table_fits::{fits, is_light};
use crate::table_print::{
    print_at, print_blocks, print_counted, print_counts, print_made, print_marks, print_records,
    records_of,
};
use crate::table_steps::{
    CHANGES, DROPPED, DROPPED_OUT, MERGED, MERGED_OUT, MOVED_OUT, THREE_SNAPSHOTS,
};
use dir_changes::DirRows;
use file_changes::FileRows;
use hs_types::{BlockId, InodeId, List, Mode, Name, NameText, NoMemory, SnapId, Spot};
use inode_table::{Change, Freed, Rows, Table};
use record_merge::drop_snapshot;
use rename_refs::cover;
use snapshot_manager::Snaps;
use std::alloc::Global;
use std::fmt::Write;
use std::test::Fail;

// ---- words

/// Word `k` of a command, counted from 0.
fn word(words: &str, k: usize) -> &str {
    words.split(' ').nth(k).unwrap_or("")
}

fn number(words: &str, k: usize) -> u64 {
    word(words, k).parse::<u64>().unwrap_or(0)
}

fn id_at(words: &str, k: usize) -> InodeId {
    InodeId(number(words, k))
}

fn snap_at(words: &str, k: usize) -> SnapId {
    SnapId(number(words, k))
}

fn name_of(alloc: Global, text: &str) -> Result<Name, NoMemory> {
    let text = NameText::new(String::from_str(alloc, text)?);
    Name::read(alloc, &text).map_err(|_| NoMemory)
}

/// A parent and a name.
fn spot_at(alloc: Global, words: &str, k: usize) -> Result<Spot, NoMemory> {
    Ok(Spot {
        parent: id_at(words, k),
        name: name_of(alloc, word(words, k.saturating_add(1)))?,
    })
}

/// Ids with commas between.
fn ids_of(alloc: Global, text: &str) -> Result<List<InodeId>, NoMemory> {
    let mut ids = List::new(alloc);
    for id in text.split(',') {
        ids.push(InodeId(id.parse::<u64>().unwrap_or(0)))?;
    }
    Ok(ids)
}

/// Blocks with commas between; `-` is none.
fn blocks_of(alloc: Global, text: &str) -> Result<List<BlockId>, NoMemory> {
    let mut blocks = List::new(alloc);
    if text != "-" {
        for block in text.split(',') {
            blocks.push(BlockId(block.parse::<u64>().unwrap_or(0)))?;
        }
    }
    Ok(blocks)
}

fn refuse(out: &mut String) -> Result<(), NoMemory> {
    out.push_str("refused")?;
    Ok(())
}

// ---- changes of the table

/// A new row with a parent, a name, `since` and a stamp, where its id is above all.
fn insert(
    alloc: Global,
    table: &mut Table,
    greatest: u64,
    verb: &str,
    words: &str,
) -> Result<u64, NoMemory>
    requires { table.old.greatest ≡ greatest }
    ensures { IfOk result (λ now. table.new.greatest ≡ now) }
{
    let id = id_at(words, 0);
    if id.0 <= greatest || !is_light(table) {
        return Ok(greatest);
    }
    let spot = spot_at(alloc, words, 1)?;
    table.insert(
        id,
        new_rows(alloc, verb, spot, number(words, 4)),
        snap_at(words, 3),
    )?;
    Ok(id.0)
}

fn new_rows(alloc: Global, verb: &str, spot: Spot, stamp: u64) -> Rows
    ensures { IsBare (history_of result) }
{
    if verb == "dir" {
        Rows::Dir(DirRows::new(alloc, spot, Mode::of_directory(), stamp))
    } else {
        Rows::File(FileRows::new(alloc, spot, Mode::of_file(), stamp))
    }
}

fn added(alloc: Global, words: &str) -> Result<Change, NoMemory> {
    Ok(Change::Add {
        name: name_of(alloc, word(words, 1))?,
        id: id_at(words, 2),
    })
}

fn removed(alloc: Global, words: &str) -> Result<Change, NoMemory> {
    Ok(Change::Remove {
        name: name_of(alloc, word(words, 1))?,
    })
}

fn body(alloc: Global, words: &str) -> Result<Change, NoMemory> {
    Ok(Change::Body {
        size: number(words, 1),
        blocks: blocks_of(alloc, word(words, 2))?,
    })
}

fn moved(alloc: Global, words: &str) -> Result<Change, NoMemory> {
    Ok(Change::Move(spot_at(alloc, words, 1)?))
}

fn mode(words: &str) -> Change {
    let bits = word(words, 1).parse::<u16>().unwrap_or(0);
    Change::Mode(Mode::new(bits).unwrap_or(Mode::of_file()))
}

fn change_of(alloc: Global, verb: &str, words: &str) -> Result<Change, NoMemory> {
    match verb {
        "add" => added(alloc, words),
        "remove" => removed(alloc, words),
        "body" => body(alloc, words),
        "move" => moved(alloc, words),
        _ => Ok(mode(words)),
    }
}

/// A change that fits its row, with a cover and a tick.
fn change(
    table: &mut Table,
    greatest: u64,
    id: InodeId,
    at: &str,
    what: Change,
    out: &mut String,
) -> Result<(), NoMemory>
    requires { table.old.greatest ≡ greatest }
    ensures { OnOk result (table.new.greatest ≡ table.old.greatest) }
{
    if is_light(table) && fits(table, greatest, id, &what) {
        table.change(id, snap_at(at, 0), number(at, 2), what)
    } else {
        refuse(out)
    }
}

/// A command such as `add 2 b 4 cover 1 tick 5`.
fn run_change(
    alloc: Global,
    table: &mut Table,
    greatest: u64,
    verb: &str,
    words: &str,
    out: &mut String,
) -> Result<(), NoMemory>
    requires { table.old.greatest ≡ greatest }
    ensures { OnOk result (table.new.greatest ≡ table.old.greatest) }
{
    let (words, at) = words.split_once(" cover ").unwrap_or((words, ""));
    let what = change_of(alloc, verb, words)?;
    change(table, greatest, id_at(words, 0), at, what, out)
}

fn set_marks(table: &mut Table, words: &str, out: &mut String) -> Result<(), NoMemory>
    ensures { OnOk result (table.new.greatest ≡ table.old.greatest) }
{
    let id = id_at(words, 0);
    if table.row(id).is_none() {
        return refuse(out);
    }
    table.set_marks(id, snap_at(words, 1), snap_at(words, 2));
    Ok(())
}

/// Whether a row is there and has record `i`.
fn has_record(table: &Table, id: InodeId, i: usize) -> bool
    ensures { IsTrue result → (row : Row) × (row_of table.now.rows id ≡ Some row) × (i < records_in (history_of row.rows)) }
{
    match table.row(id) {
        Some(row) => i < records_of(&row.rows),
        None => false,
    }
}

/// A list of one id.
fn one_of(alloc: Global, id: InodeId) -> Result<List<InodeId>, NoMemory>
    ensures { IfOk result (λ ids. Contains ids id) }
{
    let mut ids = List::new(alloc);
    ids.push(id)?;
    Ok(ids)
}

/// Takes record `i` away from a row that is among these, which are prepared.
fn merge(
    table: &mut Table,
    ids: &List<InodeId>,
    id: InodeId,
    i: usize,
    out: &mut String,
) -> Result<(), NoMemory>
    requires { Contains ids.now id }
    ensures { OnOk result (table.new.greatest ≡ table.old.greatest) }
{
    table.prepare_merge(ids)?;
    if !has_record(table, id, i) {
        return refuse(out);
    }
    table.merge(id, i);
    Ok(())
}

fn run_merge(
    alloc: Global,
    table: &mut Table,
    words: &str,
    out: &mut String,
) -> Result<(), NoMemory>
    ensures { OnOk result (table.new.greatest ≡ table.old.greatest) }
{
    let id = id_at(words, 0);
    let ids = one_of(alloc, id)?;
    merge(table, &ids, id, number(words, 1) as usize, out)
}

/// Makes room for an insertion and three changes of each of these rows.
fn prepare(alloc: Global, table: &mut Table, words: &str) -> Result<(), NoMemory>
    ensures { OnOk result (table.new.greatest ≡ table.old.greatest) }
{
    let ids = ids_of(alloc, words)?;
    table.prepare(&ids)
}

fn print_freed(freed: &Freed, out: &mut String) -> Result<(), NoMemory> {
    write!(out, "{}:", freed.rows)?;
    print_blocks(freed.blocks.items(), out)
}

/// How many rows went, and the blocks that are handed out.
fn release(table: &mut Table, out: &mut String) -> Result<(), NoMemory>
    ensures { OnOk result (table.new.greatest ≡ table.old.greatest) }
{
    let freed = table.release()?;
    print_freed(&freed, out)
}

// ---- snapshots

fn print_snap(id: Option<SnapId>, out: &mut String) -> Result<(), NoMemory> {
    match id {
        Some(id) => write!(out, "{}", id.0)?,
        None => out.push_str("-")?,
    }
    Ok(())
}

/// A new snapshot of a directory that is snapshottable.
fn add_snap(
    snaps: &mut Snaps,
    dir: InodeId,
    name: Name,
    tick: u64,
    out: &mut String,
) -> Result<(), NoMemory> {
    if snaps.count_of(dir).is_none() || snaps.issued().0 == u64::MAX {
        return refuse(out);
    }
    print_snap(snaps.add(dir, name, tick).ok(), out)
}

fn run_snap(
    alloc: Global,
    snaps: &mut Snaps,
    words: &str,
    out: &mut String,
) -> Result<(), NoMemory> {
    let name = name_of(alloc, word(words, 1))?;
    add_snap(snaps, id_at(words, 0), name, number(words, 2), out)
}

fn run_unsnap(
    alloc: Global,
    snaps: &mut Snaps,
    words: &str,
    out: &mut String,
) -> Result<(), NoMemory> {
    let name = name_of(alloc, word(words, 1))?;
    print_snap(snaps.remove(id_at(words, 0), &name), out)
}

/// Deletes a live snapshot: how many rows went, and the blocks that are handed out. It tells the greatest id after it.
fn drop_live(
    table: &mut Table,
    snaps: &mut Snaps,
    id: SnapId,
    out: &mut String,
) -> Result<u64, NoMemory>
    ensures { IfOk result (λ now. table.new.greatest ≡ now) }
{
    if snaps.by_id(id).is_some() {
        let freed = drop_snapshot(table, snaps, id)?;
        print_freed(&freed, out)?;
    } else {
        refuse(out)?;
    }
    Ok(table.greatest().0)
}

// ---- questions

fn print_cover(
    alloc: Global,
    table: &Table,
    snaps: &Snaps,
    words: &str,
    out: &mut String,
) -> Result<(), NoMemory> {
    let chain = ids_of(alloc, words)?;
    print_snap(Some(cover(table, snaps, &chain)), out)
}

/// What a number and further ones ask for.
fn ask(table: &Table, verb: &str, words: &str, out: &mut String) -> Result<(), NoMemory> {
    let row = table.row(id_at(words, 0));
    match verb {
        "row" => print_marks(row, out),
        "read" => print_at(row, snap_at(words, 1), out),
        "records" => print_records(row, out),
        "made" => print_made(table, number(words, 0), number(words, 1), out),
        "counted" => print_counted(
            table,
            id_at(words, 0),
            number(words, 1),
            number(words, 2),
            out,
        ),
        _ => print_counts(table, out),
    }
}

// ---- steps

/// A command on rows that are there, or on snapshots.
fn run_kept(
    alloc: Global,
    table: &mut Table,
    snaps: &mut Snaps,
    greatest: u64,
    verb: &str,
    words: &str,
    out: &mut String,
) -> Result<(), NoMemory>
    requires { table.old.greatest ≡ greatest }
    ensures { OnOk result (table.new.greatest ≡ table.old.greatest) }
{
    match verb {
        "add" | "remove" | "body" | "mode" | "move" => {
            run_change(alloc, table, greatest, verb, words, out)
        }
        "marks" => set_marks(table, words, out),
        "prepare" => prepare(alloc, table, words),
        "merge" => run_merge(alloc, table, words, out),
        "release" => release(table, out),
        "allow" => snaps.allow(id_at(words, 0)),
        "snap" => run_snap(alloc, snaps, words, out),
        "unsnap" => run_unsnap(alloc, snaps, words, out),
        "cover" => print_cover(alloc, table, snaps, words, out),
        _ => ask(table, verb, words, out),
    }
}

/// Runs a command, and tells the greatest id after it.
fn run(
    alloc: Global,
    table: &mut Table,
    snaps: &mut Snaps,
    greatest: u64,
    command: &str,
    out: &mut String,
) -> Result<u64, NoMemory>
    requires { table.old.greatest ≡ greatest }
    ensures { IfOk result (λ now. table.new.greatest ≡ now) }
{
    let (verb, words) = command.split_once(' ').unwrap_or((command, ""));
    match verb {
        "dir" | "file" => insert(alloc, table, greatest, verb, words),
        "drop" => drop_live(table, snaps, snap_at(words, 0), out),
        _ => {
            run_kept(alloc, table, snaps, greatest, verb, words, out)?;
            Ok(greatest)
        }
    }
}

fn note_wrong(
    command: &str,
    printed: &str,
    text: &str,
    wrong: &mut String,
) -> Result<(), NoMemory> {
    if printed != text {
        write!(wrong, "{command}: {printed}; ")?;
    }
    Ok(())
}

/// Runs a command. What it prints is written down where it isn't the text.
fn run_step(
    alloc: Global,
    table: &mut Table,
    snaps: &mut Snaps,
    greatest: u64,
    step: (&str, &str),
    wrong: &mut String,
) -> Result<u64, NoMemory>
    requires { table.old.greatest ≡ greatest }
    ensures { IfOk result (λ now. table.new.greatest ≡ now) }
{
    let (command, text) = step;
    let mut out = String::new(alloc);
    let now = run(alloc, table, snaps, greatest, command, &mut out)?;
    note_wrong(command, out.as_str(), text, wrong)?;
    Ok(now)
}

/// Runs the steps, and tells the greatest id after them.
fn run_steps(
    alloc: Global,
    table: &mut Table,
    snaps: &mut Snaps,
    greatest: u64,
    steps: &[(&str, &str)],
    wrong: &mut String,
) -> Result<u64, NoMemory>
    requires { table.old.greatest ≡ greatest }
    ensures { IfOk result (λ now. table.new.greatest ≡ now) }
{
    let mut now = greatest;
    for step in steps {
        now = run_step(alloc, table, snaps, now, *step, wrong)?;
    }
    Ok(now)
}

/// Runs the first steps on a table with the root alone, and then the others.
fn run_with(
    alloc: Global,
    table: &mut Table,
    first: &[(&str, &str)],
    then: &[(&str, &str)],
    wrong: &mut String,
) -> Result<(), NoMemory>
    requires { table.old.greatest ≡ 1 }
{
    let mut snaps = Snaps::new(alloc);
    let greatest = run_steps(alloc, table, &mut snaps, 1, first, wrong)?;
    run_steps(alloc, table, &mut snaps, greatest, then, wrong)?;
    Ok(())
}

/// The same on a new table. It writes down what is wrong.
fn run_all(
    alloc: Global,
    first: &[(&str, &str)],
    then: &[(&str, &str)],
    wrong: &mut String,
) -> Result<(), NoMemory> {
    let mut table = Table::new(alloc)?;
    run_with(alloc, &mut table, first, then, wrong)
}

/// What is done first, and how it goes on.
const RUNS: [(&[(&str, &str)], &[(&str, &str)]); 5] = [
    (THREE_SNAPSHOTS, MERGED),
    (THREE_SNAPSHOTS, DROPPED),
    (MOVED_OUT, MERGED_OUT),
    (MOVED_OUT, DROPPED_OUT),
    (CHANGES, &[]),
];

#[test]
fn tables_show_what_was(rt: HostRuntime) -> Result<(), Fail> {
    for (first, then) in RUNS {
        let mut wrong = String::new(rt.alloc());
        run_all(rt.alloc(), first, then, &mut wrong)?;
        assert_eq!(rt; wrong.as_str(), "");
    }
    Ok(())
}
