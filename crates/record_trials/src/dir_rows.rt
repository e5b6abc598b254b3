//! A directory through its snapshots: rows of commands, and what they print.
use dir_changes::{Child, DirRecord, DirRows};
use file_changes::FileRows;
use hs_types::{InodeId, Mode, Name, NameText, NoMemory, SnapId, Spot};
use std::alloc::Global;
use std::fmt::Write;
use std::test::Fail;

fn name_of(alloc: Global, text: &str) -> Result<Name, NoMemory> {
    let text = NameText::new(String::from_str(alloc, text)?);
    match Name::read(alloc, &text) {
        Ok(name) => Ok(name),
        Err(_) => Err(NoMemory),
    }
}

fn spot_of(alloc: Global, parent: u64, name: &str) -> Result<Spot, NoMemory> {
    Ok(Spot {
        parent: InodeId(parent),
        name: name_of(alloc, name)?,
    })
}

fn number_of(word: &str) -> u64 {
    word.parse::<u64>().unwrap_or(0)
}

fn place_of(word: &str) -> usize {
    word.parse::<usize>().unwrap_or(0)
}

fn mode_of(word: &str) -> Mode {
    Mode::new(word.parse::<u16>().unwrap_or(0)).unwrap_or(Mode::of_directory())
}

fn write_children(out: &mut String, children: &[Child]) -> Result<(), NoMemory> {
    for child in children {
        write!(out, "{}{} ", child.name.text(), child.id.0)?;
    }
    Ok(())
}

fn write_marks(out: &mut String, spot: &Spot, stamp: u64) -> Result<(), NoMemory> {
    write!(out, "{} {} {stamp}", spot.parent.0, spot.name.text())?;
    Ok(())
}

fn write_stood(out: &mut String, dir: &DirRows, s: SnapId) -> Result<(), NoMemory> {
    let marks = dir.marks_at(s);
    write_marks(out, marks.spot, marks.stamp)
}

fn write_id(out: &mut String, id: Option<InodeId>) -> Result<(), NoMemory> {
    match id {
        Some(id) => write!(out, "{}", id.0)?,
        None => out.push_str("none")?,
    }
    Ok(())
}

fn write_record(out: &mut String, saved: &DirRecord) -> Result<(), NoMemory> {
    write!(out, "{} + ", saved.number.0)?;
    write_children(out, saved.created.items())?;
    out.push_str("- ")?;
    write_children(out, saved.deleted.items())
}

/// Each record, the first one first.
fn write_records(out: &mut String, dir: &DirRows) -> Result<(), NoMemory> {
    write!(out, "{}: ", dir.count())?;
    for i in 0..dir.count() {
        match dir.saved(i) {
            Some(saved) => write_record(out, saved)?,
            None => out.push_str("?")?,
        }
    }
    Ok(())
}

fn write_at(out: &mut String, dir: &DirRows, s: SnapId) -> Result<(), NoMemory> {
    let view = dir.at(s)?;
    write!(out, "{} ", view.stamp)?;
    write_children(out, view.children.items())
}

/// Starts a record, unless one of that number is there.
fn start(dir: &mut DirRows, number: u64) -> Result<(), NoMemory> {
    if dir.last_number().0 < number {
        dir.start_record(SnapId(number))?;
    }
    Ok(())
}

/// Adds an entry, unless its name is there.
fn add(dir: &mut DirRows, name: Name, id: u64) -> Result<(), NoMemory> {
    if dir.current().id_of(&name).is_none() {
        dir.add(name, InodeId(id))?;
    }
    Ok(())
}

/// Removes an entry: whether a deleted list gets it, and its id.
fn remove(dir: &mut DirRows, name: &Name, out: &mut String) -> Result<(), NoMemory> {
    if dir.keeps_removed(name) {
        out.push_str("kept ")?;
    }
    let id = dir.remove(name)?;
    write_id(out, id)
}

/// Combines record `i`, where it is there: the ids that are handed back.
fn combine(dir: &mut DirRows, i: usize, out: &mut String) -> Result<(), NoMemory> {
    if i < dir.count() {
        let ids = dir.combine(i)?;
        for id in ids.items() {
            write!(out, "{} ", id.0)?;
        }
    }
    Ok(())
}

/// A command that changes marks or room.
fn change_marks(
    alloc: Global,
    dir: &mut DirRows,
    command: &str,
    word: &str,
    more: &str,
) -> Result<(), NoMemory> {
    match command {
        "spot" => dir.set_spot(spot_of(alloc, number_of(more), word)?),
        "mode" => dir.set_mode(mode_of(word), number_of(more)),
        "marks" => dir.set_marks(spot_of(alloc, 9, word)?, mode_of("448"), number_of(more)),
        "prepare" => dir.prepare()?,
        "release" => dir.release_room(),
        _ => start(dir, number_of(word))?,
    }
    Ok(())
}

fn run_command(
    alloc: Global,
    dir: &mut DirRows,
    command: &str,
    word: &str,
    more: &str,
    out: &mut String,
) -> Result<(), NoMemory> {
    match command {
        "add" => add(dir, name_of(alloc, word)?, number_of(more)),
        "remove" => remove(dir, &name_of(alloc, word)?, out),
        "combine" => combine(dir, place_of(word), out),
        "at" => write_at(out, dir, SnapId(number_of(word))),
        "find" => write_id(
            out,
            dir.child_at(SnapId(number_of(more)), &name_of(alloc, word)?),
        ),
        "stood" => write_stood(out, dir, SnapId(number_of(word))),
        "records" => write_records(out, dir),
        "number" => write_id(
            out,
            dir.number(place_of(word)).map(|number| InodeId(number.0)),
        ),
        _ => change_marks(alloc, dir, command, word, more),
    }
}

fn run(alloc: Global, commands: &str, out: &mut String) -> Result<(), NoMemory> {
    let mut dir = DirRows::new(alloc, spot_of(alloc, 1, "r")?, Mode::of_directory(), 1);
    for text in commands.split("; ") {
        let (command, words) = text.split_once(' ').unwrap_or((text, ""));
        let (word, more) = words.split_once(' ').unwrap_or((words, ""));
        run_command(alloc, &mut dir, command, word, more, out)?;
        out.push_str("; ")?;
    }
    Ok(())
}

/// Snapshots 1, 2 and 3, with one change after each; then each way that they go. An entry that came and went within one
/// record stands in no list. A combined record hands back what cancels out, and the first one all that it deleted.
const ROWS: [(&str, &str); 6] = [
    (
        "add a 3; start 1; add b 4; start 2; remove a; start 3; add c 5; at 1; at 2; at 3; at 4; at 0; records",
        "; ; ; ; kept 3; ; ; 1 a3 ; 1 a3 b4 ; 1 b4 ; 1 b4 c5 ; 1 b4 c5 ; 3: 1 + b4 - 2 + - a3 3 + c5 - ; ",
    ),
    (
        "add a 3; start 1; add b 4; start 2; remove a; start 3; add c 5; combine 1; at 1; at 3; at 0; records; combine 0; combine 0; combine 0; at 1; records",
        "; ; ; ; kept 3; ; ; ; 1 a3 ; 1 b4 ; 1 b4 c5 ; 2: 1 + b4 - a3 3 + c5 - ; 3 ; ; ; 1 b4 c5 ; 0: ; ",
    ),
    (
        "add a 3; start 1; add b 4; start 2; remove b; remove a; find a 1; find b 1; find b 2; find a 0; combine 1; records; at 1",
        "; ; ; ; kept 4; kept 3; 3; none; 4; none; 4 ; 1: 1 + - a3 ; 1 a3 ; ",
    ),
    (
        "add a 3; start 1; add x 9; remove x; remove x; remove a; add a 7; at 1; at 0; records; number 0; number 1",
        "; ; ; 9; none; kept 3; ; 1 a3 ; 1 a7 ; 1: 1 + a7 - a3 ; 1; none; ",
    ),
    (
        "prepare; start 2; spot q 5; mode 448 7; stood 2; stood 0; marks z 8; stood 1; stood 3; prepare; start 4; prepare; add a 3; remove a; add b 4; combine 1; release; records; at 2; at 4",
        "; ; ; ; 1 r 1; 5 q 7; ; 1 r 1; 9 z 8; ; ; ; ; 3; ; ; ; 1: 2 + b4 - ; 1 ; 8 b4 ; ",
    ),
    (
        "add a 3; remove a; remove a; release; records; at 5",
        "; 3; none; ; 0: ; 1 ; ",
    ),
];

#[test]
fn directories_read_as_they_were(rt: HostRuntime) -> Result<(), Fail> {
    for (commands, text) in ROWS {
        let mut out = String::new(rt.alloc());
        run(rt.alloc(), commands, &mut out)?;
        assert_eq!(rt; out.as_str(), text, "{commands}");
    }
    Ok(())
}

/// A row without records is small: what is beside it are the texts of names and the child list.
#[test]
fn a_row_is_small(rt: HostRuntime) -> Result<(), Fail> {
    assert_eq!(rt; size_of::<DirRows>(), 88);
    assert_eq!(rt; size_of::<Child>(), 32);
    assert_eq!(rt; size_of::<FileRows>(), 96);
    Ok(())
}
