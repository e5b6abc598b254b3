//! A file through its snapshots: rows of commands, and what they print.
use file_changes::{FileRows, FileState};
use hs_types::{BlockId, InodeId, List, Mode, Name, NameText, NoMemory, SnapId, Spot};
use std::alloc::Global;
use std::fmt::Write;
use std::test::Fail;

fn spot_of(alloc: Global, parent: u64, name: &str) -> Result<Spot, NoMemory> {
    let text = NameText::new(String::from_str(alloc, name)?);
    match Name::read(alloc, &text) {
        Ok(name) => Ok(Spot {
            parent: InodeId(parent),
            name,
        }),
        Err(_) => Err(NoMemory),
    }
}

fn number_of(word: &str) -> u64 {
    word.parse::<u64>().unwrap_or(0)
}

fn place_of(word: &str) -> usize {
    word.parse::<usize>().unwrap_or(0)
}

/// The blocks of a word such as `1,4,3`.
fn blocks_of(alloc: Global, word: &str) -> Result<List<BlockId>, NoMemory> {
    let mut blocks = List::new(alloc);
    for number in word.split(',') {
        blocks.push(BlockId(number_of(number)))?;
    }
    Ok(blocks)
}

fn state_of(alloc: Global, blocks: &str, stamp: u64) -> Result<FileState, NoMemory> {
    Ok(FileState {
        spot: spot_of(alloc, 8, "w")?,
        mode: Mode::of_file(),
        stamp,
        size: 1,
        blocks: blocks_of(alloc, blocks)?,
    })
}

fn write_blocks(out: &mut String, blocks: &[BlockId]) -> Result<(), NoMemory> {
    for block in blocks {
        write!(out, " {}", block.0)?;
    }
    Ok(())
}

fn write_spot(out: &mut String, spot: &Spot, stamp: u64, size: u64) -> Result<(), NoMemory> {
    write!(
        out,
        "{}/{} {stamp} {size}:",
        spot.parent.0,
        spot.name.text()
    )?;
    Ok(())
}

fn write_at(out: &mut String, file: &FileRows, s: SnapId) -> Result<(), NoMemory> {
    let view = file.at(s);
    write_spot(out, view.spot, view.stamp, view.size)?;
    write_blocks(out, view.blocks.items())
}

/// Each record, the first one first, with its number and its stamp.
fn write_records(out: &mut String, file: &FileRows) -> Result<(), NoMemory> {
    write!(out, "{}:", file.count())?;
    for i in 0..file.count() {
        let number = file.number(i).map_or(0, |number| number.0);
        let stamp = file.saved(i).map_or(0, |state| state.stamp);
        write!(out, " {number}@{stamp}")?;
    }
    Ok(())
}

/// Saves the present state, unless a record of that number is there.
fn save(file: &mut FileRows, number: u64) -> Result<(), NoMemory> {
    if file.last_number().0 < number {
        file.save(SnapId(number))?;
    }
    Ok(())
}

/// Drops record `i`, where it is there: the blocks that are handed out.
fn drop_at(file: &mut FileRows, i: usize, out: &mut String) -> Result<(), NoMemory> {
    if i < file.count() {
        let blocks = file.drop_at(i);
        write_blocks(out, blocks.items())?;
    }
    Ok(())
}

/// One block more, with the list taken out and put back.
fn append(file: &mut FileRows, block: u64, stamp: u64) -> Result<(), NoMemory> {
    let size = file.current().size.saturating_add(1);
    let mut blocks = file.take_blocks();
    blocks.push(BlockId(block))?;
    file.set_body(size, blocks, stamp);
    Ok(())
}

fn change(
    alloc: Global,
    file: &mut FileRows,
    command: &str,
    word: &str,
    stamp: u64,
) -> Result<(), NoMemory> {
    match command {
        "body" => file.set_body(9, blocks_of(alloc, word)?, stamp),
        "append" => append(file, number_of(word), stamp)?,
        "spot" => file.set_spot(spot_of(alloc, stamp, word)?),
        "mode" => file.set_mode(Mode::of_file(), stamp),
        "set" => file.set(state_of(alloc, word, stamp)?),
        "prepare" => file.prepare()?,
        "release" => file.release_room(),
        _ => save(file, number_of(word))?,
    }
    Ok(())
}

fn run_command(
    alloc: Global,
    file: &mut FileRows,
    command: &str,
    word: &str,
    stamp: u64,
    out: &mut String,
) -> Result<(), NoMemory> {
    match command {
        "at" => write_at(out, file, SnapId(number_of(word))),
        "records" => write_records(out, file),
        "drop" => drop_at(file, place_of(word), out),
        _ => change(alloc, file, command, word, stamp),
    }
}

fn run(alloc: Global, commands: &str, out: &mut String) -> Result<(), NoMemory> {
    let mut file = FileRows::new(alloc, spot_of(alloc, 2, "x")?, Mode::of_file(), 1);
    for text in commands.split("; ") {
        let (command, words) = text.split_once(' ').unwrap_or((text, ""));
        let (word, more) = words.split_once(' ').unwrap_or((words, ""));
        run_command(alloc, &mut file, command, word, number_of(more), out)?;
        out.push_str("; ")?;
    }
    Ok(())
}

/// A file is moved and gets bytes after a snapshot; and of a dropped record the blocks are handed out that no other
/// state names. A copy that was made before an append or a move serves no wrong record.
const ROWS: [(&str, &str); 3] = [
    (
        "body 1 3; save 1; spot x 3; append 2 6; at 1; at 0; at 2; records",
        "; ; ; ; 2/x 3 9: 1; 3/x 6 10: 1 2; 3/x 6 10: 1 2; 1: 1@3; ",
    ),
    (
        "body 1,2,3 2; save 1; body 1,4,3 4; prepare; save 5; body 1 6; drop 0; at 1; drop 0; drop 0; at 1; records",
        "; ; ; ; ; ;  2; 2/x 4 9: 1 4 3;  4 3; ; 2/x 6 9: 1; 0:; ",
    ),
    (
        "prepare; append 5 2; prepare; append 6 3; save 2; mode x 4; prepare; spot y 7; save 3; set 7 8; release; at 2; at 3; at 4; records; drop 1; records",
        "; ; ; ; ; ; ; ; ; ; ; 2/x 3 2: 5 6; 7/y 4 2: 5 6; 8/w 8 1: 7; 2: 2@3 3@4; ; 1: 2@3; ",
    ),
];

#[test]
fn files_read_as_they_were(rt: HostRuntime) -> Result<(), Fail> {
    for (commands, text) in ROWS {
        let mut out = String::new(rt.alloc());
        run(rt.alloc(), commands, &mut out)?;
        assert_eq!(rt; out.as_str(), text, "{commands}");
    }
    Ok(())
}
