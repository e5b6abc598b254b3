//! Commands on the snapshots of directories, and what they print. A directory is given by its number.
use hs_types::{InodeId, Name, NameText, NoMemory, SnapId, SnapItem};
use snapshot_manager::Snaps;
use std::alloc::Global;
use std::test::Fail;

fn name_of(alloc: Global, text: &str) -> Result<Name, NoMemory> {
    let text = NameText::new(String::from_str(alloc, text)?);
    Name::read(alloc, &text).map_err(|_| NoMemory)
}

fn number_of(word: &str) -> u64 {
    word.parse::<u64>().unwrap_or(0)
}

fn print_item(item: Option<&SnapItem>, out: &mut String) -> Result<(), NoMemory> {
    match item {
        Some(item) => write!(out, "{} {} {}", item.id.0, item.tick, item.name.text())?,
        None => out.push_str("-")?,
    }
    Ok(())
}

fn print_id(id: Option<SnapId>, out: &mut String) -> Result<(), NoMemory> {
    match id {
        Some(id) => write!(out, "{}", id.0)?,
        None => out.push_str("-")?,
    }
    Ok(())
}

fn print_dir(dir: Option<InodeId>, out: &mut String) -> Result<(), NoMemory> {
    match dir {
        Some(dir) => write!(out, "{}", dir.0)?,
        None => out.push_str("-")?,
    }
    Ok(())
}

/// A new snapshot of this name, with its number of characters as its tick, where the directory is snapshottable.
fn add(snaps: &mut Snaps, dir: InodeId, name: Name, out: &mut String) -> Result<(), NoMemory> {
    if snaps.count_of(dir).is_none() || snaps.issued().0 == u64::MAX {
        out.push_str("not snapshottable")?;
        return Ok(());
    }
    let tick = name.text().len() as u64;
    match snaps.add(dir, name, tick) {
        Ok(id) => write!(out, "{}", id.0)?,
        Err(fault) => write!(out, "{fault:?}")?,
    }
    Ok(())
}

fn rename(
    snaps: &mut Snaps,
    dir: InodeId,
    old: &Name,
    new: Name,
    out: &mut String,
) -> Result<(), NoMemory> {
    match snaps.rename(dir, old, new) {
        Ok(()) => out.push_str("done")?,
        Err(fault) => write!(out, "{fault:?}")?,
    }
    Ok(())
}

fn allow(snaps: &mut Snaps, dir: InodeId, out: &mut String) -> Result<(), NoMemory> {
    snaps.allow(dir)?;
    out.push_str("done")?;
    Ok(())
}

fn disallow(snaps: &mut Snaps, dir: InodeId, out: &mut String) -> Result<(), NoMemory> {
    if snaps.count_of(dir).unwrap_or(0) > 0 {
        out.push_str("has snapshots")?;
        return Ok(());
    }
    snaps.disallow(dir);
    out.push_str("done")?;
    Ok(())
}

fn print_owned(snaps: &Snaps, id: SnapId, out: &mut String) -> Result<(), NoMemory> {
    match snaps.by_id(id) {
        Some((dir, item)) => write!(out, "{} {}", dir.0, item.name.text())?,
        None => out.push_str("-")?,
    }
    Ok(())
}

/// All snapshots of a directory, each found from the one before.
fn print_all(snaps: &Snaps, dir: InodeId, out: &mut String) -> Result<(), NoMemory> {
    let mut last = SnapId(0);
    for _ in 0..snaps.count_of(dir).unwrap_or(0) {
        let Some(item) = snaps.snap_after(dir, last) else {
            return Ok(());
        };
        write!(out, "{}:{} ", item.id.0, item.name.text())?;
        last = item.id;
    }
    Ok(())
}

fn print_count(count: Option<usize>, out: &mut String) -> Result<(), NoMemory> {
    match count {
        Some(count) => write!(out, "{count}")?,
        None => out.push_str("-")?,
    }
    Ok(())
}

/// What a directory's number and a further word ask for.
fn ask(
    snaps: &Snaps,
    verb: &str,
    dir: InodeId,
    word: &str,
    out: &mut String,
) -> Result<(), NoMemory> {
    let number = number_of(word);
    match verb {
        "count" => print_count(snaps.count_of(dir), out),
        "at" => print_item(snaps.snap_at(dir, number as usize), out),
        "after" => print_item(snaps.snap_after(dir, SnapId(number)), out),
        "all" => print_all(snaps, dir, out),
        "last" => print_id(snaps.last_of(dir), out),
        "dir" => print_dir(snaps.dir_at(dir.0 as usize), out),
        "dirafter" => print_dir(snaps.dir_after(dir), out),
        "id" => print_owned(snaps, SnapId(dir.0), out),
        "issued" => print_id(Some(snaps.issued()), out),
        _ => Ok(write!(out, "{}", snaps.live_between(SnapId(dir.0), SnapId(number)))?),
    }
}

fn ask_named(
    alloc: Global,
    snaps: &Snaps,
    dir: InodeId,
    word: &str,
    out: &mut String,
) -> Result<(), NoMemory> {
    let name = name_of(alloc, word)?;
    print_item(snaps.by_name(dir, &name), out)
}

fn add_named(
    alloc: Global,
    snaps: &mut Snaps,
    dir: InodeId,
    word: &str,
    out: &mut String,
) -> Result<(), NoMemory> {
    let name = name_of(alloc, word)?;
    add(snaps, dir, name, out)
}

fn remove_named(
    alloc: Global,
    snaps: &mut Snaps,
    dir: InodeId,
    word: &str,
    out: &mut String,
) -> Result<(), NoMemory> {
    let name = name_of(alloc, word)?;
    print_id(snaps.remove(dir, &name), out)
}

fn rename_named(
    alloc: Global,
    snaps: &mut Snaps,
    dir: InodeId,
    words: &str,
    out: &mut String,
) -> Result<(), NoMemory> {
    let (old, new) = words.split_once(' ').unwrap_or((words, ""));
    let old = name_of(alloc, old)?;
    let new = name_of(alloc, new)?;
    rename(snaps, dir, &old, new, out)
}

/// Runs a command: its verb, a number, and what else it has.
fn run(alloc: Global, snaps: &mut Snaps, command: &str, out: &mut String) -> Result<(), NoMemory> {
    let (verb, words) = command.split_once(' ').unwrap_or((command, ""));
    let (dir, word) = words.split_once(' ').unwrap_or((words, ""));
    let dir = InodeId(number_of(dir));
    match verb {
        "allow" => allow(snaps, dir, out),
        "disallow" => disallow(snaps, dir, out),
        "add" => add_named(alloc, snaps, dir, word, out),
        "rm" => remove_named(alloc, snaps, dir, word, out),
        "mv" => rename_named(alloc, snaps, dir, word, out),
        "named" => ask_named(alloc, snaps, dir, word, out),
        _ => ask(snaps, verb, dir, word, out),
    }
}

fn run_all(alloc: Global, commands: &str, out: &mut String) -> Result<(), NoMemory> {
    let mut snaps = Snaps::new(alloc);
    for command in commands.split("; ") {
        run(alloc, &mut snaps, command, out)?;
        out.push_str("; ")?;
    }
    Ok(())
}

const ROWS: [(&str, &str); 5] = [
    // an id is never used again, and another directory's snapshots are apart
    (
        "allow 9; allow 2; allow 9; dir 0; dir 1; dir 2; dirafter 2; dirafter 9; add 2 a; add 9 a; add 2 b; add 2 a; add 5 a; rm 2 a; rm 2 a; id 1; last 2; rm 2 b; last 2; add 2 a; issued",
        "done; done; done; 2; 9; -; 9; -; 1; 2; 3; Taken; not snapshottable; 1; -; -; 3; 3; -; 4; 4; ",
    ),
    // a directory with snapshots stays snapshottable
    (
        "allow 2; allow 7; add 2 a; disallow 2; count 2; rm 2 a; count 2; disallow 2; count 2; dir 0; disallow 2; allow 2; add 2 a",
        "done; done; 1; has snapshots; 1; 1; 0; done; -; 7; done; done; 2; ",
    ),
    // a renamed snapshot keeps its id, its tick and its place
    (
        "allow 2; add 2 a; add 2 bb; add 2 ccc; mv 2 a bb; mv 2 a a; mv 2 z bb; mv 2 z y; mv 2 a d; mv 2 ccc a; mv 3 a b; all 2; at 2 0; at 2 2; at 2 3; named 2 a; named 2 ccc; id 3",
        "done; 1; 2; 3; Taken; Taken; Taken; Missing; done; done; Missing; 1:d 2:bb 3:a ; 1 1 d; 3 3 a; -; 3 3 a; -; 2 a; ",
    ),
    // an id lies above the low end and at most at the high end
    (
        "allow 2; allow 9; add 2 a; add 9 a; add 2 b; add 9 b; rm 2 b; between 0 0; between 0 1; between 1 1; between 1 2; between 2 3; between 2 4; between 4 9; between 4 1",
        "done; done; 1; 2; 3; 4; 3; false; true; false; true; false; true; false; false; ",
    ),
    // the oldest goes first, and one from the middle
    (
        "allow 2; add 2 a; add 2 b; add 2 c; add 2 d; add 2 e; rm 2 a; rm 2 c; all 2; after 2 1; after 2 2; after 2 5; rm 2 b; at 2 0; named 2 e; last 2",
        "done; 1; 2; 3; 4; 5; 1; 3; 2:b 4:d 5:e ; 2 1 b; 4 1 d; -; 2; 4 1 d; 5 1 e; 5; ",
    ),
];

#[test]
fn snapshots_of_directories(rt: HostRuntime) -> Result<(), Fail> {
    for (commands, text) in ROWS {
        let mut out = String::new(rt.alloc());
        run_all(rt.alloc(), commands, &mut out)?;
        assert_eq!(rt; out.as_str(), text, "{commands}");
    }
    Ok(())
}

fn write_name(alloc: Global, number: u64) -> Result<Name, NoMemory> {
    let text = NameText::new(format!(in alloc; "day{number}")?);
    Name::read(alloc, &text).map_err(|_| NoMemory)
}

/// Makes as many snapshots of a directory as these, and prints what the last one gave.
fn fill(alloc: Global, snaps: &mut Snaps, count: u64, out: &mut String) -> Result<(), NoMemory> {
    for number in 1..=count {
        let name = write_name(alloc, number)?;
        out.clear();
        add(snaps, InodeId(2), name, out)?;
    }
    out.push_str("; ")?;
    Ok(())
}

/// Takes so many out again, the oldest first, and prints what the last one gave.
fn drain(alloc: Global, snaps: &mut Snaps, count: u64, out: &mut String) -> Result<(), NoMemory> {
    for number in 1..count {
        let name = write_name(alloc, number)?;
        snaps.remove(InodeId(2), &name);
    }
    let name = write_name(alloc, count)?;
    print_id(snaps.remove(InodeId(2), &name), out)
}

fn fill_and_drain(alloc: Global, out: &mut String) -> Result<(), NoMemory> {
    let mut snaps = Snaps::new(alloc);
    snaps.allow(InodeId(2))?;
    fill(alloc, &mut snaps, 65_537, out)?;
    run(alloc, &mut snaps, "add 2 day7", out)?;
    out.push_str("; ")?;
    drain(alloc, &mut snaps, 65_536, out)?;
    out.push_str("; ")?;
    run(alloc, &mut snaps, "count 2", out)
}

#[test]
fn as_many_snapshots_as_a_directory_may_have(rt: HostRuntime) -> Result<(), Fail> {
    let mut out = String::new(rt.alloc());
    fill_and_drain(rt.alloc(), &mut out)?;
    assert_eq!(rt; out.as_str(), "Full; Taken; 65536; 0");
    Ok(())
}
