//! What no case can show: words that are no command line, ends that fail, and inputs at the limit, over ends and stores in
//! memory.
use crate::command_line::{Words, WordsFault, read_words};
use crate::serial::serial;
use block_store::SteadyBlocks;
use hs_io::{MemSink, MemSource};
use hs_types::{List, NameText, NoMemory};
use run_output::Status;
use std::alloc::Global;
use std::test::Fail;

fn one(alloc: Global, number: u64) -> Result<List<u64>, NoMemory> {
    Ok(List::of(Vec::from_slice(alloc, &[number])?))
}

/// The words of a line. A space ends a word.
fn words_of(alloc: Global, line: &str) -> Result<List<NameText>, NoMemory> {
    let mut words = List::new(alloc);
    for word in line.split_terminator(' ') {
        words.push(NameText::new(String::from_str(alloc, word)?))?;
    }
    Ok(words)
}

fn write_words(out: &mut String, read: Result<Words, WordsFault>) -> Result<(), NoMemory> {
    match read {
        Ok(
            Words {
                mode,
                page,
                workers,
                seed,
            },
        ) => Ok(write!(out, "{mode:?} {} {workers} {seed}", page.entries())?),
        Err(fault) => Ok(write!(out, "{fault:?}")?),
    }
}

/// Whether the words of a line are read as this.
fn reads_as(alloc: Global, line: &str, text: &str) -> Result<bool, NoMemory> {
    let mut out = String::new(alloc);
    let words = words_of(alloc, line)?;
    write_words(&mut out, read_words(alloc, &words))?;
    Ok(out.as_str() == text)
}

/// A line, and the mode, the page, the workers and the seed that its words say.
const LINES: [(&str, &str); 36] = [
    ("serial", "Serial 1000 4 0"),
    ("gen", "Generated 1000 4 0"),
    ("serial --page 2", "Serial 2 4 0"),
    ("--page 2 serial", "Serial 2 4 0"),
    (
        "--page=1000 serial --workers 8 --seed=4294967295",
        "Serial 1000 8 4294967295",
    ),
    ("gen --seed 7 --workers=1 --page=1", "Generated 1 1 7"),
    ("serial --page=+5", "Serial 5 4 0"),
    ("serial --page +5", "Serial 5 4 0"),
    ("serial --page 0005", "Serial 5 4 0"),
    ("serial --seed=-0", "Serial 1000 4 0"),
    ("serial --", "Serial 1000 4 0"),
    ("-- serial", "Serial 1000 4 0"),
    ("--page 3 -- serial", "Serial 3 4 0"),
    ("", "Usage"),
    (" ", "Usage"),
    ("--", "Usage"),
    ("-", "Usage"),
    ("walk", "Usage"),
    ("Serial", "Usage"),
    ("serial gen", "Usage"),
    ("serial ", "Serial 1000 4 0"),
    ("serial  ", "Usage"),
    ("gen --page 0", "Usage"),
    ("serial --page 1001", "Usage"),
    ("serial --workers 9", "Usage"),
    ("serial --seed 4294967296", "Usage"),
    ("serial --seed -0", "Usage"),
    ("serial --page", "Usage"),
    ("serial --page=", "Usage"),
    ("serial --page 2 --page 3", "Usage"),
    ("serial --page two", "Usage"),
    ("serial --pag 2", "Usage"),
    ("serial -p 2", "Usage"),
    ("serial --help", "Usage"),
    ("serial -- --", "Usage"),
    ("-- serial --page 2", "Usage"),
];

#[test]
fn words_are_read(rt: HostRuntime) -> Result<(), Fail> {
    let alloc = rt.alloc();
    for (line, text) in LINES {
        assert!(rt; reads_as(alloc, line, text)?, "{line}");
    }
    Ok(())
}

/// A script, and behind it a comment of so many bytes.
fn bytes_of(alloc: Global, script: &str, comment: u32) -> Result<List<u8>, NoMemory> {
    let mut bytes = Vec::from_slice(alloc, script.as_bytes())?;
    for _ in 0..comment {
        bytes.push(b'#')?;
    }
    Ok(List::of(bytes))
}

fn source_of(alloc: Global, bytes: List<u8>, fails: u64) -> Result<MemSource, NoMemory> {
    Ok(MemSource::new(alloc, bytes, one(alloc, fails)?))
}

fn status_of(
    alloc: Global,
    words: &List<NameText>,
    source: &mut MemSource,
    sink: &mut MemSink,
) -> Status {
    let blocks = SteadyBlocks::new(alloc);
    let others = SteadyBlocks::new(alloc);
    serial(alloc, words, source, sink, blocks, others).status
}

/// How a run with these words ends, which writes to the sink.
fn run_to(
    alloc: Global,
    line: &str,
    mut source: MemSource,
    sink: &mut MemSink,
) -> Result<Status, NoMemory> {
    let words = words_of(alloc, line)?;
    Ok(status_of(alloc, &words, &mut source, sink))
}

/// Writes how a run ends and what it wrote, where this call of the sink fails.
fn write_run(
    alloc: Global,
    line: &str,
    source: MemSource,
    fails: u64,
    out: &mut String,
) -> Result<(), NoMemory> {
    let mut sink = MemSink::new(alloc, one(alloc, fails)?);
    let status = run_to(alloc, line, source, &mut sink)?;
    let written = str::from_utf8(sink.written().items()).unwrap_or("?");
    Ok(write!(out, "{status:?} {written}.")?)
}

/// The words of the command line, a script with the length of a comment behind it, the calls of the source and the sink that
/// fail (0 is none), and what the status and the text begin with.
const RUNS: [(&str, &str, u32, u64, u64, &str); 13] = [
    ("", "", 0, 0, 0, "Usage ."),
    ("walk", "", 0, 0, 0, "Usage ."),
    ("serial --page 0", "", 0, 0, 0, "Usage ."),
    // A generated script: nothing is read, from a source that would fail.
    (
        "gen --seed 7",
        "s ls /\n",
        0,
        1,
        0,
        "Ok gen seed 7\nsource entries 237 nodes 224 snapshots 5\n\
         target entries 237 nodes 224 snapshots 3\nsyncs 2 done 2\n.",
    ),
    (
        "--page 1 serial",
        "s mkdir /a\ns mkdir /b\ns ls /\n",
        0,
        0,
        0,
        "Ok setup\n1 s@0 made 2\n2 s@1 made 3\n3 s@2 page 1 more\n  dir 2 a\n3 s@2 page 1 end\n",
    ),
    (
        "serial",
        "s mkdir /a\nt ls /\n",
        0,
        0,
        0,
        "Ok setup\n1 s@0 made 2\n2 t@0 page 0 end\nfinish\n",
    ),
    ("serial", "s ls /\nmkdir /a", 0, 0, 0, "Script"),
    // The input takes one call, and its end another; the run is written by one call.
    ("serial", "s ls /\n", 0, 1, 0, "ReadFault ."),
    ("serial", "s ls /\n", 0, 2, 0, "ReadFault ."),
    ("serial", "s ls /\n", 0, 0, 1, "WriteFault ."),
    (
        "serial",
        "s ls /\n",
        0,
        3,
        2,
        "Ok setup\n1 s@0 page 0 end\n",
    ),
    // 16,777,216 bytes, and one more.
    ("serial", "\n", 16_777_215, 0, 0, "Ok setup\nfinish\n"),
    ("serial", "\n", 16_777_216, 0, 0, "TooLarge ."),
];

/// Whether a run begins with this text.
fn gives(
    alloc: Global,
    line: &str,
    source: MemSource,
    fails: u64,
    text: &str,
) -> Result<bool, NoMemory> {
    let mut out = String::new(alloc);
    write_run(alloc, line, source, fails, &mut out)?;
    Ok(out.as_str().starts_with(text))
}

#[test]
fn a_run_ends_as_its_ends_do(rt: HostRuntime) -> Result<(), Fail> {
    let alloc = rt.alloc();
    for (line, script, comment, read, write, text) in RUNS {
        let source = source_of(alloc, bytes_of(alloc, script, comment)?, read)?;
        assert!(rt; gives(alloc, line, source, write, text)?, "{text}");
    }
    Ok(())
}
