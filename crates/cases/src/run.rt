//! The run of a case.
use crate::case::Case;
use block_store::MemBlocks;
use hs_types::{Counts, List, NoMemory, PageSize};
use run_output::{Ran, text_of};
use script_runner::{Options, serial_script};
use script_text::{ReadScriptFault, read};
use std::alloc::Global;

/// The most bytes that a script has.
const MOST_BYTES: usize = 16_777_216;

/// The numbers in a text, separated by spaces; where there is no text, none.
fn numbers(alloc: Global, text: Option<&str>) -> Result<List<u64>, NoMemory> {
    let mut list = List::new(alloc);
    for word in text.unwrap_or("").split(' ') {
        list.push(word.parse::<u64>().unwrap_or(0))?;
    }
    Ok(list)
}

fn write_counts(out: &mut String, side: &str, counts: &Counts) -> Result<(), NoMemory> {
    Ok(writeln!(
        out,
        "counts {side} rows {} records {} entries {} snapshots {} blocks {}",
        counts.rows, counts.records, counts.list_entries, counts.snapshots, counts.blocks
    )?)
}

fn write_both_counts(out: &mut String, ran: &Ran) -> Result<(), NoMemory> {
    write_counts(out, "s", &ran.source_end.counts)?;
    write_counts(out, "t", &ran.target_end.counts)
}

fn write_text(alloc: Global, ran: &Ran, out: &mut String) -> Result<(), NoMemory> {
    let text = text_of(alloc, ran)?;
    out.push_str(str::from_utf8(text.items()).unwrap_or("the text of the run is no UTF-8\n"))?;
    Ok(())
}

/// The text of a run, and the counts of both sides behind it where the case asks for them.
fn write_ran(alloc: Global, case: &Case<'_>, ran: &Ran, out: &mut String) -> Result<(), NoMemory> {
    write_text(alloc, ran, out)?;
    if case.asks_for_counts() {
        write_both_counts(out, ran)?;
    }
    Ok(())
}

/// How many entries a page has: as the case says, else as many as may be.
fn page_of(case: &Case<'_>) -> PageSize {
    let count = case
        .setting("page ")
        .and_then(|word| word.parse::<u16>().ok());
    count
        .and_then(PageSize::new)
        .unwrap_or(PageSize::greatest())
}

/// Runs a text over two stores, of which the calls of these numbers fail, counted from 1. A text that is no script has its
/// first bad line.
fn run(
    alloc: Global,
    script: &str,
    page: PageSize,
    source_fails: List<u64>,
    target_fails: List<u64>,
) -> Result<Ran, ReadScriptFault> {
    if script.len() > MOST_BYTES {
        return Err(ReadScriptFault::NoMemory);
    }
    let script = read(alloc, script.as_bytes())?;
    let options = Options { page, workers: 4 };
    let source = MemBlocks::new(alloc, source_fails);
    let target = MemBlocks::new(alloc, target_fails);
    serial_script(alloc, script, &options, source, target).map_err(|_| ReadScriptFault::NoMemory)
}

fn run_case(alloc: Global, case: &Case<'_>, script: &str) -> Result<Ran, ReadScriptFault> {
    let Ok(source) = numbers(alloc, case.setting("source fails at ")) else {
        return Err(ReadScriptFault::NoMemory);
    };
    match numbers(alloc, case.setting("target fails at ")) {
        Ok(target) => run(alloc, script, page_of(case), source, target),
        Err(NoMemory) => Err(ReadScriptFault::NoMemory),
    }
}

/// What the run of a case prints; of a text that is no script the first bad line.
pub fn write_run(
    alloc: Global,
    case: &Case<'_>,
    script: &str,
    out: &mut String,
) -> Result<(), NoMemory> {
    match run_case(alloc, case, script) {
        Ok(ran) => write_ran(alloc, case, &ran, out),
        Err(ReadScriptFault::Bad(fault)) => Ok(writeln!(out, "{fault}")?),
        Err(ReadScriptFault::NoMemory) => Err(NoMemory),
    }
}
