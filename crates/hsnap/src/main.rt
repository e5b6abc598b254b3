//! `hsnap`: HDFS snapshots and incremental DistCp, run from a script of client commands.
#![tactic(auto)]

pub mod command_line;
pub mod serial;
#[cfg(test)]
mod tests;

use block_store::SteadyBlocks;
use hs_io::{StdSink, StdSource};
use hs_types::{List, NameText, NoMemory};
use run_output::Status;
use script_text::ScriptFault;
use std::process::ExitCode;
use std::{env, io};

/// The words of the command line, without the program's own name.
fn words_of(rt: &HostRuntime) -> io::Result<List<NameText>> {
    let mut words = Vec::new(rt.alloc());
    for word in env::args(rt)?.skip(1) {
        words.push(NameText::new(word))?;
    }
    Ok(List::of(words))
}

/// Tells on standard error why not all was done.
fn tell(rt: &HostRuntime, status: Status) -> io::Result<()> {
    match status {
        Status::Ok => Ok(()),
        Status::Usage => { eprintln!(rt; "usage: hsnap MODE [--page N] [--workers N] [--seed N]") }
        Status::Script { line, kind } => eprintln!(rt; "{}", ScriptFault { line, kind }),
        Status::TooLarge => eprintln!(rt; "input too large"),
        Status::ReadFault => eprintln!(rt; "read fault"),
        Status::WriteFault => eprintln!(rt; "write fault"),
        Status::NoMemory => eprintln!(rt; "no memory"),
    }
}

fn main(rt: HostRuntime) -> ExitCode {
    let alloc = rt.alloc();
    // Arguments that can't be had as text aren't the command line, as no words are not.
    let words = words_of(&rt).unwrap_or(List::new(alloc));
    let mut input = StdSource::new(rt.stdin());
    let mut output = StdSink::new(rt.stdout());
    let ran = serial::serial(
        alloc,
        &words,
        &mut input,
        &mut output,
        SteadyBlocks::new(alloc),
        SteadyBlocks::new(alloc),
    );
    let _ = tell(&rt, ran.status);
    ExitCode::from(ran.status.number())
}
