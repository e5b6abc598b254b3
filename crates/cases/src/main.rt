//! Runs each case that is named on the command line, and prints a line for each: a case is a file with a script, and what
//! the run of it must print.
#![tactic(auto)]

mod case;
mod compare;
mod run;

use case::{Case, expanded};
use compare::write_difference;
use hs_types::NoMemory;
use run::write_run;
use std::alloc::Global;
use std::process::ExitCode;
use std::{env, fs, io};

/// Runs the script of a case, and writes what it prints.
fn print_case(alloc: Global, case: &Case<'_>, out: &mut String) -> Result<(), NoMemory> {
    let script = expanded(alloc, case.script)?;
    write_run(alloc, case, script.as_str(), out)
}

/// Writes `ok`, or what differs between what was printed and what is wanted.
fn judge(
    alloc: Global,
    name: &str,
    case: &Case<'_>,
    printed: &str,
    out: &mut String,
) -> Result<(), NoMemory> {
    let lines = expanded(alloc, case.lines)?;
    write_difference(name, lines.as_str(), case.is_whole, printed, out)
}

fn write_case(
    alloc: Global,
    name: &str,
    case: &Case<'_>,
    out: &mut String,
) -> Result<(), NoMemory> {
    let mut printed = String::new(alloc);
    print_case(alloc, case, &mut printed)?;
    judge(alloc, name, case, printed.as_str(), out)
}

/// Runs a case, and prints `ok`, or what differs.
fn print_verdict(rt: &HostRuntime, name: &str, case: &Case<'_>) -> io::Result<()> {
    let mut out = String::new(rt.alloc());
    match write_case(rt.alloc(), name, case, &mut out) {
        Ok(()) => print!(rt; "{out}"),
        Err(NoMemory) => println!(rt; "FAILED {name}: no memory"),
    }
}

/// Runs a case that stands in one file.
fn run_case(rt: &HostRuntime, name: &str) -> io::Result<()> {
    let text = fs::read_to_string(rt, name)?;
    match Case::read(text.as_str()) {
        Some(case) => print_verdict(rt, name, &case),
        None => println!(rt; "FAILED {name}: a case has a line `script` and a line `prints`"),
    }
}

/// Runs a script that has what it prints in a file beside it.
fn run_example(rt: &HostRuntime, name: &str, stem: &str) -> io::Result<()> {
    let script = fs::read_to_string(rt, name)?;
    let lines = fs::read_to_string(rt, format!(in rt.alloc(); "{stem}.expected")?)?;
    print_verdict(rt, name, &Case::of(script.as_str(), lines.as_str()))
}

fn run_file(rt: &HostRuntime, name: &str) -> io::Result<()> {
    match name.strip_suffix(".hsnap") {
        Some(stem) => run_example(rt, name, stem),
        None => run_case(rt, name),
    }
}

fn run_files(rt: &HostRuntime) -> io::Result<()> {
    for name in env::args(rt)?.skip(1) {
        run_file(rt, name.as_str())?;
    }
    Ok(())
}

fn main(rt: HostRuntime) -> ExitCode {
    match run_files(&rt) {
        Ok(()) => ExitCode::SUCCESS,
        Err(fault) => {
            let _ = eprintln!(rt; "{fault}");
            ExitCode::FAILURE
        }
    }
}
