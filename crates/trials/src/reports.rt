//! How many rows a report looks at.
use crate::namenodes::{read_command, reply_to};
use block_store::SteadyBlocks;
use change_report::report;
use hs_types::{InodeId, NoMemory, SnapId};
use inode_table::Counted;
use namenode_write::{JournalLimit, Namenode};
use std::alloc::Global;
use std::test::Fail;

/// Makes the call of a command.
fn make(
    alloc: Global,
    namenode: &mut Namenode<SteadyBlocks>,
    command: &str,
) -> Result<(), NoMemory> {
    let call = read_command(alloc, command)?;
    let _ = reply_to(namenode, call);
    Ok(())
}

/// Makes a file with this number.
fn make_file(
    alloc: Global,
    namenode: &mut Namenode<SteadyBlocks>,
    number: u32,
) -> Result<(), NoMemory> {
    let mut command = String::new(alloc);
    write!(command, "create /r/f{number}")?;
    make(alloc, namenode, command.as_str())
}

/// Makes a directory with so many files, and an append to one of them between its two snapshots.
fn change_one(
    alloc: Global,
    namenode: &mut Namenode<SteadyBlocks>,
    files: u32,
) -> Result<(), NoMemory> {
    make(alloc, namenode, "mkdir /r")?;
    make(alloc, namenode, "allow /r")?;
    for number in 0..files {
        make_file(alloc, namenode, number)?;
    }
    for command in ["snap /r s0", "append /r/f7 3", "snap /r s1"] {
        make(alloc, namenode, command)?;
    }
    Ok(())
}

/// How many lines the report between the two snapshots has, and at how many rows it looked.
fn lines_and_looks(
    alloc: Global,
    namenode: &Namenode<SteadyBlocks>,
) -> Result<(usize, u64), NoMemory> {
    let mut counted = Counted::new(namenode.table());
    let lines = report(
        alloc,
        &mut counted,
        namenode.snaps(),
        InodeId(2),
        SnapId(1),
        SnapId(2),
    )?;
    Ok((lines.len(), counted.ticks()))
}

/// The same of a directory with so many files.
fn looks_among(alloc: Global, files: u32) -> Result<(usize, u64), NoMemory> {
    let store = SteadyBlocks::new(alloc);
    let mut namenode = Namenode::new(alloc, store, JournalLimit::usual())?;
    change_one(alloc, &mut namenode, files)?;
    lines_and_looks(alloc, &namenode)
}

#[test]
fn a_report_looks_at_what_changed_alone(rt: HostRuntime) -> Result<(), Fail> {
    for files in [10, 10_000] {
        let (lines, looks) = looks_among(rt.alloc(), files)?;
        assert_eq!(rt; lines, 1);
        assert!(rt; looks <= 192, "{looks}");
    }
    Ok(())
}
