//! Commands over a store that may fail, and what they print.
use block_store::{BlockStore, MemBlocks, SteadyBlocks};
use hs_plain::answer::is_exclusive;
use hs_types::{
    Call, CallerId, Chunk, Entry, EntryKind, InodeId, List, Mode, NameText, NoMemory, PathText,
    Place, ReadCursor, ReadLen, Reply,
};
use namenode_write::{JournalLimit, Namenode};
use std::alloc::Global;
use std::test::Fail;

fn path_text(alloc: Global, text: &str) -> Result<PathText, NoMemory> {
    Ok(PathText::new(String::from_str(alloc, text)?))
}

/// So many bytes that count up from `a` to `z`, again and again.
fn letters(alloc: Global, count: u32) -> Result<Chunk, NoMemory> {
    let mut bytes = Vec::new(alloc);
    for at in 0..count {
        bytes.push(b'a' + (at % 26) as u8)?;
    }
    Chunk::new(bytes).map_err(|_| NoMemory)
}

fn rename(alloc: Global, old: PathText, new: &str) -> Result<Call, NoMemory> {
    Ok(Call::Rename {
        old,
        new: path_text(alloc, new)?,
    })
}

fn append(alloc: Global, path: PathText, count: u32) -> Result<Call, NoMemory> {
    Ok(Call::Append {
        path,
        bytes: letters(alloc, count)?,
    })
}

fn name_text(alloc: Global, text: &str) -> Result<NameText, NoMemory> {
    Ok(NameText::new(String::from_str(alloc, text)?))
}

/// A call on the snapshots of a directory. A new name stands behind the old one.
fn snapshot_call(
    alloc: Global,
    command: &str,
    path: PathText,
    words: &str,
) -> Result<Call, NoMemory> {
    let (word, new) = words.split_once(' ').unwrap_or((words, ""));
    let name = name_text(alloc, word)?;
    Ok(match command {
        "snap" => Call::Snap { path, name },
        "snapdel" => Call::SnapDel { path, name },
        _ => Call::SnapRen {
            path,
            old: name,
            new: name_text(alloc, new)?,
        },
    })
}

fn read_len() -> ReadLen {
    match ReadLen::new(3) {
        Some(len) => len,
        None => unreachable!(),
    }
}

/// A read of three bytes from the inode 2.
fn read_next(offset: u64) -> Call {
    let place = Place::Live(InodeId(2));
    Call::ReadNext {
        cursor: ReadCursor { place, offset },
        len: read_len(),
    }
}

/// The call of a command with a path, and a number where it has one.
fn path_call(command: &str, path: PathText, number: u32) -> Call {
    match command {
        "mkdir" => Call::Mkdir { path },
        "create" => Call::Create { path, over: false },
        "createover" => Call::Create { path, over: true },
        "chmod" => Call::SetMode {
            path,
            mode: Mode::of_directory(),
        },
        "read" => Call::Read {
            path,
            offset: u64::from(number),
            len: read_len(),
        },
        "next" => read_next(u64::from(number)),
        "allow" => Call::Allow { path },
        "disallow" => Call::Disallow { path },
        "rm" => Call::Delete {
            path,
            recursive: false,
        },
        _ => Call::Delete {
            path,
            recursive: true,
        },
    }
}

fn call_of(alloc: Global, command: &str, path: &str, word: &str) -> Result<Call, NoMemory> {
    let path = path_text(alloc, path)?;
    match command {
        "mv" => rename(alloc, path, word),
        "append" => append(alloc, path, word.parse::<u32>().unwrap_or(0)),
        "snap" | "snapdel" | "snapren" => snapshot_call(alloc, command, path, word),
        _ => Ok(path_call(command, path, word.parse::<u32>().unwrap_or(0))),
    }
}

/// The call of a command's words: its name, a path, and what stands behind it.
pub(crate) fn read_command(alloc: Global, text: &str) -> Result<Call, NoMemory> {
    let (command, words) = text.split_once(' ').unwrap_or((text, ""));
    let (path, word) = words.split_once(' ').unwrap_or((words, ""));
    call_of(alloc, command, path, word)
}

pub(crate) fn reply_to<B: BlockStore>(namenode: &mut Namenode<B>, call: Call) -> Reply {
    if is_exclusive(&call) {
        namenode.do_call(CallerId(7), 1, call).reply
    } else {
        Reply::NoMemory
    }
}

fn write_bytes(out: &mut String, bytes: &[u8]) -> Result<(), NoMemory> {
    for byte in bytes {
        out.push(char::from(*byte))?;
    }
    Ok(())
}

fn write_reply(out: &mut String, reply: &Reply) -> Result<(), NoMemory> {
    match reply {
        Reply::Made { id } => write!(out, "made {}", id.0)?,
        Reply::Done => out.push_str("done")?,
        Reply::SnapMade { id } => write!(out, "snap {}", id.0)?,
        Reply::Bytes { bytes, .. } => write_bytes(out, bytes.bytes())?,
        Reply::Refused(why) => out.push_str(why.name())?,
        _ => out.push_str("?")?,
    }
    Ok(())
}

/// A reply, and how many blocks there are behind it.
fn write_answer(out: &mut String, reply: &Reply, blocks: u64) -> Result<(), NoMemory> {
    write_reply(out, reply)?;
    write!(out, " {blocks}; ")?;
    Ok(())
}

/// Makes the call of a command.
fn make<B: BlockStore>(
    alloc: Global,
    namenode: &mut Namenode<B>,
    command: &str,
    out: &mut String,
) -> Result<(), NoMemory> {
    let call = read_command(alloc, command)?;
    let reply = reply_to(namenode, call);
    write_answer(out, &reply, namenode.counts().blocks)
}

/// `A` for each accepted entry, and `F` for each fault.
fn write_kinds(out: &mut String, journal: &[Entry]) -> Result<(), NoMemory> {
    for entry in journal {
        out.push_str(match entry.kind {
            EntryKind::Accepted => "A",
            EntryKind::Faulted => "F",
        })?;
    }
    out.push_str("; ")?;
    Ok(())
}

/// How many lines the tree has, and how deep the last one is.
fn write_tree<B: BlockStore>(out: &mut String, namenode: &Namenode<B>) -> Result<(), NoMemory> {
    let lines = namenode.tree_lines()?;
    let depth = lines.items().last().map_or(0, |line| line.depth);
    write!(out, "{} {depth}; ", lines.len())?;
    Ok(())
}

/// Rows, records, entries of lists and snapshots.
fn write_counts<B: BlockStore>(out: &mut String, namenode: &Namenode<B>) -> Result<(), NoMemory> {
    let counts = namenode.counts();
    write!(out, "{} ", counts.rows)?;
    write!(out, "{} ", counts.records)?;
    write!(out, "{} ", counts.list_entries)?;
    write!(out, "{}; ", counts.snapshots)?;
    Ok(())
}

/// Runs a command: `tree`, `kinds` and `counts` show the namenode, and each other one is a call.
fn run<B: BlockStore>(
    alloc: Global,
    namenode: &mut Namenode<B>,
    command: &str,
    out: &mut String,
) -> Result<(), NoMemory> {
    match command {
        "tree" => write_tree(out, namenode),
        "kinds" => write_kinds(out, namenode.journal().items()),
        "counts" => write_counts(out, namenode),
        _ => make(alloc, namenode, command, out),
    }
}

fn run_all<B: BlockStore>(
    alloc: Global,
    namenode: &mut Namenode<B>,
    commands: &str,
    out: &mut String,
) -> Result<(), NoMemory> {
    for command in commands.split("; ") {
        run(alloc, namenode, command, out)?;
    }
    Ok(())
}

/// Runs commands over a store that never fails.
fn run_steady(alloc: Global, commands: &str, out: &mut String) -> Result<(), NoMemory> {
    run_limited(alloc, JournalLimit::usual(), commands, out)
}

fn run_limited(
    alloc: Global,
    limit: JournalLimit,
    commands: &str,
    out: &mut String,
) -> Result<(), NoMemory> {
    let mut namenode = Namenode::new(alloc, SteadyBlocks::new(alloc), limit)?;
    run_all(alloc, &mut namenode, commands, out)
}

/// A namenode over a store of which the call with this number fails.
fn over_failing(alloc: Global, number: u64) -> Result<Namenode<MemBlocks>, NoMemory> {
    let fails = List::of(Vec::from_slice(alloc, &[number])?);
    Namenode::new(alloc, MemBlocks::new(alloc, fails), JournalLimit::usual())
}

fn run_failing(
    alloc: Global,
    number: u64,
    commands: &str,
    out: &mut String,
) -> Result<(), NoMemory> {
    let mut namenode = over_failing(alloc, number)?;
    run_all(alloc, &mut namenode, commands, out)
}

/// Each kind of call where memory is there. The first row goes over the end of a block; a file that makes way gives up
/// its blocks, and so do all files below a directory that goes.
const CALLS: [(&str, &str); 5] = [
    (
        "create /f; append /f 65536; append /f 2; read /f 65535; next /f 65536; createover /f; read /f",
        "made 2 0; done 1; done 2; pab 2; ab 2; made 3 0;  0; ",
    ),
    (
        "create /f; append /f 1; append /f 65535; append /f 65536",
        "made 2 0; done 1; done 1; done 2; ",
    ),
    (
        "mkdir /a; create /a/f; append /a/f 2; create /a/g; append /a/g 2; chmod /a/g; mv /a/f /a/h; rmr /a; kinds; tree",
        "made 2 0; made 3 0; done 1; made 4 1; done 2; done 2; done 2; done 0; AAAAAAAA; 1 0; ",
    ),
    (
        "mkdir /r; create /r/x; append /r/x 2; allow /r; snap /r s; append /r/x 1; read /r/.snapshot/s/x; read /r/x; rm /r/x; counts; snapren /r s t; disallow /r; snapdel /r t; disallow /r; counts",
        "made 2 0; made 3 0; done 1; done 1; snap 1 1; done 1; ab 1; aba 1; done 1; 3 2 2 1; done 1; HasSnapshots 1; done 0; done 0; 2 0 1 0; ",
    ),
    (
        "mkdir /r; mkdir /out; allow /r; create /r/x; append /r/x 1; snap /r s; mv /r/x /out/x; append /out/x 2; read /r/.snapshot/s/x; read /out/x; snapdel /r s; counts; tree",
        "made 2 0; made 3 0; done 0; made 4 0; done 1; snap 1 1; done 1; done 1; a 1; aab 1; done 1; 4 0 3 0; 4 1; ",
    ),
];

#[test]
fn calls_are_done_where_memory_is_there(rt: HostRuntime) -> Result<(), Fail> {
    for (commands, text) in CALLS {
        let mut out = String::new(rt.alloc());
        run_steady(rt.alloc(), commands, &mut out)?;
        assert_eq!(rt; out.as_str(), text, "{commands}");
    }
    Ok(())
}

// ---- three snapshots, deleted in each order

/// Two snapshottable directories, with what they hold.
const HELD: (&str, &str) = (
    "mkdir /r; mkdir /q; allow /r; allow /q; create /r/x; append /r/x 1; create /r/d; append /r/d 1; create /q/y; append /q/y 1; counts",
    "made 2 0; made 3 0; done 0; done 0; made 4 0; done 1; made 5 1; done 2; made 6 2; done 3; 6 0 5 0; ",
);

/// A file is moved out of one into the other and gets bytes there, is moved in again, and is replaced. One more gets bytes and
/// is deleted, and one is deleted as it was.
const SNAPPED: (&str, &str) = (
    "snap /r s1; mv /r/x /q/x; append /q/x 1; snap /q s2; append /q/y 1; rm /r/d; mv /q/x /r/z; snap /r s3; createover /r/z; append /r/z 1; rm /q/y; create /q/w; counts",
    "snap 1 3; done 3; done 3; snap 2 3; done 3; done 3; done 3; snap 3 3; made 7 3; done 4; done 4; made 8 4; 8 6 12 3; ",
);

/// The deletions in each order. A record stays while any live snapshot is in its interval, of whichever directory. At the end the
/// live tree alone is counted.
const ORDERS: [(&str, &str); 6] = [
    (
        "snapdel /r s1; counts; snapdel /q s2; counts; disallow /r; disallow /q; snapdel /r s3; counts; disallow /r; tree",
        "done 3; 7 4 9 2; done 2; 6 1 6 1; HasSnapshots 2; done 2; done 1; 5 0 4 0; done 1; 5 2; ",
    ),
    (
        "snapdel /r s1; counts; snapdel /r s3; counts; read /q/.snapshot/s2/x; snapdel /q s2; counts; tree",
        "done 3; 7 4 9 2; done 3; 7 4 9 1; aa 3; done 1; 5 0 4 0; 5 2; ",
    ),
    (
        "snapdel /q s2; counts; read /r/.snapshot/s1/x; read /r/.snapshot/s3/z; snapdel /r s1; counts; snapdel /r s3; counts; tree",
        "done 4; 8 5 12 2; a 4; aa 4; done 2; 6 1 6 1; done 1; 5 0 4 0; 5 2; ",
    ),
    (
        "snapdel /q s2; counts; snapdel /r s3; counts; read /r/.snapshot/s1/x; read /r/.snapshot/s1/d; snapdel /r s1; counts; tree",
        "done 4; 8 5 12 2; done 4; 8 4 10 1; a 4; a 4; done 1; 5 0 4 0; 5 2; ",
    ),
    (
        "snapdel /r s3; counts; snapdel /r s1; counts; read /q/.snapshot/s2/y; snapdel /q s2; counts; disallow /q; disallow /r; tree",
        "done 4; 8 6 12 2; done 3; 7 4 9 1; a 3; done 1; 5 0 4 0; done 1; done 1; 5 2; ",
    ),
    (
        "snapdel /r s3; counts; snapdel /q s2; counts; read /r/.snapshot/s1/x; snapdel /r s1; counts; snapdel /r s1; tree",
        "done 4; 8 6 12 2; done 4; 8 4 10 1; a 4; done 1; 5 0 4 0; NoSnapshot 1; 5 2; ",
    ),
];

/// Runs the first commands, the next ones and the last ones on one namenode.
fn run_three(
    alloc: Global,
    first: &str,
    next: &str,
    last: &str,
    out: &mut String,
) -> Result<(), NoMemory> {
    let blocks = SteadyBlocks::new(alloc);
    let mut namenode = Namenode::new(alloc, blocks, JournalLimit::usual())?;
    run_all(alloc, &mut namenode, first, out)?;
    run_all(alloc, &mut namenode, next, out)?;
    run_all(alloc, &mut namenode, last, out)
}

#[test]
fn snapshots_are_deleted_in_each_order(rt: HostRuntime) -> Result<(), Fail> {
    for (commands, text) in ORDERS {
        let mut out = String::new(rt.alloc());
        run_three(rt.alloc(), HELD.0, SNAPPED.0, commands, &mut out)?;
        let wanted = format!(in rt.alloc(); "{}{}{text}", HELD.1, SNAPPED.1)?;
        assert_eq!(rt; out.as_str(), wanted.as_str(), "{commands}");
    }
    Ok(())
}

#[test]
fn a_full_journal_takes_no_entry(rt: HostRuntime) -> Result<(), Fail> {
    let Some(limit) = JournalLimit::of(2) else {
        unreachable!()
    };
    let mut out = String::new(rt.alloc());
    let commands = "mkdir /a; mkdir /b; mkdir /c; mkdir /a; kinds";
    run_limited(rt.alloc(), limit, commands, &mut out)?;
    assert_eq!(rt;
        out.as_str(),
        "made 2 0; made 3 0; JournalFull 0; Exists 0; AA; "
    );
    Ok(())
}

/// A file is made, gets bytes twice, is read and is deleted, and another file is made. The store makes a block and
/// writes it, writes it again, reads it and frees it.
const SIX: &str = "create /f; append /f 2; append /f 3; read /f; rm /f; create /g; kinds";

/// A file gets bytes up to one before the end of a block, then one more there and one in a new block, and both are read.
/// The store makes a block and writes it, writes it again, makes another and writes that, and reads both.
const OVER: &str = "create /f; append /f 65535; append /f 2; read /f 65534; kinds";

/// A snapshot keeps a file that is deleted; the snapshot is deleted, and then another file is made and deleted. The store makes
/// a block and writes it, and frees it once the snapshot goes, or else when the next file comes.
const KEPT: &str =
    "mkdir /r; create /r/x; append /r/x 2; allow /r; snap /r s; rm /r/x; snapdel /r s; create /y; kinds";

/// What they print where the call of the store with this number fails.
const FAILING: [(u64, &str, &str); 16] = [
    (
        1,
        SIX,
        "made 2 0; StoreFault 0; done 1; abc 1; done 0; made 3 0; AFAAA; ",
    ),
    (
        2,
        SIX,
        "made 2 0; StoreFault 1; done 2; abc 2; done 0; made 3 0; AFAAA; ",
    ),
    (
        3,
        SIX,
        "made 2 0; done 1; StoreFault 1; ab 1; done 0; made 3 0; AAFAA; ",
    ),
    (
        4,
        SIX,
        "made 2 0; done 1; done 1; StoreFault 1; done 0; made 3 0; AAAFAA; ",
    ),
    (
        5,
        SIX,
        "made 2 0; done 1; done 1; aba 1; done 1; made 3 0; AAAAA; ",
    ),
    (
        6,
        SIX,
        "made 2 0; done 1; done 1; aba 1; done 0; made 3 0; AAAAA; ",
    ),
    (3, OVER, "made 2 0; done 1; StoreFault 1; o 1; AAF; "),
    (4, OVER, "made 2 0; done 1; StoreFault 1; o 1; AAF; "),
    (5, OVER, "made 2 0; done 1; StoreFault 2; o 2; AAF; "),
    (6, OVER, "made 2 0; done 1; done 2; StoreFault 2; AAAF; "),
    (7, OVER, "made 2 0; done 1; done 2; StoreFault 2; AAAF; "),
    (8, OVER, "made 2 0; done 1; done 2; oab 2; AAA; "),
    (
        1,
        KEPT,
        "made 2 0; made 3 0; StoreFault 0; done 0; snap 1 0; done 0; done 0; made 4 0; AAFAAAAA; ",
    ),
    (
        2,
        KEPT,
        "made 2 0; made 3 0; StoreFault 1; done 1; snap 1 1; done 0; done 0; made 4 0; AAFAAAAA; ",
    ),
    (
        3,
        KEPT,
        "made 2 0; made 3 0; done 1; done 1; snap 1 1; done 1; done 1; made 4 0; AAAAAAAA; ",
    ),
    (
        4,
        KEPT,
        "made 2 0; made 3 0; done 1; done 1; snap 1 1; done 1; done 0; made 4 0; AAAAAAAA; ",
    ),
];

#[test]
fn a_fault_of_the_store_is_answered_and_entered(rt: HostRuntime) -> Result<(), Fail> {
    for (number, commands, text) in FAILING {
        let mut out = String::new(rt.alloc());
        run_failing(rt.alloc(), number, commands, &mut out)?;
        assert_eq!(rt; out.as_str(), text, "{number}: {commands}");
    }
    Ok(())
}

// ---- a tree that is deeper than any path of a call

/// How many pieces the tree is made of, and how deep each is.
const PIECES: u32 = 22;

const PIECE: u32 = 50;

/// The path of so many directories below the top of a piece.
fn write_below(out: &mut String, piece: u32, depth: u32) -> Result<(), NoMemory> {
    write!(out, "/p{piece}")?;
    for _ in 0..depth {
        out.push_str("/a")?;
    }
    Ok(())
}

/// The commands for a piece: a directory in the root, and a chain below it.
fn write_piece(out: &mut String, piece: u32) -> Result<(), NoMemory> {
    for depth in 0..PIECE {
        out.push_str("mkdir ")?;
        write_below(out, piece, depth)?;
        out.push_str("; ")?;
    }
    Ok(())
}

/// The command that hangs a piece, with all that hangs on it, on the end of the one before.
fn write_hang(out: &mut String, on: u32) -> Result<(), NoMemory> {
    write!(out, "mv /p{} ", on.saturating_add(1))?;
    write_below(out, on, PIECE - 1)?;
    out.push_str("/b; ")?;
    Ok(())
}

fn write_deep(out: &mut String) -> Result<(), NoMemory> {
    for piece in 0..PIECES {
        write_piece(out, piece)?;
    }
    for on in (0..PIECES - 1).rev() {
        write_hang(out, on)?;
    }
    out.push_str("tree; rmr /p0; tree")?;
    Ok(())
}

fn run_deep(alloc: Global, out: &mut String) -> Result<(), NoMemory> {
    let mut commands = String::new(alloc);
    write_deep(&mut commands)?;
    run_steady(alloc, commands.as_str(), out)
}

#[test]
fn a_tree_of_depth_1100_is_made_printed_and_deleted(rt: HostRuntime) -> Result<(), Fail> {
    let mut out = String::new(rt.alloc());
    run_deep(rt.alloc(), &mut out)?;
    assert!(rt; out.as_str().ends_with("done 0; 1101 1100; done 0; 1 0; "));
    Ok(())
}
