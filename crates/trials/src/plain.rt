//! The plain machine: each call's answer in the state that the journal so far stands for.
use hs_plain::answer::{answer_of, is_modifying};
use hs_plain::replay::replay;
use hs_types::{
    Call, CallerId, Chunk, DirItem, Entry, EntryKind, Item, Line, LineKind, List, ListCursor, Mode,
    Name, NameText, NoMemory, PageSize, PathText, Point, ReadCursor, ReadLen, Refusal, Reply,
    ReportCursor, SnapItem,
};
use std::alloc::Global;
use std::test::Fail;

/// The pages of these tests have two entries, or two bytes.
fn page_of_two() -> PageSize {
    PageSize::new(2).unwrap_or(PageSize::greatest())
}

fn two_bytes() -> ReadLen {
    ReadLen::new(2).unwrap_or(ReadLen::greatest())
}

fn path_text(alloc: Global, text: &str) -> Result<PathText, NoMemory> {
    Ok(PathText::new(String::from_str(alloc, text)?))
}

fn name_text(alloc: Global, text: &str) -> Result<NameText, NoMemory> {
    Ok(NameText::new(String::from_str(alloc, text)?))
}

fn point(alloc: Global, text: &str) -> Result<Point, NoMemory> {
    if text == "." {
        return Ok(Point::Now);
    }
    Ok(Point::Snapshot(name_text(alloc, text)?))
}

// ---- commands

fn append(alloc: Global, path: PathText, word: &str) -> Result<Call, NoMemory> {
    let bytes = Vec::from_slice(alloc, word.as_bytes())?;
    let bytes = Chunk::new(bytes).map_err(|_| NoMemory)?;
    Ok(Call::Append { path, bytes })
}

fn rename(path: PathText, new: PathText) -> Call {
    Call::Rename { old: path, new }
}

fn rename_snapshot(
    path: PathText,
    old: NameText,
    new: Result<NameText, NoMemory>,
) -> Result<Call, NoMemory> {
    Ok(Call::SnapRen {
        path,
        old,
        new: new?,
    })
}

fn report(path: PathText, from: Point, to: Result<Point, NoMemory>) -> Result<Call, NoMemory> {
    Ok(Call::Report {
        path,
        from,
        to: to?,
        size: page_of_two(),
    })
}

/// The call of a command with a path alone.
fn path_call(command: &str, path: PathText) -> Call {
    match command {
        "mkdir" => Call::Mkdir { path },
        "create" => Call::Create { path, over: false },
        "createover" => Call::Create { path, over: true },
        "rm" => Call::Delete {
            path,
            recursive: false,
        },
        "rmr" => Call::Delete {
            path,
            recursive: true,
        },
        "chmod" => Call::SetMode {
            path,
            mode: Mode::of_file(),
        },
        "allow" => Call::Allow { path },
        "disallow" => Call::Disallow { path },
        "stat" => Call::Stat { path },
        "cat" => Call::Read {
            path,
            offset: 0,
            len: two_bytes(),
        },
        "ls" => Call::List {
            path,
            size: page_of_two(),
        },
        "snaps" => Call::Snaps { path },
        _ => Call::Dirs,
    }
}

/// The call of a command with a path and two words, of which the second is empty where there is one.
fn call_of(
    alloc: Global,
    command: &str,
    path: PathText,
    first: &str,
    second: &str,
) -> Result<Call, NoMemory> {
    match command {
        "append" => append(alloc, path, first),
        "mv" => Ok(rename(path, path_text(alloc, first)?)),
        "snap" => Ok(Call::Snap {
            path,
            name: name_text(alloc, first)?,
        }),
        "snapdel" => Ok(Call::SnapDel {
            path,
            name: name_text(alloc, first)?,
        }),
        "snapren" => rename_snapshot(path, name_text(alloc, first)?, name_text(alloc, second)),
        "diff" => report(path, point(alloc, first)?, point(alloc, second)),
        _ => Ok(path_call(command, path)),
    }
}

fn split(text: &str) -> (&str, &str) {
    text.split_once(' ').unwrap_or((text, ""))
}

/// The call of a command's words: its name, a path, and two more or fewer.
fn read_command(alloc: Global, text: &str) -> Result<Call, NoMemory> {
    let (command, words) = split(text);
    let (path, words) = split(words);
    let (first, second) = split(words);
    call_of(alloc, command, path_text(alloc, path)?, first, second)
}

// ---- replies

fn write_names(out: &mut String, names: &[Name]) -> Result<(), NoMemory> {
    out.push('.')?;
    for name in names {
        out.push('/')?;
        out.push_str(name.text())?;
    }
    Ok(())
}

fn sign(kind: LineKind) -> &'static str {
    match kind {
        LineKind::Deleted => "- ",
        LineKind::Renamed => "R ",
        LineKind::Modified => "M ",
        LineKind::Created => "+ ",
    }
}

fn write_line(out: &mut String, line: &Line) -> Result<(), NoMemory> {
    out.push_str(sign(line.kind))?;
    write_names(out, line.path.items())?;
    if let Some(to) = &line.to {
        out.push_str(" -> ")?;
        write_names(out, to.items())?;
    }
    Ok(out.push_str(", ")?)
}

fn write_lines(out: &mut String, lines: &[Line]) -> Result<(), NoMemory> {
    for line in lines {
        write_line(out, line)?;
    }
    Ok(())
}

fn write_items(out: &mut String, items: &[Item]) -> Result<(), NoMemory> {
    for item in items {
        write!(out, "{} {}, ", item.id.0, item.name.text())?;
    }
    Ok(())
}

fn write_snaps(out: &mut String, list: &[SnapItem]) -> Result<(), NoMemory> {
    for item in list {
        write!(out, "{} {} {}, ", item.id.0, item.tick, item.name.text())?;
    }
    Ok(())
}

fn write_dirs(out: &mut String, list: &[DirItem]) -> Result<(), NoMemory> {
    for item in list {
        write!(out, "{} {} {}, ", item.id.0, item.count, item.path.text())?;
    }
    Ok(())
}

fn write_refusal(out: &mut String, why: &Refusal) -> Result<(), NoMemory> {
    match why {
        Refusal::Moved { then, now } => Ok(write!(out, "Moved {then} {now}")?),
        _ => Ok(out.push_str(why.name())?),
    }
}

fn write_bytes(out: &mut String, bytes: &[u8]) -> Result<(), NoMemory> {
    for byte in bytes {
        out.push(char::from(*byte))?;
    }
    Ok(())
}

fn write_reply(out: &mut String, reply: &Reply) -> Result<(), NoMemory> {
    match reply {
        Reply::Made { id } => Ok(write!(out, "{}", id.0)?),
        Reply::Done => Ok(out.push_str("done")?),
        Reply::SnapMade { id } => Ok(write!(out, "snap {}", id.0)?),
        Reply::Bytes { bytes, .. } => write_bytes(out, bytes.bytes()),
        Reply::Stat {
            mode,
            stamp,
            size,
            ..
        } => Ok(write!(out, "{:o} {stamp} {size}", mode.bits())?),
        Reply::Page { items, .. } => write_items(out, items.items()),
        Reply::Snaps { list, .. } => write_snaps(out, list.items()),
        Reply::Dirs { list } => write_dirs(out, list.items()),
        Reply::Report { lines, .. } => write_lines(out, lines.items()),
        Reply::Refused(why) => write_refusal(out, why),
        Reply::NoMemory => Ok(out.push_str("no memory")?),
    }
}

fn bytes_behind(next: Option<ReadCursor>) -> Option<Call> {
    match next {
        Some(cursor) => Some(Call::ReadNext {
            cursor,
            len: two_bytes(),
        }),
        None => None,
    }
}

fn items_behind(next: Option<ListCursor>) -> Option<Call> {
    match next {
        Some(cursor) => Some(Call::ListNext {
            cursor,
            size: page_of_two(),
        }),
        None => None,
    }
}

fn lines_behind(next: Option<ReportCursor>) -> Option<Call> {
    match next {
        Some(cursor) => Some(Call::ReportNext {
            cursor,
            size: page_of_two(),
        }),
        None => None,
    }
}

/// The call for the page behind a reply, if it has a cursor.
fn behind(reply: Reply) -> Option<Call> {
    match reply {
        Reply::Bytes { next, .. } => bytes_behind(next),
        Reply::Page { next, .. } => items_behind(next),
        Reply::Report { next, .. } => lines_behind(next),
        _ => None,
    }
}

fn is_accepted(reply: &Reply) -> bool {
    !matches!(reply, Reply::Refused(_) | Reply::NoMemory)
}

// ---- runs

/// The journal so far, and the call for the page behind the last reply.
#[derive(Drop)]
struct Past {
    entries: List<Entry>,
    next: Option<Call>,
}

fn entry_of(call: Call) -> Entry {
    Entry {
        caller: CallerId(0),
        seq: 1,
        kind: EntryKind::Accepted,
        call,
    }
}

/// What the plain machine answers in the state that the entries stand for.
fn answer_behind(alloc: Global, entries: &List<Entry>, call: &Call) -> Result<Reply, NoMemory> {
    let state = replay(alloc, entries)?;
    Ok(answer_of(alloc, &state, call))
}

/// Whether a call leaves an entry, being answered so.
fn leaves_entry(call: &Call, reply: &Reply) -> bool {
    is_modifying(call) && is_accepted(reply)
}

fn keep_next(past: &mut Past, reply: Reply) {
    past.next = behind(reply);
}

/// Enters a call that was accepted, or else keeps the call for the page behind its reply.
fn enter(past: &mut Past, call: Call, reply: Reply) -> Result<(), NoMemory> {
    if leaves_entry(&call, &reply) {
        return past.entries.push(entry_of(call));
    }
    keep_next(past, reply);
    Ok(())
}

fn write_told(out: &mut String, reply: &Reply) -> Result<(), NoMemory> {
    write_reply(out, reply)?;
    Ok(out.push_str("; ")?)
}

/// Writes what a call was told, and enters it.
fn tell(past: &mut Past, call: Call, reply: Reply, out: &mut String) -> Result<(), NoMemory> {
    let written = write_told(out, &reply);
    enter(past, call, reply)?;
    written
}

fn make(alloc: Global, past: &mut Past, call: Call, out: &mut String) -> Result<(), NoMemory> {
    match answer_behind(alloc, &past.entries, &call) {
        Ok(reply) => tell(past, call, reply, out),
        Err(NoMemory) => Err(NoMemory),
    }
}

/// Runs a command; `more` asks for the page behind the last reply.
fn run(alloc: Global, past: &mut Past, command: &str, out: &mut String) -> Result<(), NoMemory> {
    if command != "more" {
        return make(alloc, past, read_command(alloc, command)?, out);
    }
    match past.next.take() {
        Some(call) => make(alloc, past, call, out),
        None => Ok(out.push_str("no cursor; ")?),
    }
}

fn run_all(alloc: Global, commands: &str, out: &mut String) -> Result<(), NoMemory> {
    let mut past = Past {
        entries: List::new(alloc),
        next: None,
    };
    for command in commands.split("; ") {
        run(alloc, &mut past, command, out)?;
    }
    Ok(())
}

/// Each call of the plain machine, where memory is there.
const ROWS: [(&str, &str); 6] = [
    (
        "mkdir /a; create /a/f; append /a/f abc; cat /a/f; more; more; createover /a/f; chmod /a/f; stat /a/f; mv /a/f /b; rm /b; ls /; rmr /a; ls /",
        "2; 3; done; ab; c; no cursor; 4; done; 644 5 0; done; done; 2 a, ; done; ; ",
    ),
    (
        "mkdir /r; create /r/a; create /r/b; create /r/c; allow /r; snap /r s; rm /r/a; ls /r/.snapshot/s; more; ls /r; snapren /r s t; snaps /r; dirs; stat /r/.snapshot; snapdel /r t; disallow /r; dirs",
        "2; 3; 4; 5; done; snap 1; done; 3 a, 4 b, ; 5 c, ; 4 b, 5 c, ; done; 1 6 t, ; 2 1 /r, ; 755 7 1; done; done; ; ",
    ),
    (
        "mkdir /r; mkdir /r/a; mkdir /r/b; create /r/a/x; allow /r; snap /r A; mv /r/a/x /r/b/x; create /r/a/x; snap /r B; diff /r A B; more; more; diff /r B .; rm /r/b/x; diff /r B .",
        "2; 3; 4; 5; done; snap 1; done; 6; snap 2; M ./a, R ./a/x -> ./b/x, ; + ./a/x, M ./b, ; no cursor; ; done; M ./b, - ./b/x, ; ",
    ),
    (
        "mkdir /r; allow /r; snap /r s0; mkdir /r/a; mkdir /r/b; diff /r s0 .; mkdir /z; more",
        "2; done; snap 1; 3; 4; M ., + ./a, ; 5; Moved 5 6; ",
    ),
    (
        "mkdir /r; create /r/a; create /r/b; create /r/c; allow /r; snap /r s; ls /r/.snapshot/s; snapdel /r s; more",
        "2; 3; 4; 5; done; snap 1; 3 a, 4 b, ; done; Gone; ",
    ),
    (
        "mkdir /r; allow /r; mkdir /r/d; allow /r/d; snap /r s; rmr /r; mv /r /q; snap /r s; snapren /r s s; disallow /r",
        "2; done; 3; Nested; snap 1; HasSnapshots; HasSnapshots; SnapshotExists; SnapshotExists; HasSnapshots; ",
    ),
];

#[test]
fn each_call_is_answered_behind_the_ones_before(rt: HostRuntime) -> Result<(), Fail> {
    for (commands, text) in ROWS {
        let mut out = String::new(rt.alloc());
        run_all(rt.alloc(), commands, &mut out)?;
        assert_eq!(rt; out.as_str(), text, "{commands}");
    }
    Ok(())
}
