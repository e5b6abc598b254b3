//! The text of a run.
ghost use Rattle.std.specs.Prelude.{◌≡◌, ◌++◌, ◌∷◌, [], ℕ, List, IfOk, OnOk, codes, length, string_bytes, map};
ghost use Rattle.std.specs.Fmt.{decimal};
ghost use Rattle.std.specs.List.{flat_map};
ghost use Rattle.percent_encoding.specs.Iter.{encoded_text};
ghost use Rattle.run_output.specs.TextParts.{spaced, ended, indented, escaped, shown, mode_text};
ghost use Rattle.hs_types.specs.declared.call.Call.TheVariants as calls;
ghost use Rattle.hs_types.specs.declared.reply.Reply.TheVariants.{Refused};
ghost use Rattle.run_output.specs.CallText.{create_word, delete_word, call_text};
ghost use Rattle.run_output.specs.ReplyText.{side_word, kind_word, more_or_end, reply_text, item_text, snap_text, dir_text, letter, relative, target_text, line_text, further_lines, reply_line, answered_lines};
ghost use Rattle.run_output.specs.Text.{item_lines, heading, log_lines, marked, entry_line, journal_lines, node_name, dir_line, file_line, node_line, tree_lines, text_of};

use crate::ran::{ClientLog, LogItem, LogWhat, Ran};
use crate::sync_text::write_sync;
use hs_types::{
    Answered, Call, DirItem, Entry, EntryKind, Item, Line, LineKind, List, Mode, Name, NoMemory,
    Place, ReadCursor, ReadLen, Refusal, RelPath, Reply, Side, SnapItem, TreeLine,
};
use percent_encoding::{
    AsciiSet, CONTROLS, PercentEncode, ascii_set, percent_encode, utf8_percent_encode,
};
use script_text::Section;
use std::alloc::Global;

/// The ASCII bytes of a text that are escaped: controls, space, `#` and `%`.
const ESCAPED: AsciiSet = ascii_set!(CONTROLS.add(b' ').add(b'#').add(b'%'));

/// The text of a run: what each section did, both journals, and both live trees.
pub fn text_of(alloc: Global, ran: &Ran) -> Result<List<u8>, NoMemory>
    ensures { IfOk result (λ text. text ≡ text_of ran.now) }
{
    let mut out = String::new(alloc);
    write_logs(&mut out, ran.logs.items())?;
    write_journal(&mut out, Side::Source, ran.source.items())?;
    write_journal(&mut out, Side::Target, ran.target.items())?;
    write_tree(&mut out, Side::Source, ran.source_end.tree.items())?;
    write_tree(&mut out, Side::Target, ran.target_end.tree.items())?;
    Ok(List::of(out.into_bytes()))
}

fn write_logs(out: &mut String, logs: &[ClientLog]) -> Result<(), NoMemory>
    ensures { OnOk result (string_bytes out.new ≡ string_bytes out.old ++ flat_map ended (flat_map log_lines logs.now)) }
{
    for log in logs {
        write_log(out, log)?;
    }
    Ok(())
}

fn write_log(out: &mut String, log: &ClientLog) -> Result<(), NoMemory>
    ensures { OnOk result (string_bytes out.new ≡ string_bytes out.old ++ flat_map ended (log_lines log.now)) }
{
    write_heading(out, log.section)?;
    for item in log.items.items() {
        write_item(out, item)?;
    }
    Ok(())
}

fn write_heading(out: &mut String, section: Section) -> Result<(), NoMemory>
    ensures { OnOk result (string_bytes out.new ≡ string_bytes out.old ++ ended (heading section)) }
{
    match section {
        Section::Setup => out.push_str("setup\n")?,
        Section::Client(number) => writeln!(out, "client {number}")?,
        Section::Finish => out.push_str("finish\n")?,
    }
    Ok(())
}

fn write_item(out: &mut String, item: &LogItem) -> Result<(), NoMemory>
    ensures { OnOk result (string_bytes out.new ≡ string_bytes out.old ++ flat_map ended (item_lines item.now)) }
{
    match &item.what {
        LogWhat::Replies { side, list } => write_replies(out, item.line, *side, list.items()),
        LogWhat::NoCursor { side } => {
            writeln!(out, "{} {} no cursor", item.line, side_word(*side))?;
            Ok(())
        }
        LogWhat::Synced(report) => write_sync(out, item.line, &report.answer),
    }
}

fn write_replies(out: &mut String, line: u32, side: Side, list: &[Answered]) -> Result<(), NoMemory>
    ensures { OnOk result (string_bytes out.new ≡ string_bytes out.old ++ flat_map ended (flat_map (answered_lines line side) list.now)) }
{
    for answered in list {
        write_answered(out, line, side, answered)?;
    }
    Ok(())
}

/// A reply, and below it what it lists.
fn write_answered(
    out: &mut String,
    line: u32,
    side: Side,
    answered: &Answered,
) -> Result<(), NoMemory>
    ensures { OnOk result (string_bytes out.new ≡ string_bytes out.old ++ flat_map ended (answered_lines line side answered.now)) }
{
    write_reply_line(out, line, side, answered)?;
    write_further_lines(out, &answered.reply)
}

fn write_reply_line(
    out: &mut String,
    line: u32,
    side: Side,
    answered: &Answered,
) -> Result<(), NoMemory>
    ensures { OnOk result (string_bytes out.new ≡ string_bytes out.old ++ ended (reply_line line side answered.now)) }
{
    let side = side_word(side);
    write!(out, "{line} {side}@{} ", answered.position)?;
    write_reply(out, &answered.reply)
}

fn write_reply(out: &mut String, reply: &Reply) -> Result<(), NoMemory>
    ensures { OnOk result (string_bytes out.new ≡ string_bytes out.old ++ ended (reply_text reply.now)) }
{
    match reply {
        Reply::Made { id } => writeln!(out, "made {}", id.0)?,
        Reply::Done => out.push_str("done\n")?,
        Reply::Bytes { bytes, next } => write_bytes(out, bytes.bytes(), more_or_end(next))?,
        Reply::Stat {
            id,
            is_dir,
            mode,
            stamp,
            size,
        } => {
            write!(out, "{} {} ", kind_word(*is_dir), id.0)?;
            write_mode(out, *mode)?;
            writeln!(out, " {stamp} {size}")?
        }
        Reply::Page { items, next } => {
            writeln!(out, "page {} {}", items.len(), more_or_end(next))?
        }
        Reply::SnapMade { id } => writeln!(out, "snap {}", id.0)?,
        Reply::Snaps { list, .. } => writeln!(out, "snaps {}", list.len())?,
        Reply::Dirs { list } => writeln!(out, "dirs {}", list.len())?,
        Reply::Report { lines, next } => {
            writeln!(out, "report {} {}", lines.len(), more_or_end(next))?
        }
        Reply::Refused(why) => write_refusal(out, *why)?,
        Reply::NoMemory => out.push_str("no memory\n")?,
    }
    Ok(())
}

/// The number and the name of a refusal; `Moved` is followed by its two ticks.
fn write_refusal(out: &mut String, why: Refusal) -> Result<(), NoMemory>
    ensures { OnOk result (string_bytes out.new ≡ string_bytes out.old ++ ended (reply_text (Refused why))) }
{
    let number = why.number();
    let name = why.name();
    match why {
        Refusal::Moved { then, now } => writeln!(out, "refused {number} {name} {then} {now}")?,
        _ => writeln!(out, "refused {number} {name}")?,
    }
    Ok(())
}

/// A page of a file: the number of its bytes, whether there are more, and the bytes, where there are some.
fn write_bytes(out: &mut String, bytes: &[u8], end: &str) -> Result<(), NoMemory>
    ensures { OnOk result (string_bytes out.new ≡ string_bytes out.old ++ ended (spaced (codes "bytes" ∷ decimal (length bytes.now) ∷ end.now ∷ shown bytes.now))) }
{
    match bytes {
        [] => writeln!(out, "bytes {} {end}", bytes.len())?,
        [..] => {
            let shown = percent_encode(bytes, ESCAPED);
            writeln!(out, "bytes {} {end} {shown}", bytes.len())?
        }
    }
    Ok(())
}

fn write_further_lines(out: &mut String, reply: &Reply) -> Result<(), NoMemory>
    ensures { OnOk result (string_bytes out.new ≡ string_bytes out.old ++ flat_map ended (map indented (further_lines reply.now))) }
{
    match reply {
        Reply::Page { items, .. } => write_page_items(out, items.items()),
        Reply::Snaps { list, .. } => write_snaps(out, list.items()),
        Reply::Dirs { list } => write_dirs(out, list.items()),
        Reply::Report { lines, .. } => write_lines(out, lines.items()),
        Reply::Made { .. }
        | Reply::Done
        | Reply::Bytes { .. }
        | Reply::Stat { .. }
        | Reply::SnapMade { .. }
        | Reply::Refused(_)
        | Reply::NoMemory => Ok(()),
    }
}

fn write_page_items(out: &mut String, items: &[Item]) -> Result<(), NoMemory>
    ensures { OnOk result (string_bytes out.new ≡ string_bytes out.old ++ flat_map ended (map indented (map item_text items.now))) }
{
    for item in items {
        write_page_item(out, item)?;
    }
    Ok(())
}

fn write_page_item(out: &mut String, item: &Item) -> Result<(), NoMemory>
    ensures { OnOk result (string_bytes out.new ≡ string_bytes out.old ++ ended (indented (item_text item.now))) }
{
    let kind = kind_word(item.is_dir);
    let name = escaped(item.name.text());
    writeln!(out, "  {kind} {} {name}", item.id.0)?;
    Ok(())
}

fn write_snaps(out: &mut String, list: &[SnapItem]) -> Result<(), NoMemory>
    ensures { OnOk result (string_bytes out.new ≡ string_bytes out.old ++ flat_map ended (map indented (map snap_text list.now))) }
{
    for item in list {
        write_snap(out, item)?;
    }
    Ok(())
}

fn write_snap(out: &mut String, item: &SnapItem) -> Result<(), NoMemory>
    ensures { OnOk result (string_bytes out.new ≡ string_bytes out.old ++ ended (indented (snap_text item.now))) }
{
    let name = escaped(item.name.text());
    writeln!(out, "  {} {} {name}", item.id.0, item.tick)?;
    Ok(())
}

fn write_dirs(out: &mut String, list: &[DirItem]) -> Result<(), NoMemory>
    ensures { OnOk result (string_bytes out.new ≡ string_bytes out.old ++ flat_map ended (map indented (map dir_text list.now))) }
{
    for item in list {
        write_dir_item(out, item)?;
    }
    Ok(())
}

fn write_dir_item(out: &mut String, item: &DirItem) -> Result<(), NoMemory>
    ensures { OnOk result (string_bytes out.new ≡ string_bytes out.old ++ ended (indented (dir_text item.now))) }
{
    let path = escaped(item.path.text());
    writeln!(out, "  {} {} {path}", item.id.0, item.count)?;
    Ok(())
}

fn write_lines(out: &mut String, lines: &[Line]) -> Result<(), NoMemory>
    ensures { OnOk result (string_bytes out.new ≡ string_bytes out.old ++ flat_map ended (map indented (map line_text lines.now))) }
{
    for line in lines {
        write_line(out, line)?;
    }
    Ok(())
}

/// A line of a report.
fn write_line(out: &mut String, line: &Line) -> Result<(), NoMemory>
    ensures { OnOk result (string_bytes out.new ≡ string_bytes out.old ++ ended (indented (line_text line.now))) }
{
    out.push_str("  ")?;
    write_line_text(out, line)
}

/// The text of a line of a report ends the line that it stands in.
pub(crate) fn write_line_text(out: &mut String, line: &Line) -> Result<(), NoMemory>
    ensures { OnOk result (string_bytes out.new ≡ string_bytes out.old ++ ended (line_text line.now)) }
{
    let letter = letter(line.kind);
    write!(out, "{letter} ")?;
    write_relative(out, line.path.items())?;
    write_target(out, line.kind, &line.to)?;
    out.push_str("\n")?;
    Ok(())
}

/// Where a renamed item stands.
fn write_target(out: &mut String, kind: LineKind, to: &Option<RelPath>) -> Result<(), NoMemory>
    ensures { OnOk result (string_bytes out.new ≡ string_bytes out.old ++ target_text kind to.now) }
{
    match (kind, to) {
        (LineKind::Renamed, Some(path)) => {
            out.push_str(" -> ")?;
            write_relative(out, path.items())
        }
        _ => Ok(()),
    }
}

/// A path from the directory of a report.
fn write_relative(out: &mut String, names: &[Name]) -> Result<(), NoMemory>
    ensures { OnOk result (string_bytes out.new ≡ string_bytes out.old ++ relative names.now) }
{
    out.push_str(".")?;
    for name in names {
        write!(out, "/{}", escaped(name.text()))?;
    }
    Ok(())
}

fn write_journal(out: &mut String, side: Side, entries: &[Entry]) -> Result<(), NoMemory>
    ensures { OnOk result (string_bytes out.new ≡ string_bytes out.old ++ flat_map ended (journal_lines side entries.now)) }
{
    writeln!(out, "journal {} {}", side_word(side), entries.len())?;
    for (index, entry) in entries.iter().enumerate() {
        write_entry(out, index, entry)?;
    }
    Ok(())
}

fn write_entry(out: &mut String, index: usize, entry: &Entry) -> Result<(), NoMemory>
    ensures { OnOk result (string_bytes out.new ≡ string_bytes out.old ++ ended (entry_line index entry.now)) }
{
    let mark = mark(entry.kind);
    write!(out, "{index} {}.{} {mark}", entry.caller.0, entry.seq)?;
    write_call(out, &entry.call)
}

/// The text of a call ends the line that it stands in.
pub(crate) fn write_call(out: &mut String, call: &Call) -> Result<(), NoMemory>
    ensures { OnOk result (string_bytes out.new ≡ string_bytes out.old ++ ended (call_text call.now)) }
{
    match call {
        Call::Mkdir { path } => write_path_call(out, "mkdir", path.text()),
        Call::Create { path, over } => write_path_call(out, create_word(*over), path.text()),
        Call::Append { path, bytes } => write_append(out, path.text(), bytes.bytes()),
        Call::Delete { path, recursive } => {
            write_path_call(out, delete_word(*recursive), path.text())
        }
        Call::Rename { old, new } => write_pair_call(out, "mv", old.text(), new.text()),
        Call::SetMode { path, mode } => write_mode_call(out, path.text(), *mode),
        Call::Allow { path } => write_path_call(out, "allow", path.text()),
        Call::Disallow { path } => write_path_call(out, "disallow", path.text()),
        Call::Snap { path, name } => write_pair_call(out, "snap", path.text(), name.text()),
        Call::SnapDel { path, name } => write_pair_call(out, "snapdel", path.text(), name.text()),
        Call::SnapRen { path, old, new } => {
            write_snapshot_rename(out, path.text(), old.text(), new.text())
        }
        Call::Read { path, offset, len } => write_read(out, path.text(), *offset, *len),
        Call::ReadNext { cursor, len } => write_read_next(out, *cursor, *len),
        Call::Stat { .. } => Ok(out.push_str("stat\n")?),
        Call::List { .. } => Ok(out.push_str("list\n")?),
        Call::ListNext { .. } => Ok(out.push_str("listnext\n")?),
        Call::Snaps { .. } => Ok(out.push_str("snaps\n")?),
        Call::Dirs => Ok(out.push_str("dirs\n")?),
        Call::Report { .. } => Ok(out.push_str("report\n")?),
        Call::ReportNext { .. } => Ok(out.push_str("reportnext\n")?),
    }
}

/// A word and a path, which end a line.
pub(crate) fn write_path_call(out: &mut String, word: &str, path: &str) -> Result<(), NoMemory>
    ensures { OnOk result (string_bytes out.new ≡ string_bytes out.old ++ ended (spaced (word.now ∷ escaped path.now ∷ []))) }
{
    writeln!(out, "{word} {}", escaped(path))?;
    Ok(())
}

/// A call of a command with two paths, or with a path and the name of a snapshot.
fn write_pair_call(out: &mut String, word: &str, first: &str, second: &str) -> Result<(), NoMemory>
    ensures { OnOk result (string_bytes out.new ≡ string_bytes out.old ++ ended (spaced (word.now ∷ escaped first.now ∷ escaped second.now ∷ []))) }
{
    writeln!(out, "{word} {} {}", escaped(first), escaped(second))?;
    Ok(())
}

/// A snapshot of a directory that gets another name.
fn write_snapshot_rename(out: &mut String, path: &str, old: &str, new: &str) -> Result<(), NoMemory>
    ensures { OnOk result (string_bytes out.new ≡ string_bytes out.old ++ ended (call_text (calls.SnapRen path.now old.now new.now))) }
{
    let path = escaped(path);
    writeln!(out, "snapren {path} {} {}", escaped(old), escaped(new))?;
    Ok(())
}

/// A change of a mode, which has four digits.
fn write_mode_call(out: &mut String, path: &str, mode: Mode) -> Result<(), NoMemory>
    ensures { OnOk result (string_bytes out.new ≡ string_bytes out.old ++ ended (call_text (calls.SetMode path.now mode))) }
{
    write!(out, "chmod {} ", escaped(path))?;
    write_mode(out, mode)?;
    out.push_str("\n")?;
    Ok(())
}

/// A read from a path: where it begins, and how many bytes it has at most.
fn write_read(out: &mut String, path: &str, offset: u64, len: ReadLen) -> Result<(), NoMemory>
    ensures { OnOk result (string_bytes out.new ≡ string_bytes out.old ++ ended (call_text (calls.Read path.now offset len))) }
{
    writeln!(out, "read {} {offset} {}", escaped(path), len.bytes())?;
    Ok(())
}

/// An append: the path, the number of the bytes, and the bytes, where there are some.
fn write_append(out: &mut String, path: &str, bytes: &[u8]) -> Result<(), NoMemory>
    ensures { OnOk result (string_bytes out.new ≡ string_bytes out.old ++ ended (call_text (calls.Append path.now bytes.now))) }
{
    let path = escaped(path);
    match bytes {
        [] => writeln!(out, "append {path} {}", bytes.len())?,
        [..] => {
            let shown = percent_encode(bytes, ESCAPED);
            writeln!(out, "append {path} {} {shown}", bytes.len())?
        }
    }
    Ok(())
}

/// A further page of a read: where it begins, and how many bytes it has at most.
fn write_read_next(out: &mut String, cursor: ReadCursor, len: ReadLen) -> Result<(), NoMemory>
    ensures { OnOk result (string_bytes out.new ≡ string_bytes out.old ++ ended (call_text (calls.ReadNext cursor len))) }
{
    let offset = cursor.offset;
    let len = len.bytes();
    match cursor.place {
        Place::Live(id) => writeln!(out, "readnext live {} {offset} {len}", id.0)?,
        Place::Frozen(id, snapshot) => {
            writeln!(
                out,
                "readnext frozen {} {} {offset} {len}",
                id.0, snapshot.0
            )?
        }
        Place::SnapshotsOf(id) => { writeln!(out, "readnext snapshots {} {offset} {len}", id.0)? }
    }
    Ok(())
}

fn write_tree(out: &mut String, side: Side, nodes: &[TreeLine]) -> Result<(), NoMemory>
    ensures { OnOk result (string_bytes out.new ≡ string_bytes out.old ++ flat_map ended (tree_lines side nodes.now)) }
{
    writeln!(out, "tree {} {}", side_word(side), nodes.len())?;
    for node in nodes {
        write_node(out, node)?;
    }
    Ok(())
}

fn write_node(out: &mut String, node: &TreeLine) -> Result<(), NoMemory>
    ensures { OnOk result (string_bytes out.new ≡ string_bytes out.old ++ ended (node_line node.now)) }
{
    if node.is_dir {
        write_dir(out, node)
    } else {
        write_file(out, node)
    }
}

fn write_dir(out: &mut String, node: &TreeLine) -> Result<(), NoMemory>
    ensures { OnOk result (string_bytes out.new ≡ string_bytes out.old ++ ended (dir_line node.now)) }
{
    write!(out, "{} dir {} ", node.depth, node.id.0)?;
    write_mode(out, node.mode)?;
    writeln!(out, " {} {}", node.stamp, node_name(&node.name))?;
    Ok(())
}

fn write_file(out: &mut String, node: &TreeLine) -> Result<(), NoMemory>
    ensures { OnOk result (string_bytes out.new ≡ string_bytes out.old ++ ended (file_line node.now)) }
{
    write!(out, "{} file {} ", node.depth, node.id.0)?;
    write_mode(out, node.mode)?;
    let name = node_name(&node.name);
    writeln!(out, " {} {} {name}", node.stamp, node.size)?;
    Ok(())
}

fn write_mode(out: &mut String, mode: Mode) -> Result<(), NoMemory>
    ensures { OnOk result (string_bytes out.new ≡ string_bytes out.old ++ mode_text mode) }
{
    write!(out, "{:04o}", mode.bits())?;
    Ok(())
}

pub(crate) fn side_word(side: Side) -> &'static str
    ensures { result.now ≡ side_word side }
{
    match side {
        Side::Source => "s",
        Side::Target => "t",
    }
}

fn kind_word(is_dir: bool) -> &'static str
    ensures { result.now ≡ kind_word is_dir }
{
    if is_dir { "dir" } else { "file" }
}

/// The letter of a line of a report.
fn letter(kind: LineKind) -> &'static str
    ensures { result.now ≡ letter kind }
{
    match kind {
        LineKind::Deleted => "-",
        LineKind::Renamed => "R",
        LineKind::Modified => "M",
        LineKind::Created => "+",
    }
}

fn create_word(over: bool) -> &'static str
    ensures { result.now ≡ create_word over }
{
    if over { "createover" } else { "create" }
}

fn delete_word(recursive: bool) -> &'static str
    ensures { result.now ≡ delete_word recursive }
{
    if recursive { "rmr" } else { "rm" }
}

fn more_or_end<T>(next: &Option<T>) -> &'static str
    ensures { result.now ≡ more_or_end next.now }
{
    match next {
        Some(_) => "more",
        None => "end",
    }
}

/// What stands before the call of an entry, with a space behind it: nothing before an accepted one.
fn mark(kind: EntryKind) -> &'static str
    ensures { (call : List ℕ) → result.now ++ call ≡ marked kind call }
{
    match kind {
        EntryKind::Accepted => "",
        EntryKind::Faulted => "fault ",
    }
}

/// The name of a node. A slash isn't escaped.
fn node_name(name: &Option<Name>) -> PercentEncode<'_>
    ensures { encoded_text result ≡ node_name name.now }
{
    match name {
        Some(name) => escaped(name.text()),
        None => escaped("/"),
    }
}

pub(crate) fn escaped(text: &str) -> PercentEncode<'_>
    ensures { encoded_text result ≡ escaped text.now }
{
    utf8_percent_encode(text, ESCAPED)
}
