//! The first steps of a sync: both roots, and whether the target was changed.
ghost use Rattle.std.specs.Prelude.{◌≡◌, ◌+◌, ◌≤◌, ◌<◌, [], vec_len, vec_capacity, IfOk};
ghost use Rattle.hs_plain.specs.Joined.{is_report};
ghost use Rattle.distcp_sync.specs.Told.{ask_of, id_named, start_by};
ghost use Rattle.distcp_sync.specs.inside.Trace.{IsBegun, IsLooked};
ghost use Rattle.distcp_sync.specs.inside.Begins.{Gives, if_named, if_unchanged, if_same, IsRoot, IsAskedWith, IsFoundOrEnded, IsComparedWith};

use crate::answer::SyncAnswer;
use crate::answering::answer_at;
use crate::report::SyncJob;
use crate::start::SyncStart;
use copy_workers::Look;
use hs_types::{
    Call, Duplicate, InodeId, Line, List, NameText, NoMemory, PageSize, PathText, Reply,
    ReportCursor, Side, SnapId, SnapItem,
};
use page_join::NameLink;

/// Asks both roots for their snapshots, and the target for what was changed since its own.
pub(crate) fn begin<L: NameLink>(
    job: &SyncJob,
    source: &mut L,
    target: &mut L,
    looks: &mut Vec<Look>,
) -> Result<SyncStart, SyncAnswer>
    requires room { vec_len looks.old + 4 ≤ vec_capacity looks.old }
    requires none { looks.old.items ≡ [] }
    ensures numbers { (L.number source.new ≡ L.number source.old) × (L.number target.new ≡ L.number target.old) }
    ensures alone { (L.alone source.new ≡ L.alone source.old) × (L.alone target.new ≡ L.alone target.old) }
    ensures stays { (L.stays source.old source.new) × (L.stays target.old target.new) }
    ensures begun { IsBegun job.now (L.known source.old) (L.known source.new) (L.known target.old) (L.known target.new) looks.new.items result }
    ensures room { IfOk result (λ _. vec_len looks.new < vec_capacity looks.new) }
{
    let start = find_start(job, source, target, looks)?;
    ask_changes(&start, target, looks)?;
    Ok(start)
}

/// Where the sync begins, by what both roots say.
fn find_start<L: NameLink>(
    job: &SyncJob,
    source: &mut L,
    target: &mut L,
    looks: &mut Vec<Look>,
) -> Result<SyncStart, SyncAnswer>
    requires room { vec_len looks.old + 2 ≤ vec_capacity looks.old }
    requires none { looks.old.items ≡ [] }
    ensures numbers { (L.number source.new ≡ L.number source.old) × (L.number target.new ≡ L.number target.old) }
    ensures alone { (L.alone source.new ≡ L.alone source.old) × (L.alone target.new ≡ L.alone target.old) }
    ensures stays { (L.stays source.old source.new) × (L.stays target.old target.new) }
    ensures found { IsFoundOrEnded job.now (L.known source.old) (L.known source.new) (L.known target.old) (L.known target.new) looks.new.items result }
    ensures capacity { vec_capacity looks.new ≡ vec_capacity looks.old }
    ensures len { vec_len looks.new ≤ vec_len looks.old + 2 }
{
    let one = ask_root(Side::Source, &job.source_root, source, looks)?;
    let two = ask_root(Side::Target, &job.target_root, target, looks)?;
    started(job, &one, &two)
}

/// A directory with its snapshots.
#[derive(Debug, Drop)]
struct Root {
    dir: InodeId,
    list: List<SnapItem>,
}

fn ask_root<L: NameLink>(
    side: Side,
    path: &PathText,
    link: &mut L,
    looks: &mut Vec<Look>,
) -> Result<Root, SyncAnswer>
    requires room { vec_len looks.old + 1 ≤ vec_capacity looks.old }
    ensures number { L.number link.new ≡ L.number link.old }
    ensures alone { L.alone link.new ≡ L.alone link.old }
    ensures stays { L.stays link.old link.new }
    ensures asked { IsAskedWith side path.now (L.known link.old) (L.known link.new) looks.old.items looks.new.items result }
    ensures capacity { vec_capacity looks.new ≡ vec_capacity looks.old }
    ensures len { vec_len looks.new ≤ vec_len looks.old + 1 }
{
    match path.copy() {
        Ok(path) => {
            let look = ask(side, link, Call::Snaps { path });
            let root = root_of(side, &look.reply.reply);
            looks.push_reserved(look);
            root
        }
        Err(NoMemory) => Err(SyncAnswer::NoMemory),
    }
}

/// Makes a call, and keeps its reply with who asked.
fn ask<L: NameLink>(side: Side, link: &mut L, call: Call) -> Look
    ensures number { L.number link.new ≡ L.number link.old }
    ensures alone { L.alone link.new ≡ L.alone link.old }
    ensures stays { L.stays link.old link.new }
    ensures looked { IsLooked side (L.known link.old) (L.known link.new) call result }
{
    let caller = link.caller();
    let reply = link.call(call);
    Look {
        side,
        caller,
        reply,
    }
}

fn root_of(side: Side, reply: &Reply) -> Result<Root, SyncAnswer>
    ensures { IsRoot side reply.now result }
{
    match reply {
        Reply::Snaps { dir, list } => match list.copy() {
            Ok(list) => Ok(Root { dir: *dir, list }),
            Err(NoMemory) => Err(SyncAnswer::NoMemory),
        },
        Reply::Refused(refusal) => Err(SyncAnswer::NoRoot {
            side,
            refusal: *refusal,
        }),
        _ => Err(SyncAnswer::NoMemory),
    }
}

/// Where the sync begins, by the snapshots of both roots.
fn started(job: &SyncJob, one: &Root, two: &Root) -> Result<SyncStart, SyncAnswer>
    ensures { Gives (start_by (ask_of job.now) one.now.dir two.now.dir (id_named one.now.list job.now.from) (id_named one.now.list job.now.to) (id_named two.now.list job.now.from)) result }
{
    let from = named(Side::Source, one.list.items(), &job.from)?;
    let to = named(Side::Source, one.list.items(), &job.to)?;
    let base = named(Side::Target, two.list.items(), &job.from)?;
    if from < to {
        Ok(SyncStart {
            source: one.dir,
            target: two.dir,
            from,
            to,
            base,
        })
    } else {
        Err(SyncAnswer::NotOlder { from, to })
    }
}

/// The id of the snapshot of this name.
fn named(side: Side, list: &[SnapItem], name: &NameText) -> Result<SnapId, SyncAnswer>
    ensures { Gives (if_named side name.now (id_named list.now name.now)) result }
{
    for item in list {
        if item.name.text() == name.text() {
            return Ok(item.id);
        }
    }
    match name.copy() {
        Ok(name) => Err(SyncAnswer::NoSnapshot { side, name }),
        Err(NoMemory) => Err(SyncAnswer::NoMemory),
    }
}

/// Asks the target for what was changed since its snapshot.
fn ask_changes<L: NameLink>(
    start: &SyncStart,
    target: &mut L,
    looks: &mut Vec<Look>,
) -> Result<(), SyncAnswer>
    requires room { vec_len looks.old + 1 ≤ vec_capacity looks.old }
    ensures number { L.number target.new ≡ L.number target.old }
    ensures alone { L.alone target.new ≡ L.alone target.old }
    ensures stays { L.stays target.old target.new }
    ensures compared { IsComparedWith start.now (L.known target.old) (L.known target.new) looks.old.items looks.new.items result }
    ensures capacity { vec_capacity looks.new ≡ vec_capacity looks.old }
    ensures len { vec_len looks.new ≤ vec_len looks.old + 1 }
{
    match PageSize::new(1) {
        Some(size) => {
            let cursor = ReportCursor {
                root: start.target,
                from: start.base,
                to: SnapId(0),
                tick: None,
                index: 0,
            };
            let look = ask(Side::Target, target, Call::ReportNext { cursor, size });
            let unchanged = is_unchanged(&look);
            looks.push_reserved(look);
            unchanged
        }
        None => Err(SyncAnswer::NoMemory),
    }
}

/// Whether the reply to the target's changes has no line.
fn is_unchanged(look: &Look) -> Result<(), SyncAnswer>
    ensures { Gives (if_same look.now (is_report look.now.reply.reply)) result }
{
    match &look.reply.reply {
        Reply::Report { lines, next: _ } => has_no_line(lines.items()),
        _ => Err(answer_at(look)),
    }
}

fn has_no_line(lines: &[Line]) -> Result<(), SyncAnswer>
    ensures { Gives (if_unchanged lines.now) result }
{
    match lines.get(0) {
        None => Ok(()),
        Some(line) => match line.copy() {
            Ok(line) => Err(SyncAnswer::TargetChanged { line }),
            Err(NoMemory) => Err(SyncAnswer::NoMemory),
        },
    }
}
