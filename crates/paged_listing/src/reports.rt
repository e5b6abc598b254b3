//! Pages of a report. Each makes the whole report anew, and is cut by the cursor's index.
ghost use Rattle.std.specs.Prelude.{◌≡◌, ◌≢◌, ℕ, true, false, Ok, IfOk, List, MatchResult};
ghost use Rattle.hs_types.specs.declared.call.Call.TheVariants.{ReportNext};
ghost use Rattle.hs_plain.specs.declared.state.State.{State};
ghost use Rattle.hs_plain.specs.declared.state.FileBlocks.{FileBlocks};
ghost use Rattle.hs_plain.specs.Answer.{answer};
ghost use Rattle.hs_plain.specs.Reading.{began_at, is_foreign as is_other_foreign, report_page as plain_page, report_next_reply};
ghost use Rattle.hs_plain.specs.State.{is_snapshottable};
ghost use Rattle.hs_plain.specs.Viewed as viewed;
ghost use Rattle.hs_plain.specs.inside.Faults.{IsFaultOf};
ghost use Rattle.inode_table.specs.Kept.{told};
ghost use Rattle.inode_table.specs.Whole.{StandsFor};
ghost use Rattle.paged_listing.specs.Reports.{is_lost, is_foreign, has_moved, goes_on};

use change_report::report;
use hs_plain::AskFault;
use hs_plain::answer::reply_of;
use hs_plain::modifying::refuse_if;
use hs_plain::pages::lines_page;
use hs_types::{InodeId, NoMemory, PageSize, Refusal, Reply, ReportCursor, SnapId};
use inode_table::{Counted, Table};
use snapshot_manager::Snaps;
use std::alloc::Global;

/// Whether an id is that of a snapshot that was deleted, or of none; 0 is the current state.
fn is_lost(snaps: &Snaps, snapshot: SnapId) -> bool
    ensures { result ≡ is_lost snaps.now snapshot }
{
    snapshot != SnapId(0) && snaps.by_id(snapshot).is_none()
}

/// Whether an end is no snapshot of this directory.
fn is_foreign(snaps: &Snaps, root: InodeId, end: SnapId) -> bool
    ensures { result ≡ is_foreign snaps.now root end }
{
    if end == SnapId(0) {
        return false;
    }
    match snaps.by_id(end) {
        Some((dir, _)) => dir != root,
        None => true,
    }
}

/// The tick at which a report began: that of the cursor, or else now.
fn began_at(now: u64, tick: Option<u64>) -> u64
    ensures { result ≡ began_at now tick }
{
    tick.unwrap_or(now)
}

/// Whether the current state is an end of a report that began at another tick.
fn has_moved(now: u64, cursor: &ReportCursor) -> bool
    ensures { result ≡ has_moved now cursor.now }
{
    (cursor.from == SnapId(0) || cursor.to == SnapId(0)) && began_at(now, cursor.tick) != now
}

/// Whether the report of a cursor goes on. A snapshot that is gone is told first, and then the refusals go by their numbers.
fn goes_on(snaps: &Snaps, now: u64, cursor: &ReportCursor) -> Result<(), Refusal>
    ensures { result ≡ goes_on snaps.now now cursor.now }
{
    let gone = is_lost(snaps, cursor.from) || is_lost(snaps, cursor.to);
    refuse_if(gone, Refusal::Gone)?;
    refuse_if(
        snaps.count_of(cursor.root).is_none(),
        Refusal::NotSnapshottable,
    )?;
    let root = cursor.root;
    let foreign = is_foreign(snaps, root, cursor.from) || is_foreign(snaps, root, cursor.to);
    refuse_if(foreign, Refusal::NoSnapshot)?;
    let then = began_at(now, cursor.tick);
    refuse_if(has_moved(now, cursor), Refusal::Moved { then, now })
}

/// A page of a report on a snapshottable directory, each of whose ends is the current state or one of the directory's own
/// snapshots.
pub fn lines_from(
    alloc: Global,
    table: &Table,
    snaps: &Snaps,
    tick: u64,
    cursor: &ReportCursor,
    size: PageSize,
) -> Result<Reply, NoMemory>
    ensures { IfOk result (λ reply. (state : State FileBlocks) → StandsFor (told table.now) snaps.now state → tick ≡ state.tick → is_snapshottable state cursor.now.root ≡ true → is_other_foreign state cursor.now.root cursor.now.from ≡ false → is_other_foreign state cursor.now.root cursor.now.to ≡ false → reply ≡ plain_page state cursor.now size) }
{
    let mut counted = Counted::new(table);
    let lines = report(
        alloc,
        &mut counted,
        snaps,
        cursor.root,
        cursor.from,
        cursor.to,
    )?;
    lines_page(*cursor, began_at(tick, cursor.tick), lines, size)
}

/// The next page of the report of a cursor, or why there is none.
fn report_next(
    alloc: Global,
    table: &Table,
    snaps: &Snaps,
    tick: u64,
    cursor: &ReportCursor,
    size: PageSize,
) -> Result<Reply, AskFault>
    ensures { (state : State FileBlocks) → StandsFor (told table.now) snaps.now state → tick ≡ state.tick → MatchResult result (λ reply. report_next_reply state cursor.now size ≡ Ok reply) (IsFaultOf (report_next_reply state cursor.now size)) }
{
    snaps.always();
    goes_on(snaps, tick, cursor)?;
    Ok(lines_from(alloc, table, snaps, tick, cursor, size)?)
}

/// The answer to a call for the next page of a report, at this tick.
pub fn report_page(
    alloc: Global,
    table: &Table,
    snaps: &Snaps,
    tick: u64,
    cursor: &ReportCursor,
    size: PageSize,
) -> Reply
    ensures answered { (state : State FileBlocks) (plain : State (List ℕ)) → StandsFor (told table.now) snaps.now state → viewed.StandsFor state plain → tick ≡ plain.tick → result ≢ Reply.NoMemory → result ≡ answer plain (ReportNext cursor.now size) }
{
    reply_of(report_next(alloc, table, snaps, tick, cursor, size))
}
