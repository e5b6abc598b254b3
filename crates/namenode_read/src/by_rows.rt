//! The calls that change nothing, answered from the rows of a table.
ghost use Rattle.std.specs.Prelude.{◌≡◌, ◌≢◌, ℕ, true, List};
ghost use Rattle.hs_plain.specs.declared.state.State.{State};
ghost use Rattle.hs_plain.specs.declared.state.FileBlocks.{FileBlocks};
ghost use Rattle.hs_plain.specs.Viewed as viewed;
ghost use Rattle.hs_plain.specs.Answer.{answer, is_shared};
ghost use Rattle.inode_table.specs.Kept.{told};
ghost use Rattle.inode_table.specs.Whole.{StandsFor};

pub mod directories;
pub mod listing;
pub mod place;
pub mod reports;
pub mod snapshots;
pub mod stat;

use directories::dirs;
use hs_plain::answer::reply_of;
use hs_types::{Call, Reply};
use inode_table::Table;
use listing::list;
use paged_listing::{list_page, report_page};
use reports::report_first;
use snapshot_manager::Snaps;
use snapshots::snaps as shown;
use stat::stat;
use std::alloc::Global;

/// Answers each call that is made beside others as the plain machine does at this tick. `NoMemory` alone is no answer of the
/// plain machine.
pub fn ask(alloc: Global, table: &Table, snaps: &Snaps, tick: u64, call: &Call) -> Reply
    requires shared { is_shared call.now ≡ true }
    ensures answered { (state : State FileBlocks) (plain : State (List ℕ)) → StandsFor (told table.now) snaps.now state → viewed.StandsFor state plain → tick ≡ plain.tick → result ≢ Reply.NoMemory → result ≡ answer plain call.now }
{
    match call {
        Call::Stat { path } => reply_of(stat(alloc, table, snaps, path)),
        Call::List { path, size } => reply_of(list(alloc, table, snaps, path, *size)),
        Call::ListNext { cursor, size } => list_page(alloc, table, snaps, cursor, *size),
        Call::Snaps { path } => reply_of(shown(alloc, table, snaps, path)),
        Call::Dirs => reply_of(dirs(alloc, table, snaps)),
        Call::Report {
            path,
            from,
            to,
            size,
        } => {
            let page = report_first(alloc, table, snaps, tick, path, (from, to), *size);
            reply_of(page)
        }
        Call::ReportNext { cursor, size } => {
            report_page(alloc, table, snaps, tick, cursor, *size)
        }
        Call::Mkdir { .. }
        | Call::Create { .. }
        | Call::Append { .. }
        | Call::Delete { .. }
        | Call::Rename { .. }
        | Call::SetMode { .. }
        | Call::Read { .. }
        | Call::Allow { .. }
        | Call::Disallow { .. }
        | Call::Snap { .. }
        | Call::SnapDel { .. }
        | Call::SnapRen { .. }
        | Call::ReadNext { .. } => unreachable!(),
    }
}
