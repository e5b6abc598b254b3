//! The numbers that snapshots ask of a row before it changes, and the marks of a row that is renamed.
#![tactic(auto)]

ghost use Rattle.std.specs.Prelude.{◌≡◌, ◌≢◌, max, List, IsSome};
ghost use Rattle.std.specs.Option.{option_map};
ghost use Rattle.hs_types.specs.declared.ids.InodeId.{InodeId};
ghost use Rattle.hs_plain.specs.declared.state.State.{State};
ghost use Rattle.hs_plain.specs.declared.state.FileBlocks.{FileBlocks};
ghost use Rattle.inode_table.specs.Kept.{told};
ghost use Rattle.inode_table.specs.Marks.{marked, cover as plain_cover, last_of};
ghost use Rattle.inode_table.specs.Numbered.{row_of, marks_in, last_live, with_marks};
ghost use Rattle.inode_table.specs.RowHistory.{rows_at, marks_of, need as plain_need};
ghost use Rattle.inode_table.specs.Tabled.{marked_row};
ghost use Rattle.inode_table.specs.Whole.{StandsFor};
ghost use Rattle.table_laws.specs.WholeCalls.{last_number_of};
ghost use Rattle.rename_refs.specs.Needed.{needed};

use hs_types::{InodeId, List, SnapId};
use inode_table::{Row, Rows, Table};
use snapshot_manager::Snaps;

/// The number after one row of the walk.
fn step(table: &Table, snaps: &Snaps, number: u64, id: InodeId) -> u64
    ensures { result ≡ marked (marks_in table.now.rows id) (max number (last_live snaps.now id)) }
{
    let last = match snaps.last_of(id) {
        Some(last) => last.0,
        None => 0,
    };
    let most = if last < number { number } else { last };
    match table.row(id) {
        Some(row) => {
            if row.since.0 < most {
                most
            } else {
                row.carry.0
            }
        }
        None => most,
    }
}

/// The number after the rows of a chain.
fn walked(table: &Table, snaps: &Snaps, chain: &[InodeId]) -> u64
    ensures { result ≡ plain_cover (last_live snaps.now) (marks_in table.now.rows) chain.now }
{
    let mut number = 0;
    for id in chain {
        number = step(table, snaps, number, *id);
    }
    number
}

/// The cover of the last inode of a chain, which goes from the root down along live entries: the number that a record must have so
/// that every live snapshot that has the inode reads it as it is now. 0 is none. It takes no memory.
pub fn cover(table: &Table, snaps: &Snaps, chain: &List<InodeId>) -> SnapId
    ensures walked { result.0 ≡ plain_cover (last_live snaps.now) (marks_in table.now.rows) chain.now }
    ensures stood_for { (state : State FileBlocks) → StandsFor (told table.now) snaps.now state → result.0 ≡ plain_cover (last_of state.members) (marks_of (told table.now).rows) chain.now }
{
    SnapId(walked(table, snaps, chain.items()))
}

/// The number of a row's last record, 0 without one.
fn last_number(table: &Table, id: InodeId) -> SnapId
    ensures { result.0 ≡ last_number_of (rows_at (told table.now).rows id) }
{
    match table.row(id) {
        None => SnapId(0),
        Some(row) => match &row.rows {
            Rows::File(file) => file.last_number(),
            Rows::Dir(dir) => dir.last_number(),
        },
    }
}

/// The need of a row, by its cover: the cover where a live snapshot's id is above the row's last record and at most the cover, else
/// 0. A change of the row starts a record exactly where the need isn't 0. It takes no memory.
pub fn need(table: &Table, snaps: &Snaps, id: InodeId, cover: SnapId) -> SnapId
    ensures told { result ≡ needed snaps.now (last_number_of (rows_at (told table.now).rows id)) cover }
    ensures stood_for { (state : State FileBlocks) → StandsFor (told table.now) snaps.now state → result.0 ≡ plain_need state.members (last_number_of (rows_at (told table.now).rows id)) cover.0 }
{
    snaps.always();
    if snaps.live_between(last_number(table, id), cover) {
        cover
    } else {
        SnapId(0)
    }
}

/// Marks a row that is renamed, also within one directory: since the greatest snapshot id issued, with the cover that it had just
/// before. It takes no memory.
pub fn arrive(table: &mut Table, snaps: &Snaps, id: InodeId, carry: SnapId)
    requires { IsSome (row_of table.old.rows id) }
    ensures marks { told table.new ≡ marked_row id snaps.now.issued.0 carry.0 (told table.old) }
    ensures here { row_of table.new.rows id ≡ option_map (with_marks snaps.now.issued carry) (row_of table.old.rows id) }
    ensures there { (other : InodeId) → other ≢ id → row_of table.new.rows other ≡ row_of table.old.rows other }
    ensures room { table.new.room ≡ table.old.room }
{
    table.set_marks(id, snaps.issued(), carry);
}
