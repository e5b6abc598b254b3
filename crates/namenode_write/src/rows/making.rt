//! Changes of a table for which room was made.
ghost use Rattle.std.specs.Prelude.{◌≡◌, ◌≢◌, ◌+◌, ◌^◌, ◌<◌, [], ◌∷◌, OnOk};
ghost use Rattle.hs_types.specs.declared.ids.InodeId.{InodeId};
ghost use Rattle.inode_table.specs.Ahead.{HasRoomFor, prepared_for, ChangeFits, IsChanged};
ghost use Rattle.inode_table.specs.Kept.{told, CanChange, IsBare, HasInsertRoom, UsesInsert};
ghost use Rattle.inode_table.specs.Numbered.{row_of, history_of};
ghost use Rattle.inode_table.specs.Released.{Releasing};
ghost use Rattle.inode_table.specs.Tabled.{inserted};
ghost use Rattle.inode_table.specs.Totals.{weight};

use crate::rows::seats::Seat;
use hs_types::{InodeId, List, NoMemory, SnapId};
use inode_table::{Change, Freed, Rows, Table};
use std::alloc::Global;

/// Makes room for an insertion, and for three changes of a row. Afterwards the next release can't want memory either.
pub(crate) fn prepare_seat(alloc: Global, table: &mut Table, seat: Seat) -> Result<(), NoMemory>
    ensures same { told table.new ≡ told table.old }
    ensures room { OnOk result (HasRoomFor (prepared_for (seat.id ∷ []) (λ id. seat.need.0)) table.new) }
{
    let mut ids = List::new(alloc);
    ids.push(seat.id)?;
    table.prepare(&ids)
}

/// A change for which there is room.
pub(crate) fn change_ready(table: &mut Table, seat: Seat, tick: u64, what: Change)
    requires can { CanChange (told table.old).rows seat.id what }
    requires bound { weight (told table.old).rows < 2 ^ 32 }
    requires room { ChangeFits table.old seat.id seat.need.0 tick what }
    ensures { IsChanged table.old table.new seat.id seat.need.0 tick what }
{
    match table.change(seat.id, seat.need, tick, what) {
        Ok(()) => {}
        Err(_) => unreachable!(),
    }
}

/// A new row under the next id, for which there is room.
pub(crate) fn insert_ready(table: &mut Table, rows: Rows, since: SnapId) -> InodeId
    requires bare { IsBare (history_of rows) }
    requires ids { table.old.greatest + 1 < 2 ^ 64 }
    requires bound { weight (told table.old).rows < 2 ^ 32 }
    requires room { HasInsertRoom (record { 0 = table.old.greatest + 1 }) (history_of rows) table.old.greatest table.old.room }
    ensures next { result ≡ record { 0 = table.old.greatest + 1 } }
    ensures whole { told table.new ≡ inserted result (history_of rows) since.0 (told table.old) }
    ensures there { (other : InodeId) → other ≢ result → row_of table.new.rows other ≡ row_of table.old.rows other }
    ensures kept { UsesInsert result (history_of rows) table.old.greatest table.old.room table.new.room }
{
    let id = InodeId(table.greatest().0 + 1);
    if table.insert(id, rows, since).is_err() {
        unreachable!()
    }
    id
}

/// The rows that no list names go, where there is room.
pub(crate) fn release_ready(table: &mut Table) -> Freed
    requires { 0 < table.old.room.blocks }
    ensures { Releasing (told table.old) result (told table.new) }
{
    match table.release() {
        Ok(freed) => freed,
        Err(_) => unreachable!(),
    }
}
