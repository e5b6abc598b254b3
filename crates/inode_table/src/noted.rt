//! The index: which rows were made, or got a record, at which tick.
ghost use Rattle.std.specs.Prelude.{◌≡◌, ◌+◌, ◌<◌, ◌≤◌, cond, true, false, is_some, length, IfOk, vec_len, vec_capacity};
ghost use Rattle.std.specs.List.Sorted.{IsPartitionPoint};
ghost use Rattle.inode_table.specs.Indexed.{noted, made_between, ids_there, is_upto, IsRising};
ghost use Rattle.inode_table.specs.Kept.{told};
ghost use Rattle.inode_table.specs.RowHistory.{row_at};
ghost use Rattle.inode_table.specs.Slots.{table_in};

use crate::row::Row;
use crate::table::{Table, row_at};
use hs_types::{InodeId, List, NoMemory};
use std::alloc::Global;

/// A row was made, or got a record, at this tick.
#[derive(Clone, Copy, Debug)]
pub struct Noted {
    pub tick: u64,
    pub id: InodeId,
}

/// How many entries have ticks at most this one: they stand before all others.
fn upto(index: &[Noted], tick: u64) -> usize
    requires { IsRising index.now }
    ensures within { result ≤ length index.now }
    ensures point { IsPartitionPoint (λ e. is_upto tick e ≡ true) (λ e. is_upto tick e ≡ false) index.now result }
{
    index.partition_point(|entry| entry.tick <= tick)
}

impl Table {
    /// The ids of the rows that were made, or got a record, at a tick above `low` and at most `high`. One that was, and got more,
    /// stands there as often.
    pub fn made_between(&self, low: u64, high: u64) -> Result<List<InodeId>, NoMemory>
        ensures { IfOk result (λ ids. ids ≡ made_between low high (told self.now).rows self.now.index) }
    {
        let alloc = *self.index.allocator();
        made_in(alloc, self.index.as_slice(), &self.rows, low, high)
    }
}

/// Puts an entry behind all whose ticks are at most its own, where there is room.
pub fn note(index: &mut Vec<Noted>, tick: u64, id: InodeId)
    requires rising { IsRising index.old.items }
    requires room { vec_len index.old < vec_capacity index.old }
    ensures noted { index.new.items ≡ noted tick id index.old.items }
    ensures rising { IsRising index.new.items }
    ensures len { vec_len index.new ≡ vec_len index.old + 1 }
    ensures capacity { vec_capacity index.new ≡ vec_capacity index.old }
{
    let at = upto(index.as_slice(), tick);
    match index.insert(at, Noted { tick, id }) {
        Ok(()) => {}
        Err(_) => unreachable!(),
    }
}

/// Puts an entry for a record that was started, where there is room.
pub fn note_start(index: &mut Vec<Noted>, started: bool, tick: u64, id: InodeId)
    requires rising { IsRising index.old.items }
    requires room { vec_len index.old < vec_capacity index.old }
    ensures noted { index.new.items ≡ cond started (noted tick id index.old.items) index.old.items }
    ensures rising { IsRising index.new.items }
    ensures len { vec_len index.new ≤ vec_len index.old + 1 }
    ensures capacity { vec_capacity index.new ≡ vec_capacity index.old }
{
    if started {
        note(index, tick, id);
    }
}

/// The ids of the entries at a tick above `low` and at most `high` whose rows are there, in order.
fn made_in(
    alloc: Global,
    index: &[Noted],
    rows: &Vec<Option<Row>>,
    low: u64,
    high: u64,
) -> Result<List<InodeId>, NoMemory>
    requires { IsRising index.now }
    ensures { IfOk result (λ ids. ids ≡ made_between low high (table_in rows.now.items) index.now) }
{
    let from = upto(index, low);
    let to = upto(index, high);
    if to <= from {
        return Ok(List::new(alloc));
    }
    let ids = ids_there(alloc, &index[from..to], rows)?;
    Ok(List::of(ids))
}

/// The ids of the entries whose rows are there, in order.
fn ids_there(
    alloc: Global,
    index: &[Noted],
    rows: &Vec<Option<Row>>,
) -> Result<Vec<InodeId>, NoMemory>
    ensures { IfOk result (λ ids. ids.items ≡ ids_there (table_in rows.now.items) index.now) }
{
    let mut ids = Vec::new(alloc);
    for entry in index {
        if is_there(rows, entry.id) {
            ids.push(entry.id)?;
        }
    }
    Ok(ids)
}

fn is_there(rows: &Vec<Option<Row>>, id: InodeId) -> bool
    ensures { result ≡ is_some (row_at (table_in rows.now.items) id) }
{
    row_at(rows, id).is_some()
}
