//! A table that is read, and how often.
ghost use Rattle.std.specs.Prelude.{◌≡◌, ◌+◌, ◌-◌, ◌^◌, min, IfOk};
ghost use Rattle.std.specs.Option.{option_copied};
ghost use Rattle.inode_table.specs.Indexed.{made_between};
ghost use Rattle.inode_table.specs.Kept.{told};
ghost use Rattle.inode_table.specs.Numbered.{row_of};

use crate::row::Row;
use crate::table::Table;
use hs_types::{InodeId, List, NoMemory};
use std::marker::Model;

/// A table that is lent to be read, and how many rows were asked for. It hands out no table, so who is lent one reaches rows by
/// its counted `row` alone.
#[derive(Drop)]
pub struct Counted<'a> {
    table: &'a Table,
    ticks: u64,
}

impl<'a> Model for Counted<'a> {
    ghost use Rattle.inode_table.specs.Kept.{CountedValue};

    ghost Value = { CountedValue };

    ghost view = { λ c. record { table = c.table.now; ticks = c.ticks } };
}

impl<'a> Counted<'a> {
    /// None was asked for yet.
    pub fn new(table: &'a Table) -> Counted<'a>
        ensures table { result.table ≡ table.now }
        ensures ticks { result.ticks ≡ 0 }
    {
        Counted { table, ticks: 0 }
    }

    /// The row of an inode. It ticks once, and takes no memory.
    pub fn row(&mut self, id: InodeId) -> Option<&'a Row>
        ensures row { option_copied result ≡ row_of self.old.table.rows id }
        ensures table { self.new.table ≡ self.old.table }
        ensures ticks { self.new.ticks ≡ min (self.old.ticks + 1) (2 ^ 64 - 1) }
    {
        self.ticks = self.ticks.saturating_add(1);
        self.table.row(id)
    }

    /// How many rows were asked for.
    pub fn ticks(&self) -> u64
        ensures { result ≡ self.now.ticks }
    {
        self.ticks
    }

    /// As that of the table. It doesn't tick.
    pub fn greatest(&self) -> InodeId
        ensures { result.0 ≡ self.now.table.greatest }
    {
        self.table.greatest()
    }

    /// As that of the table.
    pub fn made_between(&self, low: u64, high: u64) -> Result<List<InodeId>, NoMemory>
        ensures { IfOk result (λ ids. ids ≡ made_between low high (told self.now.table).rows self.now.table.index) }
    {
        self.table.made_between(low, high)
    }
}
