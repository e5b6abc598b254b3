//! The rows of a namenode, by the ids of their inodes.
ghost use Rattle.std.specs.Prelude.{◌≡◌, ◌≢◌, ◌+◌, ◌≤◌, List, [], IsSome, IfOk, slice_set, vec_len, vec_capacity};
ghost use Rattle.std.specs.Option.{option_copied, option_map};
ghost use Rattle.hs_types.specs.declared.ids.InodeId.{InodeId};
ghost use Rattle.hs_types.specs.declared.name.Spot.{Spot};
ghost use Rattle.inode_table.specs.Kept.{told};
ghost use Rattle.inode_table.specs.Numbered.{row_of, at_place, with_marks};
ghost use Rattle.inode_table.specs.Slots.{table_in, AreCounted, AreListed};
ghost use Rattle.inode_table.specs.Start.{first_table};
ghost use Rattle.inode_table.specs.Tabled.{marked_row};

use crate::noted::Noted;
use crate::row::{Row, Rows};
use dir_changes::DirRows;
use hs_types::{BlockId, InodeId, Mode, Name, NameText, NoMemory, SnapId, Spot};
use std::alloc::Global;
use std::marker::Model;

/// The rows of all inodes, the index of what was made or got a record at which tick, and what the next release hands out.
#[derive(Debug, Drop)]
pub struct Table {
    /// A row stands at the place that its inode's id says.
    pub(crate) rows: Vec<Option<Row>>,
    /// By rising ticks.
    pub(crate) index: Vec<Noted>,
    /// Each row that no list names, but for the root, and perhaps others.
    pub(crate) unnamed: Vec<InodeId>,
    /// The blocks that the next release hands out.
    pub(crate) waiting: Vec<BlockId>,
    /// How many blocks the states of all rows name.
    pub(crate) blocks: usize,
}

impl Model for Table {
    ghost use Rattle.inode_table.specs.Kept.{TableValue};

    ghost Value = { TableValue };

    ghost use Rattle.inode_table.specs.Inside.{table_value, IsKept};

    ghost view = { table_value };

    ghost invariant = { IsKept };
}

impl Table {
    /// The root alone.
    pub fn new(alloc: Global) -> Result<Table, NoMemory>
        ensures { IfOk result (λ table. (spot : Spot) × (told table ≡ first_table spot)) }
    {
        let spot = root_spot(alloc)?;
        let mut rows = Vec::with_capacity(alloc, 2)?;
        let mut unnamed = Vec::new(alloc);
        unnamed.reserve(2)?;
        push_root(&mut rows, alloc, spot);
        Ok(Table {
            rows,
            index: Vec::new(alloc),
            unnamed,
            waiting: Vec::new(alloc),
            blocks: 0,
        })
    }

    /// The row of an inode. It takes no memory.
    pub fn row(&self, id: InodeId) -> Option<&Row>
        ensures { option_copied result ≡ row_of self.now.rows id }
    {
        row_at(&self.rows, id)
    }

    /// Sets the two marks of a row that is there. It takes no memory.
    pub fn set_marks(&mut self, id: InodeId, since: SnapId, carry: SnapId)
        requires { IsSome (row_of self.old.rows id) }
        ensures marks { told self.new ≡ marked_row id since.0 carry.0 (told self.old) }
        ensures here { row_of self.new.rows id ≡ option_map (with_marks since carry) (row_of self.old.rows id) }
        ensures there { (other : InodeId) → other ≢ id → row_of self.new.rows other ≡ row_of self.old.rows other }
        ensures room { self.new.room ≡ self.old.room }
    {
        mark_at(&mut self.rows, id, since, carry);
    }
}

/// A spot for the root, which no definition reads.
fn root_spot(alloc: Global) -> Result<Spot, NoMemory> {
    let text = NameText::new(String::from_str(alloc, "root")?);
    match Name::read(alloc, &text) {
        Ok(name) => Ok(Spot {
            parent: InodeId::ROOT,
            name,
        }),
        Err(_) => Err(NoMemory),
    }
}

/// The root's row, at its place.
fn push_root(rows: &mut Vec<Option<Row>>, alloc: Global, spot: Spot)
    requires empty { rows.old.items ≡ [] }
    requires room { vec_len rows.old + 2 ≤ vec_capacity rows.old }
    ensures rows { table_in rows.new.items ≡ (first_table spot).rows }
    ensures counted { AreCounted rows.new.items [] }
    ensures listed { (ids : List InodeId) → AreListed rows.new.items ids }
    ensures len { vec_len rows.new ≡ 2 }
    ensures capacity { vec_capacity rows.new ≡ vec_capacity rows.old }
{
    let root = DirRows::new(alloc, spot, Mode::of_directory(), 0);
    rows.push_reserved(None);
    rows.push_reserved(Some(Row {
        since: SnapId(0),
        carry: SnapId(0),
        names: 0,
        rows: Rows::Dir(root),
    }));
}

pub fn row_at(rows: &Vec<Option<Row>>, id: InodeId) -> Option<&Row>
    ensures { option_copied result ≡ at_place rows.now.items id }
{
    match rows.get(id.0 as usize) {
        Some(Some(row)) => Some(row),
        Some(None) => None,
        None => None,
    }
}

/// Sets the marks of the row at an inode's place.
fn mark_at(rows: &mut Vec<Option<Row>>, id: InodeId, since: SnapId, carry: SnapId)
    requires { IsSome (at_place rows.old.items id) }
    ensures set { rows.new.items ≡ slice_set rows.old.items id.0 (option_map (with_marks since carry) (at_place rows.old.items id)) }
    ensures len { vec_len rows.new ≡ vec_len rows.old }
    ensures capacity { vec_capacity rows.new ≡ vec_capacity rows.old }
{
    mark(&mut rows[id.0 as usize], since, carry);
}

fn mark(slot: &mut Option<Row>, since: SnapId, carry: SnapId)
    ensures { slot.new ≡ option_map (with_marks since carry) slot.old }
{
    if let Some(row) = slot {
        row.since = since;
        row.carry = carry;
    }
}
