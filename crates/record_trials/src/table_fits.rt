//! Tests of what a call on a table requires.
ghost use Rattle.std.specs.Prelude.{◌≡◌, ℕ, ◌^◌, ◌<◌, ◌==◌, IsTrue, not, List, Some};
ghost use Rattle.std.specs.List.{list_all};
ghost use Rattle.dir_changes.specs.Entries.{id_at};
ghost use Rattle.hs_types.specs.declared.ids.InodeId.{InodeId};
ghost use Rattle.inode_table.specs.Kept.{told, FitsFile, FitsDir, FitsRows, FitsTable, IsLoose, CanChange};
ghost use Rattle.inode_table.specs.Numbered.{history_of};
ghost use Rattle.inode_table.specs.Once.{IsIn};
ghost use Rattle.inode_table.specs.RowHistory.{shown, entries_in};
ghost use Rattle.inode_table.specs.Totals.{weight};

use dir_changes::{Child, DirRows};
use hs_types::{InodeId, Name};
use inode_table::{Change, Rows, Table};

/// Whether rows, records and entries together are few enough for one more.
pub fn is_light(table: &Table) -> bool
    ensures { IsTrue result → weight (told table.now).rows < 2 ^ 32 }
{
    let counts = table.counts();
    let entries = counts.records.saturating_add(counts.list_entries);
    counts.rows.saturating_add(entries) < 4_294_967_296
}

/// Whether the row is there, and the change fits it. All ids are at most `greatest`.
pub fn fits(table: &Table, greatest: u64, id: InodeId, what: &Change) -> bool
    requires { table.now.greatest ≡ greatest }
    ensures { IsTrue result → CanChange (told table.now).rows id what.now }
{
    match table.row(id) {
        Some(row) => fits_rows(&row.rows, what) && fits_table(table, greatest, what),
        None => false,
    }
}

fn fits_rows(rows: &Rows, what: &Change) -> bool
    ensures { IsTrue result → FitsRows what.now (history_of rows.now) }
{
    match rows {
        Rows::File(_) => fits_file(what),
        Rows::Dir(dir) => fits_dir(dir, what),
    }
}

fn fits_file(what: &Change) -> bool
    ensures { IsTrue result → FitsFile what.now }
{
    match what {
        Change::Mode(_) => true,
        Change::Body { .. } => true,
        Change::Move(_) => true,
        Change::Add { .. } => false,
        Change::Remove { .. } => false,
    }
}

fn fits_dir(dir: &DirRows, what: &Change) -> bool
    ensures { IsTrue result → FitsDir what.now dir.now.history }
{
    match what {
        Change::Mode(_) => true,
        Change::Body { .. } => false,
        Change::Move(_) => true,
        Change::Add { name, .. } => dir.current().id_of(name).is_none(),
        Change::Remove { name } => has(dir, name),
    }
}

fn has(dir: &DirRows, name: &Name) -> bool
    ensures { IsTrue result → (id : InodeId) × (id_at name.now dir.now.history.children ≡ Some id) }
{
    match dir.current().id_of(name) {
        Some(_) => true,
        None => false,
    }
}

fn fits_table(table: &Table, greatest: u64, what: &Change) -> bool
    requires { table.now.greatest ≡ greatest }
    ensures { IsTrue result → FitsTable what.now (told table.now).rows }
{
    match what {
        Change::Mode(_) => true,
        Change::Body { .. } => true,
        Change::Move(_) => true,
        Change::Add { id, .. } => is_loose(table, greatest, *id),
        Change::Remove { .. } => true,
    }
}

/// Whether the row is there and no current list names it: each directory is asked.
fn is_loose(table: &Table, greatest: u64, id: InodeId) -> bool
    requires { table.now.greatest ≡ greatest }
    ensures { IsTrue result → IsLoose (told table.now).rows id }
{
    match table.row(id) {
        Some(_) => is_in_none(table, greatest, id),
        None => false,
    }
}

fn is_in_none(table: &Table, greatest: u64, id: InodeId) -> bool
    requires { table.now.greatest ≡ greatest }
    ensures { IsTrue result → (dir : InodeId) (name : List ℕ) → IsIn (shown (told table.now).rows 0).entries dir name id → ⊥ }
{
    table.always();
    for number in 0..greatest {
        if !is_absent(table, InodeId(number), id) {
            return false;
        }
    }
    is_absent(table, InodeId(greatest), id)
}

/// Whether the current list of a directory doesn't name an inode. What isn't there names none.
fn is_absent(table: &Table, dir: InodeId, id: InodeId) -> bool
    ensures { IsTrue result → (name : List ℕ) → IsIn (shown (told table.now).rows 0).entries dir name id → ⊥ }
{
    match table.row(dir) {
        Some(row) => lacks(&row.rows, id),
        None => true,
    }
}

fn lacks(rows: &Rows, id: InodeId) -> bool
    ensures { IsTrue result → (name : List ℕ) → id_at name (entries_in 0 (history_of rows.now)) ≡ Some id → ⊥ }
{
    match rows {
        Rows::File(_) => true,
        Rows::Dir(dir) => lacks_child(dir.current().items(), id),
    }
}

fn lacks_child(children: &[Child], id: InodeId) -> bool
    ensures { result ≡ list_all (λ e. not (e.1.0 == id.0)) children.now }
{
    children.iter().all(|child| child.id != id)
}
