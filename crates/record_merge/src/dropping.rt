//! The deletion of a snapshot.
ghost use Rattle.std.specs.Prelude.{◌≡◌, ◌≢◌, ◌⊎◌, ℕ, ◌+◌, ◌-◌, ◌^◌, ◌<◌, ◌≤◌, List, ◌∷◌, ◌++◌, length, Option, Some, IsSome, IsOk, IfOk, OnOk, OnErr};
ghost use Rattle.std.specs.List.{Contains};
ghost use Rattle.hs_types.specs.Blocks.{BlockMap};
ghost use Rattle.hs_types.specs.declared.ids.BlockId.{BlockId};
ghost use Rattle.hs_types.specs.declared.ids.InodeId.{InodeId};
ghost use Rattle.hs_plain.specs.declared.state.Member.{Member};
ghost use Rattle.hs_plain.specs.declared.state.State.{State};
ghost use Rattle.hs_plain.specs.declared.state.FileBlocks.{FileBlocks};
ghost use Rattle.hs_plain.specs.Change.{unsnapped};
ghost use Rattle.snapshot_manager.specs.Snapshots.{live_at, changed, without};
ghost use Rattle.inode_table.specs.Blocked.{AreBlocks};
ghost use Rattle.inode_table.specs.Indexed.{made_between};
ghost use Rattle.inode_table.specs.Joined.{AreTold};
ghost use Rattle.inode_table.specs.Kept.{told, rows_in};
ghost use Rattle.inode_table.specs.Merged.{IsRowMergeable};
ghost use Rattle.inode_table.specs.Numbered.{row_of};
ghost use Rattle.inode_table.specs.Released.{Releasing};
ghost use Rattle.inode_table.specs.Tabled.{Tabled};
ghost use Rattle.inode_table.specs.Totals.{weight};
ghost use Rattle.inode_table.specs.Whole.{StandsFor, StandsForPlain};
ghost use Rattle.table_laws.specs.RecordDropping.{AreLeft};
ghost use Rattle.table_laws.specs.RecordDropped.{MergesLost, StaysAlike, LooksAt};
ghost use Rattle.record_merge.specs.Dropping.{AreRising, FreesExactly};

use crate::distinct::distinct;
use crate::losing::lost_of;
use hs_types::{Duplicate, InodeId, List, Name, NoMemory, SnapId};
use inode_table::{Freed, Table};
use snapshot_manager::Snaps;

/// Takes the record of a row away that has lost the last live snapshot of its interval, where there is one.
fn merge_lost(table: &mut Table, snaps: &Snaps, id: InodeId)
    requires prepared { IsRowMergeable (row_of table.old.rows id) }
    requires room { 0 < table.old.room.blocks }
    ensures looked { (fewer : List (Member FileBlocks)) (issued : ℕ) (todo : List InodeId) → AreTold fewer snaps.now → AreLeft (told table.old) fewer issued (id ∷ todo)
        → MergesLost fewer id (told table.old) (told table.new) ⊎ StaysAlike fewer id (told table.old) (told table.new) }
    ensures there { (other : InodeId) → other ≢ id → rows_in (row_of table.new.rows other) ≡ rows_in (row_of table.old.rows other) }
    ensures room { 0 < table.new.room.blocks }
{
    snaps.always();
    match lost_of(table, snaps, id) {
        Some(i) => table.merge(id, i),
        None => {}
    }
}

/// The same for each of these rows in turn.
fn merge_all(table: &mut Table, snaps: &Snaps, ids: &[InodeId])
    requires rising { AreRising ids.now }
    requires prepared { (id : InodeId) → Contains ids.now id → IsRowMergeable (row_of table.old.rows id) }
    requires room { 0 < table.old.room.blocks }
    ensures looked { (fewer : List (Member FileBlocks)) (issued : ℕ) → AreTold fewer snaps.now → AreLeft (told table.old) fewer issued ids.now
        → LooksAt fewer ids.now (told table.old) (told table.new) }
    ensures room { 0 < table.new.room.blocks }
{
    for id in ids {
        merge_lost(table, snaps, *id);
    }
}

/// The rows that were made, or got a record, after a tick, each once.
fn changed_since(table: &Table, tick: u64) -> Result<List<InodeId>, NoMemory>
    ensures rising { IfOk result (λ ids. AreRising ids) }
    ensures all { IfOk result (λ ids. (id : InodeId) → Contains (made_between tick (2 ^ 64 - 1) (told table.now).rows table.now.index) id → Contains ids id) }
{
    let ids = table.made_between(tick, u64::MAX)?;
    Ok(distinct(ids))
}

/// Makes room for one merge of each row that was made, or got a record, after a tick, and gives their ids, each once.
fn prepared_since(table: &mut Table, tick: u64) -> Result<List<InodeId>, NoMemory>
    ensures same { told table.new ≡ told table.old }
    ensures rising { IfOk result (λ ids. AreRising ids) }
    ensures all { IfOk result (λ ids. (id : InodeId) → Contains (made_between tick (2 ^ 64 - 1) (told table.old).rows table.old.index) id → Contains ids id) }
    ensures prepared { IfOk result (λ ids. (id : InodeId) → Contains ids id → IsRowMergeable (row_of table.new.rows id)) }
    ensures room { OnOk result (0 < table.new.room.blocks) }
{
    let ids = changed_since(table, tick)?;
    table.prepare_merge(&ids)?;
    Ok(ids)
}

/// Takes a snapshot out, one record of each of these rows that needs none any more, and what no list names then.
fn commit(
    table: &mut Table,
    snaps: &mut Snaps,
    dir: InodeId,
    name: &Name,
    ids: &[InodeId],
) -> Result<Freed, NoMemory>
    requires rising { AreRising ids.now }
    requires prepared { (id : InodeId) → Contains ids.now id → IsRowMergeable (row_of table.old.rows id) }
    requires room { 0 < table.old.room.blocks }
    ensures done { IsOk result }
    ensures snaps { snaps.new ≡ changed dir (without name.now) snaps.old }
    ensures table { IfOk result (λ freed. (middle : Tabled) × Releasing middle freed (told table.new)
        × ((fewer : List (Member FileBlocks)) (issued : ℕ) → AreTold fewer snaps.new → AreLeft (told table.old) fewer issued ids.now → LooksAt fewer ids.now (told table.old) middle)) }
{
    snaps.remove(dir, name);
    merge_all(table, snaps, ids);
    table.release()
}

/// Deletes a live snapshot. Its id is live no more; the records that only it needed are taken away, and rows that no list names any
/// more go. It hands out the blocks that were named by what went alone. What it does is bounded by what was changed since the snapshot
/// was made, not by the tree.
pub fn drop_snapshot(table: &mut Table, snaps: &mut Snaps, id: SnapId) -> Result<Freed, NoMemory>
    requires live { IsSome (live_at snaps.old id) }
    ensures stands { (state : State FileBlocks) → state.tick < 2 ^ 64 → StandsFor (told table.old) snaps.old state → OnOk result (StandsFor (told table.new) snaps.new (unsnapped state id)) }
    ensures blocks { (state : State FileBlocks) (store : Option BlockMap) (made : ℕ) (waiting : List BlockId) → state.tick < 2 ^ 64 → StandsFor (told table.old) snaps.old state → AreBlocks (told table.old).rows store made waiting
        → IfOk result (λ freed. AreBlocks (told table.new).rows store made (waiting ++ freed.blocks)) }
    ensures plain { (plain : State (List ℕ)) (store : Option BlockMap) (made : ℕ) (waiting : List BlockId) → plain.tick < 2 ^ 64 → StandsForPlain (told table.old) snaps.old store made waiting plain
        → IfOk result (λ freed. StandsForPlain (told table.new) snaps.new store made (waiting ++ freed.blocks) (unsnapped plain id)) }
    ensures freed { (state : State FileBlocks) (store : Option BlockMap) (made : ℕ) (waiting : List BlockId) → state.tick < 2 ^ 64 → StandsFor (told table.old) snaps.old state → AreBlocks (told table.old).rows store made waiting
        → IfOk result (λ freed. FreesExactly (told table.old).rows (told table.new).rows freed.blocks) }
    ensures rows { (state : State FileBlocks) → state.tick < 2 ^ 64 → StandsFor (told table.old) snaps.old state → IfOk result (λ freed. length (told table.old).rows ≡ length (told table.new).rows + freed.rows) }
    ensures light { (state : State FileBlocks) → state.tick < 2 ^ 64 → StandsFor (told table.old) snaps.old state → OnOk result (weight (told table.new).rows ≤ weight (told table.old).rows) }
    ensures err_table { OnErr result (told table.new ≡ told table.old) }
    ensures err_snaps { OnErr result (snaps.new ≡ snaps.old) }
{
    snaps.always();
    let Some((dir, item)) = snaps.by_id(id) else {
        unreachable!()
    };
    let name = item.name.copy()?;
    let ids = prepared_since(table, item.tick)?;
    commit(table, snaps, dir, &name, ids.items())
}
