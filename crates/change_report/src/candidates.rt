//! Which rows a report looks at.
ghost use Rattle.std.specs.Prelude.{◌≡◌, ◌≤◌, length, IfOk};
ghost use Rattle.std.specs.List.{Contains, IsDistinct};
ghost use Rattle.hs_types.specs.declared.ids.InodeId.{InodeId as Inode};
ghost use Rattle.hs_plain.specs.Tree.{same_inode};
ghost use Rattle.inode_table.specs.Indexed.{made_between};
ghost use Rattle.inode_table.specs.Kept.{told};
ghost use Rattle.change_report.specs.Candidates;

use hs_types::{InodeId, List, NoMemory, SnapId};
use inode_table::Counted;
use snapshot_manager::Snaps;

/// The tick of a live snapshot. That of the current state is above all.
pub fn tick_at(snaps: &Snaps, end: SnapId) -> u64
    ensures { result ≡ Candidates.tick_at snaps.now end }
{
    if end == SnapId(0) {
        return u64::MAX;
    }
    match snaps.by_id(end) {
        Some((_, item)) => item.tick,
        None => u64::MAX,
    }
}

/// The rows that were made or got a record at a tick above `low` and at most `high`, each once.
pub fn candidates(table: &Counted<'_>, low: u64, high: u64) -> Result<List<InodeId>, NoMemory>
    ensures found { IfOk result (λ ids. (id : Inode) → Contains (made_between low high (told table.now.table).rows table.now.table.index) id → Contains ids id) }
    ensures once { IfOk result (λ ids. IsDistinct same_inode ids) }
    ensures few { IfOk result (λ ids. length ids ≤ length (made_between low high (told table.now.table).rows table.now.table.index)) }
{
    let mut ids = table.made_between(low, high)?.into_vec();
    ids.sort_unstable();
    ids.dedup();
    Ok(List::of(ids))
}
