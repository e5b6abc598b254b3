//! The snapshots of a directory, as they are shown and as items.
ghost use Rattle.std.specs.Prelude.{◌≡◌, ◌++◌, ◌∷◌, [], ◌≤◌, true, length, IfOk, OnOk};
ghost use Rattle.std.specs.List.{prefix_len};
ghost use Rattle.hs_plain.specs.State.{is_lesser, with_item};
ghost use Rattle.snapshot_manager.specs.Snapshots.{snaps_in};
ghost use Rattle.paged_listing.specs.Items.{snap_items};

use hs_types::{Duplicate, InodeId, Item, List, Name, NoMemory, SnapId, SnapItem};
use snapshot_manager::Snaps;
use std::alloc::Global;
use std::cmp::Ordering;

/// Adds a copy of a snapshot as it is shown.
fn push_copy(list: &mut Vec<SnapItem>, item: &SnapItem) -> Result<(), NoMemory>
    ensures { OnOk result (list.new.items ≡ list.old.items ++ item.now ∷ []) }
{
    list.push(item.copy()?)?;
    Ok(())
}

/// The snapshots of a directory as they are shown, in order of making.
pub fn snapshot_list(alloc: Global, snaps: &Snaps, dir: InodeId) -> Result<List<SnapItem>, NoMemory>
    ensures { IfOk result (λ list. list ≡ snaps_in snaps.now dir) }
{
    snaps.always();
    let mut list = Vec::new(alloc);
    let mut last = SnapId(0);
    while let Some(item) = snaps.snap_after(dir, last) {
        push_copy(&mut list, item)?;
        last = item.id;
    }
    Ok(List::of(list))
}

/// How many items at the front have a lesser name.
fn rank_of(items: &[Item], name: &Name) -> usize
    ensures rank { result ≡ prefix_len (is_lesser name.now) items.now }
    ensures within { result ≤ length items.now }
{
    for (rank, item) in items.iter().enumerate() {
        if name.cmp(&item.name) != Ordering::Greater {
            return rank;
        }
    }
    items.len()
}

#[tactic(auto, using(hs_plain::proofs::Ranks::with_item_at))]
/// Puts an item in its place by name.
fn put_item(items: &mut Vec<Item>, item: Item) -> Result<(), NoMemory>
    ensures { OnOk result (items.new.items ≡ with_item item items.old.items) }
{
    let rank = rank_of(items.as_slice(), &item.name);
    items.insert(rank, item)?;
    Ok(())
}

/// Puts a snapshot of a directory in its place by name.
fn put_snapshot(items: &mut Vec<Item>, dir: InodeId, snapshot: &SnapItem) -> Result<(), NoMemory>
    ensures { OnOk result (items.new.items ≡ with_item (record { name = snapshot.now.name; id = dir; is_dir = true }) items.old.items) }
{
    let name = snapshot.name.copy()?;
    put_item(
        items,
        Item {
            name,
            id: dir,
            is_dir: true,
        },
    )
}

/// Snapshots of a directory as items, in name order.
fn named_items(alloc: Global, dir: InodeId, list: &[SnapItem]) -> Result<List<Item>, NoMemory>
    ensures { IfOk result (λ items. items ≡ snap_items dir list.now) }
{
    let mut items = Vec::new(alloc);
    for snapshot in list.iter().rev() {
        put_snapshot(&mut items, dir, snapshot)?;
    }
    Ok(List::of(items))
}

/// The snapshots of a directory as items, in name order.
pub(crate) fn snapshot_items(
    alloc: Global,
    snaps: &Snaps,
    dir: InodeId,
) -> Result<List<Item>, NoMemory>
    ensures { IfOk result (λ items. items ≡ snap_items dir (snaps_in snaps.now dir)) }
{
    let list = snapshot_list(alloc, snaps, dir)?;
    named_items(alloc, dir, list.items())
}
