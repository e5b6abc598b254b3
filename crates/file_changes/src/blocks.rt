//! Which blocks no state names any more.
ghost use Rattle.std.specs.Prelude.{◌≡◌, IsTrue, not, filter};
ghost use Rattle.std.specs.List.{list_any};
ghost use Rattle.file_changes.specs.History.{state_has, names};

use crate::state::{FileRecord, FileState};
use hs_types::BlockId;

/// Whether the state has the block at that place of its list.
fn stands_at(state: &FileState, place: usize, block: BlockId) -> bool
    ensures { IsTrue result → IsTrue (state_has block state.now) }
{
    match state.blocks.get(place) {
        Some(other) => *other == block,
        None => false,
    }
}

/// Whether a state beside record `next` has the block at that place: mostly states share the front of their lists.
fn stands_beside(
    records: &[FileRecord],
    current: &FileState,
    next: usize,
    place: usize,
    block: BlockId,
) -> bool
    ensures { IsTrue result → IsTrue (names (record { current = current.now; records = records.now }) block) }
{
    if 0 < next
        && let Some(record) = records.get(next - 1)
        && stands_at(&record.state, place, block)
    {
        return true;
    }
    match records.get(next) {
        Some(record) => stands_at(&record.state, place, block),
        None => stands_at(current, place, block),
    }
}

/// Whether one of these states names the block.
fn is_named(records: &[FileRecord], current: &FileState, block: BlockId) -> bool
    ensures { result ≡ names (record { current = current.now; records = records.now }) block }
{
    current.blocks.items().contains(&block) || is_recorded(records, block)
}

/// The same, with the likely places asked first.
fn is_named_near(
    records: &[FileRecord],
    current: &FileState,
    next: usize,
    place: usize,
    block: BlockId,
) -> bool
    ensures { result ≡ names (record { current = current.now; records = records.now }) block }
{
    stands_beside(records, current, next, place, block) || is_named(records, current, block)
}

fn is_recorded(records: &[FileRecord], block: BlockId) -> bool
    ensures { result ≡ list_any (λ r. state_has block r.state) records.now }
{
    records
        .iter()
        .any(|record| record.state.blocks.items().contains(&block))
}

/// Keeps the blocks that none of these states names, in order. `next` is the record that follows the one that
/// the blocks were of: it and the one before it are asked first.
pub fn keep_unnamed(
    mut blocks: Vec<BlockId>,
    records: &[FileRecord],
    current: &FileState,
    next: usize,
) -> Vec<BlockId>
    ensures { result.items ≡ filter (λ block. not (names (record { current = current.now; records = records.now }) block)) blocks.items }
{
    let mut kept = 0;
    for place in 0..blocks.len() {
        let block = blocks[place];
        if !is_named_near(records, current, next, place, block) {
            blocks.swap(kept, place);
            kept += 1;
        }
    }
    blocks.truncate(kept);
    blocks
}
