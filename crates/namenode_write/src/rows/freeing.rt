//! Blocks that no state names any more: they wait in lists until the store frees them.
ghost use Rattle.std.specs.Prelude.{◌≡◌, ◌≤◌, [], is_some, OnOk, OnErr};
ghost use Rattle.hs_types.specs.Faults.{Rose};
ghost use Rattle.namenode_write.specs.Waiting.{StandsStill, StaysAt};

use block_store::{BlockStore, StoreErr};
use hs_types::{BlockId, List};

/// Frees the blocks of a list, the last first, until none is left or the store fails. A block that it didn't free stays in the list.
fn free_blocks<B: BlockStore>(store: &mut B, blocks: &mut Vec<BlockId>) -> Result<(), StoreErr>
    ensures standing { StandsStill (B.blocks store.old) (B.greatest store.old) blocks.old.items (B.blocks store.new) (B.greatest store.new) blocks.new.items }
    ensures tells { is_some (B.blocks store.new) ≡ is_some (B.blocks store.old) }
    ensures count { B.faults store.old ≤ B.faults store.new }
    ensures none { OnOk result (blocks.new.items ≡ []) }
    ensures fault { OnErr result (Rose (B.faults store.old) (B.faults store.new)) }
{
    while let Some(block) = blocks.last() {
        store.free(*block)?;
        blocks.pop();
    }
    Ok(())
}

/// Frees the blocks of all lists, the last first, until none is left or the store fails: a block that it didn't free goes on waiting.
pub(crate) fn free_waiting<B: BlockStore>(store: &mut B, waiting: &mut Vec<List<BlockId>>)
    ensures standing { StaysAt (B.blocks store.old) (B.greatest store.old) waiting.old.items (B.blocks store.new) (B.greatest store.new) waiting.new.items }
    ensures tells { is_some (B.blocks store.new) ≡ is_some (B.blocks store.old) }
    ensures count { B.faults store.old ≤ B.faults store.new }

    // Where the store doesn't fail, no block waits any more.
    ensures freed { (Rose (B.faults store.old) (B.faults store.new) → ⊥) → waiting.new.items ≡ [] }
{
    while let Some(blocks) = waiting.pop() {
        let mut left = blocks.into_vec();
        if free_blocks(store, &mut left).is_err() {
            waiting.push_reserved(List::of(left));
            return;
        }
    }
}
