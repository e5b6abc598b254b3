//! A store in memory that never fails.
ghost use Rattle.std.specs.Prelude.{◌≡◌, ◌+◌, ◌-◌, ◌^◌, ◌≤◌, [], None, Some, length, take, drop, IfOk, IsErr, OnOk, OnErr, IsErrOf};
ghost use Rattle.hs_types.specs.Blocks.{find, bytes_of};
ghost use Rattle.block_store.specs.Changes.{Reaches, Sets, Writes};

use crate::kept_blocks::KeptBlocks;
use crate::store::{BlockStore, StoreErr};
use hs_types::BlockId;
use std::alloc::Global;
use std::marker::Model;

/// Blocks in memory. Its calls end with an error only for want of memory or of numbers.
#[derive(Drop)]
pub struct SteadyBlocks {
    kept: KeptBlocks,
}

impl Model for SteadyBlocks {
    ghost use Rattle.block_store.specs.Memory.{Kept};

    ghost Value = { Kept };

    ghost view = { λ s. s.kept };
}

impl SteadyBlocks {
    /// No blocks yet.
    pub fn new(alloc: Global) -> SteadyBlocks
        ensures { result ≡ record { blocks = []; greatest = 0 } }
    {
        SteadyBlocks {
            kept: KeptBlocks::new(alloc),
        }
    }
}

impl BlockStore for SteadyBlocks {
    ghost blocks = { λ s. Some s.blocks };

    ghost faults = { λ _. 0 };

    ghost greatest = { λ s. s.greatest };

    fn make(&mut self) -> Result<BlockId, StoreErr>
        ensures fresh { IfOk result (λ block. find self.old.blocks block ≡ None) }
        ensures number { IfOk result (λ block. block.0 ≡ self.old.greatest + 1) }
        ensures made { IfOk result (λ block. Sets block (Some []) self.old.blocks self.new.blocks) }
        ensures greatest { OnOk result (self.new.greatest ≡ self.old.greatest + 1) }
        ensures none_left { 2 ^ 64 - 1 ≤ self.old.greatest → IsErr result }
        ensures err { OnErr result (self.new ≡ self.old) }
        ensures steady { IsErrOf result StoreErr.Failed → ⊥ }
    {
        Ok(self.kept.make()?)
    }

    fn write_at(&mut self, block: BlockId, offset: u32, bytes: &[u8]) -> Result<(), StoreErr>
        requires { Reaches (find self.old.blocks block) offset }
        ensures written { OnOk result (Writes block offset bytes.now self.old.blocks self.new.blocks) }
        ensures greatest { self.new.greatest ≡ self.old.greatest }
        ensures err { OnErr result (self.new ≡ self.old) }
        ensures steady { IsErrOf result StoreErr.Failed → ⊥ }
    {
        Ok(self.kept.write_at(block, offset as usize, bytes)?)
    }

    fn read_at(&mut self, block: BlockId, offset: u32, out: &mut [u8]) -> Result<(), StoreErr>
        requires { Reaches (find self.old.blocks block) (offset + length out.old) }
        ensures bytes { out.new ≡ take (length out.old) (drop offset (bytes_of self.old.blocks block)) }
        ensures kept { self.new ≡ self.old }
        ensures steady { OnErr result ⊥ }
    {
        self.kept.read_at(block, offset as usize, out);
        Ok(())
    }

    fn free(&mut self, block: BlockId) -> Result<(), StoreErr>
        ensures freed { Sets block None self.old.blocks self.new.blocks }
        ensures greatest { self.new.greatest ≡ self.old.greatest }
        ensures steady { OnErr result ⊥ }
    {
        self.kept.free(block);
        Ok(())
    }
}
