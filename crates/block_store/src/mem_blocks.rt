//! A store in memory, of which chosen calls fail.
ghost use Rattle.std.specs.Prelude.{◌≡◌, ◌+◌, ◌-◌, ◌^◌, ◌≤◌, ◌↔◌, [], None, Some, length, take, drop, IfOk, IsErr, OnOk, OnErr, IsErrOf, IsTrue};
ghost use Rattle.hs_types.specs.Blocks.{find, bytes_of};
ghost use Rattle.block_store.specs.Changes.{Reaches, Sets, Writes};
ghost use Rattle.hs_types.specs.Faults.{one_more, fails_next};

use crate::kept_blocks::KeptBlocks;
use crate::store::{BlockStore, StoreErr};
use hs_types::{BlockId, List, Schedule};
use std::alloc::Global;
use std::marker::Model;

/// Blocks in memory. The calls with the chosen numbers, counted from 1, fail and do nothing else.
#[derive(Drop)]
pub struct MemBlocks {
    kept: KeptBlocks,
    schedule: Schedule,
}

impl Model for MemBlocks {
    ghost use Rattle.block_store.specs.Memory.{Failing};

    ghost Value = { Failing };

    ghost view = { λ s. record { blocks = s.kept.blocks; greatest = s.kept.greatest; fails = s.schedule.fails; calls = s.schedule.calls; faults = s.schedule.faults } };
}

impl MemBlocks {
    /// No blocks yet. The numbers may stand in any order, and more than once.
    pub fn new(alloc: Global, fails: List<u64>) -> MemBlocks
        ensures { result ≡ record { blocks = []; greatest = 0; fails = fails; calls = 0; faults = 0 } }
    {
        MemBlocks {
            kept: KeptBlocks::new(alloc),
            schedule: Schedule::new(fails),
        }
    }
}

impl BlockStore for MemBlocks {
    ghost blocks = { λ s. Some s.blocks };

    ghost faults = { λ s. s.faults };

    ghost greatest = { λ s. s.greatest };

    fn make(&mut self) -> Result<BlockId, StoreErr>
        ensures fails { IsErrOf result StoreErr.Failed ↔ IsTrue (fails_next self.old.fails self.old.calls) }
        ensures fresh { IfOk result (λ block. find self.old.blocks block ≡ None) }
        ensures number { IfOk result (λ block. block.0 ≡ self.old.greatest + 1) }
        ensures made { IfOk result (λ block. Sets block (Some []) self.old.blocks self.new.blocks) }
        ensures ok { OnOk result (self.new ≡ record self.old { blocks = self.new.blocks; greatest = self.old.greatest + 1; calls = one_more self.old.calls }) }
        ensures none_left { 2 ^ 64 - 1 ≤ self.old.greatest → IsErr result }
        ensures fault { IsErrOf result StoreErr.Failed → self.new ≡ record self.old { calls = one_more self.old.calls; faults = one_more self.old.faults } }
        ensures no_memory { IsErrOf result StoreErr.NoMemory → self.new ≡ record self.old { calls = one_more self.old.calls } }
        ensures count { self.old.faults ≤ self.new.faults }
    {
        if self.schedule.next_fails() {
            return Err(StoreErr::Failed);
        }
        Ok(self.kept.make()?)
    }

    fn write_at(&mut self, block: BlockId, offset: u32, bytes: &[u8]) -> Result<(), StoreErr>
        requires { Reaches (find self.old.blocks block) offset }
        ensures fails { IsErrOf result StoreErr.Failed ↔ IsTrue (fails_next self.old.fails self.old.calls) }
        ensures written { OnOk result (Writes block offset bytes.now self.old.blocks self.new.blocks) }
        ensures ok { OnOk result (self.new ≡ record self.old { blocks = self.new.blocks; calls = one_more self.old.calls }) }
        ensures fault { IsErrOf result StoreErr.Failed → self.new ≡ record self.old { calls = one_more self.old.calls; faults = one_more self.old.faults } }
        ensures no_memory { IsErrOf result StoreErr.NoMemory → self.new ≡ record self.old { calls = one_more self.old.calls } }
        ensures count { self.old.faults ≤ self.new.faults }
    {
        let place = offset as usize;
        if self.schedule.next_fails() {
            return Err(StoreErr::Failed);
        }
        Ok(self.kept.write_at(block, place, bytes)?)
    }

    fn read_at(&mut self, block: BlockId, offset: u32, out: &mut [u8]) -> Result<(), StoreErr>
        requires { Reaches (find self.old.blocks block) (offset + length out.old) }
        ensures fails { IsErrOf result StoreErr.Failed ↔ IsTrue (fails_next self.old.fails self.old.calls) }
        ensures bytes { OnOk result (out.new ≡ take (length out.old) (drop offset (bytes_of self.old.blocks block))) }
        ensures ok { OnOk result (self.new ≡ record self.old { calls = one_more self.old.calls }) }
        ensures fault { OnErr result (self.new ≡ record self.old { calls = one_more self.old.calls; faults = one_more self.old.faults }) }
        ensures untouched { OnErr result (out.new ≡ out.old) }
        ensures no_memory { IsErrOf result StoreErr.NoMemory → ⊥ }
        ensures count { self.old.faults ≤ self.new.faults }
    {
        if self.schedule.next_fails() {
            return Err(StoreErr::Failed);
        }
        self.kept.read_at(block, offset as usize, out);
        Ok(())
    }

    fn free(&mut self, block: BlockId) -> Result<(), StoreErr>
        ensures fails { IsErrOf result StoreErr.Failed ↔ IsTrue (fails_next self.old.fails self.old.calls) }
        ensures freed { OnOk result (Sets block None self.old.blocks self.new.blocks) }
        ensures ok { OnOk result (self.new ≡ record self.old { blocks = self.new.blocks; calls = one_more self.old.calls }) }
        ensures fault { OnErr result (self.new ≡ record self.old { calls = one_more self.old.calls; faults = one_more self.old.faults }) }
        ensures no_memory { IsErrOf result StoreErr.NoMemory → ⊥ }
        ensures count { self.old.faults ≤ self.new.faults }
    {
        if self.schedule.next_fails() {
            return Err(StoreErr::Failed);
        }
        self.kept.free(block);
        Ok(())
    }
}
