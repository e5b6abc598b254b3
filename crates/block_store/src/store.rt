//! What a store of blocks is.
ghost use Rattle.std.specs.Prelude.{◌≡◌, ◌+◌, ◌-◌, ◌^◌, ◌<◌, ◌≤◌, ℕ, Option, [], None, Some, codes, length, take, drop, IfOk, IfSome, IsErr, OnOk, OnErr, IsErrOf};
ghost use Rattle.hs_types.specs.Blocks.{BlockMap, find, bytes_of};
ghost use Rattle.hs_types.specs.Limits.{block_size};
ghost use Rattle.block_store.specs.declared.store.StoreErr.TheVariants.{NoMemory as no_memory};
ghost use Rattle.block_store.specs.Changes.{Changes, Reaches, Sets, Writes, Spoils};
ghost use Rattle.block_store.specs.Errors.{store_err_text};
ghost use Rattle.hs_types.specs.Faults.{Rose};

use hs_types::{BlockId, NoMemory};
use std::error::Error;
use std::fmt;

/// Why a store didn't do a call.
#[derive(Clone, Copy, Debug, PartialEq, Eq)]
pub enum StoreErr {
    /// The store failed, and its count of faults rose.
    Failed,
    NoMemory,
}

impl fmt::Display for StoreErr {
    ghost output = { λ e. Some (store_err_text e) };

    fn fmt<W: fmt::Write>(&self, f: &mut fmt::Formatter<W>) -> fmt::Result {
        match self {
            StoreErr::Failed => f.write_str("store failed"),
            StoreErr::NoMemory => f.write_str("no memory"),
        }
    }
}

impl Error for StoreErr {}

impl From<NoMemory> for StoreErr {
    ghost from_gives = { λ _ e. e ≡ no_memory };

    fn from(_error: NoMemory) -> StoreErr {
        StoreErr::NoMemory
    }
}

/// Blocks of at most 65,536 bytes, each with a number. Whether a store tells its blocks never changes.
pub trait BlockStore: Drop {
    /// The blocks with their bytes, where the store tells them.
    ghost blocks: { Self → Option BlockMap };

    /// How often it has failed, up to the last number of a u64.
    ghost faults: { Self → ℕ };

    /// The greatest number that it has given, or 0 before the first.
    ghost greatest: { Self → ℕ };

    /// Makes an empty block. Its number is greater than all that were given before, so none is given twice.
    fn make(&mut self) -> Result<BlockId, StoreErr>
        ensures fresh { IfOk result (λ block. IfSome (blocks self.old) (λ map. find map block ≡ None)) }
        ensures made { IfOk result (λ block. Changes (blocks self.old) (blocks self.new) (Sets block (Some []))) }
        ensures above { IfOk result (λ block. greatest self.old < block.0) }
        ensures greatest { IfOk result (λ block. greatest self.new ≡ block.0) }

        // Where no number is left it is NoMemory, unless the store fails.
        ensures none_left { 2 ^ 64 - 1 ≤ greatest self.old → IsErr result }

        ensures kept { OnErr result (blocks self.new ≡ blocks self.old) }
        ensures greatest_kept { OnErr result (greatest self.new ≡ greatest self.old) }
        ensures count { faults self.old ≤ faults self.new }
        ensures cause { IsErrOf result StoreErr.Failed → Rose (faults self.old) (faults self.new) };

    /// Puts bytes at a place of a block, over what was there or behind its end. After an error the bytes
    /// of that range may be any.
    fn write_at(&mut self, block: BlockId, offset: u32, bytes: &[u8]) -> Result<(), StoreErr>
        requires there { IfSome (blocks self.old) (λ map. Reaches (find map block) offset) }
        requires fits { offset + length bytes.now ≤ block_size }
        ensures written { OnOk result (Changes (blocks self.old) (blocks self.new) (Writes block offset bytes.now)) }
        ensures spoiled { OnErr result (Changes (blocks self.old) (blocks self.new) (Spoils block offset (offset + length bytes.now))) }
        ensures greatest { greatest self.new ≡ greatest self.old }
        ensures count { faults self.old ≤ faults self.new }
        ensures cause { IsErrOf result StoreErr.Failed → Rose (faults self.old) (faults self.new) };

    /// Fills `out` with a block's bytes from a place on. After an error it may hold anything.
    fn read_at(&mut self, block: BlockId, offset: u32, out: &mut [u8]) -> Result<(), StoreErr>
        requires there { IfSome (blocks self.old) (λ map. Reaches (find map block) (offset + length out.old)) }
        ensures bytes { OnOk result (IfSome (blocks self.old) (λ map. out.new ≡ take (length out.old) (drop offset (bytes_of map block)))) }
        ensures kept { blocks self.new ≡ blocks self.old }
        ensures greatest { greatest self.new ≡ greatest self.old }
        ensures count { faults self.old ≤ faults self.new }
        ensures cause { IsErrOf result StoreErr.Failed → Rose (faults self.old) (faults self.new) };

    /// Removes a block, if it is there.
    fn free(&mut self, block: BlockId) -> Result<(), StoreErr>
        ensures freed { OnOk result (Changes (blocks self.old) (blocks self.new) (Sets block None)) }
        ensures kept { OnErr result (blocks self.new ≡ blocks self.old) }
        ensures greatest { greatest self.new ≡ greatest self.old }
        ensures no_memory { IsErrOf result StoreErr.NoMemory → ⊥ }
        ensures count { faults self.old ≤ faults self.new }
        ensures cause { IsErrOf result StoreErr.Failed → Rose (faults self.old) (faults self.new) };
}
