//! The blocks that both stores in memory keep.
ghost use Rattle.std.specs.Prelude.{◌≡◌, ◌+◌, ◌-◌, ◌^◌, ◌≤◌, [], None, Some, length, take, drop, IfOk, OnOk, OnErr, IsOk};
ghost use Rattle.std.specs.Option.{option_copied};
ghost use Rattle.hs_types.specs.Blocks.{find, bytes_of};
ghost use Rattle.block_store.specs.Changes.{Reaches, Sets, Writes, with_bytes_at};

use hs_types::{BlockId, List, NoMemory};
use std::alloc::Global;
use std::collections::BTreeMap;
use std::marker::Model;

/// Blocks by rising number, and the greatest number that was given.
#[derive(Drop)]
pub(crate) struct KeptBlocks {
    alloc: Global,
    blocks: BTreeMap<BlockId, List<u8>>,
    greatest: u64,
}

impl Model for KeptBlocks {
    ghost use Rattle.block_store.specs.Memory.{Kept, NoneAbove};

    ghost Value = { Kept };

    ghost view = { λ k. record { blocks = k.blocks.entries; greatest = k.greatest } };

    ghost invariant = { λ k. NoneAbove k.blocks.entries k.greatest };
}

impl KeptBlocks {
    /// No blocks. It takes no memory yet.
    pub(crate) fn new(alloc: Global) -> KeptBlocks
        ensures { result ≡ record { blocks = []; greatest = 0 } }
    {
        KeptBlocks {
            alloc,
            blocks: BTreeMap::new(alloc),
            greatest: 0,
        }
    }

    /// Makes an empty block with the next number.
    pub(crate) fn make(&mut self) -> Result<BlockId, NoMemory>
        ensures fresh { IfOk result (λ block. find self.old.blocks block ≡ None) }
        ensures number { IfOk result (λ block. block.0 ≡ self.old.greatest + 1) }
        ensures made { IfOk result (λ block. Sets block (Some []) self.old.blocks self.new.blocks) }
        ensures greatest { OnOk result (self.new.greatest ≡ self.old.greatest + 1) }
        ensures err { OnErr result (self.new ≡ self.old) }
    {
        if self.greatest == u64::MAX {
            return Err(NoMemory);
        }
        let block = BlockId(self.greatest + 1);
        self.blocks.insert(block, List::new(self.alloc))?;
        self.greatest = block.0;
        Ok(block)
    }

    /// Puts bytes at a place of a block. Without memory nothing changes.
    pub(crate) fn write_at(
        &mut self,
        block: BlockId,
        offset: usize,
        bytes: &[u8],
    ) -> Result<(), NoMemory>
        requires { Reaches (find self.old.blocks block) offset }
        ensures ok { OnOk result (Writes block offset bytes.now self.old.blocks self.new.blocks) }
        ensures err { OnErr result (self.new ≡ self.old) }
        ensures greatest { self.new.greatest ≡ self.old.greatest }
    {
        match self.blocks.get_mut(&block) {
            Some(kept) => put_at(kept, offset, bytes),
            None => unreachable!(),
        }
    }

    /// The bytes of a block, if it is there.
    fn get(&self, block: BlockId) -> Option<&List<u8>>
        ensures { option_copied result ≡ find self.now.blocks block }
    {
        self.blocks.get(&block)
    }

    /// Fills `out` with a block's bytes from a place on.
    pub(crate) fn read_at(&self, block: BlockId, offset: usize, out: &mut [u8])
        requires { Reaches (find self.now.blocks block) (offset + length out.old) }
        ensures { out.new ≡ take (length out.old) (drop offset (bytes_of self.now.blocks block)) }
    {
        match self.get(block) {
            Some(kept) => {
                let rest = &kept.items()[offset..];
                let n = out.len();
                out.copy_from_slice(&rest[..n]);
            }
            None => unreachable!(),
        }
    }

    /// Removes a block, if it is there.
    pub(crate) fn free(&mut self, block: BlockId)
        ensures freed { Sets block None self.old.blocks self.new.blocks }
        ensures greatest { self.new.greatest ≡ self.old.greatest }
    {
        self.blocks.remove(&block);
    }
}

/// Puts bytes at a place of a list, over what was there or behind its end. Without memory nothing changes.
fn put_at(list: &mut List<u8>, offset: usize, bytes: &[u8]) -> Result<(), NoMemory>
    requires { offset ≤ length list.old }
    ensures ok { OnOk result (list.new ≡ with_bytes_at offset bytes.now list.old) }
    ensures err { OnErr result (list.new ≡ list.old) }
{
    let mut items = list.take();
    let put = put_in(&mut items, offset, bytes);
    *list = List::of(items);
    put
}

/// The same in a vector.
fn put_in(items: &mut Vec<u8>, offset: usize, bytes: &[u8]) -> Result<(), NoMemory>
    requires { offset ≤ length items.old.items }
    ensures ok { OnOk result (items.new.items ≡ with_bytes_at offset bytes.now items.old.items) }
    ensures err { OnErr result (items.new.items ≡ items.old.items) }
{
    let over = (items.len() - offset).min(bytes.len());
    items.extend_from_slice(&bytes[over..])?;
    overwrite(items.as_mut_slice(), offset, &bytes[..over]);
    Ok(())
}

/// Puts bytes over as many others.
fn overwrite(items: &mut [u8], offset: usize, bytes: &[u8])
    requires { offset + length bytes.now ≤ length items.old }
    ensures { items.new ≡ with_bytes_at offset bytes.now items.old }
{
    items[offset..offset + bytes.len()].copy_from_slice(bytes);
}
