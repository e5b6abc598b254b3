//! Reads of a file.
ghost use Rattle.std.specs.Prelude.{◌≡◌, ◌+◌, ◌-◌, ◌*◌, ◌<◌, ◌≤◌, min, length, slice_index_or, take, drop, IfOk, IfSome, OnOk, IsErrOf};
ghost use Rattle.hs_types.specs.Blocks.{IsFile, HoldsFile, file_bytes, joined};
ghost use Rattle.hs_types.specs.Limits.{block_size};
ghost use Rattle.hs_types.specs.Faults.{Rose};

use crate::BLOCK_SIZE;
use block_store::{BlockStore, StoreErr};
use hs_types::{BlockId, Chunk, List, ReadLen};
use std::alloc::Global;

/// Reads a file's bytes from a place on, up to its end or to so many. At or behind the end there are none, and
/// the store isn't called.
pub fn read<B: BlockStore>(
    alloc: Global,
    store: &mut B,
    blocks: &List<BlockId>,
    size: u64,
    offset: u64,
    len: ReadLen,
) -> Result<Chunk, StoreErr>
    requires file { IsFile size blocks.now }
    requires held { IfSome (B.blocks store.old) (λ map. HoldsFile map size blocks.now) }
    ensures bytes { IfOk result (λ chunk. IfSome (B.blocks store.old) (λ map. chunk ≡ take len (drop offset (file_bytes map size blocks.now)))) }
    ensures length { IfOk result (λ chunk. length chunk ≡ min len (size - offset)) }
    ensures kept { B.blocks store.new ≡ B.blocks store.old }
    ensures greatest { B.greatest store.new ≡ B.greatest store.old }
    ensures count { B.faults store.old ≤ B.faults store.new }
    ensures cause { IsErrOf result StoreErr.Failed → Rose (B.faults store.old) (B.faults store.new) }
    ensures no_call { size ≤ offset → store.new ≡ store.old }
{
    let wanted = size.saturating_sub(offset).min(u64::from(len.bytes())) as usize;
    let mut bytes = Vec::from_elem(alloc, 0, wanted).map_err(|_| StoreErr::NoMemory)?;
    read_into(store, blocks.items(), size, offset, bytes.as_mut_slice())?;
    match Chunk::new(bytes) {
        Ok(chunk) => Ok(chunk),
        Err(_) => unreachable!(),
    }
}

/// Fills `out` with a file's bytes from a place on. An empty one asks for no call.
fn read_into<B: BlockStore>(
    store: &mut B,
    blocks: &[BlockId],
    size: u64,
    offset: u64,
    out: &mut [u8],
) -> Result<(), StoreErr>
    requires file { IsFile size blocks.now }
    requires held { IfSome (B.blocks store.old) (λ map. HoldsFile map size blocks.now) }
    requires within { 0 < length out.old → offset + length out.old ≤ size }
    requires chunk { length out.old ≤ block_size }
    ensures bytes { OnOk result (IfSome (B.blocks store.old) (λ map. out.new ≡ take (length out.old) (drop offset (file_bytes map size blocks.now)))) }
    ensures kept { B.blocks store.new ≡ B.blocks store.old }
    ensures greatest { B.greatest store.new ≡ B.greatest store.old }
    ensures count { B.faults store.old ≤ B.faults store.new }
    ensures cause { IsErrOf result StoreErr.Failed → Rose (B.faults store.old) (B.faults store.new) }
    ensures no_call { length out.old ≡ 0 → store.new ≡ store.old }
{
    if out.is_empty() {
        return Ok(());
    }
    let at = (offset / BLOCK_SIZE) as usize;
    let within = (offset % BLOCK_SIZE) as usize;
    let here = (BLOCK_SIZE as usize - within).min(out.len());
    read_block(store, blocks, size, at, within as u32, &mut out[..here])?;
    if here == out.len() {
        return Ok(());
    }
    read_block(store, blocks, size, at + 1, 0, &mut out[here..])
}

/// Fills `out` from one block of a file.
fn read_block<B: BlockStore>(
    store: &mut B,
    blocks: &[BlockId],
    size: u64,
    at: usize,
    within: u32,
    out: &mut [u8],
) -> Result<(), StoreErr>
    requires file { IsFile size blocks.now }
    requires held { IfSome (B.blocks store.old) (λ map. HoldsFile map size blocks.now) }
    requires some { 0 < length out.old }
    requires short { within + length out.old ≤ block_size }
    requires end { at * block_size + within + length out.old ≤ size }
    ensures bytes { OnOk result (IfSome (B.blocks store.old) (λ map. out.new ≡ take (length out.old) (drop (at * block_size + within) (joined map blocks.now)))) }
    ensures kept { B.blocks store.new ≡ B.blocks store.old }
    ensures greatest { B.greatest store.new ≡ B.greatest store.old }
    ensures count { B.faults store.old ≤ B.faults store.new }
    ensures cause { IsErrOf result StoreErr.Failed → Rose (B.faults store.old) (B.faults store.new) }
{
    let block = block_at(blocks, at);
    store.read_at(block, within, out)
}

/// The block at a place of a list.
fn block_at(blocks: &[BlockId], at: usize) -> BlockId
    requires { at < length blocks.now }
    ensures { result ≡ slice_index_or blocks.now at result }
{
    blocks[at]
}
