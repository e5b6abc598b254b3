//! Appends to a file: the last block is filled, and what is left goes into one more.
ghost use Rattle.std.specs.Prelude.{◌≡◌, ◌+◌, ◌-◌, ◌*◌, ◌^◌, ◌<◌, ◌≤◌, [], length, slice_index_or, IfOk, IfSome, OnOk, OnErr, IsErrOf};
ghost use Rattle.std.specs.Vec.{vec_len, vec_capacity};
ghost use Rattle.hs_types.specs.Blocks.{IsFile, HoldsFile, blocks_for};
ghost use Rattle.hs_types.specs.Limits.{block_size};
ghost use Rattle.block_store.specs.Changes.{Changes};
ghost use Rattle.hs_types.specs.Faults.{Rose};
ghost use Rattle.block_contents.specs.Contents.{Appended, KeepsFile, KeepsAll, SameBlocks, MakesOnly, Adds, AtMost};

use crate::BLOCK_SIZE;
use block_store::{BlockStore, StoreErr};
use hs_types::{BlockId, Chunk, List};

/// Appends bytes to a file, and gives its new size. The last block is filled first, and a new block takes what
/// is left, so at most two blocks are written. A block that was made and couldn't be written goes to `spare`,
/// for the caller to free.
pub fn append<B: BlockStore>(
    store: &mut B,
    blocks: &mut List<BlockId>,
    size: u64,
    bytes: &Chunk,
    spare: &mut List<BlockId>,
) -> Result<u64, StoreErr>
    requires file { IsFile size blocks.old }
    requires held { IfSome (B.blocks store.old) (λ map. HoldsFile map size blocks.old) }
    requires known { AtMost (B.greatest store.old) blocks.old }
    requires small { size + length bytes.now < 2 ^ 64 }
    ensures size { IfOk result (λ now. now ≡ size + length bytes.now) }
    ensures file { OnOk result (IsFile (size + length bytes.now) blocks.new) }
    ensures appended { OnOk result (Changes (B.blocks store.old) (B.blocks store.new) (Appended size blocks.old blocks.new bytes.now)) }
    ensures kept { Changes (B.blocks store.old) (B.blocks store.new) (KeepsFile size blocks.old) }
    ensures only { Changes (B.blocks store.old) (B.blocks store.new) (MakesOnly (B.greatest store.old) (B.greatest store.new)) }
    ensures made { OnOk result (Adds (B.greatest store.old) (B.greatest store.new) blocks.old blocks.new) }
    ensures list { OnErr result (blocks.new ≡ blocks.old) }
    ensures spare { OnOk result (spare.new ≡ spare.old) }
    ensures left { OnErr result (Adds (B.greatest store.old) (B.greatest store.new) spare.old spare.new) }
    ensures known { AtMost (B.greatest store.new) blocks.new }
    ensures count { B.faults store.old ≤ B.faults store.new }
    ensures cause { IsErrOf result StoreErr.Failed → Rose (B.faults store.old) (B.faults store.new) }

    // With no bytes the store isn't called.
    ensures no_call { bytes.now ≡ [] → store.new ≡ store.old }
    ensures nothing { bytes.now ≡ [] → OnErr result ⊥ }
{
    let bytes = bytes.bytes();
    let mut list = blocks.take();
    let mut made = spare.take();
    let appended = append_all(store, &mut list, size, bytes, &mut made);
    *blocks = List::of(list);
    *spare = List::of(made);
    appended?;
    Ok(size + bytes.len() as u64)
}

/// The same over vectors.
fn append_all<B: BlockStore>(
    store: &mut B,
    blocks: &mut Vec<BlockId>,
    size: u64,
    bytes: &[u8],
    spare: &mut Vec<BlockId>,
) -> Result<(), StoreErr>
    requires file { IsFile size blocks.old.items }
    requires held { IfSome (B.blocks store.old) (λ map. HoldsFile map size blocks.old.items) }
    requires known { AtMost (B.greatest store.old) blocks.old.items }
    requires small { size + length bytes.now < 2 ^ 64 }
    requires chunk { length bytes.now ≤ block_size }
    ensures file { OnOk result (IsFile (size + length bytes.now) blocks.new.items) }
    ensures appended { OnOk result (Changes (B.blocks store.old) (B.blocks store.new) (Appended size blocks.old.items blocks.new.items bytes.now)) }
    ensures kept { Changes (B.blocks store.old) (B.blocks store.new) (KeepsFile size blocks.old.items) }
    ensures only { Changes (B.blocks store.old) (B.blocks store.new) (MakesOnly (B.greatest store.old) (B.greatest store.new)) }
    ensures made { OnOk result (Adds (B.greatest store.old) (B.greatest store.new) blocks.old.items blocks.new.items) }
    ensures list { OnErr result (blocks.new.items ≡ blocks.old.items) }
    ensures spare { OnOk result (spare.new.items ≡ spare.old.items) }
    ensures left { OnErr result (Adds (B.greatest store.old) (B.greatest store.new) spare.old.items spare.new.items) }
    ensures known { AtMost (B.greatest store.new) blocks.new.items }
    ensures count { B.faults store.old ≤ B.faults store.new }
    ensures cause { IsErrOf result StoreErr.Failed → Rose (B.faults store.old) (B.faults store.new) }
    ensures no_call { bytes.now ≡ [] → store.new ≡ store.old }
    ensures nothing { bytes.now ≡ [] → OnErr result ⊥ }
{
    if bytes.is_empty() {
        return Ok(());
    }
    blocks.reserve(1).map_err(|_| StoreErr::NoMemory)?;
    spare.reserve(1).map_err(|_| StoreErr::NoMemory)?;
    let fits = last_room(size).min(bytes.len());
    fill_last(store, blocks.as_slice(), size, &bytes[..fits])?;
    add_block(store, blocks, size + fits as u64, &bytes[fits..], spare)
}

/// How many bytes the last block still takes.
fn last_room(size: u64) -> usize
    ensures { size + result ≡ blocks_for size * block_size }
{
    ((BLOCK_SIZE - size % BLOCK_SIZE) % BLOCK_SIZE) as usize
}

/// The last of some blocks.
fn last_block(blocks: &[BlockId]) -> BlockId
    requires { 0 < length blocks.now }
    ensures { result ≡ slice_index_or blocks.now (length blocks.now - 1) result }
{
    blocks[blocks.len() - 1]
}

/// Writes bytes that the last block still takes. With no bytes the store isn't called.
fn fill_last<B: BlockStore>(
    store: &mut B,
    blocks: &[BlockId],
    size: u64,
    bytes: &[u8],
) -> Result<(), StoreErr>
    requires file { IsFile size blocks.now }
    requires held { IfSome (B.blocks store.old) (λ map. HoldsFile map size blocks.now) }
    requires fits { size + length bytes.now ≤ length blocks.now * block_size }
    ensures appended { OnOk result (Changes (B.blocks store.old) (B.blocks store.new) (Appended size blocks.now blocks.now bytes.now)) }
    ensures kept { Changes (B.blocks store.old) (B.blocks store.new) (KeepsFile size blocks.now) }
    ensures same { Changes (B.blocks store.old) (B.blocks store.new) SameBlocks }
    ensures greatest { B.greatest store.new ≡ B.greatest store.old }
    ensures count { B.faults store.old ≤ B.faults store.new }
    ensures cause { IsErrOf result StoreErr.Failed → Rose (B.faults store.old) (B.faults store.new) }
{
    if bytes.is_empty() {
        return Ok(());
    }
    let block = last_block(blocks);
    store.write_at(block, (size % BLOCK_SIZE) as u32, bytes)
}

/// Puts bytes into a new block behind full ones. With no bytes the store isn't called.
fn add_block<B: BlockStore>(
    store: &mut B,
    blocks: &mut Vec<BlockId>,
    size: u64,
    bytes: &[u8],
    spare: &mut Vec<BlockId>,
) -> Result<(), StoreErr>
    requires file { IsFile size blocks.old.items }
    requires held { IfSome (B.blocks store.old) (λ map. HoldsFile map size blocks.old.items) }
    requires known { AtMost (B.greatest store.old) blocks.old.items }
    requires full { 0 < length bytes.now → size ≡ length blocks.old.items * block_size }
    requires chunk { length bytes.now ≤ block_size }
    requires room { vec_len blocks.old < vec_capacity blocks.old }
    requires spare_room { vec_len spare.old < vec_capacity spare.old }
    ensures file { OnOk result (IsFile (size + length bytes.now) blocks.new.items) }
    ensures appended { OnOk result (Changes (B.blocks store.old) (B.blocks store.new) (Appended size blocks.old.items blocks.new.items bytes.now)) }
    ensures kept { Changes (B.blocks store.old) (B.blocks store.new) KeepsAll }
    ensures only { Changes (B.blocks store.old) (B.blocks store.new) (MakesOnly (B.greatest store.old) (B.greatest store.new)) }
    ensures made { OnOk result (Adds (B.greatest store.old) (B.greatest store.new) blocks.old.items blocks.new.items) }
    ensures list { OnErr result (blocks.new.items ≡ blocks.old.items) }
    ensures spare { OnOk result (spare.new.items ≡ spare.old.items) }
    ensures left { OnErr result (Adds (B.greatest store.old) (B.greatest store.new) spare.old.items spare.new.items) }
    ensures known { AtMost (B.greatest store.new) blocks.new.items }
    ensures count { B.faults store.old ≤ B.faults store.new }
    ensures cause { IsErrOf result StoreErr.Failed → Rose (B.faults store.old) (B.faults store.new) }
{
    if bytes.is_empty() {
        return Ok(());
    }
    let block = store.make()?;
    match store.write_at(block, 0, bytes) {
        Ok(()) => {
            blocks.push_reserved(block);
            Ok(())
        }
        Err(error) => {
            spare.push_reserved(block);
            Err(error)
        }
    }
}
