//! Each inode of a list once.
ghost use Rattle.std.specs.List.{Contains};
ghost use Rattle.hs_types.specs.declared.ids.InodeId.{InodeId};
ghost use Rattle.record_merge.specs.Dropping.{AreRising};

use hs_types::{InodeId, List};

/// The same inodes by rising ids, each once. It takes no memory.
pub fn distinct(ids: List<InodeId>) -> List<InodeId>
    ensures rising { AreRising result }
    ensures all { (id : InodeId) → Contains ids id → Contains result id }
{
    let mut items = ids.into_vec();
    items.sort_unstable();
    items.dedup();
    List::of(items)
}
