//! Numbers that name things: inodes, snapshots, blocks, callers.

/// The number of an inode. The root has 1; new ones count from 2 and are never used again.
#[derive(Clone, Copy, Debug, PartialEq, Eq, PartialOrd, Ord, Hash)]
pub struct InodeId(pub u64);

/// The number of a snapshot over the whole namenode, from 1. 0 is none, the current state.
#[derive(Clone, Copy, Debug, PartialEq, Eq, PartialOrd, Ord, Hash)]
pub struct SnapId(pub u64);

/// The number of a block of a store, from 1.
#[derive(Clone, Copy, Debug, PartialEq, Eq, PartialOrd, Ord, Hash)]
pub struct BlockId(pub u64);

/// The number of a caller of a namenode.
#[derive(Clone, Copy, Debug, PartialEq, Eq)]
pub struct CallerId(pub u32);

impl InodeId {
    /// The root directory of every namenode.
    pub const ROOT: InodeId = InodeId(1);
}

/// Which of the two namenodes of a sync.
#[derive(Clone, Copy, Debug, PartialEq, Eq)]
pub enum Side {
    /// The one that is read, whose changes are copied.
    Source,
    /// The one that is changed until it equals the source.
    Target,
}
