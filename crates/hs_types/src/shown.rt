//! What a namenode shows of itself.

use crate::ids::InodeId;
use crate::name::Name;
use crate::numbers::Mode;

/// One node of a printed tree.
#[derive(Debug, Drop, PartialEq, Eq)]
pub struct TreeLine {
    /// How many directories stand above the node.
    pub depth: u64,
    pub id: InodeId,
    pub is_dir: bool,
    pub mode: Mode,
    /// The tick of the last entry that made the node or set its bytes, its child list or its mode; 0 of a new root. A
    /// rename doesn't count for the node that moves.
    pub stamp: u64,
    /// Bytes of a file, or children of a directory.
    pub size: u64,
    /// `None` for the root alone.
    pub name: Option<Name>,
}

/// How much a namenode holds.
#[derive(Clone, Copy, Debug, PartialEq, Eq)]
pub struct Counts {
    /// Inodes that are kept.
    pub rows: u64,
    /// Records of what changed between snapshots.
    pub records: u64,
    /// Names in lists of children, and in what records have of names that came and went.
    pub list_entries: u64,
    /// Snapshots of all directories.
    pub snapshots: u64,
    /// Blocks that files name, or that wait to be freed.
    pub blocks: u64,
}
