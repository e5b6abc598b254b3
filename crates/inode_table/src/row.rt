//! The row of an inode.
use dir_changes::DirRows;
use file_changes::FileRows;
use hs_types::SnapId;

/// What an inode is now and what it was at each snapshot.
#[derive(Debug, Drop)]
pub enum Rows {
    File(FileRows),
    Dir(DirRows),
}

/// What is kept of an inode beside its parts in the tree.
#[derive(Debug, Drop)]
pub struct Row {
    /// The greatest snapshot id that had been issued when the inode was made or last renamed, also within a directory; the root's
    /// is 0.
    pub since: SnapId,
    /// The cover that it had just before that rename; 0 where it was never renamed.
    pub carry: SnapId,
    /// How many entries name it, in the current lists and the deleted lists of all directories.
    pub names: u32,
    pub rows: Rows,
}
