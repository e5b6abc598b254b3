//! What a namenode over a table of rows holds.
use crate::limit::JournalLimit;
use hs_types::{BlockId, Entry, List};
use inode_table::Table;
use snapshot_manager::Snaps;

/// The rows of all inodes, the snapshots, the store of the files' bytes, the lists of blocks that wait to be freed, and, while a call
/// is made, the journal with its limit. A release hands out a list of blocks: it is put behind the others as it is, so that room for one list is enough.
#[derive(Drop)]
pub(crate) struct RowSpace<B> {
    pub(crate) table: Table,
    pub(crate) snaps: Snaps,
    pub(crate) store: B,
    pub(crate) waiting: Vec<List<BlockId>>,
    pub(crate) journal: Vec<Entry>,
    pub(crate) limit: JournalLimit,
}
