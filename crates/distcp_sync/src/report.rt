//! What a sync is asked for, and what it tells.

use crate::answer::SyncAnswer;
use copy_workers::{Copied, Look, Made};
use hs_types::{List, NameText, PageSize, PathText};

/// What a sync is asked for: to bring the target's root from its snapshot `from` to what the source's root is at `to`.
#[derive(Debug, Drop, PartialEq, Eq)]
pub struct SyncJob {
    pub source_root: PathText,
    pub target_root: PathText,
    pub from: NameText,
    pub to: NameText,
    /// How many entries a page of the source's report, and of a listing, has.
    pub page: PageSize,
}

/// What a sync did.
#[derive(Debug, Drop, PartialEq, Eq)]
pub struct SyncReport {
    pub answer: SyncAnswer,
    /// The entries that it left in the target's journal, but for those of its copies.
    pub moves: List<Made>,
    /// What became of each copy that was begun, in their order.
    pub copies: List<Copied>,
    /// The replies about the two roots and about the target's changes, as far as they were given, and behind them the one
    /// that ended the sync, where it is another and no copy's.
    pub looks: List<Look>,
}
