//! What can change in the current state of a row.
use hs_types::{BlockId, InodeId, List, Mode, Name, Spot};

/// A change of a row's current state. A body fits a file, an entry a directory, and the others both.
#[derive(Debug, Drop)]
pub enum Change {
    Mode(Mode),
    Body { size: u64, blocks: List<BlockId> },
    Add { name: Name, id: InodeId },
    Remove { name: Name },
    Move(Spot),
}

/// What a change does to how often rows are named.
#[derive(Clone, Copy, Debug)]
pub enum Recount {
    Same,
    /// This row is named once more.
    More(InodeId),
    /// This row is named once less.
    Less(InodeId),
}
