//! What a sync is to do: plain records, of which the definitions of a plan speak.

use hs_types::{InodeId, Item, List, Name, RelPath};

/// What brings a target from one tree to another. All paths go from the root of the sync.
#[derive(Debug, Drop, PartialEq, Eq)]
pub struct Plan {
    /// The name of the temporary directory in the root.
    pub tmp: Name,
    /// What is moved into the temporary directory, the i-th (from 0) under the name i.
    pub outs: List<RelPath>,
    /// What is moved back to its new place, and directories to be made.
    pub puts: List<Put>,
    /// Files to be made anew, with their bytes.
    pub copies: List<CopyJob>,
}

/// What comes to a place.
#[derive(Debug, Drop, PartialEq, Eq)]
pub enum Put {
    /// What was moved out with this number, from 0.
    Back { index: u64, to: RelPath },
    /// A new directory.
    NewDir { to: RelPath },
}

/// A file that is copied from the source.
#[derive(Debug, Drop, PartialEq, Eq)]
pub struct CopyJob {
    /// The file's id at the source.
    pub id: InodeId,
    pub to: RelPath,
}

/// The items of a directory, in name order.
#[derive(Debug, Drop, PartialEq, Eq)]
pub struct Listing {
    pub dir: InodeId,
    pub items: List<Item>,
}

/// The names of the two roots' children, which the temporary directory has to avoid.
#[derive(Debug, Drop, PartialEq, Eq)]
pub struct RootNames {
    pub target: List<Name>,
    pub source: List<Name>,
}
