//! The two points in time of a report.
ghost use Rattle.std.specs.Prelude.{◌≡◌};
ghost use Rattle.change_report.specs.Found.{gone_side, new_side};

use hs_types::{InodeId, LineKind, RelPath, SnapId};

/// A directory and the two points in time that are compared: a snapshot of it, or 0, the current state.
#[derive(Clone, Copy, Debug)]
pub struct Ends {
    pub root: InodeId,
    pub from: SnapId,
    pub to: SnapId,
}

/// What is looked for in a directory's list: the entries at one end whose inodes stand there alone, and the kind of their lines.
#[derive(Clone, Copy, Debug)]
pub struct Side {
    pub root: InodeId,
    pub here: SnapId,
    pub other: SnapId,
    pub kind: LineKind,
}

/// Where an inode stands at both ends.
#[derive(Debug, Drop)]
pub struct Paths {
    pub old: RelPath,
    pub new: RelPath,
}

impl Ends {
    /// What is gone.
    pub fn gone(self) -> Side
        ensures { result ≡ gone_side self }
    {
        Side {
            root: self.root,
            here: self.from,
            other: self.to,
            kind: LineKind::Deleted,
        }
    }

    /// What is new.
    pub fn new(self) -> Side
        ensures { result ≡ new_side self }
    {
        Side {
            root: self.root,
            here: self.to,
            other: self.from,
            kind: LineKind::Created,
        }
    }
}
