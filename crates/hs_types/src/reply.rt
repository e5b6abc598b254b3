//! What a namenode answers.

use crate::call::{Call, ListCursor, ReadCursor, ReportCursor};
use crate::chunk::Chunk;
use crate::ids::{InodeId, SnapId};
use crate::list::List;
use crate::memory::{Duplicate, NoMemory};
use crate::name::{Name, SnapItem};
use crate::numbers::Mode;
use crate::path::{PathText, RelPath};
use crate::refusal::Refusal;

/// What a namenode answers.
#[derive(Debug, Drop, PartialEq, Eq)]
pub enum Reply {
    /// A new node, with this id.
    Made {
        id: InodeId,
    },
    /// The call was accepted.
    Done,
    /// A new snapshot, with this id.
    SnapMade {
        id: SnapId,
    },
    /// Bytes of a file. `next` is `None` exactly where the end is reached.
    Bytes {
        bytes: Chunk,
        next: Option<ReadCursor>,
    },
    /// What a node is. `size` is the number of bytes of a file, of children of a directory, or of snapshots of a list of
    /// snapshots, which has the other fields of its directory.
    Stat {
        id: InodeId,
        is_dir: bool,
        mode: Mode,
        stamp: u64,
        size: u64,
    },
    /// Items in name order. `next` is `None` exactly where no item is left.
    Page {
        items: List<Item>,
        next: Option<ListCursor>,
    },
    /// The snapshots of a directory, in order of making.
    Snaps {
        dir: InodeId,
        list: List<SnapItem>,
    },
    /// The snapshottable directories, in path order.
    Dirs {
        list: List<DirItem>,
    },
    /// Lines of a report, in its order. `next` is `None` exactly where no line is left.
    Report {
        lines: List<Line>,
        next: Option<ReportCursor>,
    },
    /// The call is refused.
    Refused(Refusal),
    /// Memory ran out.
    NoMemory,
}

/// One item of a listing.
#[derive(Debug, Drop, PartialEq, Eq)]
pub struct Item {
    pub name: Name,
    /// In a list of snapshots the id of the directory that they are of.
    pub id: InodeId,
    pub is_dir: bool,
}

/// A snapshottable directory, with the number of its snapshots and where it stands.
#[derive(Debug, Drop, PartialEq, Eq)]
pub struct DirItem {
    pub id: InodeId,
    /// At most 65,536.
    pub count: u32,
    pub path: PathText,
}

/// What a line of a report says of its item. Lines of one path stand in this order.
#[derive(Clone, Copy, Debug, PartialEq, Eq)]
pub enum LineKind {
    /// The item is gone, and the directory that it stood in is still there.
    Deleted,
    /// The item has another parent or another name.
    Renamed,
    /// The item was changed: its bytes, its child list or its mode were set, also to what they were.
    Modified,
    /// The item is new, in a directory that was there before.
    Created,
}

/// One line of a report. Its paths go from the directory of the report.
#[derive(Debug, Drop, PartialEq, Eq)]
pub struct Line {
    pub kind: LineKind,
    /// Where the item stood at the first end; of a new item, where its parent stood then, and its name.
    pub path: RelPath,
    /// Where a renamed item stands at the second end.
    pub to: Option<RelPath>,
    pub id: InodeId,
    pub is_dir: bool,
}

impl Duplicate for Line {
    fn copy(&self) -> Result<Line, NoMemory> {
        let to = match &self.to {
            Some(path) => Some(path.copy()?),
            None => None,
        };
        Ok(Line {
            kind: self.kind,
            path: self.path.copy()?,
            to,
            id: self.id,
            is_dir: self.is_dir,
        })
    }
}

/// A reply, with its place in the history.
#[derive(Debug, Drop, PartialEq, Eq)]
pub struct Answered {
    pub reply: Reply,
    /// The index of the call's entry, or else the length of the journal after which the reply is given.
    pub position: u64,
    /// The call, exactly where it left no entry.
    pub back: Option<Call>,
}
