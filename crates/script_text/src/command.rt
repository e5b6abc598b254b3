//! What a line of a script says.
use hs_types::{Call, NameText, PathText, Point, Side};

/// What one client does at a command line.
#[derive(Debug, Drop, PartialEq, Eq)]
pub enum Command {
    /// A call without pages.
    Call {
        side: Side,
        call: Call,
    },
    /// All pages, one after the other: `cat`, `ls`, `diff`.
    All {
        side: Side,
        pages: Pages,
    },
    /// The first page alone, whose cursor is kept: `first`, `dfirst`.
    First {
        side: Side,
        pages: Pages,
    },
    /// The page at the kept cursor: `more`, `dmore`.
    More {
        side: Side,
        kind: PagesKind,
    },
    /// Brings the directory `target` of the target from its snapshot `from` to what `source` of the source is at `to`.
    Sync {
        source: PathText,
        target: PathText,
        from: NameText,
        to: NameText,
    },
}

/// What is asked for page by page. The page size is no part of a script.
#[derive(Debug, Drop, PartialEq, Eq)]
pub enum Pages {
    /// The bytes of a file, from its first.
    File {
        path: PathText,
    },
    /// The items of a directory, or of a list of snapshots.
    Listing {
        path: PathText,
    },
    /// What changed in a snapshottable directory from one point in time to another.
    Report {
        path: PathText,
        from: Point,
        to: Point,
    },
}

/// Which of the two kept cursors.
#[derive(Clone, Copy, Debug, PartialEq, Eq)]
pub enum PagesKind {
    Listing,
    Report,
}
