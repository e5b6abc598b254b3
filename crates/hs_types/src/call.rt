//! Calls of a namenode, and the cursors by which they go on.
ghost use Rattle.std.specs.Prelude.{◌≡◌, IfOk};

use crate::chunk::Chunk;
use crate::ids::{InodeId, SnapId};
use crate::memory::{Duplicate, NoMemory};
use crate::name::{Name, NameText};
use crate::numbers::{Mode, PageSize, ReadLen};
use crate::path::PathText;

/// What a client may ask of a namenode.
#[derive(Debug, Drop, PartialEq, Eq)]
pub enum Call {
    /// Adds one empty directory to an existing parent.
    Mkdir {
        path: PathText,
    },
    /// Adds one empty file to an existing parent. With `over` an existing file of that name makes way for it.
    Create {
        path: PathText,
        over: bool,
    },
    /// Adds bytes at the end of a file.
    Append {
        path: PathText,
        bytes: Chunk,
    },
    /// Removes a file or an empty directory; with `recursive` also a directory and all below it.
    Delete {
        path: PathText,
        recursive: bool,
    },
    /// Moves a node, with all below it, to a new parent and name.
    Rename {
        old: PathText,
        new: PathText,
    },
    /// Gives a node this mode.
    SetMode {
        path: PathText,
        mode: Mode,
    },
    /// Makes a directory snapshottable.
    Allow {
        path: PathText,
    },
    /// Makes a directory without snapshots one that is not snapshottable.
    Disallow {
        path: PathText,
    },
    /// Freezes a snapshottable directory's subtree under a name.
    Snap {
        path: PathText,
        name: NameText,
    },
    /// Removes a snapshot.
    SnapDel {
        path: PathText,
        name: NameText,
    },
    /// Gives a snapshot another name. It keeps its id.
    SnapRen {
        path: PathText,
        old: NameText,
        new: NameText,
    },
    /// The bytes of a file from a place on, at most so many.
    Read {
        path: PathText,
        offset: u64,
        len: ReadLen,
    },
    /// The bytes behind those that an earlier reply held.
    ReadNext {
        cursor: ReadCursor,
        len: ReadLen,
    },
    /// What a node is, without what it holds.
    Stat {
        path: PathText,
    },
    /// The first page of a directory's items, in name order.
    List {
        path: PathText,
        size: PageSize,
    },
    /// The items behind those that an earlier page held.
    ListNext {
        cursor: ListCursor,
        size: PageSize,
    },
    /// The snapshots of a directory, in order of making.
    Snaps {
        path: PathText,
    },
    /// All snapshottable directories, in path order.
    Dirs,
    /// The first page of what changed in a snapshottable directory from one point in time to another.
    Report {
        path: PathText,
        from: Point,
        to: Point,
        size: PageSize,
    },
    /// The lines behind those that an earlier page held.
    ReportNext {
        cursor: ReportCursor,
        size: PageSize,
    },
}

impl Duplicate for Call {
    fn copy(&self) -> Result<Call, NoMemory> {
        match self {
            Call::Mkdir { path } => Ok(Call::Mkdir { path: path.copy()? }),
            Call::Create { path, over } => Ok(Call::Create {
                path: path.copy()?,
                over: *over,
            }),
            Call::Append { path, bytes } => Ok(Call::Append {
                path: path.copy()?,
                bytes: bytes.copy()?,
            }),
            Call::Delete { path, recursive } => Ok(Call::Delete {
                path: path.copy()?,
                recursive: *recursive,
            }),
            Call::Rename { old, new } => Ok(Call::Rename {
                old: old.copy()?,
                new: new.copy()?,
            }),
            Call::SetMode { path, mode } => Ok(Call::SetMode {
                path: path.copy()?,
                mode: *mode,
            }),
            Call::Allow { path } => Ok(Call::Allow { path: path.copy()? }),
            Call::Disallow { path } => Ok(Call::Disallow { path: path.copy()? }),
            Call::Snap { path, name } => Ok(Call::Snap {
                path: path.copy()?,
                name: name.copy()?,
            }),
            Call::SnapDel { path, name } => Ok(Call::SnapDel {
                path: path.copy()?,
                name: name.copy()?,
            }),
            Call::SnapRen { path, old, new } => copied_rename(path, old, new),
            Call::Read { path, offset, len } => Ok(Call::Read {
                path: path.copy()?,
                offset: *offset,
                len: *len,
            }),
            Call::ReadNext { cursor, len } => Ok(Call::ReadNext {
                cursor: *cursor,
                len: *len,
            }),
            Call::Dirs => Ok(Call::Dirs),
            Call::Stat { path } => Ok(Call::Stat { path: path.copy()? }),
            Call::List { path, size } => Ok(Call::List {
                path: path.copy()?,
                size: *size,
            }),
            Call::ListNext { cursor, size } => Ok(Call::ListNext {
                cursor: cursor.copy()?,
                size: *size,
            }),
            Call::Snaps { path } => Ok(Call::Snaps { path: path.copy()? }),
            Call::Report {
                path,
                from,
                to,
                size,
            } => copied_report(path, from, to, *size),
            Call::ReportNext { cursor, size } => Ok(Call::ReportNext {
                cursor: *cursor,
                size: *size,
            }),
        }
    }
}

/// The call that gives a snapshot another name, from copies.
fn copied_rename(path: &PathText, old: &NameText, new: &NameText) -> Result<Call, NoMemory>
    ensures { IfOk result (λ call. call ≡ Call.SnapRen path.now old.now new.now) }
{
    Ok(Call::SnapRen {
        path: path.copy()?,
        old: old.copy()?,
        new: new.copy()?,
    })
}

/// The call that asks for a report, from copies.
fn copied_report(
    path: &PathText,
    from: &Point,
    to: &Point,
    size: PageSize,
) -> Result<Call, NoMemory>
    ensures { IfOk result (λ call. call ≡ Call.Report path.now from.now to.now size) }
{
    Ok(Call::Report {
        path: path.copy()?,
        from: from.copy()?,
        to: to.copy()?,
        size,
    })
}

/// One end of a report.
#[derive(Debug, Drop, PartialEq, Eq)]
pub enum Point {
    /// The snapshot of this name.
    Snapshot(NameText),
    /// The current state.
    Now,
}

impl Duplicate for Point {
    fn copy(&self) -> Result<Point, NoMemory> {
        match self {
            Point::Snapshot(name) => Ok(Point::Snapshot(name.copy()?)),
            Point::Now => Ok(Point::Now),
        }
    }
}

/// What a path leads to.
#[derive(Clone, Copy, Debug, PartialEq, Eq)]
pub enum Place {
    /// A node of the live tree.
    Live(InodeId),
    /// A node of a snapshot's copied tree.
    Frozen(InodeId, SnapId),
    /// The list of a directory's snapshots.
    SnapshotsOf(InodeId),
}

/// Where the next page of a listing begins: behind a name, or at the front.
#[derive(Debug, Drop, PartialEq, Eq)]
pub struct ListCursor {
    /// What is listed.
    pub place: Place,
    /// The last name that was answered, or `None` at the front.
    pub after: Option<Name>,
}

impl Duplicate for ListCursor {
    fn copy(&self) -> Result<ListCursor, NoMemory> {
        let after = match &self.after {
            Some(name) => Some(name.copy()?),
            None => None,
        };
        Ok(ListCursor {
            place: self.place,
            after,
        })
    }
}

/// Where the next page of a read begins.
#[derive(Clone, Copy, Debug, PartialEq, Eq)]
pub struct ReadCursor {
    /// The file that is read.
    pub place: Place,
    /// How many bytes stand before the page.
    pub offset: u64,
}

/// Where the next page of a report begins. The id 0 is the current state.
#[derive(Clone, Copy, Debug, PartialEq, Eq)]
pub struct ReportCursor {
    /// The directory whose changes are reported.
    pub root: InodeId,
    pub from: SnapId,
    pub to: SnapId,
    /// The tick at which the report began; `None` begins at the tick of the call. A cursor in a reply has one.
    pub tick: Option<u64>,
    /// How many lines stand before the page.
    pub index: u64,
}
