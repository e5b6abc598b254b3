//! Where pages begin: at a path, or at a cursor that an earlier reply had.
ghost use Rattle.std.specs.Prelude.{◌≡◌, ◌≤◌, false};
ghost use Rattle.hs_plain.specs.Answer.{is_modifying};
ghost use Rattle.page_join.specs.Contents.{list_call, report_call, read_call};

use hs_types::{Call, ListCursor, PageSize, PathText, Point, ReadCursor, ReadLen, ReportCursor};

/// Where a listing begins.
#[derive(Debug, Drop, PartialEq, Eq)]
pub enum ListStart {
    /// At the first item of what this path leads to.
    At(PathText),
    /// Behind the cursor's name.
    Next(ListCursor),
}

/// Where a report begins.
#[derive(Debug, Drop, PartialEq, Eq)]
pub enum ReportStart {
    /// At the first line of the report of this directory from the first point to the second.
    At(PathText, Point, Point),
    /// At the cursor's line.
    Next(ReportCursor),
}

/// Where the reading of a file begins.
#[derive(Debug, Drop, PartialEq, Eq)]
pub enum ReadStart {
    /// At the first byte of what this path leads to.
    At(PathText),
    /// At the cursor's byte.
    Next(ReadCursor),
}

impl ListStart {
    /// The call for the first page.
    pub fn first_call(self, size: PageSize) -> Call
        ensures call { result ≡ list_call self size }
        ensures reads { is_modifying result ≡ false }
        ensures above { 1 ≤ size }
    {
        let _at_least_one = size.entries();
        match self {
            ListStart::At(path) => Call::List { path, size },
            ListStart::Next(cursor) => Call::ListNext { cursor, size },
        }
    }
}

impl ReportStart {
    /// The call for the first page.
    pub fn first_call(self, size: PageSize) -> Call
        ensures call { result ≡ report_call self size }
        ensures reads { is_modifying result ≡ false }
    {
        match self {
            ReportStart::At(path, from, to) => Call::Report {
                path,
                from,
                to,
                size,
            },
            ReportStart::Next(cursor) => Call::ReportNext { cursor, size },
        }
    }
}

impl ReadStart {
    /// The call for the first page, of 65,536 bytes.
    pub fn first_call(self) -> Call
        ensures call { result ≡ read_call self }
        ensures reads { is_modifying result ≡ false }
    {
        match self {
            ReadStart::At(path) => Call::Read {
                path,
                offset: 0,
                len: ReadLen::greatest(),
            },
            ReadStart::Next(cursor) => Call::ReadNext {
                cursor,
                len: ReadLen::greatest(),
            },
        }
    }
}
