//! A run of a script: every reply, both journals, and both live trees at the end.

ghost use Rattle.std.specs.Prelude.{◌≡◌};
ghost use Rattle.run_output.specs.Statuses.{exit_number};

use distcp_sync::SyncReport;
use hs_types::{Answered, Counts, Entry, List, Side, TreeLine};
use script_text::{FaultKind, Section};

/// How a call of the program ended.
#[derive(Clone, Copy, Debug, PartialEq, Eq)]
pub enum Status {
    /// All input was read, and all output taken.
    Ok,
    /// The words aren't the command line.
    Usage,
    /// The first bad line of the script, from 1.
    Script { line: u32, kind: FaultKind },
    /// The input has more than 16,777,216 bytes.
    TooLarge,
    /// The source failed.
    ReadFault,
    /// The sink failed.
    WriteFault,
    NoMemory,
}

impl Status {
    /// The exit status of the program.
    pub fn number(self) -> u8
        ensures { result ≡ exit_number self }
    {
        match self {
            Status::Ok => 0,
            Status::Usage => 1,
            Status::Script { .. } => 2,
            Status::TooLarge => 3,
            Status::ReadFault => 4,
            Status::WriteFault => 5,
            Status::NoMemory => 6,
        }
    }
}

/// A run of a script.
#[derive(Debug, Drop, PartialEq, Eq)]
pub struct Ran {
    pub status: Status,
    /// The journal of the source namenode.
    pub source: List<Entry>,
    /// The journal of the target namenode.
    pub target: List<Entry>,
    pub logs: List<ClientLog>,
    pub source_end: End,
    pub target_end: End,
}

/// What a namenode shows at the end of a run.
#[derive(Debug, Drop, PartialEq, Eq)]
pub struct End {
    pub tree: List<TreeLine>,
    pub counts: Counts,
}

/// What the commands of one section did.
#[derive(Debug, Drop, PartialEq, Eq)]
pub struct ClientLog {
    pub section: Section,
    pub items: List<LogItem>,
}

/// What one command did, with the number of its line, from 1.
#[derive(Debug, Drop, PartialEq, Eq)]
pub struct LogItem {
    pub line: u32,
    pub what: LogWhat,
}

/// What the calls of a command were told, with the side that they were made to, or what a sync did.
#[derive(Debug, Drop, PartialEq, Eq)]
pub enum LogWhat {
    /// The replies, in order.
    Replies { side: Side, list: List<Answered> },
    /// No call was made, since no cursor was kept for the next page.
    NoCursor { side: Side },
    /// A sync of a target with a source.
    Synced(SyncReport),
}
