//! How a sync ends.

use hs_types::{Call, Line, NameText, PathText, Refusal, Side, SnapId};

/// How a sync ends: by its first step that didn't end well, else `Done`. Both sides are then what their journals say; the
/// temporary directory may be left behind after all but `Done`.
#[derive(Debug, Drop, PartialEq, Eq)]
pub enum SyncAnswer {
    /// All calls of the plan were accepted.
    Done,
    /// The first call at this side's root was refused.
    NoRoot {
        side: Side,
        refusal: Refusal,
    },
    /// The first snapshot that isn't there, of the source's `from` and `to` and the target's `from`.
    NoSnapshot {
        side: Side,
        name: NameText,
    },
    /// The source's `to` wasn't made after its `from`.
    NotOlder {
        from: SnapId,
        to: SnapId,
    },
    /// The target was changed since its `from`: the first line of its report.
    TargetChanged {
        line: Line,
    },
    /// A path of the plan's calls, the first in their order, passes a limit. No call of the plan was made.
    PathLimit {
        path: PathText,
    },
    /// A snapshot was taken away meanwhile.
    Gone {
        side: Side,
    },
    /// A call was refused, at this place of its side's journal.
    Refused {
        call: Call,
        refusal: Refusal,
        position: u64,
    },
    /// The store of a side failed: the faulted entry stands at this place.
    StoreFault {
        side: Side,
        position: u64,
    },
    /// The journal of a side was full.
    JournalFull {
        side: Side,
    },
    /// Memory ran out.
    NoMemory,
}
