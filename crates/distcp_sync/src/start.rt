//! What a sync names its roots and snapshots by.

use hs_types::{InodeId, SnapId};

/// The ids of both roots, of the source's `from` and `to`, and of the target's `from`.
#[derive(Clone, Copy, Debug, PartialEq, Eq)]
pub struct SyncStart {
    pub source: InodeId,
    pub target: InodeId,
    pub from: SnapId,
    pub to: SnapId,
    pub base: SnapId,
}
