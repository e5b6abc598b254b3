//! What a release hands out.
use hs_types::{BlockId, List};

/// How many rows went, and the blocks that no state names any more.
#[derive(Debug, Drop)]
pub struct Freed {
    pub rows: u64,
    pub blocks: List<BlockId>,
}
