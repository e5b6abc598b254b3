//! What a seat knows.
use crate::historied::Kept;
use hs_types::{Entry, List};

/// What a seat of a lock knows. No value of it is made.
pub struct View {
    /// It was not joined away.
    pub live: bool,
    /// It holds the lock's pointer.
    pub holds: bool,
    /// Its callers are those from `from` on that are below `to`.
    pub from: u32,
    pub to: u32,
    /// How many callers the lock has.
    pub seats: u32,
    /// What is kept of the lock's values.
    pub kept: Kept,
    /// A beginning of the lock's history.
    pub seen: List<Entry>,
    /// Another, which it was told at a meeting and has not looked at yet.
    pub told: List<Entry>,
}
