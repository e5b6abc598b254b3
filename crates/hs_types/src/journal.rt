//! The entries of a namenode's journal.

use crate::call::Call;
use crate::ids::CallerId;

/// Whether a journal entry was answered with an Ok reply, or with a fault of the store.
#[derive(Clone, Copy, Debug, PartialEq, Eq)]
pub enum EntryKind {
    /// The reply was an Ok reply.
    Accepted,
    /// The reply was a fault of the store.
    Faulted,
}

/// One entry of a namenode's journal.
#[derive(Debug, Drop, PartialEq, Eq)]
pub struct Entry {
    pub caller: CallerId,
    /// Counts the caller's calls on this namenode from 1, whatever their replies. It stays at the last number of a u64.
    pub seq: u64,
    pub kind: EntryKind,
    pub call: Call,
}
