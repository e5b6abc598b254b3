//! The deletion of a snapshot: the records that only it needed go, and what no list names any more.
#![tactic(auto)]

mod distinct;
mod dropping;
mod losing;

pub use dropping::drop_snapshot;
