//! The snapshottable directories of a namenode, their snapshots by name in order of making, and the ids of snapshots.
#![tactic(auto)]

mod fault;
pub mod laws;
mod owners;
mod snaps;
mod table;

pub use fault::{AddFault, RenameFault};
pub use snaps::{SNAPSHOT_LIMIT, Snaps};
