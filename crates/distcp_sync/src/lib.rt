//! A sync, as `distcp -update -diff` does it: a target is brought up to date by what the source's snapshots record.
#![tactic(auto)]

pub mod answer;
mod answering;
mod beginning;
mod contents;
mod copying_all;
mod fetching;
pub mod laws;
mod moving;
mod queue;
pub mod report;
pub mod start;
pub mod syncing;

pub use answer::SyncAnswer;
pub use report::{SyncJob, SyncReport};
pub use start::SyncStart;
pub use syncing::sync_one;
