//! A file's inode through its snapshots: the current state, and the states that records saved.
#![tactic(auto)]

mod blocks;
pub mod laws;
mod past;
mod rows;
mod state;

pub use rows::FileRows;
pub use state::{FileRecord, FileState, FileView};
