//! A namenode: it answers calls one after the other, and its journal is their one history.
#![tactic(auto)]

pub mod limit;
pub mod namenode;
mod rows;

pub use limit::JournalLimit;
pub use namenode::Namenode;
