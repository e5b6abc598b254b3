//! The plain machine of a namenode: what a reader must believe, and slow functions that compute it.
#![tactic(auto)]

pub mod answer;
pub mod change;
pub mod files;
pub mod laws;
pub mod lines;
pub mod modifying;
pub mod pages;
pub mod plan;
pub mod reading;
pub mod replay;
pub mod report;
pub mod resolve;
pub mod snapshot_change;
pub mod snapshots;
pub mod snapshotting;
pub mod state;
pub mod subtree;
pub mod tree;

pub use files::FileBody;
pub use plan::{CopyJob, Listing, Plan, Put, RootNames};
pub use resolve::AskFault;
pub use state::{Body, Bytes, FileBlocks, Member, Node, PlainState, State, Tree, WholeState};
