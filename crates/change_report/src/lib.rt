//! What has changed in a directory between two points in time, found by the index.
#![tactic(auto)]

mod candidates;
mod ends;
mod listed;
mod moved;
mod order;
mod reporting;

pub use reporting::report;
