//! The calls that change nothing, answered beside others.
#![tactic(auto)]

pub mod by_rows;

pub use by_rows::ask;
