//! Runs a script against two namenodes.
#![tactic(auto)]

mod client;
mod commands;
mod nodes;
mod sections;
pub mod serial;
mod syncs;

pub use serial::{Options, serial_script};
