//! Copies of single files, from a source to a target, through links.
#![tactic(auto)]

pub mod copied;
pub mod copying;
pub mod laws;
pub mod writing;

pub use copied::{Copied, Look, Made};
pub use copying::{change, copy_one};
pub use writing::{is_ok_reply, write};
