//! A run of a script: what it is, and its text.
#![tactic(auto)]

pub mod ran;
pub mod summary;
mod sync_text;
pub mod text;

pub use ran::{ClientLog, End, LogItem, LogWhat, Ran, Status};
pub use summary::summary_of;
pub use text::text_of;
