//! Records by rising numbers: which of them tell a snapshot.
#![tactic(auto)]

pub mod numbered;

pub use numbered::{Numbered, last_number, records_at};
