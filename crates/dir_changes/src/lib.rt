//! The child list of a directory and its change records: what it was at each snapshot.
#![tactic(auto)]

mod boxed;
mod changes;
mod child;
mod children;
mod combine;
pub mod laws;
mod merge;
mod name_room;
mod past;
mod reading;
mod recorded;
mod rows;
mod search;
mod spare;

pub use child::Child;
pub use children::Children;
pub use recorded::{DirMarks, DirRecord, DirView};
pub use rows::DirRows;
