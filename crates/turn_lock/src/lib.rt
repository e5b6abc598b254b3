//! A pointer that threads take in turns, and whose value carries a history of journal entries.
//!
//! Who reads copies the pointer under the turn and reads outside it, so readers are inside at the same time. Who
//! changes the value keeps the turn until no copy is left; where that takes long, it gives the turn back in between, so
//! that others still enter. What each seat has seen begins the history of every value that is under the lock from then
//! on, by the rule of the turn in `specs/Rule.antt`.
#![tactic(auto)]

pub mod historied;
pub mod laws;
pub mod lock;
pub mod seat;
mod steps;
mod table;
mod view;

pub use historied::{Historied, Kept, Work};
pub use lock::{LookNoMemory, TurnLock};
pub use seat::{Seated, TurnSeat};
