//! Rows of inodes: what each shows now and at each snapshot, and the plain state that a table of them stands for.
#![tactic(auto)]

mod always;
mod change;
mod changing;
mod counted;
mod counting;
mod freed;
mod inserting;
pub mod laws;
mod lending;
mod merging;
mod noted;
mod preparing;
mod recounting;
mod releasing;
mod row;
mod table;

pub use change::Change;
pub use counted::Counted;
pub use counting::TableCounts;
pub use freed::Freed;
pub use row::{Row, Rows};
pub use table::Table;
