//! Where paths lead, by the rows of a table, and what stands above and below a place.
#![tactic(auto)]

pub mod above;
pub mod asked;
pub mod by_rows;
pub mod sought;
pub mod upward;
