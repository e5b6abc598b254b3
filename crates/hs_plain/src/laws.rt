//! Laws of the plain machine: functions without a body, each for its contract.

pub mod answers;
pub mod frozen;
pub mod pages;
pub mod plan_calls;
pub mod report;
pub mod ticks;
pub mod trees;
pub mod validity;
pub mod worked;
