//! Links to a namenode, and the pages that are asked for through one: joined they are one content.
#![tactic(auto)]

pub mod laws;
pub mod link;
pub mod paging;
mod reading;
pub mod starts;

pub use link::NameLink;
pub use reading::{list_all, read_all, report_all};
pub use starts::{ListStart, ReadStart, ReportStart};
