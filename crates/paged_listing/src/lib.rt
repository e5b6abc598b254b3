//! Pages of what a cursor goes on with: the items of a directory or of its list of snapshots, and the lines of a report.
#![tactic(auto)]

mod listing;
mod reports;
mod rows;
mod snapshots;

pub use listing::{list_page, page_at};
pub use reports::{lines_from, report_page};
pub use rows::rows_of;
pub use snapshots::snapshot_list;
