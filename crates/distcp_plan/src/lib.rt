//! The plan of a sync: what a target needs, from the report and the listings of the source.
#![tactic(auto)]

pub mod found;
pub mod laws;
pub mod limits;
pub mod moves;
pub mod outs;
pub mod path_texts;
pub mod planning;
pub mod puts;
pub mod temporary;

pub use moves::{Moves, translate};
pub use path_texts::{out_text, text_below, tmp_text};
pub use planning::{PlanFault, plan};
