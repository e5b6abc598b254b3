//! Laws of what calls do to a table of rows, and of the plain state that it stands for.
#![tactic(auto)]

pub mod block_bytes;
pub mod block_calls;
pub mod block_laws;
pub mod call_laws;
pub mod name_calls;
pub mod name_laws;
pub mod name_lists;
pub mod name_reads;
pub mod plain_laws;
pub mod record_laws;
pub mod step_laws;
