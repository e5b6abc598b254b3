//! The bytes of a file in blocks of a store: an append at its end, and reads.
#![tactic(auto)]

pub mod appending;
pub mod reading;

pub use appending::append;
pub use reading::read;

/// How many bytes a block has.
const BLOCK_SIZE: u64 = 65536;
