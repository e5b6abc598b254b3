//! Stores of blocks of bytes that may fail and count it, and two of them in memory.
#![tactic(auto)]

mod kept_blocks;
pub mod mem_blocks;
pub mod steady_blocks;
pub mod store;

pub use mem_blocks::MemBlocks;
pub use steady_blocks::SteadyBlocks;
pub use store::{BlockStore, StoreErr};
