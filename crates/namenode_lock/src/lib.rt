//! Links to a namenode: how callers reach it, alone or several at the same time.
#![tactic(auto)]

mod held;
pub mod node_link;
pub mod pass;
pub mod shared;
pub mod shared_link;

pub use held::Held;
pub use node_link::NodeLink;
pub use pass::Pass;
pub use shared::Shared;
pub use shared_link::SharedLink;
