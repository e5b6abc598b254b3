//! The words of a namenode: ids, names, paths, calls, replies and journal entries.
#![tactic(auto)]

pub mod call;
pub mod chunk;
pub mod ids;
pub mod journal;
pub mod list;
pub mod memory;
pub mod name;
pub mod numbers;
pub mod path;
pub mod refusal;
pub mod reply;
pub mod schedule;
pub mod shown;
pub mod text;

pub use call::{Call, ListCursor, Place, Point, ReadCursor, ReportCursor};
pub use chunk::Chunk;
pub use ids::{BlockId, CallerId, InodeId, Side, SnapId};
pub use journal::{Entry, EntryKind};
pub use list::List;
pub use memory::{Duplicate, NoMemory};
pub use name::{Name, NameFault, NameText, SnapItem, Spot};
pub use numbers::{Mode, PageSize, ReadLen};
pub use path::{Path, PathFault, PathTail, PathText, RelPath};
pub use refusal::Refusal;
pub use reply::{Answered, DirItem, Item, Line, LineKind, Reply};
pub use schedule::Schedule;
pub use shown::{Counts, TreeLine};
pub use text::Text;
