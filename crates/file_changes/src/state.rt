//! The state of a file at one moment.
ghost use Rattle.std.specs.Prelude.{◌≡◌};
ghost use Rattle.file_changes.specs.View.{shown};

use change_history::Numbered;
use hs_types::{BlockId, Duplicate, List, Mode, NoMemory, SnapId, Spot};

/// All that is known of a file: where it stands, its mode and stamp, and its body as a size over blocks.
#[derive(Debug, Drop, PartialEq, Eq)]
pub struct FileState {
    pub spot: Spot,
    pub mode: Mode,
    pub stamp: u64,
    pub size: u64,
    pub blocks: List<BlockId>,
}

/// A state that is lent: what is long stays where it is.
#[derive(Clone, Copy, Debug)]
pub struct FileView<'a> {
    pub spot: &'a Spot,
    pub mode: Mode,
    pub stamp: u64,
    pub size: u64,
    pub blocks: &'a List<BlockId>,
}

/// A saved state. Its number is a snapshot id: the record tells the state at that snapshot, and at each one
/// after the record before.
#[derive(Debug, Drop, PartialEq, Eq)]
pub struct FileRecord {
    pub number: SnapId,
    pub state: FileState,
}

impl FileState {
    pub(crate) fn view(&self) -> FileView<'_>
        ensures { shown result ≡ self.now }
    {
        FileView {
            spot: &self.spot,
            mode: self.mode,
            stamp: self.stamp,
            size: self.size,
            blocks: &self.blocks,
        }
    }
}

impl Numbered for FileRecord {
    ghost use Rattle.file_changes.specs.History as history;

    ghost number_of = { history.number_of };

    fn number(&self) -> SnapId {
        self.number
    }
}
