//! What holds of a table at all times.
ghost use Rattle.std.specs.Prelude.{◌≡◌, ◌<◌, None};
ghost use Rattle.hs_types.specs.declared.ids.InodeId.{InodeId};
ghost use Rattle.inode_table.specs.Numbered.{row_of};

use crate::table::Table;
use hs_types::InodeId;

impl Table {
    /// What holds of the table at all times. It does nothing.
    pub fn always(&self)
        ensures none_above { (id : InodeId) → self.now.greatest < id.0 → row_of self.now.rows id ≡ None }
    {
        let _ = &self.rows;
    }

    /// The greatest id that a row was inserted under so far, 1 in a new table. It takes no memory.
    pub fn greatest(&self) -> InodeId
        ensures { result.0 ≡ self.now.greatest }
    {
        InodeId(self.rows.len() as u64 - 1)
    }
}
