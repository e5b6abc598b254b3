//! Rows of inodes by their ids.
ghost use Rattle.std.specs.Prelude.{◌≡◌};
ghost use Rattle.std.specs.Option.{option_copied, option_map};
ghost use Rattle.inode_table.specs.Kept.{told};
ghost use Rattle.inode_table.specs.Numbered.{history_of};
ghost use Rattle.inode_table.specs.RowHistory.{rows_at};
ghost use Rattle.paged_listing.specs.Items.{is_dir_row};

use hs_types::InodeId;
use inode_table::{Rows, Table};

/// What an inode is now and was at each snapshot.
pub fn rows_of(table: &Table, id: InodeId) -> Option<&Rows>
    ensures { option_map history_of (option_copied result) ≡ rows_at (told table.now).rows id }
{
    match table.row(id) {
        None => None,
        Some(row) => Some(&row.rows),
    }
}

/// Whether the row of an inode is a directory's.
pub(crate) fn is_dir(table: &Table, id: InodeId) -> bool
    ensures { result ≡ is_dir_row (rows_at (told table.now).rows id) }
{
    match rows_of(table, id) {
        Some(Rows::Dir(_)) => true,
        Some(Rows::File(_)) => false,
        None => false,
    }
}
