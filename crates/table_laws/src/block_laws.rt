//! Blocks: each is of one row, and is named by a state or waits to be freed.
ghost use Rattle.table_laws.specs.Blocking.{QuietBlocksLaw, BodyBlocksLaw, InsertBlocksLaw, MarkBlocksLaw, MergeBlocksLaw, ReleaseBlocksLaw, StartBlocksLaw, GrowBlocksLaw, AppendBlocksLaw, FreeBlocksLaw};

/// A change of mode, spot or entries names the same blocks.
pub fn bodiless_change()
    ensures { QuietBlocksLaw }
{}

/// A file's list gets blocks that waited.
pub fn body_grown()
    ensures { BodyBlocksLaw }
{}

/// A new row names no block.
pub fn row_inserted()
    ensures { InsertBlocksLaw }
{}

/// Marks name no block.
pub fn row_marked()
    ensures { MarkBlocksLaw }
{}

/// The blocks that a merged record alone named wait.
pub fn record_merged()
    ensures { MergeBlocksLaw }
{}

/// The blocks of rows that go are handed out, each once.
pub fn rows_released()
    ensures { ReleaseBlocksLaw }
{}

/// The first table names no block.
pub fn first_blocks()
    ensures { StartBlocksLaw }
{}

/// A file is written behind its end, and a block that was made waits.
pub fn store_grown()
    ensures { GrowBlocksLaw }
{}

/// An append, with the new list in the row.
pub fn file_appended()
    ensures { AppendBlocksLaw }
{}

/// One that waits is freed.
pub fn block_freed()
    ensures { FreeBlocksLaw }
{}
