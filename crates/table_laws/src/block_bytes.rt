//! Bytes: all files of a state, live and copied, keep theirs while the store changes.
ghost use Rattle.table_laws.specs.BlockBytes.{GrowBytesLaw, FreeBytesLaw};

/// A file is written behind its end.
pub fn store_grown()
    ensures { GrowBytesLaw }
{}

/// A block that waits is freed.
pub fn block_freed()
    ensures { FreeBytesLaw }
{}
