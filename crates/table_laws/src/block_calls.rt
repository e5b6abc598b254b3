//! Blocks through the steps of one call: each is of one row and is named, or waits to be freed.
ghost use Rattle.table_laws.specs.BlockCalls.{TouchBlocksLaw, AppendedBlocksLaw, MakeBlocksLaw, RenameBlocksLaw, DeleteBlocksLaw, ReplaceBlocksLaw, DropBlocksLaw};

/// Another mode.
pub fn touched()
    ensures { TouchBlocksLaw }
{}

/// Bytes at the end of a file.
pub fn appended()
    ensures { AppendedBlocksLaw }
{}

/// A new directory or file.
pub fn made()
    ensures { MakeBlocksLaw }
{}

/// A rename.
pub fn renamed()
    ensures { RenameBlocksLaw }
{}

/// A deletion.
pub fn deleted()
    ensures { DeleteBlocksLaw }
{}

/// A new file in place of one.
pub fn replaced()
    ensures { ReplaceBlocksLaw }
{}

/// A deleted snapshot.
pub fn dropped()
    ensures { DropBlocksLaw }
{}
