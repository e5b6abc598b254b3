//! Names through the steps of one call: true before, true after, and each row but the root is named.
ghost use Rattle.table_laws.specs.NameCalls.{TouchNamesLaw, MakeNamesLaw, RenameNamesLaw, DeleteNamesLaw, ReplaceNamesLaw, DropNamesLaw};

/// Another mode or body.
pub fn touched()
    ensures { TouchNamesLaw }
{}

/// A new directory or file.
pub fn made()
    ensures { MakeNamesLaw }
{}

/// A rename.
pub fn renamed()
    ensures { RenameNamesLaw }
{}

/// A deletion.
pub fn deleted()
    ensures { DeleteNamesLaw }
{}

/// A new file in place of one.
pub fn replaced()
    ensures { ReplaceNamesLaw }
{}

/// A deleted snapshot.
pub fn dropped()
    ensures { DropNamesLaw }
{}
