//! What whole calls do to a table, and to the plain state that it stands for. Each law is the contract of a function that does nothing.
ghost use Rattle.table_laws.specs.WholeStands.{ModeStandsLaw, BodyStandsLaw, NodeStandsLaw, UnlinkStandsLaw, DeletedStandsLaw, RenamedStandsLaw, SnappedStandsLaw};
ghost use Rattle.table_laws.specs.WholeLaws.{TickLaw, SetModeLaw, AppendLaw, MkdirLaw, CreateLaw, DeleteLaw, RenameLaw, SnapLaw, AllowLaw, DisallowLaw, CreateOverLaw, SnapRenLaw, SnapDelLaw};
ghost use Rattle.table_laws.specs.WholeMay.{SetModeMayLaw, AppendMayLaw, MkdirMayLaw, CreateMayLaw, CreateOverMayLaw, DeleteMayLaw, RenameMayLaw};

/// A row with another mode.
pub fn mode_stands()
    ensures { ModeStandsLaw }
{}

/// A file with other bytes.
pub fn body_stands()
    ensures { BodyStandsLaw }
{}

/// A new row and its entry.
pub fn node_stands()
    ensures { NodeStandsLaw }
{}

/// An entry less.
pub fn unlink_stands()
    ensures { UnlinkStandsLaw }
{}

/// A deletion, as rows that no list names have gone.
pub fn deleted_stands()
    ensures { DeletedStandsLaw }
{}

/// A rename.
pub fn renamed_stands()
    ensures { RenamedStandsLaw }
{}

/// A snapshot.
pub fn snapped_stands()
    ensures { SnappedStandsLaw }
{}

/// An entry that changes nothing but the tick.
pub fn tick()
    ensures { TickLaw }
{}

/// The whole after another mode.
pub fn set_mode()
    ensures stands { SetModeLaw }
    ensures may { SetModeMayLaw }
{}

/// The whole after bytes at a file's end.
pub fn append()
    ensures stands { AppendLaw }
    ensures may { AppendMayLaw }
{}

/// The whole after a new directory.
pub fn mkdir()
    ensures stands { MkdirLaw }
    ensures may { MkdirMayLaw }
{}

/// The whole after a new file under a free name.
pub fn create()
    ensures stands { CreateLaw }
    ensures may { CreateMayLaw }
{}

/// The whole after a deletion.
pub fn delete()
    ensures stands { DeleteLaw }
    ensures may { DeleteMayLaw }
{}

/// The whole after a rename.
pub fn rename()
    ensures stands { RenameLaw }
    ensures may { RenameMayLaw }
{}

/// The whole after a snapshot.
pub fn snap()
    ensures { SnapLaw }
{}

/// The whole after a directory became snapshottable.
pub fn allow()
    ensures { AllowLaw }
{}

/// The whole after a directory is snapshottable no more.
pub fn disallow()
    ensures { DisallowLaw }
{}

/// The whole after a new file in the place of one that was there.
pub fn create_over()
    ensures stands { CreateOverLaw }
    ensures may { CreateOverMayLaw }
{}

/// The whole after a snapshot got another name.
pub fn snap_ren()
    ensures { SnapRenLaw }
{}

/// The whole after a snapshot was deleted.
pub fn snap_del()
    ensures { SnapDelLaw }
{}
