//! Table, snapshots and store, and the plain state that all of them stand for.
ghost use Rattle.table_laws.specs.WholePlain.{StartLaw, StartPlainLaw, TickPlainLaw, CallPlainLaw, AppendPlainLaw, FreePlainLaw};

/// The first table with no snapshots stands for the first state.
pub fn start()
    ensures { StartLaw }
{}

/// Over a store without blocks it stands for the first plain state.
pub fn start_plain()
    ensures { StartPlainLaw }
{}

/// An entry that changes nothing but the tick.
pub fn tick_plain()
    ensures { TickPlainLaw }
{}

/// A call that asks for no store: on the tree, on snapshots, or one that reads no file.
pub fn call_plain()
    ensures { CallPlainLaw }
{}

/// An append, whose bytes the store has.
pub fn append_plain()
    ensures { AppendPlainLaw }
{}

/// A block that waits is freed.
pub fn free_plain()
    ensures { FreePlainLaw }
{}
