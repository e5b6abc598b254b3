//! Pages that are asked for one after the other join to one content.
ghost use Rattle.hs_plain.specs.inside.Cuts.{CutByName, CutByIndex, CutByOffset};
ghost use Rattle.hs_plain.specs.JoinedPages.{ListingsJoin, FilesJoin, ReportsJoin};

/// Items cut by name, lines cut by index, and bytes cut by offset: pages, each from the cursor of the one before, are what
/// stands from the first cursor on, with nothing twice and nothing left out.
pub fn cuts_join()
    ensures items { CutByName }
    ensures lines { CutByIndex }
    ensures bytes { CutByOffset }
{}

/// The pages of a frozen directory, whatever entries come between them, join to its listing in the copied tree, or the last
/// reply is Gone or NoMemory.
pub fn listings_join()
    ensures { ListingsJoin }
{}

/// The pages of a frozen file join to its bytes, or the last reply is Gone, StoreFault, JournalFull or NoMemory. Over a store
/// that doesn't tell its bytes they join to as many.
pub fn files_join()
    ensures { FilesJoin }
{}

/// The pages of a report, whatever entries come between them, join to the report at the first page, or the last reply is Gone
/// or NoMemory; or Moved, where an end is the current state.
pub fn reports_join()
    ensures { ReportsJoin }
{}
