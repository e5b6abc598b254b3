//! Laws of the definitions that contracts cite.
ghost use Rattle.dir_changes.specs.Undo.{CombineLaw};
ghost use Rattle.dir_changes.specs.Laws.{OrderLaw, CurrentLaw, AddedLaw, RemovedLaw, CombinedLaw};

/// To undo the combined lists is to undo the later ones and then the earlier ones.
pub fn combine_law()
    ensures { CombineLaw }
{}

/// What is read of a directory that is sound, at each id.
pub fn reading_law()
    ensures order { OrderLaw }
    ensures current { CurrentLaw }
{}

/// What an edit and a merge of a sound directory do to its counts.
pub fn counts_law()
    ensures added { AddedLaw }
    ensures removed { RemovedLaw }
    ensures combined { CombinedLaw }
{}
