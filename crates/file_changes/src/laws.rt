//! Laws of the definitions that contracts cite.
ghost use Rattle.file_changes.specs.History.{CurrentLaw};

/// What is read of a file above its last number.
pub fn reading_law()
    ensures { CurrentLaw }
{}
