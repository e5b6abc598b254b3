//! What the plain machine never answers: a namenode's other replies are its store's, its journal's and its memory's.
ghost use Rattle.hs_plain.specs.Answers.{AnswersAreItsOwn};
ghost use Rattle.hs_plain.specs.inside.Answers.{RefusalsAreItsOwn, WholeAnswersAreItsOwn, WholeRefusalsAreItsOwn};

/// The plain machine never answers that the store failed, that the journal is full, or that memory ran out.
pub fn answers_are_its_own()
    ensures answered { AnswersAreItsOwn }
    ensures refused { RefusalsAreItsOwn }
{}

/// The same of answers from a state that keeps its files in blocks.
pub fn whole_answers_are_its_own()
    ensures answered { WholeAnswersAreItsOwn }
    ensures refused { WholeRefusalsAreItsOwn }
{}
