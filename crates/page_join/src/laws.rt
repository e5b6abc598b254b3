//! Laws of links: functions without a body, each for its contract.
ghost use Rattle.page_join.specs.Made.{MadeAreLegal};

/// The calls of a link are legal, one after the other, in the history that it has seen behind the last of them, and in each
/// history that goes on from there without an entry of its caller.
pub fn made_are_legal()
    ensures { MadeAreLegal }
{}
