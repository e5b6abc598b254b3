//! What is true of each state that a journal stands for.
ghost use Rattle.std.specs.Prelude.{List, ℕ};
ghost use Rattle.hs_types.specs.declared.journal.Entry.{Entry};
ghost use Rattle.hs_plain.specs.declared.state.State.{State};
ghost use Rattle.hs_plain.specs.Files.{plain_files};
ghost use Rattle.hs_plain.specs.State.{start};
ghost use Rattle.hs_plain.specs.Change.{after};
ghost use Rattle.hs_plain.specs.Replay.{plain_after};
ghost use Rattle.hs_plain.specs.Valid.{IsValid, HasSteadyStamps};

/// The state that each history begins with, the root alone, is valid.
pub fn start_is_valid()
    ensures { IsValid (start {B = List ℕ}) }
{}

/// Each entry, also one that no journal has, leads from a valid state to a valid one.
pub fn after_keeps_validity()
    ensures { (state : State (List ℕ)) (entry : Entry) → IsValid state → IsValid (after plain_files state entry) }
{}

/// The state that a journal stands for is valid.
pub fn replay_is_valid()
    ensures { (entries : List Entry) → IsValid (plain_after entries) }
{}

/// In the state that each history begins with, a stamp tells what a node is.
pub fn start_has_steady_stamps()
    ensures { HasSteadyStamps (start {B = List ℕ}) }
{}

/// Each entry leaves a valid state in which a stamp tells what a node is as such a state.
pub fn after_keeps_steady_stamps()
    ensures { (state : State (List ℕ)) (entry : Entry) → IsValid state → HasSteadyStamps state → HasSteadyStamps (after plain_files state entry) }
{}

/// In the state that a journal stands for, a stamp tells what a node is.
pub fn replay_has_steady_stamps()
    ensures { (entries : List Entry) → HasSteadyStamps (plain_after entries) }
{}
