//! What calls left and were told, as a report keeps it.
ghost use Rattle.std.specs.Prelude.{◌≡◌};
ghost use Rattle.copy_workers.specs.Calls.{wanting_of};

use hs_types::{Answered, CallerId, List, Reply, Side};

/// An entry that was left in the target's journal.
#[derive(Clone, Copy, Debug, PartialEq, Eq)]
pub struct Made {
    pub caller: CallerId,
    /// The number of the call among its caller's.
    pub seq: u64,
    /// Where the entry stands.
    pub position: u64,
}

/// A reply, with the side that gave it and the caller that it was given to.
#[derive(Debug, Drop, PartialEq, Eq)]
pub struct Look {
    pub side: Side,
    pub caller: CallerId,
    pub reply: Answered,
}

/// What became of one copy.
#[derive(Debug, Drop, PartialEq, Eq)]
pub struct Copied {
    /// The number that the job was handed in with.
    pub job: u64,
    /// The entries that the copy left in the target's journal, in order.
    pub made: List<Made>,
    /// The reply that ended the copy before it was whole. Where the copy found no memory for a call of its own, or for
    /// its place in `made`, this stands for the call that was not made.
    pub ended: Option<Look>,
}

impl Look {
    /// Stands for a call that wasn't made for want of memory.
    pub fn wanting(side: Side, caller: CallerId) -> Look
        ensures { result ≡ wanting_of side caller }
    {
        Look {
            side,
            caller,
            reply: Answered {
                reply: Reply::NoMemory,
                position: 0,
                back: None,
            },
        }
    }
}
