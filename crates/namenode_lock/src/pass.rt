//! What a caller of a shared namenode has.
ghost use Rattle.std.specs.Prelude.{◌≡◌, ◌≤◌, ◌<◌, ◌^◌, length, map, IfOk, All};
ghost use Rattle.page_join.specs.Links.{IsLawful, next_number};
ghost use Rattle.namenode_lock.specs.Passes.{Passed, known, seats_of, IsNew, AreNewFrom};

use hs_types::{CallerId, List, NoMemory};
use std::alloc::Global;
use std::marker::Model;
use turn_lock::{Seated, TurnSeat};

/// The right of one caller to make calls of a shared namenode. It keeps the caller's number, how many calls the caller has
/// made, and, for contracts alone, the history that the caller has seen.
#[derive(Drop)]
pub struct Pass {
    pub(crate) seat: TurnSeat,
    caller: CallerId,
    calls: u64,
}

impl Model for Pass {
    ghost use Rattle.std.specs.Prelude.{◌≡◌};
    ghost use Rattle.page_join.specs.Links.{IsLawful};
    ghost use Rattle.namenode_lock.specs.Passes.{Passed, known};

    ghost Value = { Passed };

    ghost view = { λ p. record { lock = p.seat.lock; caller = p.caller; calls = p.calls; seen = p.seat.seen } };

    ghost invariant = { λ p. (p.caller.0 ≡ p.seat.caller) × IsLawful (known (record { lock = p.seat.lock; caller = p.caller; calls = p.calls; seen = p.seat.seen })) };
}

impl Pass {
    /// Its caller.
    pub fn caller(&self) -> CallerId
        ensures caller { result ≡ self.now.caller }
        ensures lawful { IsLawful (known self.now) }
    {
        self.caller
    }

    /// How many calls it has made.
    pub fn calls(&self) -> u64
        ensures calls { result ≡ self.now.calls }
        ensures lawful { IsLawful (known self.now) }
    {
        self.calls
    }

    /// Counts a call, and gives its number.
    pub(crate) fn count_call(&mut self) -> u64
        ensures counted { self.new ≡ record self.old { calls = next_number self.old.calls } }
        ensures number { result ≡ next_number self.old.calls }
        ensures within { self.old.calls < 2 ^ 64 }
        ensures lawful { IsLawful (known self.old) }
    {
        self.calls = self.calls.saturating_add(1);
        self.calls
    }
}

impl Seated for Pass {
    ghost use Rattle.namenode_lock.specs.Passes.{seat_of};

    ghost seat = { seat_of };

    fn into_seat(self) -> TurnSeat {
        let Pass { seat, .. } = self;
        seat
    }
}

/// A pass for each seat, in their order.
pub(crate) fn passes_for(alloc: Global, seats: List<TurnSeat>) -> Result<List<Pass>, NoMemory>
    requires few { length seats < 2 ^ 32 }
    requires fresh { AreNewFrom 0 seats }
    ensures seats { IfOk result (λ passes. seats_of passes ≡ seats) }
    ensures fresh { IfOk result (λ passes. All IsNew passes) }
{
    let seats = seats.into_vec();
    let mut passes = Vec::with_capacity(alloc, seats.len())?;
    let mut next = 0;
    for seat in seats {
        passes.push_reserved(Pass {
            seat,
            caller: CallerId(next),
            calls: 0,
        });
        next += 1;
    }
    Ok(List::of(passes))
}
