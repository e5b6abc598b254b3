//! The seats of a lock, as callers hold them.
ghost use Rattle.std.specs.Prelude.{◌≡◌, [], ◌∷◌};
ghost use Rattle.turn_lock.specs.declared.view.View.{View};
ghost use Rattle.turn_lock.specs.Seats.{Seat};
ghost use Rattle.turn_lock.specs.Steps.{at_rest};

use crate::historied::Historied;
use crate::table::Place;
use crate::view::View;
use atomic_table::Badge;
use std::marker::Model;
use std::mem;

/// A seat of one lock. It has no bytes.
#[derive(Drop)]
pub struct TurnSeat {
    pub(crate) badge: Badge<View>,
}

impl Model for TurnSeat {
    ghost use Rattle.turn_lock.specs.Seats.{Seat, seat_at, view_of, IsAtRest};

    ghost Value = { Seat };

    ghost view = { λ s. seat_at s.badge.table_id (view_of s.badge.views) };

    ghost invariant = { λ s. IsAtRest s.badge.views };
}

/// What a seat is given back by: the seat itself, or what keeps it beside something else.
pub trait Seated: Drop {
    /// The seat that it keeps.
    ghost seat: { Self → Seat };

    /// Gives up the seat. It takes no memory.
    fn into_seat(self) -> TurnSeat
        ensures { result ≡ seat self };
}

impl Seated for TurnSeat {
    ghost seat = { λ s. s };

    fn into_seat(self) -> TurnSeat {
        self
    }
}

// Takes the badge out of its place, where none is left.
pub(crate) fn sit<T: Historied>(badge: &mut Badge<View>) -> Place<T>
    requires { (v : View) × (badge.old.views ≡ v ∷ []) }
    ensures { (result.table_id ≡ badge.old.table_id) × (badge.old.views ≡ result.me.0 ∷ []) × (result.me.1 ≡ []) }
{
    mem::replace(badge, Badge::blank()).into_seat()
}

// The seat at the table that was between two calls.
pub(crate) fn stand_up<T: Historied>(seat: TurnSeat) -> Place<T>
    ensures table { result.table_id ≡ seat.lock.table }
    ensures at_rest { result.me ≡ (at_rest seat.lock.seats seat.lock.kept seat.caller seat.seen, []) }
{
    let TurnSeat { badge } = seat;
    badge.into_seat()
}
