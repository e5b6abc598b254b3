//! The table that the seats of a lock share: slot 0 is the home of the pointer.
//! Word 0 is 0 where the pointer is at home, 1 where a seat holds it, and 2 where others may sleep until it is back.
//! Word 1 stays 0, for a holder to sleep on for a while.
use crate::historied::Historied;
use crate::view::View;
use atomic_table::{Join, Play, Seat, Shared, Split, TableRule};
use std::marker::PhantomData;
use std::snapshot::Snapshot;
use std::sync::Arc;

/// What a lock is told once, when it is made.
#[derive(Drop)]
pub struct Terms<T> {
    /// Its first value. What is kept of it is kept of all that follow.
    pub first: Snapshot<T>,
    pub seats: u32,
}

/// The rule of the turn.
pub struct Turning<T> {
    value: PhantomData<T>,
}

impl<T: Historied> TableRule<Option<Arc<T>>, View, Terms<T>> for Turning<T> {
    ghost use Rattle.std.specs.Arc.{arc_value};
    ghost use Rattle.turn_lock.specs.Rule.{Turned};
    ghost use Rattle.turn_lock.specs.Steps.{opener};

    ghost holds = { λ key. Turned (λ a. T.history (arc_value a)) (λ a. T.kept (arc_value a)) key.seats (T.kept key.first.value) };

    ghost first = { λ key. opener key.seats (T.kept key.first.value) };
}

pub type Turns<T> = Shared<Option<Arc<T>>, View, Terms<T>, Turning<T>>;

/// A seat at the table.
pub type Place<T> = Seat<Option<Arc<T>>, View>;

/// A try to take the pointer.
pub(crate) struct Take<T> {
    value: PhantomData<T>,
}

impl<T: Historied> Play<Option<Arc<T>>, View> for Take<T> {
    ghost use Rattle.std.specs.Arc.{arc_value};
    ghost use Rattle.turn_lock.specs.Steps.{takes_turn};

    ghost then = { takes_turn (λ a. T.history (arc_value a)) (λ a. T.kept (arc_value a)) };
}

/// The holder gives the pointer back.
pub(crate) struct Give<T> {
    value: PhantomData<T>,
}

impl<T: Historied> Play<Option<Arc<T>>, View> for Give<T> {
    ghost use Rattle.std.specs.Arc.{arc_value};
    ghost use Rattle.turn_lock.specs.Steps.{gives_turn};

    ghost then = { gives_turn (λ a. T.history (arc_value a)) (λ a. T.kept (arc_value a)) };
}

/// A seat that was told what another has seen looks at it.
pub(crate) struct Learn;

impl<S> Play<S, View> for Learn {
    ghost use Rattle.turn_lock.specs.Steps.{learns};

    ghost then = { learns };
}

/// Gives the first of a seat's callers a seat of its own.
pub(crate) struct Deal;

impl Split<View> for Deal {
    ghost use Rattle.turn_lock.specs.Steps.{without_first, only_first};

    ghost left = { without_first };

    ghost right = { only_first };
}

/// Notes what a seat has seen.
pub(crate) struct Note;

impl Split<View> for Note {
    ghost use Rattle.turn_lock.specs.Steps.{note_of};

    ghost left = { λ v. v };

    ghost right = { note_of };
}

/// Takes a note in.
pub(crate) struct Inform;

impl Join<View> for Inform {
    ghost use Rattle.turn_lock.specs.Steps.{informed, nobody};

    ghost both = { informed };

    ghost spent = { nobody };
}
