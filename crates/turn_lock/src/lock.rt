//! The lock: one pointer, taken in turns.
ghost use Rattle.std.specs.Prelude.{◌≡◌, ℕ, ◌<◌, ◌≤◌, [], ◌∷◌, true, length, map, Some, slice_get, vec_capacity, All, IfOk, IfErr};
ghost use Rattle.std.specs.Arc.{arc_value};
ghost use mathlib.Core.List.{IsPrefix};
ghost use Rattle.turn_lock.specs.Histories.{by_caller, caller_of, LeadsOn, AddsOnlyBy, longer};
ghost use Rattle.turn_lock.specs.Seats.{MayFind, AreAll, AreInOrder, AreDealt, EachIsSeen};
ghost use Rattle.turn_lock.specs.Steps.{opener, at_rest};

use crate::historied::{Historied, Work};
use crate::seat::{Seated, TurnSeat, sit, stand_up};
use crate::steps::{give_back, meet, take, unwrap_alone, work_in_turn};
use crate::table::{Deal, Place, Terms, Turning, Turns};
use crate::view::View;
use atomic_table::{Refused, Table};
use hs_types::{List, NoMemory};
use std::alloc::Global;
use std::marker::Model;
use std::snapshot::Snapshot;
use std::sync::{Arc, Wait};

/// There was no memory for one more owner of the pointer. The turn was given back.
#[derive(Clone, Copy, Debug, PartialEq, Eq)]
pub struct LookNoMemory {
    /// How long the history was.
    pub length: u64,
}

/// One shared pointer to a `T`, taken in turns by the seats that are made with it.
#[derive(Drop)]
pub struct TurnLock<T: Historied> {
    table: Table<Option<Arc<T>>, View, Terms<T>, Turning<T>, Global>,
}

impl<T: Historied> Model for TurnLock<T> {
    ghost use Rattle.std.specs.Prelude.{◌≡◌, ◌<◌};
    ghost use Rattle.turn_lock.specs.Seats.{Lock};

    ghost Value = { Lock };

    ghost view = { λ l. record { table = l.table.shared.table_id; seats = l.table.shared.key.seats; kept = T.kept l.table.shared.key.first.value } };

    ghost invariant = { λ l. (l.table.shared.table_id.words ≡ 2) × (l.table.shared.table_id.slots ≡ 1) × (0 < l.table.shared.key.seats) };
}

impl<T: Historied> TurnLock<T> {
    /// A lock over its first value, and its seats. Seat k, counted from 0, has caller number k.
    pub fn new(
        alloc: Global,
        seats: u32,
        value: T,
    ) -> Result<(TurnLock<T>, List<TurnSeat>), NoMemory>
        requires some { 0 < seats }
        requires fresh { T.history value ≡ [] }
        ensures lock { IfOk result (λ made. (made.0.seats ≡ seats) × (made.0.kept ≡ T.kept value)) }
        ensures order { IfOk result (λ made. AreInOrder made.0 made.1) }
        ensures fresh { IfOk result (λ made. All (λ s. s.seen ≡ []) made.1) }
    {
        let terms = Terms {
            first: Snapshot::of(&value),
            seats,
        };
        let mut dealt = Vec::with_capacity(alloc, seats as usize)?;
        let mut home = Vec::with_capacity(alloc, 1)?;
        home.push_reserved(Some(Arc::new(alloc, value)?));
        let (table, first) = match Table::new(alloc, &[0, 0], home, &terms) {
            Ok(made) => made,
            Err(Refused { slots: _ }) => return Err(NoMemory),
        };
        deal(&table.shared, first, seats, &mut dealt);
        Ok((TurnLock { table }, List::of(dealt)))
    }

    /// Takes the turn, copies the pointer, and gives the turn back. While the copy is kept nobody changes the value, so
    /// drop it before the next `change_alone` or `finish` of the same thread.
    pub fn look<R: Wait>(&self, rt: &R, seat: &mut TurnSeat) -> Result<Arc<T>, LookNoMemory>
        requires { seat.old.lock ≡ self.now }
        ensures seat { seat.new ≡ record seat.old { seen = seat.new.seen } }
        ensures seen { LeadsOn seat.old.caller seat.old.seen seat.new.seen }
        ensures callers { All (λ e. caller_of e < self.now.seats) seat.new.seen }
        ensures value { IfOk result (λ a. T.history (arc_value a) ≡ seat.new.seen) }
        ensures kept { IfOk result (λ a. T.kept (arc_value a) ≡ self.now.kept) }
        ensures lawful { T.lawful self.now.kept seat.new.seen }
        ensures length { IfErr result (λ e. e.length ≡ length seat.new.seen) }
    {
        let turns = &self.table.shared;
        let mut place = sit(&mut seat.badge);
        let value = take(rt, turns, &mut place);
        let copy = copy_of(&value);
        give_back(turns, &mut place, value);
        seat.badge = place.into_badge();
        copy
    }

    /// Takes the turn, waits until every copy of the pointer is gone, calls the work once on the value, and gives the
    /// turn back. While a copy stays for long, others are let in between. What the work leaves is the lock's value from
    /// then on.
    pub fn change_alone<R: Wait, W: Work<T>>(&self, rt: &R, seat: &mut TurnSeat, work: &mut W)
        requires lock { seat.old.lock ≡ self.now }
        requires allowed { (x : T) → MayFind seat.old (T.kept x) (T.history x) → W.allows work.old x }
        requires kept { (x : T) (w : W) (y : T) → MayFind seat.old (T.kept x) (T.history x) → W.does work.old x w y → T.kept y ≡ T.kept x }
        requires adds { (x : T) (w : W) (y : T) → MayFind seat.old (T.kept x) (T.history x) → W.does work.old x w y → AddsOnlyBy seat.old.caller (T.history x) (T.history y) }
        ensures { (x : T) × (y : T) × MayFind seat.old (T.kept x) (T.history x) × W.does work.old x work.new y × (seat.new ≡ record seat.old { seen = T.history y }) }
    {
        let turns = &self.table.shared;
        let mut place = sit(&mut seat.badge);
        work_in_turn(rt, turns, &mut place, work);
        seat.badge = place.into_badge();
    }

    /// Both seats then know one history, the longer of the two that they knew. It takes no memory and waits for nobody.
    pub fn meet(&self, a: &mut TurnSeat, b: &mut TurnSeat)
        requires first { a.old.lock ≡ self.now }
        requires second { b.old.lock ≡ self.now }
        ensures first { a.new ≡ record a.old { seen = longer a.old.seen b.old.seen } }
        ensures second { b.new ≡ record b.old { seen = longer a.old.seen b.old.seen } }
        ensures first_seen { LeadsOn a.old.caller a.old.seen a.new.seen }
        ensures second_seen { LeadsOn b.old.caller b.old.seen b.new.seen }
    {
        let turns = &self.table.shared;
        let mut first = sit(&mut a.badge);
        let mut second = sit(&mut b.badge);
        meet(turns, &mut first, &mut second);
        a.badge = first.into_badge();
        b.badge = second.into_badge();
    }

    /// Takes the value out, when every seat has come back. Waits until every copy of the pointer is gone.
    pub fn finish<R: Wait>(self, rt: &R, seats: List<TurnSeat>) -> T
        requires lock { All (λ s. s.lock ≡ self) seats }
        requires all { AreAll self seats }
        ensures kept { T.kept result ≡ self.kept }
        ensures seen { All (λ s. LeadsOn s.caller s.seen (T.history result)) seats }
        ensures entries { EachIsSeen seats (T.history result) }
    {
        self.finish_seated(rt, seats)
    }

    /// The same where each seat is kept beside something else, so that no list of seats has to be made.
    pub fn finish_seated<R: Wait, S: Seated>(self, rt: &R, seated: List<S>) -> T
        requires lock { All (λ s. s.lock ≡ self) (map S.seat seated) }
        requires all { AreAll self (map S.seat seated) }
        ensures kept { T.kept result ≡ self.kept }
        ensures seen { All (λ s. LeadsOn s.caller s.seen (T.history result)) (map S.seat seated) }
        ensures entries { EachIsSeen (map S.seat seated) (T.history result) }
    {
        let TurnLock { table } = self;
        let mut others = seated.into_vec();
        let mut holder = stand_up(others.pop().unwrap().into_seat());
        let value = take(rt, &table.shared, &mut holder);
        meet_each(&table.shared, &mut holder, others);
        unwrap_alone(rt, &table.shared, value)
    }
}

// One more owner of the value, or how long its history is.
fn copy_of<T: Historied>(value: &Arc<T>) -> Result<Arc<T>, LookNoMemory>
    ensures same { IfOk result (λ a. arc_value a ≡ arc_value value.now) }
    ensures lawful { T.lawful (T.kept (arc_value value.now)) (T.history (arc_value value.now)) }
    ensures length { IfErr result (λ e. e.length ≡ length (T.history (arc_value value.now))) }
{
    let length = value.length();
    match Arc::try_clone(value) {
        Ok(copy) => Ok(copy),
        Err(_) => Err(LookNoMemory { length }),
    }
}

// Gives each caller its seat.
fn deal<T: Historied>(turns: &Turns<T>, mut first: Place<T>, seats: u32, dealt: &mut Vec<TurnSeat>)
    requires table { first.table_id ≡ turns.now.table_id }
    requires words { turns.now.table_id.words ≡ 2 }
    requires opener { (first.me.0 ≡ opener seats first.me.0.kept) × (first.me.1 ≡ []) }
    requires room { (dealt.old.items ≡ []) × (seats ≤ vec_capacity dealt.old) }
    ensures { AreDealt first.table_id seats first.me.0.kept seats dealt.new.items }
{
    for _ in 0..seats {
        let place = turns.split_seat::<Deal>(&mut first);
        dealt.push_reserved(TurnSeat {
            badge: place.into_badge(),
        });
    }
}

// The holder meets each of the other seats.
fn meet_each<T: Historied, S: Seated>(turns: &Turns<T>, holder: &mut Place<T>, mut others: Vec<S>)
    requires table { holder.old.table_id ≡ turns.now.table_id }
    requires words { turns.now.table_id.words ≡ 2 }
    requires slots { turns.now.table_id.slots ≡ 1 }
    requires holds { (holder.old.me.0.live ≡ true) × (holder.old.me.0.holds ≡ true) }
    requires lock { All (λ s. s.lock.table ≡ turns.now.table_id) (map S.seat others.items) }
    ensures { All (λ s. LeadsOn s.caller s.seen holder.old.me.0.seen) (map S.seat others.items) }
{
    while let Some(seated) = others.pop() {
        meet_one(turns, holder, seated.into_seat());
    }
}

// The holder meets another seat. It knows the whole history, so it learns nothing.
fn meet_one<T: Historied>(turns: &Turns<T>, holder: &mut Place<T>, seat: TurnSeat)
    requires table { holder.old.table_id ≡ turns.now.table_id }
    requires words { turns.now.table_id.words ≡ 2 }
    requires slots { turns.now.table_id.slots ≡ 1 }
    requires holds { (holder.old.me.0.live ≡ true) × (holder.old.me.0.holds ≡ true) }
    requires lock { seat.lock.table ≡ turns.now.table_id }
    ensures table { holder.new.table_id ≡ holder.old.table_id }
    ensures holds { (holder.new.me.0.live ≡ true) × (holder.new.me.0.holds ≡ true) }
    ensures same { holder.new.me.0.seen ≡ holder.old.me.0.seen }
    ensures leads { LeadsOn seat.caller seat.seen holder.old.me.0.seen }
{
    let mut other = stand_up(seat);
    meet(turns, holder, &mut other);
}
