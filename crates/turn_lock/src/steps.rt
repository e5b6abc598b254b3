//! The steps of a lock, each by a seat at its table.
ghost use Rattle.std.specs.Prelude.{◌≡◌, ℕ, ◌+◌, ◌<◌, [], ◌∷◌, true, false, None, MatchBool};
ghost use Rattle.std.specs.Arc.{arc_value};
ghost use Rattle.turn_lock.specs.Steps.{Finds, MayLeave, Holds, Learns, holding, given, informed};

use crate::historied::{Historied, Work};
use crate::table::{Give, Inform, Learn, Note, Place, Take, Turns};
use std::sync::{Arc, Wait};
use std::thread;
use std::time::Duration;

// How often a holder lets others run before it sleeps between two looks.
const YIELDS: u32 = 64;

// How often a holder looks whether it has the value alone, before it first lets others in. Each next time it looks twice
// as often.
const TRIES: u32 = 100;

// And at most so often.
const MOST_TRIES: u32 = 1_600;

// How many milliseconds it waits, so that they can enter.
const PAUSE: u64 = 1;

/// Takes the pointer out of its home, and sleeps until it is there.
pub(crate) fn take<T: Historied, R: Wait>(rt: &R, turns: &Turns<T>, place: &mut Place<T>) -> Arc<T>
    requires table { place.old.table_id ≡ turns.now.table_id }
    requires sized { (turns.now.table_id.words ≡ 2) × (turns.now.table_id.slots ≡ 1) }
    requires at_rest { (place.old.me.0.live ≡ true) × (place.old.me.1 ≡ []) }
    ensures table { place.new.table_id ≡ place.old.table_id }
    ensures kept { T.kept (arc_value result) ≡ place.old.me.0.kept }
    ensures finds { Finds place.old.me.0 (T.history (arc_value result)) }
    ensures holds { place.new.me ≡ (holding place.old.me.0 (T.history (arc_value result)), (0, None) ∷ []) }
{
    wait_for_turn(rt, turns, place);
    turns.exchange(place, 0, None).unwrap()
}

// Tries once, and then again and again. Between two tries the thread sleeps until the pointer was given back.
fn wait_for_turn<T: Historied, R: Wait>(rt: &R, turns: &Turns<T>, place: &mut Place<T>)
    requires table { place.old.table_id ≡ turns.now.table_id }
    requires sized { (turns.now.table_id.words ≡ 2) × (turns.now.table_id.slots ≡ 1) }
    requires at_rest { (place.old.me.0.live ≡ true) × (place.old.me.1 ≡ []) }
    ensures table { place.new.table_id ≡ place.old.table_id }
    ensures holds { Holds (λ a. T.history (arc_value a)) (λ a. T.kept (arc_value a)) place.old.me.0 place.new.me }
{
    if turns.compare_exchange::<Take<T>>(place, 0, 0, 1) == 0 {
        return;
    }
    for _ in rt.forever() {
        if turns.swap::<Take<T>>(place, 0, 2) == 0 {
            return;
        }
        turns.park(rt, 0, 2);
    }
    unreachable!()
}

/// Puts the pointer back, and wakes one who sleeps until it is there.
pub(crate) fn give_back<T: Historied>(turns: &Turns<T>, place: &mut Place<T>, value: Arc<T>)
    requires table { place.old.table_id ≡ turns.now.table_id }
    requires sized { (turns.now.table_id.words ≡ 2) × (turns.now.table_id.slots ≡ 1) }
    requires holds { (place.old.me.0.live ≡ true) × (place.old.me.0.holds ≡ true) × (place.old.me.1 ≡ (0, None) ∷ []) }
    requires kept { T.kept (arc_value value) ≡ place.old.me.0.kept }
    requires may { MayLeave place.old.me.0 (T.history (arc_value value)) }
    ensures table { place.new.table_id ≡ place.old.table_id }
    ensures given { place.new.me ≡ (given place.old.me.0 (T.history (arc_value value)), []) }
{
    drop(turns.exchange(place, 0, Some(value)));
    if turns.swap::<Give<T>>(place, 0, 0) == 2 {
        turns.wake_one(0);
    }
}

/// Both seats look at what the other has seen.
pub(crate) fn meet<T: Historied>(turns: &Turns<T>, a: &mut Place<T>, b: &mut Place<T>)
    requires tables { (a.old.table_id ≡ turns.now.table_id) × (b.old.table_id ≡ turns.now.table_id) }
    requires words { turns.now.table_id.words ≡ 2 }
    requires slots { turns.now.table_id.slots ≡ 1 }
    requires live { (a.old.me.0.live ≡ true) × (b.old.me.0.live ≡ true) }
    ensures tables { (a.new.table_id ≡ a.old.table_id) × (b.new.table_id ≡ b.old.table_id) }
    ensures first { Learns (informed a.old.me.0 b.old.me.0) a.new.me.0 × (a.new.me.1 ≡ a.old.me.1) }
    ensures second { Learns (informed b.old.me.0 a.old.me.0) b.new.me.0 × (b.new.me.1 ≡ b.old.me.1) }
{
    let from_a = turns.split_seat::<Note>(a);
    let from_b = turns.split_seat::<Note>(b);
    turns.join_seat::<Inform>(a, from_b);
    turns.join_seat::<Inform>(b, from_a);
    turns.load::<Learn>(a, 0);
    turns.load::<Learn>(b, 0);
}

// Calls the work where nobody else has the value, and says whether it did.
fn try_work<T, W: Work<T>>(value: &mut Arc<T>, work: &mut W) -> bool
    requires { W.allows work.old (arc_value value.old) }
    ensures { MatchBool result (W.does work.old (arc_value value.old) work.new (arc_value value.new)) ((arc_value value.new ≡ arc_value value.old) × (work.new ≡ work.old)) }
{
    match Arc::get_mut(value) {
        Some(alone) => {
            work.work(alone);
            true
        }
        None => false,
    }
}

// Calls the work once where nobody else has the value within some tries, and says whether it did.
fn work_soon<T: Historied, W: Work<T>, R: Wait>(
    rt: &R,
    turns: &Turns<T>,
    value: &mut Arc<T>,
    work: &mut W,
    tries: u32,
) -> bool
    requires words { turns.now.table_id.words ≡ 2 }
    requires allowed { W.allows work.old (arc_value value.old) }
    ensures { MatchBool result (W.does work.old (arc_value value.old) work.new (arc_value value.new)) ((arc_value value.new ≡ arc_value value.old) × (work.new ≡ work.old)) }
{
    for tried in 0..tries {
        if try_work(value, work) {
            return true;
        }
        ease(rt, turns, tried);
    }
    false
}

/// Takes the pointer, calls the work once on the value when nobody else has it, and gives the pointer back. Where
/// another has the value for long, it gives the pointer back, lets others in for a while, and tries again.
pub(crate) fn work_in_turn<T: Historied, W: Work<T>, R: Wait>(
    rt: &R,
    turns: &Turns<T>,
    place: &mut Place<T>,
    work: &mut W,
)
    requires table { place.old.table_id ≡ turns.now.table_id }
    requires sized { (turns.now.table_id.words ≡ 2) × (turns.now.table_id.slots ≡ 1) }
    requires at_rest { (place.old.me.0.live ≡ true) × (place.old.me.1 ≡ []) }
    requires allowed { (x : T) → T.kept x ≡ place.old.me.0.kept → Finds place.old.me.0 (T.history x) → W.allows work.old x }
    requires leaves { (x : T) (w : W) (y : T) → T.kept x ≡ place.old.me.0.kept → Finds place.old.me.0 (T.history x) → W.does work.old x w y → (T.kept y ≡ T.kept x) × MayLeave (holding place.old.me.0 (T.history x)) (T.history y) }
    ensures table { place.new.table_id ≡ place.old.table_id }
    ensures worked { (x : T) × (y : T) × (T.kept x ≡ place.old.me.0.kept) × Finds place.old.me.0 (T.history x) × W.does work.old x work.new y × (place.new.me ≡ (given place.old.me.0 (T.history y), [])) }
{
    let mut tries = TRIES;
    for _ in rt.forever() {
        let mut value = take(rt, turns, place);
        let worked = work_soon(rt, turns, &mut value, work, tries);
        give_back(turns, place, value);
        if worked {
            return;
        }
        turns.park_timeout(rt, 1, 0, Duration::from_millis(PAUSE));
        tries = tries.saturating_mul(2).min(MOST_TRIES);
    }
    unreachable!()
}

/// Waits until nobody else has the value, and takes it out.
pub(crate) fn unwrap_alone<T: Historied, R: Wait>(rt: &R, turns: &Turns<T>, mut value: Arc<T>) -> T
    requires words { turns.now.table_id.words ≡ 2 }
    ensures { result ≡ arc_value value }
{
    let mut tried = 0;
    for _ in rt.forever() {
        match Arc::try_unwrap(value) {
            Ok(alone) => return alone,
            Err(shared) => value = shared,
        }
        tried = ease(rt, turns, tried);
    }
    unreachable!()
}

// Lets others run, and sleeps for a while after some tries. Answers how many there were.
fn ease<T: Historied, R: Wait>(rt: &R, turns: &Turns<T>, tried: u32) -> u32
    requires { turns.now.table_id.words ≡ 2 }
{
    if tried < YIELDS {
        thread::yield_now();
        return tried + 1;
    }
    turns.park_timeout(rt, 1, 0, Duration::from_micros(50));
    tried
}
