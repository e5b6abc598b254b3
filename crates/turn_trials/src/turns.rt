//! A ledger that seats add to by turns: what each call answers, and what it does beside other threads.
ghost use Rattle.std.specs.Prelude.{◌≡◌, ◌≤◌, ◌<◌, [], length, vec_len};
ghost use Rattle.turn_lock.specs.Histories.{AddsOnlyBy};
ghost use Rattle.turn_lock.specs.Seats.{AreInOrder};

use hs_types::{Call, CallerId, Entry, EntryKind, List, NoMemory, PathText};
use std::alloc::Global;
use std::sync::atomic::{AtomicBool, Ordering};
use std::sync::{Arc, Wait};
use std::test::Fail;
use std::thread;
use std::thread::Threads;
use turn_lock::{Historied, TurnLock, TurnSeat, Work};

/// Entries, at most as many as there are to be.
#[derive(Drop)]
struct Ledger {
    entries: Vec<Entry>,
    most: u64,
    ghost within: { vec_len entries ≤ most },
}

impl Historied for Ledger {
    ghost use Rattle.std.specs.Prelude.{◌≤◌, length, false};
    ghost use Rattle.turn_lock.specs.declared.historied.Kept.{Kept};

    ghost history = { λ l. l.entries.items };

    ghost kept = { λ l. record { limit = l.most; tells = false } };

    ghost lawful = { λ kept log. length log ≤ kept.limit };

    fn length(&self) -> u64 {
        self.entries.len() as u64
    }
}

impl Ledger {
    fn empty(alloc: Global, most: u64) -> Ledger
        ensures { (result.entries.items ≡ []) × (result.most ≡ most) }
    {
        Ledger {
            entries: Vec::new(alloc),
            most,
        }
    }

    fn add(&mut self, caller: u32, seq: u64) -> bool
        ensures most { self.new.most ≡ self.old.most }
        ensures adds { AddsOnlyBy caller self.old.entries.items self.new.entries.items }
    {
        if self.length() >= self.most {
            return false;
        }
        let alloc = *self.entries.allocator();
        let entry = Entry {
            caller: CallerId(caller),
            seq,
            kind: EntryKind::Accepted,
            call: Call::Mkdir {
                path: PathText::new(String::new(alloc)),
            },
        };
        self.entries.push(entry).is_ok()
    }

    /// The caller and the number of each entry.
    fn print(&self, out: &mut String) -> Result<(), NoMemory> {
        for entry in &self.entries {
            write!(out, "{}.{} ", entry.caller.0, entry.seq)?;
        }
        Ok(())
    }
}

/// Adds an entry where there is room for it.
#[derive(Drop)]
struct AddOne {
    caller: u32,
    seq: u64,
    added: bool,
}

impl Work<Ledger> for AddOne {
    ghost use Rattle.std.specs.Prelude.{◌≡◌};
    ghost use Rattle.turn_lock.specs.Histories.{AddsOnlyBy};

    ghost allows = { λ w l. Unit {0} };

    ghost does = { λ w l v m. (v.caller ≡ w.caller) × (m.most ≡ l.most) × AddsOnlyBy w.caller l.entries.items m.entries.items };

    fn work(&mut self, ledger: &mut Ledger) {
        self.added = ledger.add(self.caller, self.seq);
    }
}

// Adds an entry by the seat's caller, and says whether it did.
fn add<R: Wait>(rt: &R, lock: &TurnLock<Ledger>, seat: &mut TurnSeat, caller: u32, seq: u64) -> bool
    requires { (seat.old.lock ≡ lock.now) × (seat.old.caller ≡ caller) }
    ensures { (seat.new.lock ≡ lock.now) × (seat.new.caller ≡ caller) }
{
    let mut work = AddOne {
        caller,
        seq,
        added: false,
    };
    lock.change_alone(rt, seat, &mut work);
    work.added
}

// The entries that the seat then finds, or that there is no memory.
fn print_found<R: Wait>(
    rt: &R,
    lock: &TurnLock<Ledger>,
    seat: &mut TurnSeat,
    out: &mut String,
) -> Result<(), NoMemory>
    requires { seat.old.lock ≡ lock.now }
    ensures { (seat.new.lock ≡ lock.now) × (seat.new.caller ≡ seat.old.caller) }
{
    match lock.look(rt, seat) {
        Ok(ledger) => ledger.print(out),
        Err(want) => Ok(write!(out, "no memory at {}", want.length)?),
    }
}

/// A ledger under a lock with two seats.
#[derive(Drop)]
struct Round {
    lock: TurnLock<Ledger>,
    first: TurnSeat,
    second: TurnSeat,
    ghost two: { lock.seats ≡ 2 },
    ghost first_is: { (first.lock ≡ lock) × (first.caller ≡ 0) },
    ghost second_is: { (second.lock ≡ lock) × (second.caller ≡ 1) },
}

impl Round {
    fn begin(alloc: Global, most: u64) -> Result<Round, NoMemory> {
        let (lock, seats) = TurnLock::new(alloc, 2, Ledger::empty(alloc, most))?;
        let mut seats = seats.into_vec();
        let (Some(second), Some(first)) = (seats.pop(), seats.pop()) else {
            return Err(NoMemory);
        };
        Ok(Round {
            lock,
            first,
            second,
        })
    }

    fn add<R: Wait>(&mut self, rt: &R, caller: u64, seq: u64) -> bool {
        if caller == 0 {
            add(rt, &self.lock, &mut self.first, 0, seq)
        } else {
            add(rt, &self.lock, &mut self.second, 1, seq)
        }
    }

    fn look<R: Wait>(&mut self, rt: &R, caller: u64, out: &mut String) -> Result<(), NoMemory> {
        if caller == 0 {
            print_found(rt, &self.lock, &mut self.first, out)
        } else {
            print_found(rt, &self.lock, &mut self.second, out)
        }
    }

    fn copy<R: Wait>(&mut self, rt: &R) -> Option<Arc<Ledger>> {
        self.lock.look(rt, &mut self.first).ok()
    }

    fn meet(&mut self) {
        self.lock.meet(&mut self.first, &mut self.second);
    }

    fn end<R: Wait>(self, rt: &R, alloc: Global) -> Result<Ledger, NoMemory> {
        let mut seats = Vec::with_capacity(alloc, 2)?;
        let Round {
            lock,
            first,
            second,
        } = self;
        seats.push_reserved(first);
        seats.push_reserved(second);
        Ok(lock.finish(rt, List::of(seats)))
    }
}

fn number_of(word: Option<&str>) -> u64 {
    word.unwrap_or("").parse::<u64>().unwrap_or(0)
}

fn run<R: Wait>(
    rt: &R,
    round: &mut Round,
    command: &str,
    out: &mut String,
) -> Result<(), NoMemory> {
    let mut words = command.split(' ');
    let verb = words.next().unwrap_or("");
    let caller = number_of(words.next());
    let seq = number_of(words.next());
    match verb {
        "add" if round.add(rt, caller, seq) => out.push_str("added")?,
        "add" => out.push_str("full")?,
        "meet" => round.meet(),
        _ => round.look(rt, caller, out)?,
    }
    Ok(out.push_str("; ")?)
}

fn run_all<R: Wait>(
    rt: &R,
    alloc: Global,
    commands: &str,
    out: &mut String,
) -> Result<(), NoMemory> {
    let mut round = Round::begin(alloc, 3)?;
    for command in commands.split("; ") {
        run(rt, &mut round, command, out)?;
    }
    round.end(rt, alloc)?.print(out)
}

/// Each call in turn on one thread, and the entries that `finish` gives.
static ROWS: [(&str, &str); 2] = [
    (
        "look 0; add 0 7; look 1; meet; look 0; add 1 5; look 0; look 1",
        "; added; 0.7 ; ; 0.7 ; added; 0.7 1.5 ; 0.7 1.5 ; 0.7 1.5 ",
    ),
    (
        "meet; add 1 1; add 1 2; meet; add 0 1; add 0 2; meet; add 1 3; look 1",
        "; added; added; ; added; full; ; full; 1.1 1.2 0.1 ; 1.1 1.2 0.1 ",
    ),
];

#[test]
fn calls_in_turn(rt: HostRuntime) -> Result<(), Fail> {
    for (commands, text) in ROWS {
        let mut out = String::new(rt.alloc());
        run_all(&rt, rt.alloc(), commands, &mut out)?;
        assert_eq!(rt; out.as_str(), text, "{commands}");
    }
    Ok(())
}

// Keeps a copy until the other thread's call has begun, and for a while longer. Says so, and drops it.
fn keep_for_a_while(copy: Arc<Ledger>, begun: &AtomicBool, released: &AtomicBool) {
    for _ in 0..100_000_000 {
        if begun.load(Ordering::SeqCst) {
            break;
        }
    }
    for _ in 0..10_000 {
        thread::yield_now();
    }
    released.store(true, Ordering::SeqCst);
    drop(copy);
}

// Whether a change, or `finish`, came back only after the copy was released.
fn is_late<R: Wait>(
    rt: &R,
    alloc: Global,
    mut round: Round,
    ends: bool,
    begun: &AtomicBool,
    released: &AtomicBool,
) -> bool {
    begun.store(true, Ordering::SeqCst);
    if ends {
        return round.end(rt, alloc).is_ok() && released.load(Ordering::SeqCst);
    }
    round.add(rt, 1, 0) && released.load(Ordering::SeqCst)
}

fn waits_for_a_copy<R: Threads + Wait + Sync>(
    rt: &R,
    alloc: Global,
    ends: bool,
) -> Result<bool, NoMemory> {
    let mut round = Round::begin(alloc, 1)?;
    let Some(copy) = round.copy(rt) else {
        return Ok(false);
    };
    let (begun, released) = (AtomicBool::new(false), AtomicBool::new(false));
    let (_, late) = thread::join(
        rt,
        || keep_for_a_while(copy, &begun, &released),
        || is_late(rt, alloc, round, ends, &begun, &released),
    );
    Ok(late)
}

#[test]
fn a_change_and_finish_wait_for_a_copy(rt: HostRuntime) -> Result<(), Fail> {
    assert!(rt; waits_for_a_copy(&rt, rt.alloc(), false)?);
    assert!(rt; waits_for_a_copy(&rt, rt.alloc(), true)?);
    Ok(())
}

fn write_all<R: Wait>(rt: &R, lock: &TurnLock<Ledger>, seat: &mut TurnSeat, caller: u32, count: u64)
    requires { (seat.old.lock ≡ lock.now) × (seat.old.caller ≡ caller) }
    ensures { (seat.new.lock ≡ lock.now) × (seat.new.caller ≡ caller) }
{
    for seq in 0..count {
        add(rt, lock, seat, caller, seq);
    }
}

fn look_often<R: Wait>(rt: &R, lock: &TurnLock<Ledger>, seat: &mut TurnSeat, times: u64)
    requires { seat.old.lock ≡ lock.now }
    ensures { (seat.new.lock ≡ lock.now) × (seat.new.caller ≡ seat.old.caller) }
{
    for _ in 0..times {
        drop(lock.look(rt, seat));
    }
}

// The first four seats write, and the others read.
fn take_part<R: Wait>(rt: &R, lock: &TurnLock<Ledger>, seat: &mut TurnSeat, caller: u32)
    requires { (seat.old.lock ≡ lock.now) × (seat.old.caller ≡ caller) }
    ensures { (seat.new.lock ≡ lock.now) × (seat.new.caller ≡ caller) }
{
    if caller < 4 {
        write_all(rt, lock, seat, caller, 1_000);
    } else {
        look_often(rt, lock, seat, 1_000);
    }
}

// Each seat takes part in a thread of its own.
fn take_turns<R: Threads + Wait + Sync>(rt: &R, lock: &TurnLock<Ledger>, seats: &mut [TurnSeat])
    requires { AreInOrder lock.now seats.old × (lock.now.seats < 100) }
    ensures { AreInOrder lock.now seats.new }
{
    thread::for_each_mut(
        rt,
        seats,
        8,
        &|k: usize, seat: &mut TurnSeat|
            requires { (seat.old.lock ≡ lock.now) × (seat.old.caller ≡ k) × (k < 100) }
            ensures { (seat.new.lock ≡ lock.entry.now) × (seat.new.caller ≡ k) }
        { take_part(rt, lock, seat, k as u32) },
    );
}

fn run_eight<R: Threads + Wait + Sync>(rt: &R, alloc: Global) -> Result<Ledger, NoMemory> {
    let (lock, seats) = TurnLock::new(alloc, 8, Ledger::empty(alloc, 10_000))?;
    let mut seats = seats.into_vec();
    take_turns(rt, &lock, seats.as_mut_slice());
    Ok(lock.finish(rt, List::of(seats)))
}

// How many entries each caller has in its own order, counted from 0, where nothing else stands there.
fn counts(entries: &[Entry]) -> Option<[u64; 8]> {
    let mut next = [0; 8];
    for entry in entries {
        let at = next.get_mut(entry.caller.0 as usize)?;
        if *at != entry.seq {
            return None;
        }
        *at = entry.seq.checked_add(1)?;
    }
    Some(next)
}

#[test]
fn each_entry_stands_once_and_in_order(rt: HostRuntime) -> Result<(), Fail> {
    let ledger = run_eight(&rt, rt.alloc())?;
    assert_eq!(rt; ledger.length(), 4_000);
    assert_eq!(rt;
        counts(ledger.entries.as_slice()),
        Some([1_000, 1_000, 1_000, 1_000, 0, 0, 0, 0])
    );
    Ok(())
}

// Sets a flag while it has the value, and looks for the other reader's flag.
fn is_met_inside<R: Wait>(
    rt: &R,
    lock: &TurnLock<Ledger>,
    mut seat: TurnSeat,
    mine: &AtomicBool,
    other: &AtomicBool,
) -> bool
    requires { seat.lock ≡ lock.now }
{
    let Ok(ledger) = lock.look(rt, &mut seat) else {
        return false;
    };
    mine.store(true, Ordering::SeqCst);
    let mut met = false;
    for _ in 0..100_000_000 {
        if other.load(Ordering::SeqCst) {
            met = true;
            break;
        }
    }
    drop(ledger);
    met
}

fn run_two_readers<R: Threads + Wait + Sync>(
    rt: &R,
    alloc: Global,
) -> Result<(bool, bool), NoMemory> {
    let (lock, seats) = TurnLock::new(alloc, 2, Ledger::empty(alloc, 0))?;
    let mut seats = seats.into_vec();
    let (Some(second), Some(first)) = (seats.pop(), seats.pop()) else {
        return Ok((false, false));
    };
    let (one, two) = (AtomicBool::new(false), AtomicBool::new(false));
    let shared = &lock;
    Ok(thread::join(
        rt,
        || -> bool
            requires { first.lock ≡ shared.now }
        { is_met_inside(rt, shared, first, &one, &two) },
        || -> bool
            requires { second.lock ≡ shared.now }
        { is_met_inside(rt, shared, second, &two, &one) },
    ))
}

#[test]
fn two_readers_are_inside_at_once(rt: HostRuntime) -> Result<(), Fail> {
    assert_eq!(rt; run_two_readers(&rt, rt.alloc())?, (true, true));
    Ok(())
}
