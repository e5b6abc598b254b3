//! A namenode that several callers share.
ghost use Rattle.std.specs.Prelude.{◌≡◌, ◌≤◌, ◌<◌, true, [], is_some, length, IfOk, IfSome, All};
ghost use Rattle.hs_plain.specs.Answer.{is_shared, is_exclusive as is_plain_exclusive};
ghost use Rattle.hs_plain.specs.Replay.{is_proper};
ghost use Rattle.turn_lock.specs.Histories.{LeadsOn};
ghost use Rattle.turn_lock.specs.Seats.{AreAll, AreInOrder, EachIsSeen};
ghost use Rattle.page_join.specs.Links.{IsCall, IsMet, longer};
ghost use Rattle.namenode_lock.specs.Passes.{known, seats_of, IsNew};

use crate::held::{Held, Order};
use crate::node_link::ask;
use crate::pass::{Pass, passes_for};
use block_store::BlockStore;
use hs_io::Gate;
use hs_plain::answer::is_exclusive;
use hs_types::{Answered, Call, List, NoMemory, Reply};
use namenode_write::{JournalLimit, Namenode};
use std::alloc::Global;
use std::marker::Model;
use std::sync::Wait;
use turn_lock::TurnLock;

/// A namenode that several callers share. Contracts see it as its lock: how many callers it has, the limit of its journal, and
/// whether its store tells its bytes.
#[derive(Drop)]
pub struct Shared<B: BlockStore> {
    alloc: Global,
    lock: TurnLock<Held<B>>,
}

impl<B: BlockStore> Model for Shared<B> {
    ghost use Rattle.turn_lock.specs.Seats.{Lock};

    ghost Value = { Lock };

    ghost view = { λ s. s.lock };
}

impl<B: BlockStore> Shared<B> {
    /// A namenode that holds the root alone, over a store without blocks, and a pass for each of its callers. Pass k, counted
    /// from 0, has caller number k.
    pub fn start(
        alloc: Global,
        callers: u32,
        store: B,
        limit: JournalLimit,
    ) -> Result<(Shared<B>, List<Pass>), NoMemory>
        requires some { 0 < callers }
        requires empty { IfSome (B.blocks store) (λ map. map ≡ []) }
        ensures callers { IfOk result (λ made. made.0.seats ≡ callers) }
        ensures kept { IfOk result (λ made. made.0.kept ≡ record { limit = limit; tells = is_some (B.blocks store) }) }
        ensures order { IfOk result (λ made. AreInOrder made.0 (seats_of made.1)) }
        ensures fresh { IfOk result (λ made. All IsNew made.1) }
    {
        let _at_most = limit.entries();
        let node = Namenode::new(alloc, store, limit)?;
        let (lock, seats) = TurnLock::new(alloc, callers, Held { node })?;
        let passes = passes_for(alloc, seats)?;
        Ok((Shared { alloc, lock }, passes))
    }

    /// Makes a call of a pass's caller. One that changes something or uses the store is made alone with the namenode, as long as
    /// the turn is kept; another reads outside the turn and beside others.
    pub fn call<R: Wait, G: Gate>(&self, rt: &R, gate: &G, pass: &mut Pass, call: Call) -> Answered
        requires { pass.old.lock ≡ self.now }
        ensures lock { pass.new.lock ≡ pass.old.lock }
        ensures call { IsCall (known pass.old) (known pass.new) call result }
    {
        if is_exclusive(&call) {
            self.call_alone(rt, pass, call)
        } else {
            self.call_beside(rt, gate, pass, call)
        }
    }

    // Makes an exclusive call, alone with the namenode.
    fn call_alone<R: Wait>(&self, rt: &R, pass: &mut Pass, call: Call) -> Answered
        requires lock { pass.old.lock ≡ self.now }
        requires exclusive { is_plain_exclusive call ≡ true }
        ensures lock { pass.new.lock ≡ pass.old.lock }
        ensures call { IsCall (known pass.old) (known pass.new) call result }
    {
        let mut order = Order {
            caller: pass.caller(),
            seq: pass.count_call(),
            call: Some(call),
            told: None,
        };
        self.lock.change_alone(rt, &mut pass.seat, &mut order);
        order.told.unwrap()
    }

    // Answers a call that changes nothing, outside the turn.
    fn call_beside<R: Wait, G: Gate>(
        &self,
        rt: &R,
        gate: &G,
        pass: &mut Pass,
        call: Call,
    ) -> Answered
        requires lock { pass.old.lock ≡ self.now }
        requires shared { is_shared call ≡ true }
        ensures lock { pass.new.lock ≡ pass.old.lock }
        ensures call { IsCall (known pass.old) (known pass.new) call result }
    {
        pass.count_call();
        match self.lock.look(rt, &mut pass.seat) {
            Ok(held) => {
                gate.inside(pass.caller());
                ask(self.alloc, &held.node, call)
            }
            Err(want) => Answered {
                reply: Reply::NoMemory,
                position: want.length,
                back: Some(call),
            },
        }
    }

    /// Both passes then know one history, the longer of the two that they knew. It takes no memory and waits for nobody.
    pub fn meet(&self, a: &mut Pass, b: &mut Pass)
        requires first { a.old.lock ≡ self.now }
        requires second { b.old.lock ≡ self.now }
        ensures locks { (a.new.lock ≡ a.old.lock) × (b.new.lock ≡ b.old.lock) }
        ensures first { IsMet (known a.old) (known a.new) (longer a.old.seen b.old.seen) }
        ensures second { IsMet (known b.old) (known b.new) (longer a.old.seen b.old.seen) }
    {
        self.lock.meet(&mut a.seat, &mut b.seat)
    }

    /// Takes the namenode out, when every pass has come back. What each pass has seen begins the journal, and each entry is of a
    /// pass's caller and stands in what that pass has seen.
    pub fn finish<R: Wait>(self, rt: &R, passes: List<Pass>) -> Namenode<B>
        requires lock { All (λ s. s.lock ≡ self) (seats_of passes) }
        requires all { AreAll self (seats_of passes) }
        ensures kept { record { limit = result.limit; tells = is_some (B.blocks result.store) } ≡ self.kept }
        ensures proper { is_proper result.entries ≡ true }
        ensures within { length result.entries ≤ result.limit }
        ensures seen { All (λ s. LeadsOn s.caller s.seen result.entries) (seats_of passes) }
        ensures entries { EachIsSeen (seats_of passes) result.entries }
    {
        let Shared { lock, .. } = self;
        let Held { node } = lock.finish_seated(rt, passes);
        let _ = node.journal();
        node
    }
}
