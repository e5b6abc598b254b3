//! A link of one caller to a shared namenode.
ghost use Rattle.std.specs.Prelude.{◌≡◌};

use crate::pass::Pass;
use crate::shared::Shared;
use block_store::BlockStore;
use hs_io::Gate;
use hs_types::{Answered, Call, CallerId};
use page_join::NameLink;
use std::sync::Wait;

/// Leads one caller to a shared namenode. A call may wait for the turn.
#[derive(Drop)]
pub struct SharedLink<'a, R, B: BlockStore, G> {
    pub shared: &'a Shared<B>,
    pub rt: &'a R,
    pub gate: &'a G,
    pub pass: Pass,
    pub ghost of: { pass.lock ≡ shared.now },
}

impl<'a, R: Wait, B: BlockStore, G: Gate> NameLink for SharedLink<'a, R, B, G> {
    ghost use Rattle.std.specs.Prelude.{None, Some};
    ghost use Rattle.turn_lock.specs.Numbers.{number_of};
    ghost use Rattle.namenode_lock.specs.Passes.{known as known_by};

    ghost number = { λ l. Some (number_of l.pass.lock) };

    ghost alone = { λ l. None };

    ghost known = { λ l. known_by l.pass };

    ghost stays = { λ before after. Unit {0} };

    fn call(&mut self, call: Call) -> Answered {
        self.shared.call(self.rt, self.gate, &mut self.pass, call)
    }

    fn caller(&self) -> CallerId {
        self.pass.caller()
    }

    fn calls(&self) -> u64 {
        self.pass.calls()
    }

    ghost stays_first = { λ link. tt };

    ghost stays_then = { λ before now after one two. tt };
}
