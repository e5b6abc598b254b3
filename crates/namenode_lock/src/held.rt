//! The namenode under the lock, and a call that is made alone with it.
use block_store::BlockStore;
use hs_types::{Answered, Call, CallerId};
use namenode_write::Namenode;
use turn_lock::{Historied, Work};

/// A namenode under a lock. Its journal is the history.
#[derive(Drop)]
pub struct Held<B: BlockStore> {
    pub(crate) node: Namenode<B>,
}

impl<B: BlockStore> Historied for Held<B> {
    ghost use Rattle.namenode_lock.specs.Held.{IsLawfulHistory, kept_of};

    ghost history = { λ h. h.node.entries };

    ghost kept = { λ h. kept_of B.blocks h.node };

    ghost lawful = { IsLawfulHistory };

    fn length(&self) -> u64 {
        let _ = self.node.journal();
        self.node.tick()
    }
}

/// An exclusive call: `call` is there before it is made, and `told` after it.
#[derive(Drop)]
pub(crate) struct Order {
    pub(crate) caller: CallerId,
    pub(crate) seq: u64,
    pub(crate) call: Option<Call>,
    pub(crate) told: Option<Answered>,
}

impl<B: BlockStore> Work<Held<B>> for Order {
    ghost use Rattle.namenode_lock.specs.Held.{IsReady, IsDone};

    ghost allows = { λ w h. IsReady w };

    ghost does = { λ w h v g. IsDone B.blocks B.greatest B.faults h.node g.node w v };

    fn work(&mut self, held: &mut Held<B>) {
        let call = self.call.take().unwrap();
        let told = held.node.do_call(self.caller, self.seq, call);
        let _ = held.node.journal();
        self.told = Some(told);
    }
}
