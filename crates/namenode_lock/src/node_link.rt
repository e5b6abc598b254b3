//! A link that has its namenode alone.
ghost use Rattle.std.specs.Prelude.{◌≡◌, ℕ, Bool, false, true, length};
ghost use Rattle.hs_plain.specs.Answer.{is_shared};
ghost use Rattle.hs_plain.specs.Legal.{IsLegalCall, leaves_entry, number_rises};
ghost use Rattle.page_join.specs.Links.{IsCall, IsLawful, next_number as plain_next_number};
ghost use Rattle.namenode_lock.specs.NodeLinks.{known_of, IsNodeCall, StaysAlone};

use block_store::BlockStore;
use hs_plain::answer::is_exclusive;
use hs_types::{Answered, Call, CallerId};
use namenode_write::Namenode;
use page_join::NameLink;
use std::alloc::Global;

/// Leads one caller to a namenode that nobody else reaches meanwhile: each call is answered at the end of the journal.
#[derive(Drop)]
pub struct NodeLink<'a, B: BlockStore> {
    pub alloc: Global,
    pub node: &'a mut Namenode<B>,
    pub caller: CallerId,
    /// The number of the last call.
    pub seq: u64,
}

/// Answers a call that changes nothing and uses no store, and hands it back.
pub(crate) fn ask<B: BlockStore>(alloc: Global, node: &Namenode<B>, call: Call) -> Answered
    requires shared { is_shared call ≡ true }
    ensures legal { (tells : Bool) (limit : ℕ) (caller : CallerId) (seq : ℕ) → IsLegalCall tells limit node.now.entries caller seq call result }
    ensures place { result.position ≡ length node.now.entries }
    ensures none { leaves_entry call result.reply ≡ false }
{
    let position = node.tick();
    Answered {
        reply: namenode_read::ask(alloc, node.table(), node.snaps(), position, &call),
        position,
        back: Some(call),
    }
}

/// Makes a call, whichever kind it is.
fn make_call<B: BlockStore>(
    alloc: Global,
    node: &mut Namenode<B>,
    caller: CallerId,
    seq: u64,
    call: Call,
) -> Answered
    ensures { IsNodeCall B.blocks B.faults node.old node.new caller seq call result }
{
    if is_exclusive(&call) {
        node.do_call(caller, seq, call)
    } else {
        ask(alloc, node, call)
    }
}

/// What a namenode has is a journal that it may have.
fn see<B: BlockStore>(node: &Namenode<B>, caller: CallerId, seq: u64)
    ensures { IsLawful (known_of B.blocks caller seq node.now) }
{
    let _ = node.journal();
}

/// The number of the next call.
fn next_number(calls: u64) -> u64
    ensures next { result ≡ plain_next_number calls }
    ensures rises { number_rises calls result ≡ true }
{
    calls.saturating_add(1)
}

/// Makes a call, with what the link then knows.
fn call_node<B: BlockStore>(
    alloc: Global,
    node: &mut Namenode<B>,
    caller: CallerId,
    seq: &mut u64,
    call: Call,
) -> Answered
    ensures call { IsCall (known_of B.blocks caller seq.old node.old) (known_of B.blocks caller seq.new node.new) call result }
    ensures stays { StaysAlone B.faults caller caller node.old node.new }
{
    *seq = next_number(*seq);
    let answered = make_call(alloc, node, caller, *seq, call);
    see(node, caller, *seq);
    answered
}

impl<'a, B: BlockStore> NameLink for NodeLink<'a, B> {
    ghost use Rattle.std.specs.Prelude.{None, Some};
    ghost use Rattle.namenode_lock.specs.NodeLinks.{known_of, StaysAlone};
    ghost use Rattle.namenode_lock.specs.StaysLaws.{stays_first, stays_then};

    ghost number = { λ l. None };

    ghost alone = { λ l. Some l.node.ghost_name };

    ghost known = { λ l. known_of B.blocks l.caller l.seq l.node.now };

    ghost stays = { λ before after. StaysAlone B.faults before.caller after.caller before.node.now after.node.now };

    fn call(&mut self, call: Call) -> Answered {
        call_node(self.alloc, self.node, self.caller, &mut self.seq, call)
    }

    fn caller(&self) -> CallerId {
        see(self.node, self.caller, self.seq);
        self.caller
    }

    fn calls(&self) -> u64 {
        see(self.node, self.caller, self.seq);
        self.seq
    }

    ghost stays_first = { λ link. stays_first B.faults link.caller link.node.now };

    ghost stays_then = { λ before now after. stays_then B.faults before.caller now.caller after.caller before.node.now now.node.now after.node.now };
}
