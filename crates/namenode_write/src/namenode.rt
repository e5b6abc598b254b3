//! The namenode, and the calls that change it.
ghost use Rattle.std.specs.Prelude.{ℕ, ◌≡◌, ◌+◌, ◌*◌, ◌≤◌, ◌<◌, ◌++◌, true, false, [], ◌∷◌, length, None, Some, IfOk, IfSome, vec_len, vec_capacity};
ghost use Rattle.hs_plain.specs.Answer.{is_exclusive, is_modifying as is_plain_modifying, is_ok_reply as is_plain_ok_reply, is_store_fault as is_plain_store_fault};
ghost use Rattle.hs_plain.specs.Legal.{entry_of as plain_entry_of, leaves_entry as plain_leaves_entry};
ghost use Rattle.hs_plain.specs.Lines.{tree_lines as plain_tree_lines};
ghost use Rattle.hs_plain.specs.Replay.{plain_after, is_proper};
ghost use Rattle.inode_table.specs.Kept.{told};
ghost use Rattle.inode_table.specs.Totals.{counts_of as table_counts};
ghost use Rattle.inode_table.specs.Whole.{StandsForPlain};
ghost use Rattle.namenode_write.specs.Faulted.{fault_count};
ghost use Rattle.namenode_write.specs.Outcome.{IsOutcome, tick_of};
ghost use Rattle.namenode_write.specs.Rows.{held, value_of, IsStanding};
ghost use Rattle.namenode_write.specs.Step.{IsConsistent, IsStep, weight_of};

use crate::limit::JournalLimit;
use crate::rows::calls::make_call;
use crate::rows::lines;
use crate::rows::space::RowSpace;
use block_store::BlockStore;
use hs_plain::answer::{is_modifying, reply_of};
use hs_types::{
    Answered, Call, CallerId, Counts, Entry, EntryKind, List, NoMemory, Refusal, Reply, TreeLine,
};
use inode_table::Table;
use snapshot_manager::Snaps;
use std::alloc::Global;
use std::marker::Model;
use std::mem;

/// A namenode. Contracts see it as its journal, from which all its answers follow, with its limit, its store, the rows and snapshots
/// that stand for the plain state of the journal, and the blocks that wait to be freed.
#[derive(Drop)]
pub struct Namenode<B: BlockStore> {
    alloc: Global,
    space: RowSpace<B>,
    journal: List<Entry>,
}

impl<B: BlockStore> Model for Namenode<B> {
    ghost use Rattle.namenode_write.specs.NamenodeValue.{NamenodeValue};

    ghost Value = { NamenodeValue B };

    ghost use Rattle.namenode_write.specs.Rows.{value_of};
    ghost use Rattle.namenode_write.specs.Step.{IsConsistent};

    ghost view = { λ n. value_of n.space n.journal };

    ghost invariant = { λ n. IsConsistent B.blocks B.greatest B.faults n.space n.journal };
}

/// Whether a reply says that the store failed.
fn is_store_fault(reply: &Reply) -> bool
    ensures { result ≡ is_plain_store_fault reply.now }
{
    matches!(reply, Reply::Refused(Refusal::StoreFault))
}

/// Whether a reply says that the call was done.
fn is_ok_reply(reply: &Reply) -> bool
    ensures { result ≡ is_plain_ok_reply reply.now }
{
    !matches!(reply, Reply::Refused(_) | Reply::NoMemory)
}

/// Whether a call leaves an entry: a change that was accepted, or a fault of the store.
fn leaves_entry(call: &Call, reply: &Reply) -> bool
    ensures { result ≡ plain_leaves_entry call.now reply.now }
{
    is_store_fault(reply) || (is_modifying(call) && is_ok_reply(reply))
}

/// Enters a call in the journal.
fn entered(
    journal: &mut Vec<Entry>,
    caller: CallerId,
    seq: u64,
    call: Call,
    reply: Reply,
) -> Answered
    requires room { vec_len journal.old < vec_capacity journal.old }
    requires leaves { plain_leaves_entry call reply ≡ true }
    ensures appended { journal.new.items ≡ journal.old.items ++ plain_entry_of caller seq call reply ∷ [] }
    ensures place { result.position ≡ length journal.old.items }
    ensures reply { result.reply ≡ reply }
    ensures kept { result.back ≡ None }
{
    let position = journal.len() as u64;
    let kind = if is_store_fault(&reply) {
        EntryKind::Faulted
    } else {
        EntryKind::Accepted
    };
    let entry = Entry {
        caller,
        seq,
        kind,
        call,
    };
    journal.push_reserved(entry);
    Answered {
        reply,
        position,
        back: None,
    }
}

/// Hands back a call that leaves no entry.
fn handed_back(journal: &[Entry], call: Call, reply: Reply) -> Answered
    ensures place { result.position ≡ length journal.now }
    ensures reply { result.reply ≡ reply }
    ensures back { result.back ≡ Some call }
{
    Answered {
        reply,
        position: journal.len() as u64,
        back: Some(call),
    }
}

/// Makes a call and enters it in the journal, or hands it back.
fn do_in<B: BlockStore>(
    alloc: Global,
    space: &mut RowSpace<B>,
    caller: CallerId,
    seq: u64,
    call: Call,
) -> Answered
    requires exclusive { is_exclusive call ≡ true }
    requires consistent { IsConsistent B.blocks B.greatest B.faults space.old space.old.journal.items }
    ensures step { IsStep B.blocks B.greatest B.faults (value_of space.old space.old.journal.items) (value_of space.new space.new.journal.items) caller seq call result }
    ensures consistent { IsConsistent B.blocks B.greatest B.faults space.new space.new.journal.items }
{
    let reply = reply_of(make_call(alloc, space, &call));
    if !leaves_entry(&call, &reply) {
        return handed_back(space.journal.as_slice(), call, reply);
    }
    entered(&mut space.journal, caller, seq, call, reply)
}

impl<B: BlockStore> Namenode<B> {
    /// A namenode that holds the root alone, with an empty journal that may have so many entries, over a store without blocks.
    pub fn new(alloc: Global, store: B, limit: JournalLimit) -> Result<Namenode<B>, NoMemory>
        requires { IfSome (B.blocks store) (λ map. map ≡ []) }
        ensures entries { IfOk result (λ namenode. namenode.entries ≡ []) }
        ensures store { IfOk result (λ namenode. namenode.store ≡ store) }
        ensures limit { IfOk result (λ namenode. namenode.limit ≡ limit) }
        ensures waiting { IfOk result (λ namenode. namenode.waiting ≡ []) }
    {
        limit.always();
        Ok(Namenode {
            alloc,
            space: RowSpace {
                table: Table::new(alloc)?,
                snaps: Snaps::new(alloc),
                store,
                waiting: Vec::new(alloc),
                journal: Vec::new(alloc),
                limit,
            },
            journal: List::new(alloc),
        })
    }

    /// Answers an exclusive call, and enters it in the journal where it is accepted or meets a fault of the store. All tests come
    /// first, then the journal's limit, then all room, then the store, then the change: after a refusal but a fault of the store, and
    /// after `NoMemory`, the plain state is as before, and the call is handed back.
    pub fn do_call(&mut self, caller: CallerId, seq: u64, call: Call) -> Answered
        requires exclusive { is_exclusive call ≡ true }
        ensures { IsStep B.blocks B.greatest B.faults self.old self.new caller seq call result }
    {
        self.space.journal = self.journal.take();
        let answered = do_in(self.alloc, &mut self.space, caller, seq, call);
        let journal = mem::replace(&mut self.space.journal, Vec::new(self.alloc));
        self.journal = List::of(journal);
        answered
    }

    /// The rows of all inodes.
    pub fn table(&self) -> &Table
        ensures table { told result.now ≡ self.now.table }
        ensures stands { StandsForPlain self.now.table self.now.snaps (B.blocks self.now.store) (B.greatest self.now.store) self.now.waiting (plain_after self.now.entries) }
    {
        &self.space.table
    }

    /// The snapshots, in order of making.
    pub fn snaps(&self) -> &Snaps
        ensures { result.now ≡ self.now.snaps }
    {
        &self.space.snaps
    }

    /// The entries so far, the first first.
    pub fn journal(&self) -> &List<Entry>
        ensures entries { result.now ≡ self.now.entries }
        ensures proper { is_proper self.now.entries ≡ true }
        ensures within { length self.now.entries ≤ self.now.limit }
        ensures most { self.now.limit ≤ 1000000 }
    {
        &self.journal
    }

    /// How many entries the journal has.
    pub fn tick(&self) -> u64
        ensures { result ≡ length self.now.entries }
    {
        self.journal.len() as u64
    }

    /// How much the namenode holds; the blocks are those that states name and those that wait to be freed. Its weight, which is rows, records, entries of lists and snapshots together, is bounded by the
    /// number of its entries.
    pub fn counts(&self) -> Counts
        ensures rows { record { rows = result.rows; records = result.records; list_entries = result.list_entries } ≡ table_counts self.now.table.rows }
        ensures live { length (plain_after self.now.entries).tree ≤ result.rows }
        ensures snapshots { result.snapshots ≡ length (plain_after self.now.entries).members }

        // Without snapshots there are no records, and no rows but those of the live tree.
        ensures bare_records { (plain_after self.now.entries).members ≡ [] → result.records ≡ 0 }
        ensures bare_rows { (plain_after self.now.entries).members ≡ [] → result.rows ≡ length (plain_after self.now.entries).tree }

        ensures weight { result.rows + (result.records + result.list_entries) + result.snapshots ≡ weight_of self.now }
        ensures light { weight_of self.now ≤ 10 * length self.now.entries + 1 }
    {
        lines::counts_of(
            &self.space.table,
            &self.space.snaps,
            self.space.waiting.as_slice(),
        )
    }

    /// The live tree, a line for each node.
    pub fn tree_lines(&self) -> Result<List<TreeLine>, NoMemory>
        ensures { IfOk result (λ lines. lines ≡ plain_tree_lines (plain_after self.now.entries)) }
    {
        lines::tree_lines(self.alloc, &self.space.table)
    }

    /// Ends the namenode and gives its journal and its store.
    pub fn end(self) -> (List<Entry>, B)
        ensures entries { result.0 ≡ self.entries }
        ensures store { result.1 ≡ self.store }
        ensures proper { is_proper self.entries ≡ true }
        ensures within { length self.entries ≤ self.limit }
        ensures most { self.limit ≤ 1000000 }
        ensures counted { fault_count self.entries ≤ B.faults self.store }
    {
        let Namenode {
            alloc: _,
            space,
            journal,
        } = self;
        let RowSpace { store, .. } = space;
        (journal, store)
    }
}
