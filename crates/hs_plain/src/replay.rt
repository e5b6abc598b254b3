//! The state that a journal stands for.
ghost use Rattle.std.specs.Prelude.{◌≡◌, ◌+◌, ◌<◌, ◌≤◌, ◌^◌, Ok, Err, IfOk, OnOk, true};
ghost use Rattle.std.specs.FinMap.Entries.{is_sorted};
ghost use Rattle.hs_plain.specs.Tree.{path_cmp};
ghost use Rattle.hs_plain.specs.State as states;
ghost use Rattle.hs_plain.specs.Answer;
ghost use Rattle.hs_plain.specs.Files.{plain_files};
ghost use Rattle.hs_plain.specs.Change;
ghost use Rattle.hs_plain.specs.inside.Faults;
ghost use Rattle.hs_plain.specs.Replay.{plain_after};

use crate::answer::is_modifying;
use crate::change::make_plain_change;
use crate::resolve::AskFault;
use crate::state::{Body, Node, PlainState, State};
use hs_types::{Call, Entry, EntryKind, InodeId, List, Mode, NoMemory, Reply};
use std::alloc::Global;

/// The root alone.
pub fn start<B: Drop>(alloc: Global) -> Result<State<B>, NoMemory>
    ensures { IfOk result (λ state. state ≡ states.start) }
{
    let root = Node {
        id: InodeId::ROOT,
        mode: Mode::of_directory(),
        stamp: 0,
        body: Body::Dir,
    };
    let mut tree = Vec::new(alloc);
    tree.push((List::new(alloc), root))?;
    Ok(State {
        tree: List::of(tree),
        snapshottable: List::new(alloc),
        members: List::new(alloc),
        next_inode: 2,
        next_snapshot: 1,
        tick: 0,
    })
}

/// Whether a call was answered: a refusal is an answer too.
fn is_answered(made: Result<Reply, AskFault>) -> bool
    ensures { result ≡ Faults.is_answered made }
{
    match made {
        Ok(_) | Err(AskFault::Refused(_)) => true,
        Err(AskFault::NoMemory) => false,
    }
}

#[tactic(auto, using(crate::proofs::Refusals::answered_change))]
/// Makes a call's change, where it isn't refused. Without memory the state is of no use.
fn make_accepted(alloc: Global, state: &mut PlainState, call: &Call) -> Result<(), NoMemory>
    requires ticks { state.old.tick + 1 < 2 ^ 64 }
    requires inodes { state.old.next_inode + 1 < 2 ^ 64 }
    requires snapshots { state.old.next_snapshot + 1 < 2 ^ 64 }
    requires sorted { is_sorted path_cmp state.old.tree ≡ true }
    ensures changed { OnOk result (state.new ≡ Change.changed_if (Answer.is_modifying call.now) plain_files state.old call.now) }
    ensures inodes { OnOk result (state.new.next_inode ≤ state.old.next_inode + 1) }
    ensures snapshots { OnOk result (state.new.next_snapshot ≤ state.old.next_snapshot + 1) }
    ensures tick { OnOk result (state.new.tick ≡ state.old.tick) }
    ensures sorted { OnOk result (is_sorted path_cmp state.new.tree ≡ true) }
{
    if !is_modifying(call) {
        return Ok(());
    }
    if is_answered(make_plain_change(alloc, state, call)) {
        Ok(())
    } else {
        Err(NoMemory)
    }
}

/// Changes a state as an entry of the journal does. Without memory the state is of no use.
fn apply(alloc: Global, state: &mut PlainState, entry: &Entry) -> Result<(), NoMemory>
    requires ticks { state.old.tick + 1 < 2 ^ 64 }
    requires inodes { state.old.next_inode + 1 < 2 ^ 64 }
    requires snapshots { state.old.next_snapshot + 1 < 2 ^ 64 }
    requires sorted { is_sorted path_cmp state.old.tree ≡ true }
    ensures after { OnOk result (state.new ≡ Change.after plain_files state.old entry.now) }
    ensures inodes { OnOk result (state.new.next_inode ≤ state.old.next_inode + 1) }
    ensures snapshots { OnOk result (state.new.next_snapshot ≤ state.old.next_snapshot + 1) }
    ensures tick { OnOk result (state.new.tick ≡ state.old.tick + 1) }
    ensures sorted { OnOk result (is_sorted path_cmp state.new.tree ≡ true) }
{
    if entry.kind == EntryKind::Accepted {
        make_accepted(alloc, state, &entry.call)?;
    }
    state.tick += 1;
    Ok(())
}

/// The plain state after the entries of a journal, from the root alone.
pub fn replay(alloc: Global, entries: &List<Entry>) -> Result<PlainState, NoMemory>
    ensures { IfOk result (λ state. state ≡ plain_after entries.now) }
{
    let mut state = start(alloc)?;
    for entry in entries.items() {
        apply(alloc, &mut state, entry)?;
    }
    Ok(state)
}
