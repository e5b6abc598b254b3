//! Where a path leads, and what stands there.
ghost use Rattle.std.specs.Prelude.{◌≡◌, ◌++◌, ◌≤◌, length, Ok, Err, IfOk, OnOk, OnErr, MatchResult};
ghost use Rattle.std.specs.List.{list_any, prefix_len};
ghost use Rattle.hs_plain.specs.inside.Faults.{IsFaultOf};
ghost use Rattle.hs_plain.specs.Tree;
ghost use Rattle.hs_plain.specs.State as states;
ghost use Rattle.hs_plain.specs.Modifying;
ghost use Rattle.hs_plain.specs.Reading;
ghost use Rattle.hs_plain.specs.declared.resolve.AskFault.TheVariants.{Refused as fault_refused, NoMemory as fault_no_memory};

use crate::state::{Body, Member, Node, State};
use crate::tree::{listing, node_at, place_of, walk};
use hs_types::{
    Duplicate, InodeId, Item, List, Name, NoMemory, Path, PathTail, Place, Refusal, RelPath, SnapId,
};
use std::alloc::Global;
use std::cmp::Ordering;

/// Why a call isn't answered with what it asks for.
#[derive(Clone, Copy, Debug, PartialEq, Eq)]
pub enum AskFault {
    /// The answer is this refusal.
    Refused(Refusal),
    /// Memory ran out before the answer was known.
    NoMemory,
}

impl From<Refusal> for AskFault {
    ghost from_gives = { λ why e. e ≡ fault_refused why };

    fn from(why: Refusal) -> AskFault {
        AskFault::Refused(why)
    }
}

impl From<NoMemory> for AskFault {
    ghost from_gives = { λ _ e. e ≡ fault_no_memory };

    fn from(_error: NoMemory) -> AskFault {
        AskFault::NoMemory
    }
}

/// Whether snapshots may be made in the directory with this id.
pub fn is_snapshottable<B>(state: &State<B>, directory: InodeId) -> bool
    ensures { result ≡ states.is_snapshottable state.now directory }
{
    state
        .snapshottable
        .items()
        .iter()
        .any(|id| directory == *id)
}

/// The snapshottable directory at a path; else nothing is found below its `.snapshot`.
fn snapshot_root<B>(state: &State<B>, base: &[Name]) -> Result<InodeId, Refusal>
    ensures { result ≡ states.snapshot_root state.now base.now }
{
    match node_at(state.tree.items(), base) {
        Some(node) if is_snapshottable(state, node.id) => Ok(node.id),
        _ => Err(Refusal::NotFound),
    }
}

/// The snapshot of a directory that has this name.
pub fn member_named<'m, B>(
    members: &'m [Member<B>],
    directory: InodeId,
    name: &Name,
) -> Result<&'m Member<B>, Refusal>
    ensures { MatchResult result (λ member. states.member_named members.now directory name.now ≡ Ok member.now) (λ why. states.member_named members.now directory name.now ≡ Err why) }
{
    for member in members {
        if member.directory == directory && member.name == *name {
            return Ok(member);
        }
    }
    Err(Refusal::NotFound)
}

/// The snapshot of a directory that has this id.
pub fn member_with<B>(members: &[Member<B>], snapshot: SnapId) -> Result<&Member<B>, Refusal>
    ensures { MatchResult result (λ member. states.member_with members.now snapshot ≡ Ok member.now) (λ why. states.member_with members.now snapshot ≡ Err why) }
{
    for member in members {
        if member.snapshot == snapshot {
            return Ok(member);
        }
    }
    Err(Refusal::NotFound)
}

/// Where a path leads: a node of the live tree, a list of snapshots, or a node of a copied tree.
pub fn resolve<B>(state: &State<B>, path: &Path) -> Result<Place, Refusal>
    ensures { result ≡ states.resolve state.now path.now }
{
    let base = path.base.items();
    match &path.tail {
        PathTail::Plain => Ok(Place::Live(walk(state.tree.items(), base)?.id)),
        PathTail::SnapshotList => Ok(Place::SnapshotsOf(snapshot_root(state, base)?)),
        PathTail::Frozen { snapshot, rest } => {
            let directory = snapshot_root(state, base)?;
            let member = member_named(state.members.items(), directory, snapshot)?;
            let node = walk(member.tree.items(), rest.items())?;
            Ok(Place::Frozen(node.id, member.snapshot))
        }
    }
}

/// The items of the directory with this id.
fn items_of<B>(
    alloc: Global,
    tree: &[(RelPath, Node<B>)],
    id: InodeId,
) -> Result<List<Item>, AskFault>
    ensures { MatchResult result (λ items. states.items_of tree.now (Tree.place_of tree.now id) ≡ Ok items) (IsFaultOf (states.items_of tree.now (Tree.place_of tree.now id))) }
{
    match place_of(tree, id) {
        None => Err(AskFault::Refused(Refusal::NotFound)),
        Some((path, node)) => {
            if node.is_dir() {
                Ok(listing(alloc, tree, path.items())?)
            } else {
                Err(AskFault::Refused(Refusal::NotDir))
            }
        }
    }
}

/// How many items at the front have a lesser name.
fn rank_of(items: &[Item], name: &Name) -> usize
    ensures rank { result ≡ prefix_len (states.is_lesser name.now) items.now }
    ensures within { result ≤ length items.now }
{
    for (rank, item) in items.iter().enumerate() {
        if name.cmp(&item.name) != Ordering::Greater {
            return rank;
        }
    }
    items.len()
}

#[tactic(auto, using(crate::proofs::Ranks::with_item_at))]
/// Puts an item in its place by name.
fn put_item(items: &mut Vec<Item>, item: Item) -> Result<(), NoMemory>
    ensures { OnOk result (items.new.items ≡ states.with_item item items.old.items) }
{
    let rank = rank_of(items.as_slice(), &item.name);
    items.insert(rank, item)?;
    Ok(())
}

/// The snapshots of a directory as items, in name order.
fn snapshot_items<B>(
    alloc: Global,
    members: &[Member<B>],
    directory: InodeId,
) -> Result<List<Item>, NoMemory>
    ensures { IfOk result (λ items. items ≡ states.snapshot_items members.now directory) }
{
    let mut items = Vec::new(alloc);
    for member in members.iter().rev() {
        if member.directory == directory {
            let name = member.name.copy()?;
            put_item(
                &mut items,
                Item {
                    name,
                    id: directory,
                    is_dir: true,
                },
            )?;
        }
    }
    Ok(List::of(items))
}

/// The items at a place, in name order.
pub fn items_at<B>(alloc: Global, state: &State<B>, place: Place) -> Result<List<Item>, AskFault>
    ensures { MatchResult result (λ items. states.items_at state.now place ≡ Ok items) (IsFaultOf (states.items_at state.now place)) }
{
    match place {
        Place::Live(id) => items_of(alloc, state.tree.items(), id),
        Place::Frozen(id, snapshot) => {
            let member = member_with(state.members.items(), snapshot)?;
            items_of(alloc, member.tree.items(), id)
        }
        Place::SnapshotsOf(directory) => {
            if !is_snapshottable(state, directory) {
                return Err(AskFault::Refused(Refusal::NotFound));
            }
            Ok(snapshot_items(alloc, state.members.items(), directory)?)
        }
    }
}

/// What stands for a file's bytes; a directory is no file.
pub fn file_in<B>(body: &Body<B>) -> Result<&B, Refusal>
    ensures { MatchResult result (λ file. Modifying.file_in body.now ≡ Ok file.now) (λ why. Modifying.file_in body.now ≡ Err why) }
{
    match body {
        Body::File(file) => Ok(file),
        Body::Dir => Err(Refusal::NotFile),
    }
}

/// The file with this id.
fn file_of<B>(tree: &[(RelPath, Node<B>)], id: InodeId) -> Result<&B, Refusal>
    ensures { MatchResult result (λ file. Reading.file_there (Tree.place_of tree.now id) ≡ Ok file.now) (λ why. Reading.file_there (Tree.place_of tree.now id) ≡ Err why) }
{
    match place_of(tree, id) {
        Some(place) => file_in(&place.1.body),
        None => Err(Refusal::NotFound),
    }
}

/// The file at a place; a list of snapshots is none.
pub fn file_at<B>(state: &State<B>, place: Place) -> Result<&B, Refusal>
    ensures { MatchResult result (λ file. Reading.file_at state.now place ≡ Ok file.now) (λ why. Reading.file_at state.now place ≡ Err why) }
{
    match place {
        Place::Live(id) => file_of(state.tree.items(), id),
        Place::Frozen(id, snapshot) => {
            let member = member_with(state.members.items(), snapshot)?;
            file_of(member.tree.items(), id)
        }
        Place::SnapshotsOf(directory) if is_snapshottable(state, directory) => {
            Err(Refusal::NotFile)
        }
        Place::SnapshotsOf(_) => Err(Refusal::NotFound),
    }
}

/// Whether a snapshot has this id.
fn is_live<B>(members: &[Member<B>], snapshot: SnapId) -> bool
    ensures { result ≡ Reading.is_live members.now snapshot }
{
    members.iter().any(|member| member.snapshot == snapshot)
}

/// Whether an id is neither that of a snapshot nor 0, the current state's.
pub fn is_deleted<B>(state: &State<B>, snapshot: SnapId) -> bool
    ensures { result ≡ Reading.is_deleted state.now snapshot }
{
    snapshot != SnapId(0) && !is_live(state.members.items(), snapshot)
}

/// Whether a place lies in a snapshot that isn't there any more.
pub fn is_gone<B>(state: &State<B>, place: Place) -> bool
    ensures { result ≡ Reading.is_gone state.now place }
{
    match place {
        Place::Live(_) | Place::SnapshotsOf(_) => false,
        Place::Frozen(_, snapshot) => is_deleted(state, snapshot),
    }
}
