//! Which directories are snapshottable and which have snapshots, and where they stand.
ghost use Rattle.std.specs.Prelude.{◌≡◌, Ok, Err};
ghost use Rattle.hs_plain.specs.State as states;
ghost use Rattle.hs_plain.specs.Tree;

use crate::resolve::is_snapshottable;
use crate::state::{Member, Node, State};
use crate::tree::is_above;
use hs_types::{InodeId, Name, NameText, Refusal, RelPath, SnapId};

/// Whether a place is at a path or below it.
pub fn is_under<B>(path: &[Name], place: &(RelPath, Node<B>)) -> bool
    ensures { result ≡ Tree.is_under path.now place.now }
{
    place.0.items().starts_with(path)
}

/// Whether a directory has snapshots.
pub fn has_snapshots<B>(state: &State<B>, directory: InodeId) -> bool
    ensures { result ≡ states.has_snapshots state.now directory }
{
    state
        .members
        .items()
        .iter()
        .any(|member| member.directory == directory)
}

/// How many snapshots a directory has.
pub fn snapshots_of<B>(members: &[Member<B>], directory: InodeId) -> usize
    ensures { result ≡ states.snapshots_of members.now directory }
{
    members
        .iter()
        .filter(|member| member.directory == directory)
        .count()
}

/// Whether a directory with snapshots stands at a path or below it.
pub fn holds_snapshots<B>(state: &State<B>, path: &[Name]) -> bool
    ensures { result ≡ states.holds_snapshots state.now path.now }
{
    state.tree.items().iter().any(|place| has_snapshots(state, place.1.id) && is_under(path, place))
}

/// Whether a snapshottable directory stands at a path or below it.
pub fn holds_snapshottable<B>(state: &State<B>, path: &[Name]) -> bool
    ensures { result ≡ states.holds_snapshottable state.now path.now }
{
    state.tree.items().iter().any(|place| is_snapshottable(state, place.1.id)
        && is_under(path, place))
}

/// Whether a path lies below a snapshottable directory.
pub fn is_in_snapshottable<B>(state: &State<B>, path: &[Name]) -> bool
    ensures { result ≡ states.is_in_snapshottable state.now path.now }
{
    state.tree.items().iter().any(|place| is_snapshottable(state, place.1.id)
        && is_above(place.0.items(), path))
}

/// Whether a snapshottable directory stands above a path or below it.
pub fn meets_snapshottable<B>(state: &State<B>, path: &[Name]) -> bool
    ensures { result ≡ states.meets_snapshottable state.now path.now }
{
    state.tree.items().iter().any(|place| is_snapshottable(state, place.1.id)
        && (is_above(place.0.items(), path) || is_above(path, place.0.items())))
}

/// Whether a snapshot is of this directory and has this name.
fn is_named<B>(directory: InodeId, name: &NameText, member: &Member<B>) -> bool
    ensures { result ≡ states.is_named directory name.now member.now }
{
    member.directory == directory && member.name.text() == name.text()
}

/// Whether a directory has a snapshot of this name.
pub fn has_snapshot_named<B>(state: &State<B>, directory: InodeId, name: &NameText) -> bool
    ensures { result ≡ states.has_snapshot_named state.now directory name.now }
{
    state
        .members
        .items()
        .iter()
        .any(|member| is_named(directory, name, member))
}

/// The id of a directory's snapshot of this name.
pub fn snapshot_named<B>(
    members: &[Member<B>],
    directory: InodeId,
    name: &NameText,
) -> Result<SnapId, Refusal>
    ensures { result ≡ states.snapshot_named members.now directory name.now }
{
    for member in members {
        if is_named(directory, name, member) {
            return Ok(member.snapshot);
        }
    }
    Err(Refusal::NoSnapshot)
}
