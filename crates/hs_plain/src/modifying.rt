//! What modifying calls without snapshots ask for, or why they are refused.
ghost use Rattle.std.specs.Prelude.{◌≡◌, Ok, Err, MatchResult};
ghost use Rattle.std.specs.Option.{option_copied};
ghost use Rattle.hs_types.specs.Paths.{path_of};
ghost use Rattle.hs_plain.specs.Asked;
ghost use Rattle.hs_plain.specs.Tree;
ghost use Rattle.hs_plain.specs.State as states;
ghost use Rattle.hs_plain.specs.Modifying;
ghost use Rattle.hs_plain.specs.inside.Faults.{IsFaultOf};

use crate::resolve::{AskFault, file_in};
use crate::snapshots::{holds_snapshots, holds_snapshottable, is_in_snapshottable};
use crate::state::{Node, State};
use crate::tree::{child_count, is_above, is_root_path, node_at, walk, walks_above};
use hs_types::{List, Name, Path, PathFault, PathTail, PathText, Refusal, RelPath};
use std::alloc::Global;

/// Reads a text as a path.
pub fn read_path(alloc: Global, text: &PathText) -> Result<Path, AskFault>
    ensures { MatchResult result (λ path. path_of text.now ≡ Ok path) (IsFaultOf (path_of text.now)) }
{
    match Path::read(alloc, text) {
        Ok(path) => Ok(path),
        Err(PathFault::BadPath) => Err(AskFault::Refused(Refusal::BadPath)),
        Err(PathFault::TooLong) => Err(AskFault::Refused(Refusal::TooLong)),
        Err(PathFault::TooDeep) => Err(AskFault::Refused(Refusal::TooDeep)),
        Err(PathFault::NoMemory) => Err(AskFault::NoMemory),
    }
}

/// The names of the live path that a modifying call names.
pub fn plain_of(path: Path) -> Result<List<Name>, Refusal>
    ensures { result ≡ states.plain_of path }
{
    match path.tail {
        PathTail::Plain => Ok(path.base),
        PathTail::SnapshotList => Err(Refusal::Reserved),
        PathTail::Frozen { .. } => Err(Refusal::ReadOnly),
    }
}

/// Reads the text of a modifying call as a live path.
pub fn live_path(alloc: Global, text: &PathText) -> Result<List<Name>, AskFault>
    ensures { MatchResult result (λ path. Modifying.live_path text.now ≡ Ok path) (IsFaultOf (Modifying.live_path text.now)) }
{
    let path = read_path(alloc, text)?;
    Ok(plain_of(path)?)
}

/// Refuses where a test says so.
pub fn refuse_if(refused: bool, why: Refusal) -> Result<(), Refusal>
    ensures { result ≡ Asked.refuse_if refused why }
{
    if refused { Err(why) } else { Ok(()) }
}

/// The path at which a directory may be made.
pub fn mkdir_at<B>(alloc: Global, state: &State<B>, text: &PathText) -> Result<List<Name>, AskFault>
    ensures { MatchResult result (λ path. Modifying.mkdir_at state.now text.now ≡ Ok path) (IsFaultOf (Modifying.mkdir_at state.now text.now)) }
{
    let path = live_path(alloc, text)?;
    let tree = state.tree.items();
    walks_above(tree, path.items())?;
    let taken = node_at(tree, path.items()).is_some();
    refuse_if(taken, Refusal::Exists)?;
    Ok(path)
}

/// Whether a new file may stand where this node does, if one does.
fn takes_place_of<B>(over: bool, node: Option<&Node<B>>) -> Result<(), Refusal>
    ensures { result ≡ Modifying.takes_place_of over (option_copied node.entry) }
{
    match node {
        None => Ok(()),
        Some(_) if !over => Err(Refusal::Exists),
        Some(node) => refuse_if(node.is_dir(), Refusal::NotFile),
    }
}

/// The path at which a file may be made.
pub fn create_at<B>(
    alloc: Global,
    state: &State<B>,
    text: &PathText,
    over: bool,
) -> Result<List<Name>, AskFault>
    ensures { MatchResult result (λ path. Modifying.create_at state.now text.now over ≡ Ok path) (IsFaultOf (Modifying.create_at state.now text.now over)) }
{
    let path = live_path(alloc, text)?;
    let tree = state.tree.items();
    walks_above(tree, path.items())?;
    takes_place_of(over, node_at(tree, path.items()))?;
    Ok(path)
}

/// Whether a directory with children is to be deleted without them.
fn spares_children<B>(tree: &[(RelPath, Node<B>)], path: &[Name], recursive: bool) -> bool
    ensures { result ≡ Modifying.spares_children tree.now path.now recursive }
{
    !recursive && child_count(tree, path) > 0
}

/// The path of a node that may be deleted.
pub fn delete_at<B>(
    alloc: Global,
    state: &State<B>,
    text: &PathText,
    recursive: bool,
) -> Result<List<Name>, AskFault>
    ensures { MatchResult result (λ path. Modifying.delete_at state.now text.now recursive ≡ Ok path) (IsFaultOf (Modifying.delete_at state.now text.now recursive)) }
{
    let path = live_path(alloc, text)?;
    let tree = state.tree.items();
    walk(tree, path.items())?;
    refuse_if(is_root_path(path.items()), Refusal::IsRoot)?;
    let spares = spares_children(tree, path.items(), recursive);
    refuse_if(spares, Refusal::NotEmpty)?;
    let held = holds_snapshots(state, path.items());
    refuse_if(held, Refusal::HasSnapshots)?;
    Ok(path)
}

/// Of two refusals the one with the lesser number, and of one number the first.
pub fn first_of(a: Refusal, b: Refusal) -> Refusal
    ensures { result ≡ Asked.first_of a b }
{
    if b.number() < a.number() { b } else { a }
}

/// The live paths that two texts of a modifying call name.
pub fn live_paths(
    alloc: Global,
    old: &PathText,
    new: &PathText,
) -> Result<(List<Name>, List<Name>), AskFault>
    ensures { MatchResult result (λ paths. Asked.both (Modifying.live_path old.now) (Modifying.live_path new.now) ≡ Ok paths) (IsFaultOf (Asked.both (Modifying.live_path old.now) (Modifying.live_path new.now))) }
{
    match (live_path(alloc, old), live_path(alloc, new)) {
        (Ok(old), Ok(new)) => Ok((old, new)),
        (Err(AskFault::Refused(a)), Err(AskFault::Refused(b))) => {
            Err(AskFault::Refused(first_of(a, b)))
        }
        (Err(AskFault::Refused(why)), Ok(_)) | (Ok(_), Err(AskFault::Refused(why))) => {
            Err(AskFault::Refused(why))
        }
        (Err(AskFault::NoMemory), _) | (_, Err(AskFault::NoMemory)) => Err(AskFault::NoMemory),
    }
}

/// The node that is to move, where the parent of its new place is there too.
fn walk_both<'t, B>(
    tree: &'t [(RelPath, Node<B>)],
    old: &[Name],
    new: &[Name],
) -> Result<&'t Node<B>, Refusal>
    ensures { MatchResult result (λ node. Asked.both (Tree.walk tree.now old.now) (Tree.walks_above tree.now new.now) ≡ Ok (node.now, tt)) (λ why. Asked.both (Tree.walk tree.now old.now) (Tree.walks_above tree.now new.now) ≡ Err why) }
{
    match (walk(tree, old), walks_above(tree, new)) {
        (Ok(node), Ok(())) => Ok(node),
        (Ok(_), Err(why)) | (Err(why), Ok(())) => Err(why),
        (Err(a), Err(b)) => Err(first_of(a, b)),
    }
}

/// The paths from which and to which a node may move.
pub fn rename_at<B>(
    alloc: Global,
    state: &State<B>,
    old: &PathText,
    new: &PathText,
) -> Result<(List<Name>, List<Name>), AskFault>
    ensures { MatchResult result (λ paths. Modifying.rename_at state.now old.now new.now ≡ Ok paths) (IsFaultOf (Modifying.rename_at state.now old.now new.now)) }
{
    let paths = live_paths(alloc, old, new)?;
    may_move(state, paths.0.items(), paths.1.items())?;
    Ok(paths)
}

/// Whether a node may move from one path to another.
fn may_move<B>(state: &State<B>, old: &[Name], new: &[Name]) -> Result<(), Refusal>
    ensures { result ≡ Modifying.may_move state.now old.now new.now }
{
    let tree = state.tree.items();
    walk_both(tree, old, new)?;
    let taken = node_at(tree, new).is_some();
    refuse_if(taken, Refusal::Exists)?;
    refuse_if(is_root_path(old), Refusal::IsRoot)?;
    let held = holds_snapshots(state, old);
    refuse_if(held, Refusal::HasSnapshots)?;
    refuse_if(is_above(old, new), Refusal::IntoItself)?;
    let nested = would_nest(state, old, new);
    refuse_if(nested, Refusal::Nested)
}

/// Whether a move would put a snapshottable directory below another.
fn would_nest<B>(state: &State<B>, old: &[Name], new: &[Name]) -> bool
    ensures { result ≡ Modifying.would_nest state.now old.now new.now }
{
    holds_snapshottable(state, old) && is_in_snapshottable(state, new)
}

/// The path of a node that may get a mode.
pub fn set_mode_at<B>(
    alloc: Global,
    state: &State<B>,
    text: &PathText,
) -> Result<List<Name>, AskFault>
    ensures { MatchResult result (λ path. Modifying.set_mode_at state.now text.now ≡ Ok path) (IsFaultOf (Modifying.set_mode_at state.now text.now)) }
{
    let path = live_path(alloc, text)?;
    walk(state.tree.items(), path.items())?;
    Ok(path)
}

/// A file that gets bytes: its path, its node, and what stands for its bytes.
pub fn append_at<'s, B>(
    alloc: Global,
    state: &'s State<B>,
    text: &PathText,
) -> Result<(List<Name>, &'s Node<B>, &'s B), AskFault>
    ensures { MatchResult result (λ at. Modifying.append_at state.now text.now ≡ Ok (at.0, at.1.now, at.2.now)) (IsFaultOf (Modifying.append_at state.now text.now)) }
{
    let path = live_path(alloc, text)?;
    let node = walk(state.tree.items(), path.items())?;
    let file = file_in(&node.body)?;
    Ok((path, node, file))
}
