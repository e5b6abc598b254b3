//! What modifying calls change.
ghost use Rattle.std.specs.Prelude.{◌≡◌, ◌+◌, ◌<◌, ◌≤◌, ◌^◌, ◌++◌, [], Ok, Err, IfOk, IfErr, OnOk, OnErr, MatchResult, Some, None, true, false, not, map, length, take, drop, slice_get, vec_len, vec_capacity};
ghost use Rattle.std.specs.List.{prefix_len, zip};
ghost use Rattle.std.specs.FinMap.Entries.{put, is_sorted};
ghost use Rattle.hs_types.specs.declared.call.Call.TheVariants as calls;
ghost use Rattle.hs_plain.specs.inside.Faults.{IsFaultOf};
ghost use Rattle.hs_plain.specs.Tree as trees;
ghost use Rattle.hs_plain.specs.inside.Ranks;
ghost use Rattle.hs_plain.specs.State.{new_dir};
ghost use Rattle.hs_plain.specs.Files.{plain_files};
ghost use Rattle.hs_plain.specs.Answer.{asked, made_reply, is_modifying, uses_store};
ghost use Rattle.hs_plain.specs.Change;

use crate::answer::{append_at, create_at, delete_at, mkdir_at, rename_at, set_mode_at};
use crate::files::FileBody;
use crate::resolve::AskFault;
use crate::snapshot_change::{allow, disallow, snap, snap_del, snap_ren};
use crate::snapshots::is_under;
use crate::state::{Body, Bytes, Node, PlainState, State, Tree};
use crate::tree::{compare_paths, place_of};
use hs_types::{
    Call, Chunk, Duplicate, InodeId, List, Mode, Name, NoMemory, PathText, RelPath, Reply,
};
use std::alloc::Global;
use std::cmp::Ordering;

/// The directory above a path.
pub fn parent_of(path: &[Name]) -> &[Name]
    ensures { result.now ≡ trees.parent_of path.now }
{
    &path[..path.len().saturating_sub(1)]
}

/// Gives the node a new stamp, where it stands at this path.
fn restamp<B>(place: &mut (RelPath, Node<B>), path: &[Name], tick: u64)
    ensures { place.new ≡ Change.restamp path.now tick place.old }
{
    if path == place.0.items() {
        place.1.stamp = tick;
    }
}

fn restamp_all<B>(places: &mut Vec<(RelPath, Node<B>)>, path: &[Name], tick: u64)
    ensures items { places.new.items ≡ Change.stamped places.old.items path.now tick }
    ensures len { vec_len places.new ≡ vec_len places.old }
    ensures room { vec_capacity places.new ≡ vec_capacity places.old }
{
    for place in places.iter_mut() {
        restamp(place, path, tick);
    }
}

/// Gives the node a mode and a new stamp, where it stands at this path.
fn remode<B>(place: &mut (RelPath, Node<B>), path: &[Name], mode: Mode, tick: u64)
    ensures { place.new ≡ Change.remode path.now mode tick place.old }
{
    if path == place.0.items() {
        place.1.mode = mode;
        place.1.stamp = tick;
    }
}

fn remode_all<B>(places: &mut Vec<(RelPath, Node<B>)>, path: &[Name], mode: Mode, tick: u64)
    ensures { places.new.items ≡ Change.moded places.old.items path.now mode tick }
{
    for place in places.iter_mut() {
        remode(place, path, mode, tick);
    }
}

/// How many places at the front stand before a path, by halves.
fn rank_by_halves<B>(places: &[(RelPath, Node<B>)], path: &[Name]) -> usize
    requires { is_sorted trees.path_cmp places.now ≡ true }
    ensures rank { result ≡ prefix_len (Ranks.is_after path.now) places.now }
    ensures within { result ≤ length places.now }
{
    places.partition_point(|place| compare_paths(path, place.0.items()) == Ordering::Greater)
}

/// Whether a path comes behind all places.
fn comes_last<B>(places: &[(RelPath, Node<B>)], path: &[Name]) -> bool
    requires { is_sorted trees.path_cmp places.now ≡ true }
    ensures { result ≡ true → length places.now ≡ prefix_len (Ranks.is_after path.now) places.now }
{
    match places.len().checked_sub(1) {
        Some(last) => compare_paths(path, places[last].0.items()) == Ordering::Greater,
        None => true,
    }
}

/// How many places at the front stand before a path: all of them, where places come in order.
pub fn rank_of<B>(places: &[(RelPath, Node<B>)], path: &[Name]) -> usize
    requires { is_sorted trees.path_cmp places.now ≡ true }
    ensures rank { result ≡ prefix_len (Ranks.is_after path.now) places.now }
    ensures within { result ≤ length places.now }
{
    if comes_last(places, path) {
        places.len()
    } else {
        rank_by_halves(places, path)
    }
}

/// Whether the place with this number is at a path.
fn is_place_at<B>(places: &[(RelPath, Node<B>)], rank: usize, path: &[Name]) -> bool
    ensures { result ≡ Ranks.is_place_at path.now (slice_get places.now rank) }
{
    match places.get(rank) {
        Some(place) => compare_paths(path, place.0.items()) == Ordering::Equal,
        None => false,
    }
}

/// Puts a node at a path, in the place of one that is there. There is room for one more.
fn put_place<B: Drop>(places: &mut Vec<(RelPath, Node<B>)>, path: List<Name>, node: Node<B>)
    requires room { vec_len places.old < vec_capacity places.old }
    requires sorted { is_sorted trees.path_cmp places.old.items ≡ true }
    ensures items { places.new.items ≡ put trees.path_cmp path node places.old.items }
    ensures len { vec_len places.new ≤ vec_len places.old + 1 }
    ensures room { vec_capacity places.new ≡ vec_capacity places.old }
{
    let rank = rank_of(places.as_slice(), path.items());
    if is_place_at(places.as_slice(), rank, path.items()) {
        places[rank].1 = node;
    } else {
        places.insert(rank, (path, node)).unwrap();
    }
}

/// Puts a node at a path, and stamps the directory above it.
fn grow<B: Drop>(
    tree: &mut Tree<B>,
    path: List<Name>,
    node: Node<B>,
    tick: u64,
) -> Result<(), NoMemory>
    requires { is_sorted trees.path_cmp tree.old ≡ true }
    ensures ok { OnOk result (tree.new ≡ put trees.path_cmp path node (Change.stamped tree.old (trees.parent_of path) tick)) }
    ensures err { OnErr result (tree.new ≡ tree.old) }
{
    let mut places = tree.take();
    let reserved = places.reserve(1);
    if reserved.is_ok() {
        restamp_all(&mut places, parent_of(path.items()), tick);
        put_place(&mut places, path, node);
    }
    *tree = List::of(places);
    Ok(reserved?)
}

/// Adds a new node at a path. Without memory the state is as before.
fn add_node<B: Drop>(state: &mut State<B>, path: List<Name>, node: Node<B>) -> Result<(), NoMemory>
    requires ticks { state.old.tick + 1 < 2 ^ 64 }
    requires inodes { state.old.next_inode + 1 < 2 ^ 64 }
    requires sorted { is_sorted trees.path_cmp state.old.tree ≡ true }
    ensures ok { OnOk result (state.new ≡ Change.with_node state.old path node) }
    ensures err { OnErr result (state.new ≡ state.old) }
{
    grow(&mut state.tree, path, node, state.tick + 1)?;
    state.next_inode += 1;
    Ok(())
}

/// Takes out what is at a path or below it.
fn cut<B: Drop>(places: &mut Vec<(RelPath, Node<B>)>, path: &[Name])
    ensures { places.new.items ≡ Change.without places.old.items path.now }
{
    places.retain(|place| !is_under(path, place));
}

/// The ids that are still in a tree.
fn keep_ids<B>(ids: &mut Vec<InodeId>, tree: &[(RelPath, Node<B>)])
    ensures { ids.new.items ≡ Change.still_in tree.now ids.old.items }
{
    ids.retain(|id| place_of(tree, *id).is_some());
}

/// Removes what is at a path or below it.
pub fn remove_node<B: Drop>(state: &mut State<B>, path: &[Name])
    requires ticks { state.old.tick + 1 < 2 ^ 64 }
    ensures { state.new ≡ Change.removed state.old path.now }
{
    let mut places = state.tree.take();
    let mut ids = state.snapshottable.take();
    cut(&mut places, path);
    keep_ids(&mut ids, places.as_slice());
    restamp_all(&mut places, parent_of(path), state.tick + 1);
    state.tree = List::of(places);
    state.snapshottable = List::of(ids);
}

/// Gives the node at a path a mode.
fn set_mode<B: Drop>(state: &mut State<B>, path: &[Name], mode: Mode)
    requires ticks { state.old.tick + 1 < 2 ^ 64 }
    ensures { state.new ≡ Change.with_mode state.old mode path.now }
{
    let mut places = state.tree.take();
    remode_all(&mut places, path, mode, state.tick + 1);
    state.tree = List::of(places);
}

/// The path of a place under a path that becomes another.
fn new_path<B>(
    alloc: Global,
    place: &(RelPath, Node<B>),
    old: &[Name],
    new: &[Name],
) -> Result<Option<RelPath>, NoMemory>
    ensures { IfOk result (λ path. path ≡ Change.new_path old.now new.now place.now) }
{
    if !is_under(old, place) {
        return Ok(None);
    }
    let below = &place.0.items()[old.len()..];
    let room = new.len().checked_add(below.len()).ok_or(NoMemory)?;
    let mut path = Vec::with_capacity(alloc, room)?;
    push_names(&mut path, new)?;
    push_names(&mut path, below)?;
    Ok(Some(List::of(path)))
}

/// Copies names to the end of a path.
pub fn push_names(path: &mut Vec<Name>, names: &[Name]) -> Result<(), NoMemory>
    ensures { OnOk result (path.new.items ≡ path.old.items ++ names.now) }
{
    for name in names {
        path.push(name.copy()?)?;
    }
    Ok(())
}

/// The new paths of all places, of those that get one.
fn new_paths<B>(
    alloc: Global,
    places: &[(RelPath, Node<B>)],
    old: &[Name],
    new: &[Name],
) -> Result<Vec<Option<RelPath>>, NoMemory>
    ensures { IfOk result (λ paths. paths.items ≡ map (Change.new_path old.now new.now) places.now) }
{
    let mut paths = Vec::with_capacity(alloc, places.len())?;
    for place in places {
        paths.push(new_path(alloc, place, old, new)?)?;
    }
    Ok(paths)
}

/// Puts these places in the order of paths, behind those that are there. There is room for all.
fn put_all<B: Drop>(
    sorted: &mut Vec<(RelPath, Node<B>)>,
    places: Vec<(RelPath, Node<B>)>,
    paths: Vec<Option<RelPath>>,
)
    requires paths { length paths.items ≡ length places.items }
    requires room { vec_len sorted.old + vec_len places ≤ vec_capacity sorted.old }
    requires sorted { is_sorted trees.path_cmp sorted.old.items ≡ true }
    ensures { sorted.new.items ≡ Change.put_all sorted.old.items (map (λ pair. Change.at_new pair.0 pair.1) (zip places.items paths.items)) }
{
    for ((path, node), new_path) in places.into_iter().zip(paths) {
        put_place(sorted, new_path.unwrap_or(path), node);
    }
}

#[tactic(auto, using(crate::proofs::Moves::repathed))]
/// Moves what is at a path or below it. Without memory the state is as before.
fn move_node<B: Drop>(
    alloc: Global,
    state: &mut State<B>,
    old: &[Name],
    new: &[Name],
) -> Result<(), NoMemory>
    requires ticks { state.old.tick + 1 < 2 ^ 64 }
    ensures ok { OnOk result (state.new ≡ Change.renamed state.old (old.now, new.now)) }
    ensures err { OnErr result (state.new ≡ state.old) }
{
    let paths = new_paths(alloc, state.tree.items(), old, new)?;
    let mut sorted = Vec::with_capacity(alloc, state.tree.len())?;
    put_all(&mut sorted, state.tree.take(), paths);
    let tick = state.tick + 1;
    restamp_all(&mut sorted, parent_of(old), tick);
    restamp_all(&mut sorted, parent_of(new), tick);
    state.tree = List::of(sorted);
    Ok(())
}

fn make_dir<B: FileBody>(
    alloc: Global,
    state: &mut State<B>,
    path: &PathText,
) -> Result<Reply, AskFault>
    requires ticks { state.old.tick + 1 < 2 ^ 64 }
    requires inodes { state.old.next_inode + 1 < 2 ^ 64 }
    requires sorted { is_sorted trees.path_cmp state.old.tree ≡ true }
    ensures reply { IfOk result (λ reply. asked B.files state.old (calls.Mkdir path.now) ≡ Ok reply) }
    ensures fault { IfErr result (IsFaultOf (asked B.files state.old (calls.Mkdir path.now))) }
    ensures ok { OnOk result (state.new ≡ Change.change B.files state.old (calls.Mkdir path.now)) }
    ensures snapshots { state.new.next_snapshot ≡ state.old.next_snapshot }
    ensures err { OnErr result (state.new ≡ state.old) }
{
    let path = mkdir_at(alloc, state, path)?;
    let id = InodeId(state.next_inode);
    let node = Node {
        id,
        mode: Mode::of_directory(),
        stamp: state.tick + 1,
        body: Body::Dir,
    };
    add_node(state, path, node)?;
    Ok(Reply::Made { id })
}

/// Makes an empty file at a path at which one may be made, also over another. Without memory the state is as before.
pub fn put_file<B: FileBody>(
    alloc: Global,
    state: &mut State<B>,
    path: List<Name>,
) -> Result<Reply, NoMemory>
    requires ticks { state.old.tick + 1 < 2 ^ 64 }
    requires inodes { state.old.next_inode + 1 < 2 ^ 64 }
    requires sorted { is_sorted trees.path_cmp state.old.tree ≡ true }
    ensures reply { IfOk result (λ reply. reply ≡ made_reply state.old) }
    ensures ok { OnOk result (state.new ≡ Change.made_file B.files state.old path) }
    ensures err { OnErr result (state.new ≡ state.old) }
{
    let id = InodeId(state.next_inode);
    let node = Node {
        id,
        mode: Mode::of_file(),
        stamp: state.tick + 1,
        body: Body::File(B::empty(alloc)),
    };
    add_node(state, path, node)?;
    Ok(Reply::Made { id })
}

fn make_file<B: FileBody>(
    alloc: Global,
    state: &mut State<B>,
    path: &PathText,
    over: bool,
) -> Result<Reply, AskFault>
    requires ticks { state.old.tick + 1 < 2 ^ 64 }
    requires inodes { state.old.next_inode + 1 < 2 ^ 64 }
    requires sorted { is_sorted trees.path_cmp state.old.tree ≡ true }
    ensures reply { IfOk result (λ reply. asked B.files state.old (calls.Create path.now over) ≡ Ok reply) }
    ensures fault { IfErr result (IsFaultOf (asked B.files state.old (calls.Create path.now over))) }
    ensures ok { OnOk result (state.new ≡ Change.change B.files state.old (calls.Create path.now over)) }
    ensures snapshots { state.new.next_snapshot ≡ state.old.next_snapshot }
    ensures err { OnErr result (state.new ≡ state.old) }
{
    let path = create_at(alloc, state, path, over)?;
    Ok(put_file(alloc, state, path)?)
}

fn delete<B: FileBody>(
    alloc: Global,
    state: &mut State<B>,
    path: &PathText,
    recursive: bool,
) -> Result<Reply, AskFault>
    requires ticks { state.old.tick + 1 < 2 ^ 64 }
    ensures reply { IfOk result (λ reply. asked B.files state.old (calls.Delete path.now recursive) ≡ Ok reply) }
    ensures fault { IfErr result (IsFaultOf (asked B.files state.old (calls.Delete path.now recursive))) }
    ensures ok { OnOk result (state.new ≡ Change.change B.files state.old (calls.Delete path.now recursive)) }
    ensures tick { state.new.tick ≡ state.old.tick }
    ensures inodes { state.new.next_inode ≡ state.old.next_inode }
    ensures snapshots { state.new.next_snapshot ≡ state.old.next_snapshot }
    ensures err { OnErr result (state.new ≡ state.old) }
{
    let path = delete_at(alloc, state, path, recursive)?;
    remove_node(state, path.items());
    Ok(Reply::Done)
}

fn rename<B: FileBody>(
    alloc: Global,
    state: &mut State<B>,
    old: &PathText,
    new: &PathText,
) -> Result<Reply, AskFault>
    requires ticks { state.old.tick + 1 < 2 ^ 64 }
    ensures reply { IfOk result (λ reply. asked B.files state.old (calls.Rename old.now new.now) ≡ Ok reply) }
    ensures fault { IfErr result (IsFaultOf (asked B.files state.old (calls.Rename old.now new.now))) }
    ensures ok { OnOk result (state.new ≡ Change.change B.files state.old (calls.Rename old.now new.now)) }
    ensures tick { state.new.tick ≡ state.old.tick }
    ensures inodes { state.new.next_inode ≡ state.old.next_inode }
    ensures snapshots { state.new.next_snapshot ≡ state.old.next_snapshot }
    ensures err { OnErr result (state.new ≡ state.old) }
{
    let paths = rename_at(alloc, state, old, new)?;
    move_node(alloc, state, paths.0.items(), paths.1.items())?;
    Ok(Reply::Done)
}

fn change_mode<B: FileBody>(
    alloc: Global,
    state: &mut State<B>,
    path: &PathText,
    mode: Mode,
) -> Result<Reply, AskFault>
    requires ticks { state.old.tick + 1 < 2 ^ 64 }
    ensures reply { IfOk result (λ reply. asked B.files state.old (calls.SetMode path.now mode) ≡ Ok reply) }
    ensures fault { IfErr result (IsFaultOf (asked B.files state.old (calls.SetMode path.now mode))) }
    ensures ok { OnOk result (state.new ≡ Change.change B.files state.old (calls.SetMode path.now mode)) }
    ensures tick { state.new.tick ≡ state.old.tick }
    ensures inodes { state.new.next_inode ≡ state.old.next_inode }
    ensures snapshots { state.new.next_snapshot ≡ state.old.next_snapshot }
    ensures err { OnErr result (state.new ≡ state.old) }
{
    let path = set_mode_at(alloc, state, path)?;
    set_mode(state, path.items(), mode);
    Ok(Reply::Done)
}

/// A file's bytes with more at the end.
fn longer(file: &Bytes, bytes: &[u8]) -> Result<Bytes, NoMemory>
    ensures { IfOk result (λ longer. longer ≡ file.now ++ bytes.now) }
{
    let mut all = file.copy_bytes()?.into_vec();
    all.extend_from_slice(bytes)?;
    Ok(List::of(all))
}

/// Puts a node in the place of the one at a path.
fn put_node<B: Drop>(state: &mut State<B>, path: List<Name>, node: Node<B>) -> Result<(), NoMemory>
    requires sorted { is_sorted trees.path_cmp state.old.tree ≡ true }
    ensures ok { OnOk result (state.new ≡ record state.old { tree = put trees.path_cmp path node state.old.tree }) }
    ensures err { OnErr result (state.new ≡ state.old) }
{
    let mut places = state.tree.take();
    let reserved = places.reserve(1);
    if reserved.is_ok() {
        put_place(&mut places, path, node);
    }
    state.tree = List::of(places);
    Ok(reserved?)
}

fn append(
    alloc: Global,
    state: &mut PlainState,
    path: &PathText,
    bytes: &Chunk,
) -> Result<Reply, AskFault>
    requires ticks { state.old.tick + 1 < 2 ^ 64 }
    requires sorted { is_sorted trees.path_cmp state.old.tree ≡ true }
    ensures reply { IfOk result (λ reply. asked plain_files state.old (calls.Append path.now bytes.now) ≡ Ok reply) }
    ensures fault { IfErr result (IsFaultOf (asked plain_files state.old (calls.Append path.now bytes.now))) }
    ensures ok { OnOk result (state.new ≡ Change.change plain_files state.old (calls.Append path.now bytes.now)) }
    ensures tick { state.new.tick ≡ state.old.tick }
    ensures inodes { state.new.next_inode ≡ state.old.next_inode }
    ensures snapshots { state.new.next_snapshot ≡ state.old.next_snapshot }
    ensures err { OnErr result (state.new ≡ state.old) }
{
    let (path, node, file) = append_at(alloc, state, path)?;
    let node = Node {
        id: node.id,
        mode: node.mode,
        stamp: state.tick + 1,
        body: Body::File(longer(file, bytes.bytes())?),
    };
    put_node(state, path, node)?;
    Ok(Reply::Done)
}

/// Makes the change of a modifying call that uses no store, where it isn't refused, and gives the reply. The tick
/// stays. After a refusal, and without memory, the state is as before. Calls on snapshots are answered as if memory
/// wanted: only a plain state copies whole trees.
pub fn make_change<B: FileBody>(
    alloc: Global,
    state: &mut State<B>,
    call: &Call,
) -> Result<Reply, AskFault>
    requires modifying { is_modifying call.now ≡ true }
    requires storeless { uses_store call.now ≡ false }
    requires ticks { state.old.tick + 1 < 2 ^ 64 }
    requires inodes { state.old.next_inode + 1 < 2 ^ 64 }
    requires sorted { is_sorted trees.path_cmp state.old.tree ≡ true }
    ensures reply { IfOk result (λ reply. asked B.files state.old call.now ≡ Ok reply) }
    ensures fault { IfErr result (IsFaultOf (asked B.files state.old call.now)) }
    ensures ok { OnOk result (state.new ≡ Change.change B.files state.old call.now) }
    ensures inodes { state.new.next_inode ≤ state.old.next_inode + 1 }
    ensures snapshots { state.new.next_snapshot ≡ state.old.next_snapshot }
    ensures tick { state.new.tick ≡ state.old.tick }
    ensures err { OnErr result (state.new ≡ state.old) }
{
    match call {
        Call::Mkdir { path } => make_dir(alloc, state, path),
        Call::Create { path, over } => make_file(alloc, state, path, *over),
        Call::Delete { path, recursive } => delete(alloc, state, path, *recursive),
        Call::Rename { old, new } => rename(alloc, state, old, new),
        Call::SetMode { path, mode } => change_mode(alloc, state, path, *mode),
        Call::Allow { .. }
        | Call::Disallow { .. }
        | Call::Snap { .. }
        | Call::SnapDel { .. }
        | Call::SnapRen { .. } => Err(AskFault::NoMemory),
        Call::Append { .. }
        | Call::Read { .. }
        | Call::ReadNext { .. }
        | Call::Stat { .. }
        | Call::List { .. }
        | Call::ListNext { .. }
        | Call::Snaps { .. }
        | Call::Dirs
        | Call::Report { .. }
        | Call::ReportNext { .. } => unreachable!(),
    }
}

/// Makes the change of a modifying call in a plain state, as `make_change` does, also of an append and of the
/// calls on snapshots.
pub fn make_plain_change(
    alloc: Global,
    state: &mut PlainState,
    call: &Call,
) -> Result<Reply, AskFault>
    requires modifying { is_modifying call.now ≡ true }
    requires ticks { state.old.tick + 1 < 2 ^ 64 }
    requires inodes { state.old.next_inode + 1 < 2 ^ 64 }
    requires snapshots { state.old.next_snapshot + 1 < 2 ^ 64 }
    requires sorted { is_sorted trees.path_cmp state.old.tree ≡ true }
    ensures reply { IfOk result (λ reply. asked plain_files state.old call.now ≡ Ok reply) }
    ensures fault { IfErr result (IsFaultOf (asked plain_files state.old call.now)) }
    ensures ok { OnOk result (state.new ≡ Change.change plain_files state.old call.now) }
    ensures inodes { state.new.next_inode ≤ state.old.next_inode + 1 }
    ensures snapshots { state.new.next_snapshot ≤ state.old.next_snapshot + 1 }
    ensures tick { state.new.tick ≡ state.old.tick }
    ensures err { OnErr result (state.new ≡ state.old) }
{
    match call {
        Call::Append { path, bytes } => append(alloc, state, path, bytes),
        Call::Allow { path } => allow(alloc, state, path),
        Call::Disallow { path } => disallow(alloc, state, path),
        Call::Snap { path, name } => snap(alloc, state, path, name),
        Call::SnapDel { path, name } => snap_del(alloc, state, path, name),
        Call::SnapRen { path, old, new } => snap_ren(alloc, state, path, old, new),
        _ => make_change(alloc, state, call),
    }
}
