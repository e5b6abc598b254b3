//! The replies to reading calls, or why they are refused.
ghost use Rattle.std.specs.Prelude.{◌≡◌, ◌++◌, ◌&&◌, ◌==◌, if◌then◌else◌, ℕ, Ok, Err, IfOk, OnOk, MatchResult};
ghost use Rattle.std.specs.List.{filter_map, list_any};
ghost use Rattle.std.specs.Option.{option_copied, option_to_list};
ghost use Rattle.hs_plain.specs.Tree as trees;
ghost use Rattle.hs_plain.specs.Reading;
ghost use Rattle.hs_plain.specs.Files.{plain_files};
ghost use Rattle.hs_plain.specs.inside.Faults.{IsFaultOf};

use crate::files::FileBody;
use crate::modifying::{read_path, refuse_if};
use crate::pages::{cut, first_page, items_behind, lines_page, next_read};
use crate::report::report;
use crate::resolve::{
    AskFault, file_at, is_deleted, is_gone, is_snapshottable, items_at, member_with, resolve,
};
use crate::snapshots::{snapshot_named, snapshots_of};
use crate::state::{Bytes, Member, Node, PlainState, State, Tree};
use crate::subtree::subtree;
use crate::tree::{place_of, size_of};
use hs_types::{
    DirItem, Duplicate, InodeId, Line, List, ListCursor, NoMemory, PageSize, PathText, Place,
    Point, ReadCursor, ReadLen, Refusal, RelPath, Reply, ReportCursor, SnapId, SnapItem,
};
use std::alloc::Global;

/// The first page of a directory, or of the list of its snapshots.
pub fn list_page<B>(
    alloc: Global,
    state: &State<B>,
    path: &PathText,
    size: PageSize,
) -> Result<Reply, AskFault>
    ensures { MatchResult result (λ reply. Reading.list_reply state.now path.now size ≡ Ok reply) (IsFaultOf (Reading.list_reply state.now path.now size)) }
{
    let path = read_path(alloc, path)?;
    let place = resolve(state, &path)?;
    let items = items_at(alloc, state, place)?;
    Ok(first_page(place, items, size)?)
}

/// What the node at a place is, where one is there.
fn node_stat<B: FileBody>(
    tree: &[(RelPath, Node<B>)],
    place: Option<&(RelPath, Node<B>)>,
) -> Result<Reply, Refusal>
    ensures { result ≡ Reading.node_stat B.files tree.now (option_copied place.entry) }
{
    let Some(place) = place else {
        return Err(Refusal::NotFound);
    };
    let node = &place.1;
    Ok(Reply::Stat {
        id: node.id,
        is_dir: node.is_dir(),
        mode: node.mode,
        stamp: node.stamp,
        size: size_of(tree, place.0.items(), &node.body),
    })
}

/// What a directory's list of snapshots is.
fn list_stat<B>(snapshots: u64, place: Option<&(RelPath, Node<B>)>) -> Result<Reply, Refusal>
    ensures { result ≡ Reading.list_stat snapshots (option_copied place.entry) }
{
    let Some(place) = place else {
        return Err(Refusal::NotFound);
    };
    let directory = &place.1;
    Ok(Reply::Stat {
        id: directory.id,
        is_dir: true,
        mode: directory.mode,
        stamp: directory.stamp,
        size: snapshots,
    })
}

/// What stands at a place.
pub fn stat_at<B: FileBody>(state: &State<B>, place: Place) -> Result<Reply, Refusal>
    ensures { result ≡ Reading.stat_at B.files state.now place }
{
    let tree = state.tree.items();
    match place {
        Place::Live(id) => node_stat(tree, place_of(tree, id)),
        Place::Frozen(id, snapshot) => {
            let member = member_with(state.members.items(), snapshot)?;
            let tree = member.tree.items();
            node_stat(tree, place_of(tree, id))
        }
        Place::SnapshotsOf(directory) => {
            let snapshots = snapshots_of(state.members.items(), directory) as u64;
            list_stat(snapshots, place_of(tree, directory))
        }
    }
}

/// What stands at a path.
pub fn stat<B: FileBody>(
    alloc: Global,
    state: &State<B>,
    path: &PathText,
) -> Result<Reply, AskFault>
    ensures { MatchResult result (λ reply. Reading.stat_reply B.files state.now path.now ≡ Ok reply) (IsFaultOf (Reading.stat_reply B.files state.now path.now)) }
{
    let path = read_path(alloc, path)?;
    let place = resolve(state, &path)?;
    Ok(stat_at(state, place)?)
}

/// A page of a file that stands at a place.
fn page_at(
    alloc: Global,
    place: Place,
    file: &Bytes,
    offset: u64,
    len: ReadLen,
) -> Result<Reply, NoMemory>
    ensures { IfOk result (λ reply. reply ≡ Reading.page_at plain_files offset len (place, file.now)) }
{
    Ok(Reply::Bytes {
        bytes: cut(alloc, file, offset, len)?,
        next: next_read(place, file.len() as u64, offset, len),
    })
}

/// The file at a path, with its place.
pub fn found_file<'s, B>(
    alloc: Global,
    state: &'s State<B>,
    text: &PathText,
) -> Result<(Place, &'s B), AskFault>
    ensures { MatchResult result (λ at. Reading.found_file state.now text.now ≡ Ok (at.0, at.1.now)) (IsFaultOf (Reading.found_file state.now text.now)) }
{
    let path = read_path(alloc, text)?;
    let place = resolve(state, &path)?;
    let file = file_at(state, place)?;
    Ok((place, file))
}

/// The file of a cursor, with its place.
pub fn next_file<B>(state: &State<B>, place: Place) -> Result<(Place, &B), Refusal>
    ensures { MatchResult result (λ at. Reading.next_file state.now place ≡ Ok (at.0, at.1.now)) (λ why. Reading.next_file state.now place ≡ Err why) }
{
    refuse_if(is_gone(state, place), Refusal::Gone)?;
    let file = file_at(state, place)?;
    Ok((place, file))
}

/// A page of the file at a path.
pub fn read(
    alloc: Global,
    state: &PlainState,
    path: &PathText,
    offset: u64,
    len: ReadLen,
) -> Result<Reply, AskFault>
    ensures { MatchResult result (λ reply. Reading.read_reply plain_files state.now path.now offset len ≡ Ok reply) (IsFaultOf (Reading.read_reply plain_files state.now path.now offset len)) }
{
    let (place, file) = found_file(alloc, state, path)?;
    Ok(page_at(alloc, place, file, offset, len)?)
}

/// The next page of a file.
pub fn read_next(
    alloc: Global,
    state: &PlainState,
    cursor: ReadCursor,
    len: ReadLen,
) -> Result<Reply, AskFault>
    ensures { MatchResult result (λ reply. Reading.next_reply plain_files state.now cursor len ≡ Ok reply) (IsFaultOf (Reading.next_reply plain_files state.now cursor len)) }
{
    let (place, file) = next_file(state, cursor.place)?;
    Ok(page_at(alloc, place, file, cursor.offset, len)?)
}

/// The next page of what a cursor lists.
pub fn list_next<B>(
    alloc: Global,
    state: &State<B>,
    cursor: &ListCursor,
    size: PageSize,
) -> Result<Reply, AskFault>
    ensures { MatchResult result (λ reply. Reading.list_next_reply state.now cursor.now size ≡ Ok reply) (IsFaultOf (Reading.list_next_reply state.now cursor.now size)) }
{
    let place = cursor.place;
    refuse_if(is_gone(state, place), Refusal::Gone)?;
    let items = items_at(alloc, state, place)?;
    let left = items_behind(cursor.after.as_ref(), items);
    Ok(first_page(place, left, size)?)
}

/// The directory at the place of an id, if one is there.
fn directory_there<B>(place: Option<&(RelPath, Node<B>)>) -> Result<InodeId, Refusal>
    ensures { result ≡ Reading.directory_there (option_copied place.entry) }
{
    match place {
        Some((_, node)) if node.is_dir() => Ok(node.id),
        Some(_) => Err(Refusal::NotDir),
        None => Err(Refusal::NotFound),
    }
}

/// The directory of a place of the live tree; at another place nothing is snapshottable.
fn live_directory<B>(state: &State<B>, place: Place) -> Result<InodeId, Refusal>
    ensures { result ≡ Reading.live_directory state.now place }
{
    match place {
        Place::Live(id) => directory_there(place_of(state.tree.items(), id)),
        Place::Frozen(id, snapshot) => {
            let member = member_with(state.members.items(), snapshot)?;
            directory_there(place_of(member.tree.items(), id))?;
            Err(Refusal::NotSnapshottable)
        }
        Place::SnapshotsOf(_) => Err(Refusal::NotSnapshottable),
    }
}

/// The snapshottable directory at a path.
pub fn snapshottable_at<B>(
    alloc: Global,
    state: &State<B>,
    text: &PathText,
) -> Result<InodeId, AskFault>
    ensures { MatchResult result (λ id. Reading.snapshottable_at state.now text.now ≡ Ok id) (IsFaultOf (Reading.snapshottable_at state.now text.now)) }
{
    let path = read_path(alloc, text)?;
    let place = resolve(state, &path)?;
    let id = live_directory(state, place)?;
    refuse_if(!is_snapshottable(state, id), Refusal::NotSnapshottable)?;
    Ok(id)
}

/// Adds a snapshot as it is shown, where it is of this directory.
fn push_snapshot<B>(
    list: &mut Vec<SnapItem>,
    directory: InodeId,
    member: &Member<B>,
) -> Result<(), NoMemory>
    ensures { OnOk result (list.new.items ≡ list.old.items ++ option_to_list (Reading.snap_item directory member.now)) }
{
    if member.directory == directory {
        list.push(SnapItem {
            id: member.snapshot,
            tick: member.tick,
            name: member.name.copy()?,
        })?;
    }
    Ok(())
}

/// The snapshots of a directory as they are shown, in order of making.
fn snapshot_list<B>(
    alloc: Global,
    members: &[Member<B>],
    directory: InodeId,
) -> Result<List<SnapItem>, NoMemory>
    ensures { IfOk result (λ list. list ≡ filter_map (Reading.snap_item directory) members.now) }
{
    let mut list = Vec::new(alloc);
    for member in members {
        push_snapshot(&mut list, directory, member)?;
    }
    Ok(List::of(list))
}

/// The snapshots of the directory at a path, in order of making.
pub fn snaps<B>(alloc: Global, state: &State<B>, path: &PathText) -> Result<Reply, AskFault>
    ensures { MatchResult result (λ reply. Reading.snaps_reply state.now path.now ≡ Ok reply) (IsFaultOf (Reading.snaps_reply state.now path.now)) }
{
    let dir = snapshottable_at(alloc, state, path)?;
    Ok(Reply::Snaps {
        dir,
        list: snapshot_list(alloc, state.members.items(), dir)?,
    })
}

/// Adds a directory as it is shown, where it is snapshottable. With more snapshots than a `u32` counts, which a directory of a
/// valid state never has, the answer is that memory ran out.
fn push_directory<B>(
    list: &mut Vec<DirItem>,
    alloc: Global,
    state: &State<B>,
    place: &(RelPath, Node<B>),
) -> Result<(), NoMemory>
    ensures { OnOk result (list.new.items ≡ list.old.items ++ option_to_list (Reading.dir_item state.now place.now)) }
{
    let id = place.1.id;
    if is_snapshottable(state, id) {
        let snapshots = snapshots_of(state.members.items(), id);
        let count = u32::try_from(snapshots).ok().ok_or(NoMemory)?;
        let path = PathText::of_names(alloc, place.0.items())?;
        list.push(DirItem { id, count, path })?;
    }
    Ok(())
}

/// The snapshottable directories as they are shown, in path order.
fn directory_list<B>(alloc: Global, state: &State<B>) -> Result<List<DirItem>, NoMemory>
    ensures { IfOk result (λ list. list ≡ filter_map (Reading.dir_item state.now) state.now.tree) }
{
    let mut list = Vec::new(alloc);
    for place in state.tree.items() {
        push_directory(&mut list, alloc, state, place)?;
    }
    Ok(List::of(list))
}

/// The snapshottable directories, in path order.
pub fn dirs<B>(alloc: Global, state: &State<B>) -> Result<Reply, NoMemory>
    ensures { IfOk result (λ reply. reply ≡ Reading.dirs_reply state.now) }
{
    Ok(Reply::Dirs {
        list: directory_list(alloc, state)?,
    })
}

/// The id of a point in time of a directory: 0 is the current state.
fn point_id<B>(state: &State<B>, directory: InodeId, point: &Point) -> Result<SnapId, Refusal>
    ensures { result ≡ Reading.point_id state.now directory point.now }
{
    match point {
        Point::Snapshot(name) => snapshot_named(state.members.items(), directory, name),
        Point::Now => Ok(SnapId(0)),
    }
}

/// The copied tree of a snapshot.
fn copied_tree<B>(members: &[Member<B>], snapshot: SnapId) -> &[(RelPath, Node<B>)]
    ensures { result.now ≡ Reading.copied_tree members.now snapshot }
{
    for member in members {
        if member.snapshot == snapshot {
            return member.tree.items();
        }
    }
    &[]
}

/// A copy of the live tree below the place of an id.
fn live_tree(alloc: Global, state: &PlainState, root: InodeId) -> Result<Tree<Bytes>, NoMemory>
    ensures { IfOk result (λ copy. copy ≡ Reading.tree_below state.now.tree (trees.place_of state.now.tree root)) }
{
    let tree = state.tree.items();
    match place_of(tree, root) {
        Some((path, _)) => subtree(alloc, tree, path.items()),
        None => Ok(List::new(alloc)),
    }
}

/// The tree at one end of a report, where this is the current one.
fn end_tree<'t, B>(
    state: &'t State<B>,
    live: &'t [(RelPath, Node<B>)],
    end: SnapId,
) -> &'t [(RelPath, Node<B>)]
    ensures { result.now ≡ (if end.0 == 0 then live.now else Reading.copied_tree state.now.members end) }
{
    if end == SnapId(0) {
        live
    } else {
        copied_tree(state.members.items(), end)
    }
}

/// All lines of the report of a cursor.
fn lines_between(
    alloc: Global,
    state: &PlainState,
    cursor: ReportCursor,
) -> Result<List<Line>, NoMemory>
    ensures { IfOk result (λ lines. lines ≡ Reading.lines_between state.now cursor.root cursor.from cursor.to) }
{
    let live = live_tree(alloc, state, cursor.root)?;
    let from = end_tree(state, live.items(), cursor.from);
    let to = end_tree(state, live.items(), cursor.to);
    report(alloc, from, to)
}

/// The tick at which a report began: that of the cursor, or else now.
fn began_at(now: u64, tick: Option<u64>) -> u64
    ensures { result ≡ Reading.began_at now tick }
{
    tick.unwrap_or(now)
}

/// A page of the report of a cursor.
fn report_page(
    alloc: Global,
    state: &PlainState,
    cursor: ReportCursor,
    size: PageSize,
) -> Result<Reply, NoMemory>
    ensures { IfOk result (λ reply. reply ≡ Reading.report_page state.now cursor size) }
{
    let began = began_at(state.tick, cursor.tick);
    let lines = lines_between(alloc, state, cursor)?;
    lines_page(cursor, began, lines, size)
}

/// The first page of the report on a directory from one point in time to another.
pub fn report_first(
    alloc: Global,
    state: &PlainState,
    text: &PathText,
    from: &Point,
    to: &Point,
    size: PageSize,
) -> Result<Reply, AskFault>
    ensures { MatchResult result (λ reply. Reading.report_reply state.now text.now from.now to.now size ≡ Ok reply) (IsFaultOf (Reading.report_reply state.now text.now from.now to.now size)) }
{
    let root = snapshottable_at(alloc, state, text)?;
    let from = point_id(state, root, from)?;
    let to = point_id(state, root, to)?;
    let cursor = ReportCursor {
        root,
        from,
        to,
        tick: None,
        index: 0,
    };
    Ok(report_page(alloc, state, cursor, size)?)
}

/// Whether an end is no snapshot of this directory.
fn is_foreign<B>(state: &State<B>, root: InodeId, end: SnapId) -> bool
    ensures { result ≡ Reading.is_foreign state.now root end }
{
    end != SnapId(0) && !is_own(state.members.items(), root, end)
}

/// Whether a directory has the snapshot with this id.
fn is_own<B>(members: &[Member<B>], root: InodeId, end: SnapId) -> bool
    ensures { result ≡ list_any (λ member. member.snapshot.0 == end.0 && trees.same_inode member.directory root) members.now }
{
    members.iter().any(|member| member.snapshot == end && member.directory == root)
}

/// Whether the current state is an end of a report that began at another tick.
fn has_moved<B>(state: &State<B>, cursor: ReportCursor) -> bool
    ensures { result ≡ Reading.has_moved state.now cursor }
{
    (cursor.from == SnapId(0) || cursor.to == SnapId(0))
        && began_at(state.tick, cursor.tick) != state.tick
}

/// Whether the next page of a report may be given.
fn goes_on<B>(state: &State<B>, cursor: ReportCursor) -> Result<(), Refusal>
    ensures { (size : ℕ) → MatchResult result (λ _. Reading.report_next_reply state.now cursor size ≡ Ok (Reading.report_page state.now cursor size)) (λ why. Reading.report_next_reply state.now cursor size ≡ Err why) }
{
    let gone = is_deleted(state, cursor.from) || is_deleted(state, cursor.to);
    refuse_if(gone, Refusal::Gone)?;
    refuse_if(
        !is_snapshottable(state, cursor.root),
        Refusal::NotSnapshottable,
    )?;
    let foreign = is_foreign(state, cursor.root, cursor.from)
        || is_foreign(state, cursor.root, cursor.to);
    refuse_if(foreign, Refusal::NoSnapshot)?;
    let then = began_at(state.tick, cursor.tick);
    let now = state.tick;
    refuse_if(has_moved(state, cursor), Refusal::Moved { then, now })
}

/// The next page of a report.
pub fn report_next(
    alloc: Global,
    state: &PlainState,
    cursor: ReportCursor,
    size: PageSize,
) -> Result<Reply, AskFault>
    ensures { MatchResult result (λ reply. Reading.report_next_reply state.now cursor size ≡ Ok reply) (IsFaultOf (Reading.report_next_reply state.now cursor size)) }
{
    goes_on(state, cursor)?;
    Ok(report_page(alloc, state, cursor, size)?)
}
