//! The report between two trees of one root.
ghost use Rattle.std.specs.Prelude.{◌≡◌, ◌≤◌, [], ◌∷◌, ◌++◌, Some, None, IfOk, OnOk, length};
ghost use Rattle.std.specs.List.{filter_map, flat_map, prefix_len};
ghost use Rattle.std.specs.Option.{option_copied, option_to_list};
ghost use Rattle.hs_plain.specs.Report;

use crate::change::parent_of;
use crate::state::Node;
use crate::tree::{compare_paths, is_root_path, node_at, place_of};
use hs_types::{Duplicate, InodeId, Line, LineKind, List, Name, NoMemory, RelPath};
use std::alloc::Global;
use std::cmp::Ordering;

/// The id of the directory above a path.
fn id_above<B>(tree: &[(RelPath, Node<B>)], path: &[Name]) -> Option<InodeId>
    ensures { result ≡ Report.id_above tree.now path.now }
{
    match node_at(tree, parent_of(path)) {
        Some(node) => Some(node.id),
        None => None,
    }
}

#[tactic(auto, using(crate::proofs::Reports::last_of_at))]
/// The last name of a path; the root has none.
fn last_of(path: &[Name]) -> &str
    ensures { result.now ≡ Report.last_of path.now }
{
    match path.last() {
        Some(name) => name.text(),
        None => "",
    }
}

/// Whether two look-ups found the same id, or both none.
fn same_id(a: Option<InodeId>, b: Option<InodeId>) -> bool
    ensures { result ≡ Report.same_id a b }
{
    match (a, b) {
        (Some(a), Some(b)) => a == b,
        (None, None) => true,
        (Some(_), None) | (None, Some(_)) => false,
    }
}

/// Whether a place in one tree and one in another have the same parent and name; the root has neither.
fn same_place<B>(
    from: &[(RelPath, Node<B>)],
    to: &[(RelPath, Node<B>)],
    old: &[Name],
    new: &[Name],
) -> bool
    ensures { result ≡ Report.same_place from.now to.now old.now new.now }
{
    is_root_path(old)
        || (same_id(id_above(from, old), id_above(to, new)) && last_of(old) == last_of(new))
}

/// Whether an id is in a tree.
fn has_id<B>(tree: &[(RelPath, Node<B>)], id: Option<InodeId>) -> bool
    ensures { result ≡ Report.has_id tree.now id }
{
    match id {
        Some(id) => place_of(tree, id).is_some(),
        None => false,
    }
}

/// Whether the directory above a path of the first tree is in the second.
fn parent_stays<B>(from: &[(RelPath, Node<B>)], to: &[(RelPath, Node<B>)], path: &[Name]) -> bool
    ensures { result ≡ Report.parent_stays from.now to.now path.now }
{
    has_id(to, id_above(from, path))
}

/// Whether a node of both trees has another stamp.
fn is_changed<B>(before: &Node<B>, now: &Node<B>) -> bool
    ensures { result ≡ Report.is_changed before.now now.now }
{
    before.stamp != now.stamp
}

/// A line on a node, with copies of the paths.
fn line_of<B>(
    kind: LineKind,
    path: &RelPath,
    to: Option<&RelPath>,
    node: &Node<B>,
) -> Result<Line, NoMemory>
    ensures { IfOk result (λ line. line ≡ Report.line_of kind path.now (option_copied to.entry) node.now) }
{
    let to = match to {
        Some(path) => Some(path.copy()?),
        None => None,
    };
    Ok(Line {
        kind,
        path: path.copy()?,
        to,
        id: node.id,
        is_dir: node.is_dir(),
    })
}

/// Adds a line on a node, where a test says so.
fn push_line_if<B>(
    lines: &mut Vec<Line>,
    test: bool,
    kind: LineKind,
    path: &RelPath,
    to: Option<&RelPath>,
    node: &Node<B>,
) -> Result<(), NoMemory>
    ensures { OnOk result (lines.new.items ≡ lines.old.items ++ Report.line_if test (Report.line_of kind path.now (option_copied to.entry) node.now) []) }
{
    if test {
        lines.push(line_of(kind, path, to, node)?)?;
    }
    Ok(())
}

/// Adds the line of a node that is gone, where the directory that it stood in is still there.
fn push_deleted<B>(
    lines: &mut Vec<Line>,
    from: &[(RelPath, Node<B>)],
    to: &[(RelPath, Node<B>)],
    place: &(RelPath, Node<B>),
) -> Result<(), NoMemory>
    ensures { OnOk result (lines.new.items ≡ lines.old.items ++ Report.lines_by from.now to.now place.now None) }
{
    let stays = parent_stays(from, to, place.0.items());
    push_line_if(lines, stays, LineKind::Deleted, &place.0, None, &place.1)
}

#[tactic(auto, using(crate::proofs::Reports::two_lines))]
/// Adds the lines of a node that has a place in both trees: where it moved, and where it changed.
fn push_changed<B>(
    lines: &mut Vec<Line>,
    from: &[(RelPath, Node<B>)],
    to: &[(RelPath, Node<B>)],
    place: &(RelPath, Node<B>),
    other: &(RelPath, Node<B>),
) -> Result<(), NoMemory>
    ensures { OnOk result (lines.new.items ≡ lines.old.items ++ Report.lines_by from.now to.now place.now (Some other.now)) }
{
    let moved = !same_place(from, to, place.0.items(), other.0.items());
    let changed = is_changed(&place.1, &other.1);
    push_line_if(
        lines,
        moved,
        LineKind::Renamed,
        &place.0,
        Some(&other.0),
        &place.1,
    )?;
    push_line_if(lines, changed, LineKind::Modified, &place.0, None, &place.1)
}

/// Adds the lines of a node of the first tree.
fn push_lines<B>(
    lines: &mut Vec<Line>,
    from: &[(RelPath, Node<B>)],
    to: &[(RelPath, Node<B>)],
    place: &(RelPath, Node<B>),
) -> Result<(), NoMemory>
    ensures { OnOk result (lines.new.items ≡ lines.old.items ++ Report.lines_from from.now to.now place.now) }
{
    match place_of(to, place.1.id) {
        Some(other) => push_changed(lines, from, to, place, other),
        None => push_deleted(lines, from, to, place),
    }
}

/// The lines of all nodes of the first tree, by their paths there.
fn lines_of_first<B>(
    alloc: Global,
    from: &[(RelPath, Node<B>)],
    to: &[(RelPath, Node<B>)],
) -> Result<Vec<Line>, NoMemory>
    ensures { IfOk result (λ lines. lines.items ≡ flat_map (Report.lines_from from.now to.now) from.now) }
{
    let mut lines = Vec::new(alloc);
    for place in from {
        push_lines(&mut lines, from, to, place)?;
    }
    Ok(lines)
}

/// The place of the directory with this id.
fn place_above<B>(tree: &[(RelPath, Node<B>)], id: Option<InodeId>) -> Option<&(RelPath, Node<B>)>
    ensures { option_copied result ≡ Report.place_above tree.now id }
{
    match id {
        Some(id) => place_of(tree, id),
        None => None,
    }
}

/// The line of a new node, below the place that its directory had in the first tree. The root is never new, since it would
/// stand below itself: of it there is no line, as if memory wanted.
fn line_in<B>(place: &(RelPath, Node<B>), directory: &(RelPath, Node<B>)) -> Result<Line, NoMemory>
    ensures { IfOk result (λ line. Report.created_in place.now (Some directory.now) ≡ Some line) }
{
    let path = path_below(&directory.0, place.0.items())?;
    line_of(LineKind::Created, &path, None, &place.1)
}

#[tactic(auto, using(crate::proofs::Reports::last_of_at))]
/// A path with the last name of another behind it.
fn path_below(directory: &RelPath, path: &[Name]) -> Result<RelPath, NoMemory>
    ensures { IfOk result (λ below. below ≡ directory.now ++ Report.last_of path.now ∷ []) }
{
    let name = path.last().ok_or(NoMemory)?.copy()?;
    let mut below = directory.copy()?;
    below.push(name)?;
    Ok(below)
}

/// Adds the line of a node of the second tree that isn't in the first, where its directory is.
fn push_created<B>(
    lines: &mut Vec<Line>,
    from: &[(RelPath, Node<B>)],
    to: &[(RelPath, Node<B>)],
    place: &(RelPath, Node<B>),
) -> Result<(), NoMemory>
    ensures { OnOk result (lines.new.items ≡ lines.old.items ++ option_to_list (Report.created from.now to.now place.now)) }
{
    if place_of(from, place.1.id).is_some() {
        return Ok(());
    }
    match place_above(from, id_above(to, place.0.items())) {
        Some(directory) => Ok(lines.push(line_in(place, directory)?)?),
        None => Ok(()),
    }
}

/// The lines of all new nodes, by their paths in the second tree.
fn created_lines<B>(
    alloc: Global,
    from: &[(RelPath, Node<B>)],
    to: &[(RelPath, Node<B>)],
) -> Result<Vec<Line>, NoMemory>
    ensures { IfOk result (λ lines. lines.items ≡ filter_map (Report.created from.now to.now) to.now) }
{
    let mut lines = Vec::new(alloc);
    for place in to {
        push_created(&mut lines, from, to, place)?;
    }
    Ok(lines)
}

/// The order of lines of one path.
fn kind_rank(kind: LineKind) -> u8
    ensures { result ≡ Report.rank_of kind }
{
    match kind {
        LineKind::Deleted => 0,
        LineKind::Renamed => 1,
        LineKind::Modified => 2,
        LineKind::Created => 3,
    }
}

/// Whether a line comes before another: by its path, and then by its kind.
fn line_before(a: &Line, b: &Line) -> bool
    ensures { result ≡ Report.line_before a.now b.now }
{
    match compare_paths(a.path.items(), b.path.items()) {
        Ordering::Less => true,
        Ordering::Equal => kind_rank(a.kind) < kind_rank(b.kind),
        Ordering::Greater => false,
    }
}

/// How many lines at the front come before this one.
fn rank_of(lines: &[Line], line: &Line) -> usize
    ensures rank { result ≡ prefix_len (λ other. Report.line_before other line.now) lines.now }
    ensures within { result ≤ length lines.now }
{
    for (rank, other) in lines.iter().enumerate() {
        if !line_before(other, line) {
            return rank;
        }
    }
    lines.len()
}

/// Puts a line in its place.
fn put_line(lines: &mut Vec<Line>, line: Line) -> Result<(), NoMemory>
    ensures { OnOk result (lines.new.items ≡ Report.with_line line lines.old.items) }
{
    let rank = rank_of(lines.as_slice(), &line);
    lines.insert(rank, line)?;
    Ok(())
}

#[tactic(auto, using(crate::proofs::Reports::with_last))]
/// Puts lines in their places, the last one first.
fn put_lines(lines: &mut Vec<Line>, more: Vec<Line>) -> Result<(), NoMemory>
    ensures { OnOk result (lines.new.items ≡ Report.with_lines more.items lines.old.items) }
{
    let mut more = more;
    while let Some(line) = more.pop() {
        put_line(lines, line)?;
    }
    Ok(())
}

/// What changed from one tree to another: the lines of the first tree's nodes, and the new nodes' put among them.
pub fn report<B>(
    alloc: Global,
    from: &[(RelPath, Node<B>)],
    to: &[(RelPath, Node<B>)],
) -> Result<List<Line>, NoMemory>
    ensures { IfOk result (λ lines. lines ≡ Report.report from.now to.now) }
{
    let mut lines = lines_of_first(alloc, from, to)?;
    put_lines(&mut lines, created_lines(alloc, from, to)?)?;
    Ok(List::of(lines))
}
