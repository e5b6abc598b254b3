//! Walks, look-ups and listings of a tree, each by one pass over its places.
ghost use Rattle.std.specs.Prelude.{◌≡◌, ◌++◌, ◌<◌, Ok, Err, IfOk, OnOk, OnErr, MatchResult, map};
ghost use Rattle.std.specs.Option.{option_copied, option_to_list};
ghost use Rattle.std.specs.Ordering.{is_eq};
ghost use Rattle.hs_plain.specs.Tree;

use crate::files::FileBody;
use crate::state::{Body, Node};
use hs_types::{Duplicate, InodeId, Item, List, Name, NoMemory, Refusal, RelPath};
use std::alloc::Global;
use std::cmp::Ordering;

impl<B> Node<B> {
    /// Whether the node is a directory, which alone may have nodes below it.
    pub fn is_dir(&self) -> bool
        ensures { result ≡ Tree.is_dir self.now }
    {
        match self.body {
            Body::File(_) => false,
            Body::Dir => true,
        }
    }
}

/// The order of paths: name by name, a path before those below it.
pub fn compare_paths(a: &[Name], b: &[Name]) -> Ordering
    ensures { result ≡ Tree.path_cmp a.now b.now }
{
    a.cmp(b)
}

/// Whether a path is that of a place. A path of another length is told by its length alone.
fn is_path_of(place: &[Name], path: &[Name]) -> bool
    ensures { result ≡ is_eq (Tree.path_cmp path.now place.now) }
{
    place.len() == path.len() && compare_paths(path, place) == Ordering::Equal
}

/// The node at a path.
pub fn node_at<'t, B>(tree: &'t [(RelPath, Node<B>)], path: &[Name]) -> Option<&'t Node<B>>
    ensures { option_copied result ≡ Tree.node_at tree.now path.now }
{
    for (place, node) in tree {
        if is_path_of(place.items(), path) {
            return Some(node);
        }
    }
    None
}

/// A walk goes on below a directory alone.
pub fn passes<B>(node: Option<&Node<B>>) -> Result<(), Refusal>
    ensures { result ≡ Tree.passes (option_copied node.entry) }
{
    match node {
        Some(node) if node.is_dir() => Ok(()),
        Some(_) => Err(Refusal::NotDir),
        None => Err(Refusal::NotFound),
    }
}

#[tactic(auto, using(crate::proofs::Walks::walks_from_at))]
/// The walk from the root to a path's parent: `NotFound` at the first missing component, `NotDir` at the
/// first file that has components after it.
pub fn walks_above<B>(tree: &[(RelPath, Node<B>)], path: &[Name]) -> Result<(), Refusal>
    ensures { result ≡ Tree.walks_above tree.now path.now }
{
    for depth in 0..path.len() {
        passes(node_at(tree, &path[..depth]))?;
    }
    Ok(())
}

/// The whole walk: the node at the path.
pub fn walk<'t, B>(tree: &'t [(RelPath, Node<B>)], path: &[Name]) -> Result<&'t Node<B>, Refusal>
    ensures { MatchResult result (λ node. Tree.walk tree.now path.now ≡ Ok node.now) (λ why. Tree.walk tree.now path.now ≡ Err why) }
{
    walks_above(tree, path)?;
    node_at(tree, path).ok_or(Refusal::NotFound)
}

/// The place of the node with this id.
pub fn place_of<B>(tree: &[(RelPath, Node<B>)], id: InodeId) -> Option<&(RelPath, Node<B>)>
    ensures { option_copied result ≡ Tree.place_of tree.now id }
{
    for place in tree {
        if place.1.id == id {
            return Some(place);
        }
    }
    None
}

/// The one name that leads from a directory to a path, if one name does.
pub fn name_below<'p>(dir: &[Name], path: &'p [Name]) -> Option<&'p Name>
    ensures { option_copied result ≡ Tree.name_below dir.now path.now }
{
    // Most paths are told apart by their lengths alone.
    if path.len() != dir.len() + 1 {
        return None;
    }
    if !path.starts_with(dir) {
        return None;
    }
    path.last()
}

/// How many children a directory has.
pub fn child_count<B>(tree: &[(RelPath, Node<B>)], path: &[Name]) -> usize
    ensures { result ≡ Tree.child_count tree.now path.now }
{
    let mut children = 0;
    for place in tree {
        if name_below(path, place.0.items()).is_some() {
            children += 1;
        }
    }
    children
}

/// Bytes of a file, children of a directory.
pub fn size_of<B: FileBody>(tree: &[(RelPath, Node<B>)], path: &[Name], body: &Body<B>) -> u64
    ensures { result ≡ Tree.size_of B.files.size tree.now path.now body.now }
{
    match body {
        Body::File(file) => file.size(),
        Body::Dir => child_count(tree, path) as u64,
    }
}

/// Whether a path is the root's.
pub fn is_root_path(path: &[Name]) -> bool
    ensures { result ≡ Tree.is_root_path path.now }
{
    path.is_empty()
}

/// Whether a path lies below another.
pub fn is_above(above: &[Name], path: &[Name]) -> bool
    ensures { result ≡ Tree.is_above above.now path.now }
{
    path.starts_with(above) && above.len() < path.len()
}

/// The items of a directory, in name order.
pub fn listing<B>(
    alloc: Global,
    tree: &[(RelPath, Node<B>)],
    dir: &[Name],
) -> Result<List<Item>, NoMemory>
    ensures { IfOk result (λ items. items ≡ Tree.listing tree.now dir.now) }
{
    let mut items = Vec::new(alloc);
    for place in tree {
        push_child(&mut items, dir, place)?;
    }
    Ok(List::of(items))
}

/// Adds the item of a place, where it is a child of the directory.
fn push_child<B>(
    items: &mut Vec<Item>,
    dir: &[Name],
    place: &(RelPath, Node<B>),
) -> Result<(), NoMemory>
    ensures { OnOk result (items.new.items ≡ items.old.items ++ option_to_list (Tree.child_item dir.now place.now)) }
{
    if let Some(name) = name_below(dir, place.0.items()) {
        let item = Item {
            name: name.copy()?,
            id: place.1.id,
            is_dir: place.1.is_dir(),
        };
        items.push(item)?;
    }
    Ok(())
}
