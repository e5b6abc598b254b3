//! Copies of subtrees of a plain tree, with all bytes.
ghost use Rattle.std.specs.Prelude.{◌≡◌, [], ◌∷◌, ◌++◌, IfOk, OnOk, drop};
ghost use Rattle.hs_plain.specs.Tree as trees;

use crate::change::push_names;
use crate::snapshots::is_under;
use crate::state::{Body, Bytes, Node, Tree};
use hs_types::{List, Name, NoMemory, RelPath};
use std::alloc::Global;

/// A copy of what a node holds.
fn copied_body(body: &Body<Bytes>) -> Result<Body<Bytes>, NoMemory>
    ensures { IfOk result (λ copy. copy ≡ body.now) }
{
    match body {
        Body::File(file) => Ok(Body::File(file.copy_bytes()?)),
        Body::Dir => Ok(Body::Dir),
    }
}

/// A copy of a node.
fn copied_node(node: &Node<Bytes>) -> Result<Node<Bytes>, NoMemory>
    ensures { IfOk result (λ copy. copy ≡ node.now) }
{
    Ok(Node {
        id: node.id,
        mode: node.mode,
        stamp: node.stamp,
        body: copied_body(&node.body)?,
    })
}

/// A copy of a path without so many names at its front.
fn path_from(alloc: Global, path: &[Name], depth: usize) -> Result<RelPath, NoMemory>
    ensures { IfOk result (λ copy. copy ≡ drop depth path.now) }
{
    let from = depth.min(path.len());
    let mut names = Vec::with_capacity(alloc, path.len() - from)?;
    push_names(&mut names, &path[from..])?;
    Ok(List::of(names))
}

/// A copy of a place, whose path loses so many names at its front.
fn copied_place(
    alloc: Global,
    place: &(RelPath, Node<Bytes>),
    depth: usize,
) -> Result<(RelPath, Node<Bytes>), NoMemory>
    ensures { IfOk result (λ copy. copy ≡ (drop depth place.now.0, place.now.1)) }
{
    let path = path_from(alloc, place.0.items(), depth)?;
    Ok((path, copied_node(&place.1)?))
}

/// Adds a copy of a place, where it is at a path or below it.
fn push_under(
    copies: &mut Vec<(RelPath, Node<Bytes>)>,
    alloc: Global,
    path: &[Name],
    place: &(RelPath, Node<Bytes>),
) -> Result<(), NoMemory>
    ensures { OnOk result (copies.new.items ≡ copies.old.items ++ trees.subtree (place.now ∷ []) path.now) }
{
    if is_under(path, place) {
        copies.push(copied_place(alloc, place, path.len())?)?;
    }
    Ok(())
}

/// A directory's whole subtree, with paths that go from the directory.
pub fn subtree(
    alloc: Global,
    tree: &[(RelPath, Node<Bytes>)],
    path: &[Name],
) -> Result<Tree<Bytes>, NoMemory>
    ensures { IfOk result (λ copy. copy ≡ trees.subtree tree.now path.now) }
{
    let mut copies = Vec::new(alloc);
    for place in tree {
        push_under(&mut copies, alloc, path, place)?;
    }
    Ok(List::of(copies))
}
