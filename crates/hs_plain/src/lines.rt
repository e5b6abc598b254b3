//! The lines of a printed tree.
ghost use Rattle.std.specs.Prelude.{◌≡◌, ◌-◌, length, slice_get, IfOk};
ghost use Rattle.hs_plain.specs.Lines;

use crate::files::FileBody;
use crate::state::Node;
use crate::tree::size_of;
use hs_types::{Duplicate, List, Name, NoMemory, RelPath, TreeLine};
use std::alloc::Global;

/// The name at the end of a path.
fn copied_name(path: &[Name]) -> Result<Option<Name>, NoMemory>
    ensures { IfOk result (λ name. name ≡ slice_get path.now (length path.now - 1)) }
{
    match path.last() {
        Some(name) => Ok(Some(name.copy()?)),
        None => Ok(None),
    }
}

fn tree_line<B: FileBody>(
    tree: &[(RelPath, Node<B>)],
    place: &(RelPath, Node<B>),
) -> Result<TreeLine, NoMemory>
    ensures { IfOk result (λ line. line ≡ Lines.tree_line B.files.size tree.now place.now) }
{
    let path = place.0.items();
    let node = &place.1;
    Ok(TreeLine {
        depth: path.len() as u64,
        id: node.id,
        is_dir: node.is_dir(),
        mode: node.mode,
        stamp: node.stamp,
        size: size_of(tree, path, &node.body),
        name: copied_name(path)?,
    })
}

/// A line for each node of a tree: a directory before its children, and children in name order.
pub fn lines_of<B: FileBody>(
    alloc: Global,
    tree: &[(RelPath, Node<B>)],
) -> Result<List<TreeLine>, NoMemory>
    ensures { IfOk result (λ lines. lines ≡ Lines.lines_of B.files.size tree.now) }
{
    let mut lines = Vec::with_capacity(alloc, tree.len())?;
    for place in tree {
        lines.push(tree_line(tree, place)?)?;
    }
    Ok(List::of(lines))
}
