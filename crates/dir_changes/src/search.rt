//! Names in a list that is in their order, searched by halves.
ghost use Rattle.std.specs.Prelude.{◌≡◌, ◌↔◌, IsTrue, IfOk, IfErr};
ghost use Rattle.dir_changes.specs.Entries.{name_order, in_order, id_at, has};
ghost use Rattle.dir_changes.specs.Children.{StandsAt, BelongsAt};

use crate::child::Child;
use hs_types::{InodeId, Name};
use std::cmp::Ordering;

/// How the entry's name compares with a name.
pub fn compare(child: &Child, name: &Name) -> Ordering
    ensures { result ≡ name_order child.now.0 name.now }
{
    child.name.cmp(name)
}

/// Where the name stands, or where it would stand.
pub fn place(children: &[Child], name: &Name) -> Result<usize, usize>
    requires { IsTrue (in_order children.now) }
    ensures found { IfOk result (StandsAt name.now children.now) }
    ensures absent { IfErr result (BelongsAt name.now children.now) }
{
    let mut low = 0;
    let mut high = children.len();
    while low < high {
        let middle = low + (high - low) / 2;
        match compare(&children[middle], name) {
            Ordering::Less => low = middle + 1,
            Ordering::Equal => return Ok(middle),
            Ordering::Greater => high = middle,
        }
    }
    Err(low)
}

/// The id under a name.
pub fn id_of(children: &[Child], name: &Name) -> Option<InodeId>
    requires { IsTrue (in_order children.now) }
    ensures { result ≡ id_at name.now children.now }
{
    match place(children, name) {
        Ok(at) => {
            let child = &children[at];
            Some(child.id)
        }
        Err(_) => None,
    }
}

/// Whether the name stands in the list.
pub fn contains(children: &[Child], name: &Name) -> bool
    requires { IsTrue (in_order children.now) }
    ensures { result ≡ has name.now children.now }
{
    id_of(children, name).is_some()
}
