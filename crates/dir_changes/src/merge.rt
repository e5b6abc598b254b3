//! Whole lists put together and taken apart, in one pass.
ghost use Rattle.std.specs.Prelude.{◌≡◌, ◌+◌, ◌≤◌, [], ◌∷◌, ◌++◌, IsTrue, IfOk, length, vec_len, vec_capacity};
ghost use Rattle.std.specs.VecDeque.{deque_len};
ghost use Rattle.dir_changes.specs.Entries.{in_order, has, without, with_all};
ghost use Rattle.dir_changes.specs.Merge.{smaller, greater};

use crate::child::Child;
use crate::search::{compare, contains};
use hs_types::{Duplicate, Name, NoMemory};
use std::alloc::Global;
use std::cmp::Ordering;
use std::collections::VecDeque;

/// Copies each entry in turn.
pub fn copies(alloc: Global, children: &[Child]) -> Result<Vec<Child>, NoMemory>
    ensures { IfOk result (λ copy. copy.items ≡ children.now) }
{
    let mut copy = Vec::with_capacity(alloc, children.len())?;
    for child in children {
        copy.push(child.copy()?)?;
    }
    Ok(copy)
}

/// Drops the entries whose names stand in the other list.
pub fn drop_names(list: &mut Vec<Child>, names: &[Child])
    requires { IsTrue (in_order names.now) }
    ensures kept { list.new.items ≡ without names.now list.old.items }
    ensures len { vec_len list.new ≤ vec_len list.old }
    ensures capacity { vec_capacity list.new ≡ vec_capacity list.old }
{
    list.retain(|child| !stands_in(names, child));
}

/// Whether the entry's name stands in the list.
pub fn stands_in(names: &[Child], child: &Child) -> bool
    requires { IsTrue (in_order names.now) }
    ensures { result ≡ has child.now.0 names.now }
{
    contains(names, &child.name)
}

/// Moves the entries with smaller names to `out`, and drops one of the very name.
fn move_smaller(out: &mut Vec<Child>, list: &mut VecDeque<Child>, name: &Name)
    requires { vec_len out.old + deque_len list.old ≤ vec_capacity out.old }
    ensures moved { out.new.items ≡ out.old.items ++ smaller name.now list.old.items }
    ensures rest { list.new.items ≡ greater name.now list.old.items }
    ensures capacity { vec_capacity out.new ≡ vec_capacity out.old }
    ensures room { vec_len out.new + deque_len list.new ≤ vec_len out.old + deque_len list.old }
{
    while let Some(first) = list.front() {
        match compare(first, name) {
            Ordering::Less => {
                if let Some(child) = list.pop_front() {
                    out.push_reserved(child);
                }
            }
            Ordering::Equal => {
                list.pop_front();
                return;
            }
            Ordering::Greater => return,
        }
    }
}

/// Moves the entries of `list` to the end of `out`, with each of `more` in its place.
pub fn put_all(out: &mut Vec<Child>, mut list: VecDeque<Child>, mut more: VecDeque<Child>)
    requires list_in_order { IsTrue (in_order list.items) }
    requires more_in_order { IsTrue (in_order more.items) }
    requires room { vec_len out.old + (deque_len list + deque_len more) ≤ vec_capacity out.old }
    ensures items { out.new.items ≡ out.old.items ++ with_all more.items list.items }
    ensures len { vec_len out.new ≤ vec_len out.old + (deque_len list + deque_len more) }
    ensures capacity { vec_capacity out.new ≡ vec_capacity out.old }
{
    while let Some(child) = more.pop_front() {
        put_after_smaller(out, &mut list, child);
    }
    push_all(out, list);
}

/// Moves all entries to `out`.
fn push_all(out: &mut Vec<Child>, mut list: VecDeque<Child>)
    requires { vec_len out.old + deque_len list ≤ vec_capacity out.old }
    ensures items { out.new.items ≡ out.old.items ++ list.items }
    ensures len { vec_len out.new ≡ vec_len out.old + deque_len list }
    ensures capacity { vec_capacity out.new ≡ vec_capacity out.old }
{
    while let Some(child) = list.pop_front() {
        out.push_reserved(child);
    }
}

/// Moves the entries with smaller names to `out`, and then the entry itself.
fn put_after_smaller(out: &mut Vec<Child>, list: &mut VecDeque<Child>, child: Child)
    requires { vec_len out.old + (deque_len list.old + 1) ≤ vec_capacity out.old }
    ensures moved { out.new.items ≡ out.old.items ++ smaller child.0 list.old.items ++ child ∷ [] }
    ensures rest { list.new.items ≡ greater child.0 list.old.items }
    ensures capacity { vec_capacity out.new ≡ vec_capacity out.old }
    ensures room { vec_len out.new + deque_len list.new ≤ vec_len out.old + (deque_len list.old + 1) }
{
    move_smaller(out, list, &child.name);
    out.push_reserved(child);
}
