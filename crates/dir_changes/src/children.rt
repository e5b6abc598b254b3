//! A child list: entries in the order of their names.
ghost use Rattle.std.specs.Prelude.{◌≡◌, ℕ, ◌+◌, ◌<◌, ◌≤◌, ◌↔◌, [], length, slice_get, IsTrue, IfOk, IfSome, IsOk, OnOk, vec_len, vec_capacity};
ghost use Rattle.std.specs.Option.{option_map, option_copied};
ghost use Rattle.dir_changes.specs.Entries.{in_order, id_at, with_entry, without_name};

use crate::child::Child;
use crate::search;
use hs_types::{InodeId, Name, NoMemory};
use std::alloc::Global;
use std::marker::Model;

/// Entries in the order of their names, each name once. Contracts see the entries, and as a number how many more
/// fit without more memory.
#[derive(Debug, Drop)]
pub struct Children {
    entries: Vec<Child>,
}

impl Model for Children {
    ghost use Rattle.std.specs.Prelude.{◌-◌, IsTrue, vec_len, vec_capacity};
    ghost use Rattle.dir_changes.specs.Entries.{in_order};
    ghost use Rattle.dir_changes.specs.Children.{ChildList};

    ghost Value = { ChildList };

    ghost view = { λ c. record { entries = c.entries.items; room = vec_capacity c.entries - vec_len c.entries } };

    ghost invariant = { λ c. IsTrue (in_order c.entries.items) };
}

impl Children {
    /// An empty list. It takes no memory yet.
    pub(crate) fn new(alloc: Global) -> Children
        ensures { result.entries ≡ [] }
    {
        Children {
            entries: Vec::new(alloc),
        }
    }

    /// An empty list with room for that many entries.
    pub(crate) fn with_room(alloc: Global, room: usize) -> Result<Children, NoMemory>
        ensures empty { IfOk result (λ list. list.entries ≡ []) }
        ensures room { IfOk result (λ list. room ≤ list.room) }
    {
        Ok(Children {
            entries: Vec::with_capacity(alloc, room)?,
        })
    }

    /// Holds these entries, and takes no memory.
    pub(crate) fn of_vec(entries: Vec<Child>) -> Children
        requires { IsTrue (in_order entries.items) }
        ensures entries { result.entries ≡ entries.items }
        ensures room { vec_capacity entries ≡ result.room + vec_len entries }
    {
        Children { entries }
    }

    /// Gives the vector back, and takes no memory.
    pub(crate) fn into_vec(self) -> Vec<Child>
        ensures entries { result.items ≡ self.entries }
        ensures in_order { IsTrue (in_order self.entries) }
    {
        let Children { entries } = self;
        entries
    }

    pub fn items(&self) -> &[Child]
        ensures items { result.now ≡ self.now.entries }
        ensures in_order { IsTrue (in_order self.now.entries) }
    {
        self.entries.as_slice()
    }

    pub fn len(&self) -> usize
        ensures { result ≡ length self.now.entries }
    {
        self.entries.len()
    }

    pub fn is_empty(&self) -> bool
        ensures { IsTrue result ↔ (self.now.entries ≡ []) }
    {
        self.entries.is_empty()
    }

    pub fn get(&self, at: usize) -> Option<&Child>
        ensures { option_copied result ≡ slice_get self.now.entries at }
    {
        self.entries.get(at)
    }

    /// The id under a name. The list is searched by halves.
    pub fn id_of(&self, name: &Name) -> Option<InodeId>
        ensures { result ≡ id_at name.now self.now.entries }
    {
        search::id_of(self.entries.as_slice(), name)
    }

    /// The allocator that the list takes memory from.
    pub(crate) fn allocator(&self) -> Global {
        *self.entries.allocator()
    }

    /// Makes room for that many entries more.
    pub(crate) fn reserve(&mut self, more: usize) -> Result<(), NoMemory>
        ensures same { self.new.entries ≡ self.old.entries }
        ensures ok { OnOk result (more ≤ self.new.room) }
        ensures room { self.old.room ≤ self.new.room }
        ensures succeeds { more ≤ self.old.room → IsOk result }
    {
        self.entries.reserve(more)?;
        Ok(())
    }

    /// Gives memory back where there is more than twice what the entries and `keep` more take.
    pub(crate) fn shrink(&mut self, keep: usize)
        ensures same { self.new.entries ≡ self.old.entries }
        ensures room { (n : ℕ) → n ≤ keep → n ≤ self.old.room → n ≤ self.new.room }
    {
        let wanted = self.entries.len().saturating_add(keep);
        if self.entries.capacity() / 2 > wanted {
            self.entries.shrink_to(wanted);
        }
    }

    /// Puts an entry in its place, where there is room. One with its name makes way for it.
    pub(crate) fn put(&mut self, child: Child)
        requires { 0 < self.old.room }
        ensures put { self.new.entries ≡ with_entry child.0 child.1 self.old.entries }
        ensures len { length self.new.entries ≤ length self.old.entries + 1 }
        ensures room { self.old.room ≤ self.new.room + 1 }
    {
        match search::place(self.entries.as_slice(), &child.name) {
            Ok(at) => self.entries[at] = child,
            Err(at) => match self.entries.insert(at, child) {
                Ok(()) => {}
                Err(_) => unreachable!(),
            },
        }
    }

    /// Takes the entry of that name out. `None` exactly where it isn't there.
    pub(crate) fn take(&mut self, name: &Name) -> Option<Child>
        ensures found { option_map (λ child. child.1) result ≡ id_at name.now self.old.entries }
        ensures name { IfSome result (λ child. child.0 ≡ name.now) }
        ensures taken { self.new.entries ≡ without_name name.now self.old.entries }
        ensures len { length self.new.entries ≤ length self.old.entries }
        ensures room { self.old.room ≤ self.new.room }
    {
        match search::place(self.entries.as_slice(), name) {
            Ok(at) => Some(self.entries.remove(at)),
            Err(_) => None,
        }
    }
}
