//! The snapshots of one directory.
ghost use Rattle.std.specs.Prelude.{◌≡◌, ◌-◌, ◌<◌, ◌^◌, ◌↔◌, [], ◌∷◌, ◌++◌, length, slice_get, false, Some, Err, IsTrue, OnOk, OnErr};
ghost use Rattle.std.specs.List.{find};
ghost use Rattle.std.specs.Option.{option_copied};
ghost use Rattle.snapshot_manager.specs.Snapshots.{has_name, has_id, is_after, is_named, without, renamed, NamesDiffer};
ghost use Rattle.snapshot_manager.specs.Inside.{AllBelow};

use crate::fault::RenameFault;
use hs_types::{Duplicate, Name, NoMemory, SnapId, SnapItem};
use indexmap::IndexMap;
use std::alloc::Global;
use std::collections::BTreeMap;
use std::marker::Model;
use std::ops::Bound::{Excluded, Unbounded};

/// The snapshots of one directory by rising id, which is the order of making, and the id of each name. So a name stands twice:
/// here as a key, and in the item that callers are lent.
#[derive(Drop)]
pub struct SnapTable {
    names: IndexMap<Name, SnapId>,
    items: BTreeMap<SnapId, SnapItem>,
}

impl Model for SnapTable {
    ghost use Rattle.std.specs.Prelude.{List};
    ghost use Rattle.hs_types.specs.declared.name.SnapItem.{SnapItem};
    ghost use Rattle.std.specs.BTreeMap.{values};
    ghost use Rattle.snapshot_manager.specs.Inside.{IsTable};

    ghost Value = { List SnapItem };

    ghost view = { λ t. values t.items };

    ghost invariant = { λ t. IsTable t.names.entries t.items.entries };
}

impl SnapTable {
    /// No snapshots. It takes no memory yet.
    pub fn new(alloc: Global) -> SnapTable
        ensures { result ≡ [] }
    {
        SnapTable {
            names: IndexMap::new(alloc),
            items: BTreeMap::new(alloc),
        }
    }

    pub fn len(&self) -> usize
        ensures len { result ≡ length self.now }
        ensures small { result < 2 ^ 63 }
    {
        self.items.len()
    }

    /// The snapshot of this name.
    pub fn get(&self, name: &Name) -> Option<&SnapItem>
        ensures { option_copied result ≡ find (has_name name.now) self.now }
    {
        let id = self.names.get(name)?;
        self.items.get(id)
    }

    /// The snapshot at this place in order of making, in as many steps.
    pub fn at(&self, place: usize) -> Option<&SnapItem>
        ensures { option_copied result ≡ slice_get self.now place }
    {
        self.items.values().nth(place)
    }

    /// The first snapshot with a greater id.
    pub fn after(&self, id: SnapId) -> Option<&SnapItem>
        ensures { option_copied result ≡ find (is_after id) self.now }
    {
        let (_, item) = self.items.range((Excluded(id), Unbounded)).next()?;
        Some(item)
    }

    /// The snapshot with this id.
    pub fn by_id(&self, id: SnapId) -> Option<&SnapItem>
        ensures { option_copied result ≡ find (has_id id) self.now }
    {
        self.items.get(&id)
    }

    /// The snapshot that was made last.
    pub fn last(&self) -> Option<&SnapItem>
        ensures { option_copied result ≡ slice_get self.now (length self.now - 1) }
    {
        let (_, item) = self.items.last_key_value()?;
        Some(item)
    }

    /// Puts a snapshot at the end.
    pub fn push(&mut self, item: SnapItem) -> Result<(), NoMemory>
        requires fresh { is_named item.name self.old ≡ false }
        requires last { AllBelow item.id self.old }
        ensures ok { OnOk result (self.new ≡ self.old ++ item ∷ []) }
        ensures err { OnErr result (self.new ≡ self.old) }
        ensures names { OnOk result (NamesDiffer self.new) }
    {
        let key = item.name.copy()?;
        let id = item.id;
        self.items.insert(id, item)?;
        if self.names.insert(key, id).is_err() {
            self.items.remove(&id);
            return Err(NoMemory);
        }
        Ok(())
    }

    /// Takes the snapshot of this name out. The others keep their order.
    pub fn remove(&mut self, name: &Name) -> Option<SnapItem>
        ensures found { result ≡ find (has_name name.now) self.old }
        ensures rest { self.new ≡ without name.now self.old }
        ensures names { NamesDiffer self.new }
    {
        let id = self.names.swap_remove(name)?;
        self.items.remove(&id)
    }

    /// Whether there is a snapshot of this name.
    pub fn has(&self, name: &Name) -> bool
        ensures { result ≡ is_named name.now self.now }
    {
        self.names.contains_key(name)
    }

    /// Gives the snapshot of a name another one.
    fn put_name(&mut self, old: &Name, new: Name) -> Result<(), NoMemory>
        requires fresh { is_named new self.old ≡ false }
        requires there { IsTrue (is_named old.now self.old) }
        ensures ok { OnOk result (self.new ≡ renamed old.now new self.old) }
        ensures err { OnErr result (self.new ≡ self.old) }
        ensures names { OnOk result (NamesDiffer self.new) }
    {
        let key = new.copy()?;
        let id = *self.names.get(old).unwrap();
        self.names.insert(key, id)?;
        self.names.swap_remove(old);
        let item = self.items.get_mut(&id).unwrap();
        item.name = new;
        Ok(())
    }

    /// Gives a snapshot another name. It keeps its id, its tick and its place in the order.
    pub fn rename(&mut self, old: &Name, new: Name) -> Result<(), RenameFault>
        ensures ok { OnOk result (self.new ≡ renamed old.now new self.old) }
        ensures err { OnErr result (self.new ≡ self.old) }
        ensures names { OnOk result (NamesDiffer self.new) }

        ensures taken { (result ≡ Err RenameFault.Taken) ↔ IsTrue (is_named new self.old) }
        ensures missing { (result ≡ Err RenameFault.Missing)
            ↔ ((is_named new self.old ≡ false) × (is_named old.now self.old ≡ false)) }
        ensures fresh { OnOk result (is_named new self.old ≡ false) }
        ensures found { OnOk result (IsTrue (is_named old.now self.old)) }
    {
        if self.has(&new) {
            return Err(RenameFault::Taken);
        }
        if !self.has(old) {
            return Err(RenameFault::Missing);
        }
        self.put_name(old, new)?;
        Ok(())
    }
}
