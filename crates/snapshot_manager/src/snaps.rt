//! The snapshots of a namenode.
ghost use Rattle.std.specs.Prelude.{◌≡◌, ◌+◌, ◌-◌, ◌<◌, nat_lt, ◌≤◌, ◌^◌, ◌↔◌, [], length, slice_get, false, Err, Some, IsTrue, IsSome, IfSome, IsOk, IfOk, OnOk, OnErr, IsErrOf};
ghost use Rattle.std.specs.List.{find, list_any};
ghost use Rattle.std.specs.Option.{option_copied, option_map};
ghost use Rattle.std.specs.BTreeMap.{keys};
ghost use Rattle.snapshot_manager.specs.Snapshots.{snaps_of, snaps_in, has_name, is_named, is_after, is_between, live, live_at, last_id, start, allowed, disallowed, changed, added, without, renamed, IdsApart, IsHistory, IsProper};

use crate::fault::{AddFault, RenameFault};
use crate::owners::Owners;
use crate::table::SnapTable;
use hs_types::{InodeId, Name, NoMemory, SnapId, SnapItem};
use std::alloc::Global;
use std::collections::BTreeMap;
use std::marker::Model;
use std::ops::Bound::{Excluded, Unbounded};

/// How many snapshots a directory may have at a time.
pub const SNAPSHOT_LIMIT: usize = 65_536;

/// The snapshottable directories of a namenode with their snapshots. Ids of snapshots count from 1 over all directories and are
/// never used again.
#[derive(Drop)]
pub struct Snaps {
    alloc: Global,
    dirs: BTreeMap<InodeId, SnapTable>,
    owners: Owners,
    issued: SnapId,
}

impl Model for Snaps {
    ghost use Rattle.snapshot_manager.specs.Snapshots.{Snapshots, IsProper};
    ghost use Rattle.snapshot_manager.specs.Owners.{IsIndexed};

    ghost Value = { Snapshots };

    ghost view = { λ s. record { dirs = s.dirs.entries; issued = s.issued } };

    ghost invariant = { λ s. IsProper (record { dirs = s.dirs.entries; issued = s.issued }) × IsIndexed s.owners (record { dirs = s.dirs.entries; issued = s.issued }) };
}

impl Snaps {
    /// No snapshottable directory. It takes no memory yet.
    pub fn new(alloc: Global) -> Snaps
        ensures { result ≡ start }
    {
        Snaps {
            alloc,
            dirs: BTreeMap::new(alloc),
            owners: Owners::new(alloc),
            issued: SnapId(0),
        }
    }

    /// Makes a directory snapshottable. One that is snapshottable already stays as it is, and takes no memory.
    pub fn allow(&mut self, dir: InodeId) -> Result<(), NoMemory>
        ensures ok { OnOk result (self.new ≡ allowed dir self.old) }
        ensures err { OnErr result (self.new ≡ self.old) }
        ensures already { IsSome (snaps_of self.old dir) → IsOk result }
    {
        if self.dirs.contains_key(&dir) {
            return Ok(());
        }
        let table = SnapTable::new(self.alloc);
        self.dirs.insert(dir, table)?;
        Ok(())
    }

    /// Makes a directory without snapshots snapshottable no more. Nothing changes where it isn't snapshottable.
    pub fn disallow(&mut self, dir: InodeId)
        requires { snaps_in self.old dir ≡ [] }
        ensures { self.new ≡ disallowed dir self.old }
    {
        self.dirs.remove(&dir);
    }

    /// Makes a snapshot at the end of a directory's, with the next id. A fault leaves all as it was.
    pub fn add(&mut self, dir: InodeId, name: Name, tick: u64) -> Result<SnapId, AddFault>
        requires snapshottable { IsSome (snaps_of self.old dir) }
        requires room { self.old.issued.0 + 1 < 2 ^ 64 }

        ensures next_id { IfOk result (λ id. id.0 ≡ self.old.issued.0 + 1) }
        ensures ok { IfOk result (λ id. self.new ≡ added dir (record { id = id; tick = tick; name = name }) self.old) }
        ensures err { OnErr result (self.new ≡ self.old) }

        ensures taken { (result ≡ Err AddFault.Taken) ↔ IsTrue (is_named name (snaps_in self.old dir)) }
        ensures full { (result ≡ Err AddFault.Full)
            ↔ ((is_named name (snaps_in self.old dir) ≡ false) × (length (snaps_in self.old dir) ≡ SNAPSHOT_LIMIT)) }
        ensures fresh { OnOk result (is_named name (snaps_in self.old dir) ≡ false) }
        ensures below_limit { OnOk result (length (snaps_in self.old dir) < SNAPSHOT_LIMIT) }
    {
        self.has_room(dir, &name)?;
        let id = SnapId(self.issued.0 + 1);
        self.append(dir, SnapItem { id, tick, name })?;
        Ok(id)
    }

    /// Whether the directory may have one more snapshot, of this name.
    fn has_room(&self, dir: InodeId, name: &Name) -> Result<(), AddFault>
        requires { IsSome (snaps_of self.now dir) }
        ensures fresh { OnOk result (is_named name.now (snaps_in self.now dir) ≡ false) }
        ensures below_limit { OnOk result (length (snaps_in self.now dir) < SNAPSHOT_LIMIT) }

        ensures taken { IsErrOf result AddFault.Taken → IsTrue (is_named name.now (snaps_in self.now dir)) }
        ensures full { IsErrOf result AddFault.Full
            → ((is_named name.now (snaps_in self.now dir) ≡ false) × (length (snaps_in self.now dir) ≡ SNAPSHOT_LIMIT)) }
        ensures memory { IsErrOf result AddFault.NoMemory → ⊥ }
    {
        let table = self.table_of(dir).unwrap();
        if table.has(name) {
            return Err(AddFault::Taken);
        }
        if table.len() >= SNAPSHOT_LIMIT {
            return Err(AddFault::Full);
        }
        Ok(())
    }

    /// Puts a snapshot at the end of a directory's.
    fn append(&mut self, dir: InodeId, item: SnapItem) -> Result<(), NoMemory>
        requires snapshottable { IsSome (snaps_of self.old dir) }
        requires id { item.id.0 ≡ self.old.issued.0 + 1 }
        requires fresh { is_named item.name (snaps_in self.old dir) ≡ false }
        requires below_limit { length (snaps_in self.old dir) < SNAPSHOT_LIMIT }
        ensures ok { OnOk result (self.new ≡ added dir item self.old) }
        ensures err { OnErr result (self.new ≡ self.old) }
    {
        let id = item.id;
        self.owners.insert(id, dir)?;
        let table = self.dirs.get_mut(&dir).unwrap();
        if table.push(item).is_err() {
            self.owners.remove(id);
            return Err(NoMemory);
        }
        self.issued = id;
        Ok(())
    }

    /// Removes a snapshot, and hands its id out. The others keep their order, and it takes no memory.
    pub fn remove(&mut self, dir: InodeId, name: &Name) -> Option<SnapId>
        ensures id { result ≡ option_map (λ item. item.id) (find (has_name name.now) (snaps_in self.old dir)) }
        ensures rest { self.new ≡ changed dir (without name.now) self.old }
    {
        let table = self.dirs.get_mut(&dir)?;
        let item = table.remove(name)?;
        self.owners.remove(item.id);
        Some(item.id)
    }

    /// Gives a snapshot another name. It keeps its id, its tick and its place in the order.
    pub fn rename(&mut self, dir: InodeId, old: &Name, new: Name) -> Result<(), RenameFault>
        ensures ok { OnOk result (self.new ≡ changed dir (renamed old.now new) self.old) }
        ensures err { OnErr result (self.new ≡ self.old) }

        ensures taken { (result ≡ Err RenameFault.Taken) ↔ IsTrue (is_named new (snaps_in self.old dir)) }
        ensures missing { (result ≡ Err RenameFault.Missing)
            ↔ ((is_named new (snaps_in self.old dir) ≡ false) × (is_named old.now (snaps_in self.old dir) ≡ false)) }
        ensures fresh { OnOk result (is_named new (snaps_in self.old dir) ≡ false) }
        ensures found { OnOk result (IsTrue (is_named old.now (snaps_in self.old dir))) }
    {
        let Some(table) = self.dirs.get_mut(&dir) else {
            return Err(RenameFault::Missing);
        };
        table.rename(old, new)
    }

    fn table_of(&self, dir: InodeId) -> Option<&SnapTable>
        ensures value { option_copied result ≡ snaps_of self.now dir }
        ensures history { IfSome result (λ table. IsHistory self.now.issued.0 table.now) }
    {
        self.dirs.get(&dir)
    }

    /// How many snapshots a directory has; none where it isn't snapshottable.
    pub fn count_of(&self, dir: InodeId) -> Option<usize>
        ensures { result ≡ option_map (λ items. length items) (snaps_of self.now dir) }
    {
        let table = self.table_of(dir)?;
        Some(table.len())
    }

    /// The snapshot of this name.
    pub fn by_name(&self, dir: InodeId, name: &Name) -> Option<&SnapItem>
        ensures { option_copied result ≡ find (has_name name.now) (snaps_in self.now dir) }
    {
        self.table_of(dir)?.get(name)
    }

    /// The snapshot at this place in order of making, in as many steps: who goes over all of them asks `snap_after`.
    pub fn snap_at(&self, dir: InodeId, i: usize) -> Option<&SnapItem>
        ensures { option_copied result ≡ slice_get (snaps_in self.now dir) i }
    {
        self.table_of(dir)?.at(i)
    }

    /// The first snapshot of a directory that was made after the one with this id; id 0 stands before all.
    pub fn snap_after(&self, dir: InodeId, id: SnapId) -> Option<&SnapItem>
        ensures { option_copied result ≡ find (is_after id) (snaps_in self.now dir) }
    {
        self.table_of(dir)?.after(id)
    }

    /// The snapshottable directory at this place by rising id, in as many steps: who goes over all of them asks `dir_after`.
    pub fn dir_at(&self, i: usize) -> Option<InodeId>
        ensures { result ≡ option_map (λ d. d.0) (slice_get self.now.dirs i) }
    {
        nth_key(&self.dirs, i).copied()
    }

    /// The first snapshottable directory with a greater id.
    pub fn dir_after(&self, dir: InodeId) -> Option<InodeId>
        ensures { result ≡ option_map (λ d. d.0) (find (λ d. nat_lt dir.0 d.0.0) self.now.dirs) }
    {
        let (above, _) = self.dirs.range((Excluded(dir), Unbounded)).next()?;
        Some(*above)
    }

    /// The live snapshot with this id, and its directory.
    pub fn by_id(&self, id: SnapId) -> Option<(InodeId, &SnapItem)>
        ensures { option_map (λ p. (p.0, p.1.now)) result ≡ live_at self.now id }
    {
        let dir = self.owners.get(id)?;
        let item = self.table_of(dir)?.by_id(id)?;
        Some((dir, item))
    }

    /// The greatest live snapshot id of a directory.
    pub fn last_of(&self, dir: InodeId) -> Option<SnapId>
        ensures { result ≡ last_id (snaps_in self.now dir) }
    {
        let item = self.table_of(dir)?.last()?;
        Some(item.id)
    }

    /// The greatest snapshot id that was issued, 0 before the first.
    pub fn issued(&self) -> SnapId
        ensures { result ≡ self.now.issued }
    {
        self.issued
    }

    /// What holds of the snapshots at all times. It does nothing.
    pub fn always(&self)
        ensures proper { IsProper self.now }
        ensures apart { IdsApart self.now }
    {
        let _ = &self.dirs;
    }

    /// Whether a live id of any directory is above `low` and at most `high`.
    pub fn live_between(&self, low: SnapId, high: SnapId) -> bool
        ensures { result ≡ list_any (λ p. is_between low high p.1.id) (live self.now) }
    {
        self.owners.any_between(low, high)
    }
}

fn nth_key(dirs: &BTreeMap<InodeId, SnapTable>, i: usize) -> Option<&InodeId>
    ensures { option_copied result ≡ slice_get (keys dirs.now) i }
{
    dirs.keys().nth(i)
}
