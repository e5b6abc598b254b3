//! Which directory each live snapshot is of.
ghost use Rattle.std.specs.Prelude.{◌≡◌, [], None, Some, OnOk, OnErr};
ghost use Rattle.snapshot_manager.specs.Owners.{owner_of, any_between, SetsOwner};

use hs_types::{InodeId, NoMemory, SnapId};
use std::alloc::Global;
use std::collections::BTreeMap;
use std::marker::Model;
use std::ops::Bound::{Excluded, Included};

/// The live snapshots of all directories by rising id, each with its directory.
#[derive(Drop)]
pub struct Owners {
    owners: BTreeMap<SnapId, InodeId>,
}

impl Model for Owners {
    ghost use Rattle.std.specs.Prelude.{List};
    ghost use Rattle.hs_types.specs.declared.ids.InodeId.{InodeId};
    ghost use Rattle.hs_types.specs.declared.ids.SnapId.{SnapId};

    ghost Value = { List (SnapId × InodeId) };

    ghost view = { λ o. o.owners.entries };
}

impl Owners {
    /// No snapshots. It takes no memory yet.
    pub fn new(alloc: Global) -> Owners
        ensures { result ≡ [] }
    {
        Owners {
            owners: BTreeMap::new(alloc),
        }
    }

    /// The directory of the snapshot with this id.
    pub fn get(&self, id: SnapId) -> Option<InodeId>
        ensures { result ≡ owner_of self.now id }
    {
        self.owners.get(&id).copied()
    }

    pub fn insert(&mut self, id: SnapId, dir: InodeId) -> Result<(), NoMemory>
        ensures ok { OnOk result (SetsOwner self.old self.new id (Some dir)) }
        ensures err { OnErr result (self.new ≡ self.old) }
    {
        self.owners.insert(id, dir)?;
        Ok(())
    }

    pub fn remove(&mut self, id: SnapId)
        ensures { SetsOwner self.old self.new id None }
    {
        self.owners.remove(&id);
    }

    /// Whether a live id is above `low` and at most `high`.
    pub fn any_between(&self, low: SnapId, high: SnapId) -> bool
        ensures { result ≡ any_between low high self.now }
    {
        if low >= high {
            return false;
        }
        self.owners
            .range((Excluded(low), Included(high)))
            .next()
            .is_some()
    }
}
