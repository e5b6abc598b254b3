//! Snapshots stay as they were made.
ghost use Rattle.hs_plain.specs.Frozen.{FrozenStays, OnlySnapRen, OnlySnapDel, IdsIssued, IssuedStays};

/// No entry changes a snapshot but for its name: its copied tree, its directory and its tick stay. An id never comes again.
pub fn frozen_stays()
    ensures { FrozenStays }
{}

/// The name of a snapshot is changed by a rename of it alone.
pub fn only_snap_ren()
    ensures { OnlySnapRen }
{}

/// A snapshot is taken away by its deletion alone.
pub fn only_snap_del()
    ensures { OnlySnapDel }
{}

/// The ids of snapshots are issued from 1 on, and those that are there are below the next one.
pub fn ids_issued()
    ensures { IdsIssued }
{}

/// The next id never falls.
pub fn issued_stays()
    ensures { IssuedStays }
{}
