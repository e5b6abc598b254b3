//! Which calls of an end or a store in memory are to fail, and the counting of faults.
ghost use Rattle.std.specs.Prelude.{◌≡◌, ◌≤◌, if◌then◌else◌};
ghost use Rattle.hs_types.specs.Faults.{one_more, fails_next};

use crate::list::List;

/// Which calls are to fail, by their numbers from 1, and how many were made and have failed.
#[derive(Debug, Drop)]
pub struct Schedule {
    pub fails: List<u64>,
    pub calls: u64,
    pub faults: u64,
}

impl Schedule {
    /// No call is made yet.
    pub fn new(fails: List<u64>) -> Schedule
        ensures { result ≡ record { fails = fails; calls = 0; faults = 0 } }
    {
        Schedule {
            fails,
            calls: 0,
            faults: 0,
        }
    }

    /// Counts the next call, and a fault where it is one of those that fail. Tells whether it is.
    pub fn next_fails(&mut self) -> bool
        ensures fails { result ≡ fails_next self.old.fails self.old.calls }
        ensures counted { self.new ≡ record self.old { calls = one_more self.old.calls; faults = if result then one_more self.old.faults else self.old.faults } }
        ensures count { self.old.faults ≤ self.new.faults }
    {
        self.calls = self.calls.saturating_add(1);
        let fails = self.fails.items().contains(&self.calls);
        if fails {
            self.faults = self.faults.saturating_add(1);
        }
        fails
    }
}
