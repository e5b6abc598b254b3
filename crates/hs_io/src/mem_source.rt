//! A source in memory, of which chosen calls fail.
ghost use Rattle.std.specs.Prelude.{◌≡◌, ◌≤◌, ◌↔◌, ◌++◌, min, length, take, drop, Some, IfOk, OnErr, IsErr, IsTrue};
ghost use Rattle.hs_types.specs.Faults.{one_more, fails_next};

use crate::input::{Failed, Source};
use hs_types::{List, Schedule};
use std::alloc::Global;
use std::marker::Model;

/// A list of bytes as a source. The calls with the chosen numbers, from 1, fail and do nothing else.
#[derive(Debug, Drop)]
pub struct MemSource {
    bytes: List<u8>,
    given: usize,
    schedule: Schedule,
}

impl Model for MemSource {
    ghost use Rattle.std.specs.Prelude.{drop, length, ◌≤◌};
    ghost use Rattle.hs_io.specs.Memory.{Input};

    ghost Value = { Input };

    ghost view = { λ s. record { rest = drop s.given s.bytes; fails = s.schedule.fails; calls = s.schedule.calls; faults = s.schedule.faults } };

    ghost invariant = { λ s. s.given ≤ length s.bytes };
}

impl MemSource {
    /// Gives these bytes. The numbers may stand in any order, and more than once.
    pub fn new(_alloc: Global, bytes: List<u8>, fails: List<u64>) -> MemSource
        ensures { result ≡ record { rest = bytes; fails = fails; calls = 0; faults = 0 } }
    {
        MemSource {
            bytes,
            given: 0,
            schedule: Schedule::new(fails),
        }
    }
}

impl Source for MemSource {
    ghost rest = { λ s. Some s.rest };

    ghost faults = { λ s. s.faults };

    fn read(&mut self, out: &mut [u8]) -> Result<usize, Failed>
        ensures fails { IsErr result ↔ IsTrue (fails_next self.old.fails self.old.calls) }
        ensures most { IfOk result (λ n. n ≡ min (length out.old) (length self.old.rest)) }
        ensures bytes { IfOk result (λ n. out.new ≡ take n self.old.rest ++ drop n out.old) }
        ensures rest { IfOk result (λ n. self.new ≡ record self.old { rest = drop n self.old.rest; calls = one_more self.old.calls }) }
        ensures untouched { OnErr result (out.new ≡ out.old) }
        ensures fault { OnErr result (self.new ≡ record self.old { calls = one_more self.old.calls; faults = one_more self.old.faults }) }
        ensures count { self.old.faults ≤ self.new.faults }
    {
        if self.schedule.next_fails() {
            return Err(Failed);
        }
        let rest = &self.bytes.items()[self.given..];
        let n = rest.len().min(out.len());
        out[..n].copy_from_slice(&rest[..n]);
        self.given += n;
        Ok(n)
    }
}
