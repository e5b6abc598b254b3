//! A sink in memory, of which chosen calls fail.
ghost use Rattle.std.specs.Prelude.{◌≡◌, ◌≤◌, ◌↔◌, [], ◌++◌, length, Some, IfOk, OnOk, OnErr, IsErrOf, IsTrue};
ghost use Rattle.hs_types.specs.Faults.{one_more, fails_next};

use crate::output::{Sink, SinkErr};
use hs_types::{List, NoMemory, Schedule};
use std::alloc::Global;
use std::marker::Model;
use std::mem;

/// A growing list of bytes as a sink. The calls with the chosen numbers, from 1, fail and do nothing else.
#[derive(Debug, Drop)]
pub struct MemSink {
    alloc: Global,
    written: List<u8>,
    schedule: Schedule,
}

impl Model for MemSink {
    ghost use Rattle.hs_io.specs.Memory.{Output};

    ghost Value = { Output };

    ghost view = { λ s. record { written = s.written; fails = s.schedule.fails; calls = s.schedule.calls; faults = s.schedule.faults } };
}

impl MemSink {
    /// Nothing is written yet. The numbers may stand in any order, and more than once.
    pub fn new(alloc: Global, fails: List<u64>) -> MemSink
        ensures { result ≡ record { written = []; fails = fails; calls = 0; faults = 0 } }
    {
        MemSink {
            alloc,
            written: List::new(alloc),
            schedule: Schedule::new(fails),
        }
    }

    pub fn written(&self) -> &List<u8>
        ensures { result.now ≡ self.now.written }
    {
        &self.written
    }
}

impl Sink for MemSink {
    ghost written = { λ s. Some s.written };

    ghost faults = { λ s. s.faults };

    fn write(&mut self, bytes: &[u8]) -> Result<usize, SinkErr>
        ensures fails { IsErrOf result SinkErr.Failed ↔ IsTrue (fails_next self.old.fails self.old.calls) }
        ensures all { IfOk result (λ n. n ≡ length bytes.now) }
        ensures written { OnOk result (self.new ≡ record self.old { written = self.old.written ++ bytes.now; calls = one_more self.old.calls }) }
        ensures fault { IsErrOf result SinkErr.Failed → self.new ≡ record self.old { calls = one_more self.old.calls; faults = one_more self.old.faults } }
        ensures no_memory { IsErrOf result SinkErr.NoMemory → self.new ≡ record self.old { calls = one_more self.old.calls } }
        ensures count { self.old.faults ≤ self.new.faults }
    {
        if self.schedule.next_fails() {
            return Err(SinkErr::Failed);
        }
        append(self.alloc, &mut self.written, bytes)?;
        Ok(bytes.len())
    }
}

/// Puts bytes at the end of a list. Without memory it is as before.
fn append(alloc: Global, list: &mut List<u8>, bytes: &[u8]) -> Result<(), NoMemory>
    ensures ok { OnOk result (list.new ≡ list.old ++ bytes.now) }
    ensures err { OnErr result (list.new ≡ list.old) }
{
    let mut items = mem::replace(list, List::new(alloc)).into_vec();
    let grown = items.extend_from_slice(bytes);
    *list = List::of(items);
    Ok(grown?)
}
