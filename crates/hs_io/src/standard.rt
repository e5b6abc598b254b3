//! Sources and sinks over std's readers and writers. As sources and sinks they don't tell their bytes: they are
//! the trusted edge.
ghost use Rattle.std.specs.Prelude.{◌≡◌, ◌<◌, ◌≤◌, None, length, IfOk, OnOk, OnErr};
ghost use Rattle.std.specs.Io.KnownBytes.{ReadConsumes, WriteAppends};
ghost use Rattle.hs_types.specs.Faults.{one_more};

use crate::input::{Failed, Source};
use crate::output::{Sink, SinkErr};
use std::io;
use std::marker::Model;

/// A reader as a source. Every error of the reader is a fault.
#[derive(Drop)]
pub struct StdSource<R: io::Read + Drop> {
    reader: R,
    faults: u64,
}

impl<R: io::Read + Drop> Model for StdSource<R> {
    ghost use Rattle.hs_io.specs.Standard.{Through};

    ghost Value = { Through R };

    ghost view = { λ s. record { inner = s.reader; faults = s.faults } };
}

impl<R: io::Read + Drop> StdSource<R> {
    pub fn new(reader: R) -> StdSource<R>
        ensures { result ≡ record { inner = reader; faults = 0 } }
    {
        StdSource { reader, faults: 0 }
    }
}

impl<R: io::Read + Drop> Source for StdSource<R> {
    ghost rest = { λ _. None };

    ghost faults = { λ s. s.faults };

    fn read(&mut self, out: &mut [u8]) -> Result<usize, Failed>
        ensures bound { IfOk result (λ n. n ≤ length out.new) }
        ensures bytes { ReadConsumes (R.remaining self.old.inner) (R.remaining self.new.inner) result out.new }
        ensures ok { OnOk result (self.new.faults ≡ self.old.faults) }
        ensures fault { OnErr result (self.new.faults ≡ one_more self.old.faults) }
        ensures count { self.old.faults ≤ self.new.faults }
    {
        match self.reader.read(out) {
            Ok(n) => Ok(n),
            Err(_) => {
                self.faults = self.faults.saturating_add(1);
                Err(Failed)
            }
        }
    }
}

/// A writer as a sink. Every error of the writer is a fault, and so is a write that takes nothing.
#[derive(Drop)]
pub struct StdSink<W: io::Write + Drop> {
    writer: W,
    faults: u64,
}

impl<W: io::Write + Drop> Model for StdSink<W> {
    ghost use Rattle.hs_io.specs.Standard.{Through};

    ghost Value = { Through W };

    ghost view = { λ s. record { inner = s.writer; faults = s.faults } };
}

impl<W: io::Write + Drop> StdSink<W> {
    pub fn new(writer: W) -> StdSink<W>
        ensures { result ≡ record { inner = writer; faults = 0 } }
    {
        StdSink { writer, faults: 0 }
    }
}

impl<W: io::Write + Drop> Sink for StdSink<W> {
    ghost written = { λ _. None };

    ghost faults = { λ s. s.faults };

    fn write(&mut self, bytes: &[u8]) -> Result<usize, SinkErr>
        ensures bound { IfOk result (λ n. n ≤ length bytes.now) }
        ensures some { IfOk result (λ n. 0 < length bytes.now → 0 < n) }
        ensures bytes { WriteAppends (W.contents self.old.inner) (W.contents self.new.inner) result bytes.now }
        ensures ok { OnOk result (self.new.faults ≡ self.old.faults) }
        ensures fault { OnErr result (self.new.faults ≡ one_more self.old.faults) }
        ensures count { self.old.faults ≤ self.new.faults }
    {
        match self.writer.write(bytes) {
            Ok(n) if n > 0 || bytes.is_empty() => Ok(n),
            _ => {
                self.faults = self.faults.saturating_add(1);
                Err(SinkErr::Failed)
            }
        }
    }
}
