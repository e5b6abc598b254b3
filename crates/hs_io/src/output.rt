//! Sinks of bytes, and the loop that writes all bytes to one.
ghost use Rattle.std.specs.Prelude.{◌≡◌, ◌<◌, ◌≤◌, List, ℕ, Option, [], Ok, Some, length, take, IfOk, OnOk, OnErr, IsErrOf};
ghost use Rattle.hs_io.specs.declared.output.SinkErr.TheVariants.{Failed as failed, NoMemory as no_memory};
ghost use Rattle.hs_io.specs.Bytes.{Takes, TakesSome};
ghost use Rattle.hs_io.specs.Errors.{sink_err_text};
ghost use Rattle.hs_types.specs.Faults.{Rose};

use crate::input::Failed;
use hs_types::NoMemory;
use std::alloc::AllocError;
use std::error::Error;
use std::fmt;

/// Why a sink took nothing.
#[derive(Clone, Copy, Debug, PartialEq, Eq)]
pub enum SinkErr {
    /// The sink failed, and its count of faults rose.
    Failed,
    NoMemory,
}

impl fmt::Display for SinkErr {
    ghost output = { λ e. Some (sink_err_text e) };

    fn fmt<W: fmt::Write>(&self, f: &mut fmt::Formatter<W>) -> fmt::Result {
        match self {
            SinkErr::Failed => f.write_str("write failed"),
            SinkErr::NoMemory => f.write_str("no memory"),
        }
    }
}

impl Error for SinkErr {}

impl From<Failed> for SinkErr {
    ghost from_gives = { λ _ e. e ≡ failed };

    fn from(_error: Failed) -> SinkErr {
        SinkErr::Failed
    }
}

impl From<NoMemory> for SinkErr {
    ghost from_gives = { λ _ e. e ≡ no_memory };

    fn from(_error: NoMemory) -> SinkErr {
        SinkErr::NoMemory
    }
}

impl From<AllocError> for SinkErr {
    ghost from_gives = { λ _ e. e ≡ no_memory };

    fn from(_error: AllocError) -> SinkErr {
        SinkErr::NoMemory
    }
}

/// Where bytes go to. Whether a sink tells what is written never changes.
pub trait Sink: Drop {
    /// The bytes written so far, where the sink tells them.
    ghost written: { Self → Option (List ℕ) };

    /// How often it has failed, up to the last number of a u64.
    ghost faults: { Self → ℕ };

    /// Takes some bytes from the front of the piece, and answers how many.
    fn write(&mut self, bytes: &[u8]) -> Result<usize, SinkErr>
        ensures bound { IfOk result (λ n. n ≤ length bytes.now) }
        ensures some { IfOk result (λ n. 0 < length bytes.now → 0 < n) }
        ensures taken { IfOk result (λ n. Takes (written self.old) (written self.new) (take n bytes.now)) }
        ensures kept { OnErr result (written self.new ≡ written self.old) }
        ensures count { faults self.old ≤ faults self.new }
        ensures cause { IsErrOf result SinkErr.Failed → Rose (faults self.old) (faults self.new) };
}

/// Writes all the bytes, or up to the first call that fails.
pub fn write_all<O: Sink>(sink: &mut O, bytes: &[u8]) -> Result<(), SinkErr>
    ensures written { OnOk result (Takes (O.written sink.old) (O.written sink.new) bytes.now) }
    ensures prefix { OnErr result (TakesSome (O.written sink.old) (O.written sink.new) bytes.now) }
    ensures count { O.faults sink.old ≤ O.faults sink.new }
    ensures cause { IsErrOf result SinkErr.Failed → Rose (O.faults sink.old) (O.faults sink.new) }

    // With no bytes the sink isn't called.
    ensures no_call { bytes.now ≡ [] → sink.new ≡ sink.old }
    ensures nothing { bytes.now ≡ [] → OnErr result ⊥ }
{
    let mut done = 0;
    while done < bytes.len() {
        let taken = sink.write(&bytes[done..])?;
        done += taken;
    }
    Ok(())
}
