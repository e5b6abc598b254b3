//! Sources of bytes, and the loop that reads one to its end.
ghost use Rattle.std.specs.Prelude.{◌≡◌, ◌+◌, ◌<◌, ◌≤◌, List, ℕ, Option, Some, codes, length, take, drop, IfOk, IfErr, IfSome, OnOk, OnErr, IsErrOf};
ghost use Rattle.hs_io.specs.declared.input.InputErr.TheVariants.{Failed as failed, NoMemory as no_memory};
ghost use Rattle.hs_io.specs.Bytes.{Gives, IsEnded};
ghost use Rattle.hs_io.specs.Errors.{input_err_text};
ghost use Rattle.hs_io.specs.Lost.{IsLost};
ghost use Rattle.hs_types.specs.Faults.{Rose};

use hs_types::{List, NoMemory};
use std::alloc::{AllocError, Global};
use std::error::Error;
use std::fmt;

/// An end failed: it did nothing, and its count of faults rose.
#[derive(Clone, Copy, Debug, PartialEq, Eq)]
pub struct Failed;

impl fmt::Display for Failed {
    ghost output = { λ _. Some (codes "failed") };

    fn fmt<W: fmt::Write>(&self, f: &mut fmt::Formatter<W>) -> fmt::Result {
        f.write_str("failed")
    }
}

impl Error for Failed {}

/// Where bytes come from. Whether a source tells its rest never changes.
pub trait Source: Drop {
    /// The bytes still to come, where the source tells them.
    ghost rest: { Self → Option (List ℕ) };

    /// How often it has failed, up to the last number of a u64.
    ghost faults: { Self → ℕ };

    /// Puts some of the bytes to come at the front of `out`, and answers how many. None for an `out`
    /// that isn't empty is the end. Behind those bytes `out` may hold anything.
    fn read(&mut self, out: &mut [u8]) -> Result<usize, Failed>
        ensures bound { IfOk result (λ n. n ≤ length out.new) }
        ensures given { IfOk result (λ n. Gives (rest self.old) (rest self.new) (take n out.new)) }
        ensures end { IfOk result (λ n. n ≡ 0 → 0 < length out.new → IsEnded (rest self.new)) }
        ensures kept { OnErr result (rest self.new ≡ rest self.old) }
        ensures count { faults self.old ≤ faults self.new }
        ensures cause { OnErr result (Rose (faults self.old) (faults self.new)) };
}

/// Why an input wasn't read whole.
#[derive(Clone, Copy, Debug, PartialEq, Eq)]
pub enum InputErr {
    /// A byte past the limit was read.
    TooLarge,
    /// The source failed.
    Failed,
    NoMemory,
}

impl fmt::Display for InputErr {
    ghost output = { λ e. Some (input_err_text e) };

    fn fmt<W: fmt::Write>(&self, f: &mut fmt::Formatter<W>) -> fmt::Result {
        match self {
            InputErr::TooLarge => f.write_str("input too large"),
            InputErr::Failed => f.write_str("read failed"),
            InputErr::NoMemory => f.write_str("no memory"),
        }
    }
}

impl Error for InputErr {}

impl From<Failed> for InputErr {
    ghost from_gives = { λ _ e. e ≡ failed };

    fn from(_error: Failed) -> InputErr {
        InputErr::Failed
    }
}

impl From<NoMemory> for InputErr {
    ghost from_gives = { λ _ e. e ≡ no_memory };

    fn from(_error: NoMemory) -> InputErr {
        InputErr::NoMemory
    }
}

impl From<AllocError> for InputErr {
    ghost from_gives = { λ _ e. e ≡ no_memory };

    fn from(_error: AllocError) -> InputErr {
        InputErr::NoMemory
    }
}

/// The least room for one read, unless the limit is nearer.
const LEAST_PIECE: usize = 64 * 1024;

/// The room that is made first.
const FIRST_ROOM: usize = 128 * 1024;

/// Reads a source to its end, or up to the first byte past the limit. After an `Err` the bytes that it gave are lost.
pub fn read_all<S: Source>(
    alloc: Global,
    source: &mut S,
    limit: usize,
) -> Result<List<u8>, InputErr>
    ensures given { IfOk result (λ bytes. Gives (S.rest source.old) (S.rest source.new) bytes) }
    ensures end { OnOk result (IsEnded (S.rest source.new)) }
    ensures whole { IfOk result (λ bytes. IfSome (S.rest source.old) (λ rest. bytes ≡ rest)) }
    ensures within { IfOk result (λ bytes. length bytes ≤ limit) }

    // TooLarge comes exactly where one byte past the limit was read, and no further one is read then.
    ensures lost { IfErr result (IsLost limit (S.rest source.old) (S.rest source.new)) }
    ensures too_long { IsErrOf result InputErr.TooLarge → IfSome (S.rest source.old) (λ rest. limit < length rest) }

    ensures count { S.faults source.old ≤ S.faults source.new }
    ensures cause { IsErrOf result InputErr.Failed → Rose (S.faults source.old) (S.faults source.new) }
{
    let mut bytes = Vec::new(alloc);
    let mut filled = 0;
    while filled <= limit {
        let given = read_piece(source, &mut bytes, filled, limit)?;
        if given == 0 {
            bytes.truncate(filled);
            return Ok(List::of(bytes));
        }
        filled += given;
    }
    Err(InputErr::TooLarge)
}

/// Makes room, and reads once behind the bytes that are filled.
fn read_piece<S: Source>(
    source: &mut S,
    bytes: &mut Vec<u8>,
    filled: usize,
    limit: usize,
) -> Result<usize, InputErr>
    requires filled { filled ≤ length bytes.old.items }
    requires more { filled ≤ limit }
    requires limit { length bytes.old.items ≤ limit + 1 }
    ensures front { take filled bytes.new.items ≡ take filled bytes.old.items }
    ensures limit { length bytes.new.items ≤ limit + 1 }
    ensures bound { IfOk result (λ n. filled + n ≤ length bytes.new.items) }
    ensures given { IfOk result (λ n. Gives (S.rest source.old) (S.rest source.new) (take n (drop filled bytes.new.items))) }
    ensures end { IfOk result (λ n. n ≡ 0 → IsEnded (S.rest source.new)) }
    ensures kept { OnErr result (S.rest source.new ≡ S.rest source.old) }
    ensures count { S.faults source.old ≤ S.faults source.new }
    ensures cause { IsErrOf result InputErr.Failed → Rose (S.faults source.old) (S.faults source.new) }
    ensures not_past { IsErrOf result InputErr.TooLarge → ⊥ }
{
    make_room(bytes, filled, limit)?;
    Ok(read_at(source, bytes.as_mut_slice(), filled)?)
}

/// Reads once, behind the bytes that are filled.
fn read_at<S: Source>(source: &mut S, bytes: &mut [u8], filled: usize) -> Result<usize, Failed>
    requires { filled < length bytes.old }
    ensures front { take filled bytes.new ≡ take filled bytes.old }
    ensures bound { IfOk result (λ n. filled + n ≤ length bytes.new) }
    ensures given { IfOk result (λ n. Gives (S.rest source.old) (S.rest source.new) (take n (drop filled bytes.new))) }
    ensures end { IfOk result (λ n. n ≡ 0 → IsEnded (S.rest source.new)) }
    ensures kept { OnErr result (S.rest source.new ≡ S.rest source.old) }
    ensures count { S.faults source.old ≤ S.faults source.new }
    ensures cause { OnErr result (Rose (S.faults source.old) (S.faults source.new)) }
{
    source.read(&mut bytes[filled..])
}

/// Makes room behind the bytes that are filled, for a piece or up to the first byte past the limit. The room
/// doubles, and what an earlier read left of it is used again.
fn make_room(bytes: &mut Vec<u8>, filled: usize, limit: usize) -> Result<(), AllocError>
    requires filled { filled ≤ length bytes.old.items }
    requires limit { length bytes.old.items ≤ limit + 1 }
    ensures front { take filled bytes.new.items ≡ take filled bytes.old.items }
    ensures filled { filled ≤ length bytes.new.items }
    ensures room { OnOk result (filled ≤ limit → filled < length bytes.new.items) }
    ensures limit { length bytes.new.items ≤ limit + 1 }
{
    let room = bytes.len() - filled;
    if room < LEAST_PIECE {
        let wanted = bytes.len().saturating_mul(2).max(FIRST_ROOM);
        let most = limit.saturating_add(1);
        bytes.resize(wanted.min(most), 0)?;
    }
    Ok(())
}
