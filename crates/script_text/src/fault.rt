//! Why a text is no script.
ghost use Rattle.std.specs.Prelude.{◌≡◌};
ghost use Rattle.script_text.specs.declared.fault.LineFault.TheVariants.{NoMemory as line_no_memory};
ghost use Rattle.script_text.specs.declared.fault.ReadScriptFault.TheVariants.{NoMemory as script_no_memory};

use hs_types::NoMemory;
use std::alloc::{AllocError, AllocFailed};
use std::error::Error;
use std::fmt;
use thiserror::Error;

/// What is wrong with a line, in the order in which a line is tested.
#[derive(Clone, Copy, Debug, PartialEq, Eq)]
pub enum FaultKind {
    /// A heading has wrong words, is out of its place, or begins a seventeenth client.
    Section,
    /// The first word is no heading, side or `sync`, or no command follows the side.
    Command,
    /// The number of words doesn't fit the command.
    Words,
    /// A number is misspelled or out of range.
    Number,
    /// The bytes of a word are more than 65,536.
    Data,
    /// A decoded path or name isn't UTF-8.
    Utf8,
}

impl FaultKind {
    /// The name of the kind.
    pub fn name(self) -> &'static str {
        match self {
            FaultKind::Section => "Section",
            FaultKind::Command => "Command",
            FaultKind::Words => "Words",
            FaultKind::Number => "Number",
            FaultKind::Data => "Data",
            FaultKind::Utf8 => "Utf8",
        }
    }
}

impl fmt::Display for FaultKind {
    fn fmt<W: fmt::Write>(&self, f: &mut fmt::Formatter<W>) -> fmt::Result {
        f.write_str(self.name())
    }
}

/// The first bad line of a text, and what is wrong with it. It prints as `script line 3: Command`.
#[derive(Clone, Copy, Debug, PartialEq, Eq)]
pub struct ScriptFault {
    /// The line's number. Lines count from 1, skipped ones too.
    pub line: u32,
    pub kind: FaultKind,
}

impl fmt::Display for ScriptFault {
    fn fmt<W: fmt::Write>(&self, f: &mut fmt::Formatter<W>) -> fmt::Result {
        write!(f, "script line {}: {}", self.line, self.kind)
    }
}

impl Error for ScriptFault {}

/// Why a text isn't read as a script.
#[derive(Clone, Copy, Debug, Error, PartialEq, Eq)]
pub enum ReadScriptFault {
    #[error("{0}")]
    Bad(ScriptFault),
    #[error("no memory")]
    NoMemory,
}

impl From<NoMemory> for ReadScriptFault {
    ghost from_gives = { λ _ e. e ≡ script_no_memory };

    fn from(_error: NoMemory) -> ReadScriptFault {
        ReadScriptFault::NoMemory
    }
}

/// Why a line isn't read.
#[derive(Clone, Copy, Debug, PartialEq, Eq)]
pub(crate) enum LineFault {
    Bad(FaultKind),
    NoMemory,
}

impl From<NoMemory> for LineFault {
    ghost from_gives = { λ _ e. e ≡ line_no_memory };

    fn from(_error: NoMemory) -> LineFault {
        LineFault::NoMemory
    }
}

impl From<AllocError> for LineFault {
    ghost from_gives = { λ _ e. e ≡ line_no_memory };

    fn from(_error: AllocError) -> LineFault {
        LineFault::NoMemory
    }
}

impl<T: Drop> From<AllocFailed<T>> for LineFault {
    ghost from_gives = { λ _ e. e ≡ line_no_memory };

    fn from(_error: AllocFailed<T>) -> LineFault {
        LineFault::NoMemory
    }
}
