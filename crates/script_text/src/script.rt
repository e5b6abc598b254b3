//! A script that was read: the commands of its sections.
ghost use Rattle.std.specs.Prelude.{◌≡◌};

use crate::command::Command;
use hs_types::List;

/// Which section a line stands in.
#[derive(Clone, Copy, Debug, PartialEq, Eq)]
pub enum Section {
    /// What runs first.
    Setup,
    /// What a client does, beside the others. Clients count from 1.
    Client(u32),
    /// What runs last.
    Finish,
}

/// One command, with the number of its line. Lines count from 1, skipped ones too.
#[derive(Debug, Drop, PartialEq, Eq)]
pub struct ScriptLine {
    pub line: u32,
    pub section: Section,
    pub command: Command,
}

/// The commands of a text, in the order in which they stand: those of setup, of client 1, client 2 and so on, and of finish.
#[derive(Debug, Drop, PartialEq, Eq)]
pub struct Script {
    pub lines: List<ScriptLine>,
    /// How many client sections have a heading, at most 16. One of them may hold no command.
    pub clients: u32,
}

impl Script {
    /// The commands, borrowed.
    pub fn lines(&self) -> &[ScriptLine]
        ensures { result.now ≡ self.now.lines }
    {
        self.lines.items()
    }

    /// Gives the commands away, and takes no memory.
    pub fn into_lines(self) -> Vec<ScriptLine>
        ensures { result.items ≡ self.lines }
    {
        let Script { lines, clients: _ } = self;
        lines.into_vec()
    }
}

/// What the lines before a line leave: the section that it stands in.
#[derive(Clone, Copy, Debug, PartialEq, Eq)]
pub(crate) struct Standing {
    /// Whether a heading or a command was read.
    pub begun: bool,
    pub section: Section,
    /// How many client sections were begun.
    pub clients: u32,
}
