//! The reader of scripts: one line after the other, from the front.
ghost use Rattle.std.specs.Prelude.{◌≡◌, ◌≢◌, ◌≤◌, ◌<◌, ◌+◌, ◌∷◌, [], Ok, true, length, IfOk, IfErr, OnOk, IfSome};
ghost use Rattle.std.specs.List.{position};
ghost use Rattle.script_text.specs.Words.{is_line_feed, lines_of};
ghost use Rattle.script_text.specs.Scripts.{start as plain_start, with_line, read_line as plain_read_line, meaning_of, IsFaultOf};
ghost use Rattle.script_text.specs.Order.{are_ordered};

use crate::fault::{LineFault, ReadScriptFault, ScriptFault};
use crate::line::{LineMeaning, line_of};
use crate::script::{Script, ScriptLine, Standing};
use hs_types::{List, NoMemory};
use std::alloc::Global;

/// What was read so far.
#[derive(Drop)]
pub(crate) struct Reading {
    /// The number of the next line, from 1.
    line: u32,
    /// Where it stands.
    standing: Standing,
    /// The commands of the lines before it.
    lines: List<ScriptLine>,
}

impl Reading {
    fn start(alloc: Global) -> Reading
        ensures { result ≡ plain_start }
    {
        Reading {
            line: 1,
            standing: Standing::start(),
            lines: List::new(alloc),
        }
    }

    /// Adds what the next line means.
    fn add(&mut self, meaning: LineMeaning) -> Result<(), NoMemory>
        requires { self.old.line ≤ 16777216 }
        ensures { OnOk result (self.new ≡ with_line self.old meaning) }
    {
        match meaning {
            LineMeaning::Skipped => {}
            LineMeaning::Heading(standing) => self.standing = standing,
            LineMeaning::Said(command) => {
                self.lines.push(ScriptLine {
                    line: self.line,
                    section: self.standing.section,
                    command,
                })?;
                self.standing.begun = true;
            }
        }
        self.line += 1;
        Ok(())
    }

    /// Reads the next line.
    fn read_line(&mut self, alloc: Global, line: &[u8]) -> Result<(), ReadScriptFault>
        requires { self.old.line ≤ 16777216 }
        ensures ok { OnOk result (plain_read_line (Ok self.old) line.now ≡ Ok self.new) }
        ensures bad { IfErr result (IsFaultOf (plain_read_line (Ok self.old) line.now)) }
    {
        match line_of(alloc, self.standing, line) {
            Ok(meaning) => Ok(self.add(meaning)?),
            Err(LineFault::Bad(kind)) => Err(ReadScriptFault::Bad(ScriptFault {
                line: self.line,
                kind,
            })),
            Err(LineFault::NoMemory) => Err(ReadScriptFault::NoMemory),
        }
    }

    fn into_script(self) -> Script
        ensures lines { result.lines ≡ self.lines }
        ensures clients { result.clients ≡ self.standing.clients }
    {
        let Reading {
            line: _,
            standing,
            lines,
        } = self;
        Script {
            lines,
            clients: standing.clients,
        }
    }
}

/// Where the first line feed stands.
fn line_end(bytes: &[u8]) -> Option<usize>
    ensures place { result ≡ position is_line_feed bytes.now }
    ensures within { IfSome result (λ end. end < length bytes.now) }
{
    bytes.iter().position(|byte| *byte == b'\n')
}

/// The first line, and what stands behind its line feed.
fn first_line(bytes: &[u8]) -> (&[u8], &[u8])
    requires { bytes.now ≢ [] }
    ensures lines { lines_of bytes.now ≡ result.0.now ∷ lines_of result.1.now }
    ensures shorter { length result.1.now < length bytes.now }
{
    match line_end(bytes) {
        Some(end) => (&bytes[..end], &bytes[end + 1..]),
        None => (bytes, &[]),
    }
}

/// Reads a text as a script. A fault names the first bad line.
pub fn read(alloc: Global, bytes: &[u8]) -> Result<Script, ReadScriptFault>
    requires { length bytes.now ≤ 16777216 }
    ensures script { IfOk result (λ script. meaning_of bytes.now ≡ Ok script) }
    ensures bad { IfErr result (IsFaultOf (meaning_of bytes.now)) }
    ensures clients { IfOk result (λ script. script.clients ≤ 16) }
    ensures order { IfOk result (λ script. are_ordered script.clients 0 script.lines ≡ true) }
{
    let mut reading = Reading::start(alloc);
    let mut rest = bytes;
    while !rest.is_empty() {
        let (line, more) = first_line(rest);
        reading.read_line(alloc, line)?;
        rest = more;
    }
    Ok(reading.into_script())
}
