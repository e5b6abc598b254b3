//! One line of a script.
ghost use Rattle.std.specs.Prelude.{◌≡◌, [], ◌∷◌, map};
ghost use Rattle.script_text.specs.Words.{is_comment, words_of as plain_words_of};
ghost use Rattle.script_text.specs.declared.command.Command.TheVariants as commands;
ghost use Rattle.script_text.specs.Commands.{decoded, where_texts, command_of as plain_command_of, sync_command as plain_sync_command};
ghost use Rattle.script_text.specs.Headings.{after_heading as plain_after_heading};
ghost use Rattle.script_text.specs.Scripts.{line_of as plain_line_of, full_line as plain_full_line, heading_line as plain_heading_line};
ghost use Rattle.script_text.specs.Faults.{Gives};

use crate::command::Command;
use crate::fault::{FaultKind, LineFault};
use crate::headings::{after_heading, is_heading};
use crate::script::Standing;
use crate::side_commands::side_command;
use crate::words::{first_words, two_texts};
use hs_types::{NameText, PathText, Side};
use std::alloc::Global;

/// What a line means.
#[derive(Drop)]
pub(crate) enum LineMeaning {
    /// Nothing.
    Skipped,
    /// The lines after it stand here.
    Heading(Standing),
    Said(Command),
}

/// The sync of two directories, from one snapshot to another.
fn sync_of(
    alloc: Global,
    source: &[u8],
    target: &[u8],
    from: &[u8],
    to: &[u8],
) -> Result<Command, LineFault>
    ensures { Gives (where_texts (source.now ∷ target.now ∷ from.now ∷ to.now ∷ []) (commands.Sync (decoded source.now) (decoded target.now) (decoded from.now) (decoded to.now))) result }
{
    let (source, target) = two_texts(alloc, source, target)?;
    let (from, to) = two_texts(alloc, from, to)?;
    Ok(Command::Sync {
        source: PathText::new(source),
        target: PathText::new(target),
        from: NameText::new(from),
        to: NameText::new(to),
    })
}

/// The sync that the words behind `sync` say.
fn sync_command(alloc: Global, words: &[&[u8]]) -> Result<Command, LineFault>
    ensures { Gives (plain_sync_command (map (λ word. word.now) words.now)) result }
{
    match words {
        [source, target, from, to] => sync_of(alloc, source, target, from, to),
        _ => Err(LineFault::Bad(FaultKind::Words)),
    }
}

/// What the words of a command line say.
fn command_of(alloc: Global, first: &str, rest: &[&[u8]]) -> Result<Command, LineFault>
    ensures { Gives (plain_command_of (first.now ∷ map (λ word. word.now) rest.now)) result }
{
    match first {
        "s" => side_command(alloc, Side::Source, rest),
        "t" => side_command(alloc, Side::Target, rest),
        "sync" => sync_command(alloc, rest),
        _ => Err(LineFault::Bad(FaultKind::Command)),
    }
}

fn heading_line(standing: Standing, first: &str, rest: &[&[u8]]) -> Result<LineMeaning, LineFault>
    ensures { Gives (plain_heading_line (plain_after_heading standing first.now (map (λ word. word.now) rest.now))) result }
{
    match after_heading(standing, first, rest) {
        Some(after) => Ok(LineMeaning::Heading(after)),
        None => Err(LineFault::Bad(FaultKind::Section)),
    }
}

/// What a line means that has words and isn't a comment.
fn full_line(
    alloc: Global,
    standing: Standing,
    first: &str,
    rest: &[&[u8]],
) -> Result<LineMeaning, LineFault>
    ensures { Gives (plain_full_line standing first.now (map (λ word. word.now) rest.now)) result }
{
    if is_heading(first) {
        heading_line(standing, first, rest)
    } else {
        Ok(LineMeaning::Said(command_of(alloc, first, rest)?))
    }
}

fn is_comment(first: &[u8]) -> bool
    ensures { result ≡ is_comment first.now }
{
    matches!(first, [b'#', ..])
}

/// What a line means that has words. A first word that is no text is no command.
fn line_of_words(
    alloc: Global,
    standing: Standing,
    first: &[u8],
    rest: &[&[u8]],
) -> Result<LineMeaning, LineFault>
    ensures { Gives (plain_line_of standing (first.now ∷ map (λ word. word.now) rest.now)) result }
{
    if is_comment(first) {
        return Ok(LineMeaning::Skipped);
    }
    match str::from_utf8(first) {
        Ok(first) => full_line(alloc, standing, first, rest),
        Err(_) => Err(LineFault::Bad(FaultKind::Command)),
    }
}

/// What the words of a line mean.
fn meaning_of_words(
    alloc: Global,
    standing: Standing,
    words: &[&[u8]],
) -> Result<LineMeaning, LineFault>
    ensures { Gives (plain_line_of standing (map (λ word. word.now) words.now)) result }
{
    match words {
        [] => Ok(LineMeaning::Skipped),
        [first, rest @ ..] => line_of_words(alloc, standing, first, rest),
    }
}

/// What a line means where it stands.
pub(crate) fn line_of(
    alloc: Global,
    standing: Standing,
    line: &[u8],
) -> Result<LineMeaning, LineFault>
    ensures { Gives (plain_line_of standing (plain_words_of line.now)) result }
{
    let words = first_words(alloc, line)?;
    meaning_of_words(alloc, standing, words.as_slice())
}
