//! The commands behind a side, by the words behind each.
ghost use Rattle.std.specs.Prelude.{◌≡◌, ◌≤◌, true, [], ◌∷◌, map, replicate, IfOk, OnOk, IfErr};
ghost use Rattle.script_text.specs.declared.command.Command.TheVariants as commands;
ghost use Rattle.script_text.specs.declared.fault.FaultKind.TheVariants as kinds;
ghost use Rattle.script_text.specs.Numbers.{count_of as plain_count_of, byte_of as plain_byte_of, mode_of as plain_mode_of};
ghost use Rattle.script_text.specs.Commands.{decoded, are_texts, point_of as plain_point_of, bare_command as plain_bare_command, path_command as plain_path_command, append_command as plain_append_command, with_mode, with_fill, pair_command as plain_pair_command, triple_command as plain_triple_command, fitted_command as plain_fitted_command, side_command as plain_side_command};
ghost use Rattle.script_text.specs.Faults.{Gives, IsLineFault};

use crate::command::{Command, Pages, PagesKind};
use crate::command_word::{CommandWord, word_of};
use crate::fault::{FaultKind, LineFault};
use crate::numbers::{byte_of, count_of, mode_of};
use crate::words::{data_of, path_of, point_of, three_texts, two_texts};
use hs_types::{Call, Chunk, NameText, PathText, Side};
use std::alloc::Global;

/// A command with no word behind it.
fn bare_command(side: Side, word: CommandWord) -> Result<Command, LineFault>
    ensures { Gives (plain_bare_command side word) result }
{
    match word {
        CommandWord::Dirs => Ok(Command::Call {
            side,
            call: Call::Dirs,
        }),
        CommandWord::More => Ok(Command::More {
            side,
            kind: PagesKind::Listing,
        }),
        CommandWord::DMore => Ok(Command::More {
            side,
            kind: PagesKind::Report,
        }),
        _ => Err(LineFault::Bad(FaultKind::Words)),
    }
}

fn called(side: Side, call: Call) -> Command
    ensures { result ≡ commands.Call side call }
{
    Command::Call { side, call }
}

fn listing(path: PathText) -> Pages
    ensures { result ≡ Pages.Listing path }
{
    Pages::Listing { path }
}

fn created(side: Side, path: PathText, over: bool) -> Command
    ensures { result ≡ commands.Call side (Call.Create path over) }
{
    called(side, Call::Create { path, over })
}

fn deleted(side: Side, path: PathText, recursive: bool) -> Command
    ensures { result ≡ commands.Call side (Call.Delete path recursive) }
{
    called(side, Call::Delete { path, recursive })
}

/// A command with one path behind it.
fn path_command(
    alloc: Global,
    side: Side,
    word: CommandWord,
    path: &[u8],
) -> Result<Command, LineFault>
    ensures { Gives (plain_path_command side word path.now) result }
{
    let path = path_of(alloc, path);
    match word {
        CommandWord::Mkdir => Ok(called(side, Call::Mkdir { path: path? })),
        CommandWord::Create => Ok(created(side, path?, false)),
        CommandWord::CreateOver => Ok(created(side, path?, true)),
        CommandWord::Rm => Ok(deleted(side, path?, false)),
        CommandWord::Rmr => Ok(deleted(side, path?, true)),
        CommandWord::Allow => Ok(called(side, Call::Allow { path: path? })),
        CommandWord::Disallow => Ok(called(side, Call::Disallow { path: path? })),
        CommandWord::Stat => Ok(called(side, Call::Stat { path: path? })),
        CommandWord::Snaps => Ok(called(side, Call::Snaps { path: path? })),
        CommandWord::Cat => Ok(Command::All {
            side,
            pages: Pages::File { path: path? },
        }),
        CommandWord::Ls => Ok(Command::All {
            side,
            pages: listing(path?),
        }),
        CommandWord::First => Ok(Command::First {
            side,
            pages: listing(path?),
        }),
        _ => Err(LineFault::Bad(FaultKind::Words)),
    }
}

/// Adds the word's bytes to a file.
fn append_command(alloc: Global, side: Side, path: &[u8], word: &[u8]) -> Result<Command, LineFault>
    ensures { Gives (plain_append_command side path.now word.now) result }
{
    let bytes = data_of(alloc, word)?;
    let path = path_of(alloc, path)?;
    Ok(called(side, Call::Append { path, bytes }))
}

/// Gives a node the mode that a word spells.
fn mode_command(alloc: Global, side: Side, path: &[u8], word: &[u8]) -> Result<Command, LineFault>
    ensures { Gives (with_mode side path.now (plain_mode_of word.now)) result }
{
    match mode_of(word) {
        Some(mode) => Ok(called(
            side,
            Call::SetMode {
                path: path_of(alloc, path)?,
                mode,
            },
        )),
        None => Err(LineFault::Bad(FaultKind::Number)),
    }
}

/// A command with two words behind it.
fn pair_command(
    alloc: Global,
    side: Side,
    word: CommandWord,
    first: &[u8],
    second: &[u8],
) -> Result<Command, LineFault>
    ensures { Gives (plain_pair_command side word first.now second.now) result }
{
    match word {
        CommandWord::Append => append_command(alloc, side, first, second),
        CommandWord::Chmod => mode_command(alloc, side, first, second),
        CommandWord::Mv => {
            let (old, new) = two_texts(alloc, first, second)?;
            Ok(called(
                side,
                Call::Rename {
                    old: PathText::new(old),
                    new: PathText::new(new),
                },
            ))
        }
        CommandWord::Snap => {
            let (path, name) = two_texts(alloc, first, second)?;
            Ok(called(
                side,
                Call::Snap {
                    path: PathText::new(path),
                    name: NameText::new(name),
                },
            ))
        }
        CommandWord::SnapDel => {
            let (path, name) = two_texts(alloc, first, second)?;
            Ok(called(
                side,
                Call::SnapDel {
                    path: PathText::new(path),
                    name: NameText::new(name),
                },
            ))
        }
        _ => Err(LineFault::Bad(FaultKind::Words)),
    }
}

/// So many bytes of one value.
fn filled(alloc: Global, count: usize, byte: u8) -> Result<Chunk, LineFault>
    requires { count ≤ 65536 }
    ensures bytes { IfOk result (λ bytes. bytes ≡ replicate count byte) }
    ensures bad { IfErr result (λ fault. fault ≡ LineFault.NoMemory) }
{
    let mut bytes = Vec::with_capacity(alloc, count)?;
    bytes.resize(count, byte)?;
    match Chunk::new(bytes) {
        Ok(bytes) => Ok(bytes),
        Err(_) => unreachable!(),
    }
}

/// Adds so many bytes of one value to a file.
fn fill_command(
    alloc: Global,
    side: Side,
    path: &[u8],
    count: &[u8],
    byte: &[u8],
) -> Result<Command, LineFault>
    ensures { Gives (with_fill side path.now (plain_count_of count.now) (plain_byte_of byte.now)) result }
{
    let (Some(count), Some(byte)) = (count_of(count), byte_of(byte)) else {
        return Err(LineFault::Bad(FaultKind::Number));
    };
    let path = path_of(alloc, path)?;
    let bytes = filled(alloc, count, byte)?;
    Ok(called(side, Call::Append { path, bytes }))
}

/// A report at a path, from one point in time to another.
fn report_pages(alloc: Global, path: &[u8], from: &[u8], to: &[u8]) -> Result<Pages, LineFault>
    ensures pages { IfOk result (λ pages. pages ≡ Pages.Report (decoded path.now) (plain_point_of (decoded from.now)) (plain_point_of (decoded to.now))) }
    ensures are_texts { OnOk result (are_texts (path.now ∷ from.now ∷ to.now ∷ []) ≡ true) }
    ensures bad { IfErr result (IsLineFault kinds.Utf8 (are_texts (path.now ∷ from.now ∷ to.now ∷ []))) }
{
    let (path, (from, to)) = three_texts(alloc, path, from, to)?;
    Ok(Pages::Report {
        path: PathText::new(path),
        from: point_of(from),
        to: point_of(to),
    })
}

/// A command with three words behind it.
fn triple_command(
    alloc: Global,
    side: Side,
    word: CommandWord,
    first: &[u8],
    second: &[u8],
    third: &[u8],
) -> Result<Command, LineFault>
    ensures { Gives (plain_triple_command side word first.now second.now third.now) result }
{
    match word {
        CommandWord::Fill => fill_command(alloc, side, first, second, third),
        CommandWord::SnapRen => {
            let (path, (old, new)) = three_texts(alloc, first, second, third)?;
            Ok(called(
                side,
                Call::SnapRen {
                    path: PathText::new(path),
                    old: NameText::new(old),
                    new: NameText::new(new),
                },
            ))
        }
        CommandWord::Diff => Ok(Command::All {
            side,
            pages: report_pages(alloc, first, second, third)?,
        }),
        CommandWord::DFirst => Ok(Command::First {
            side,
            pages: report_pages(alloc, first, second, third)?,
        }),
        _ => Err(LineFault::Bad(FaultKind::Words)),
    }
}

/// A command with these words behind it.
fn fitted_command(
    alloc: Global,
    side: Side,
    word: CommandWord,
    words: &[&[u8]],
) -> Result<Command, LineFault>
    ensures { Gives (plain_fitted_command side word (map (λ word. word.now) words.now)) result }
{
    match words {
        [] => bare_command(side, word),
        [path] => path_command(alloc, side, word, path),
        [first, second] => pair_command(alloc, side, word, first, second),
        [first, second, third] => triple_command(alloc, side, word, first, second, third),
        _ => Err(LineFault::Bad(FaultKind::Words)),
    }
}

/// The command that the words behind a side say.
pub(crate) fn side_command(alloc: Global, side: Side, words: &[&[u8]]) -> Result<Command, LineFault>
    ensures { Gives (plain_side_command side (map (λ word. word.now) words.now)) result }
{
    match words {
        [] => Err(LineFault::Bad(FaultKind::Command)),
        [word, words @ ..] => match word_of(word) {
            Some(word) => fitted_command(alloc, side, word, words),
            None => Err(LineFault::Bad(FaultKind::Command)),
        },
    }
}
