//! The commands that the generator makes, each by its numbers.
ghost use Rattle.std.specs.Prelude.{◌≡◌, IfOk, codes};
ghost use Rattle.std.specs.Fmt.{decimal};
ghost use Rattle.script_text.specs.Generator.{root, dir_path, file_path, snap_name, mkdir, allow, snap, create, append, mv, rm, sync};

use crate::command::Command;
use hs_types::{Call, Chunk, NameText, NoMemory, PathText, Side};
use std::alloc::Global;

fn root_text(alloc: Global) -> Result<PathText, NoMemory>
    ensures { IfOk result (λ text. text ≡ root) }
{
    Ok(PathText::new(String::from_str(alloc, "/r")?))
}

fn dir_text(alloc: Global, dir: u32) -> Result<PathText, NoMemory>
    ensures { IfOk result (λ text. text ≡ dir_path dir) }
{
    Ok(PathText::new(format!(in alloc; "/r/d{dir}")?))
}

fn file_text(alloc: Global, dir: u32, letter: &str, number: u32) -> Result<PathText, NoMemory>
    ensures { IfOk result (λ text. text ≡ file_path dir letter.now number) }
{
    Ok(PathText::new(format!(in alloc; "/r/d{dir}/{letter}{number}")?))
}

fn snap_text(alloc: Global, number: u32) -> Result<NameText, NoMemory>
    ensures { IfOk result (λ text. text ≡ snap_name number) }
{
    Ok(NameText::new(format!(in alloc; "n{number}")?))
}

/// The digits of a number, as bytes.
fn digits_of(alloc: Global, number: u32) -> Result<Chunk, NoMemory>
    ensures { IfOk result (λ bytes. bytes ≡ decimal number) }
{
    let digits = format!(in alloc; "{number}")?;
    match Chunk::new(digits.into_bytes()) {
        Ok(bytes) => Ok(bytes),
        Err(_) => unreachable!(),
    }
}

pub(crate) fn root_made(alloc: Global, side: Side) -> Result<Command, NoMemory>
    ensures { IfOk result (λ command. command ≡ mkdir side root) }
{
    let path = root_text(alloc)?;
    Ok(Command::Call {
        side,
        call: Call::Mkdir { path },
    })
}

pub(crate) fn root_allowed(alloc: Global, side: Side) -> Result<Command, NoMemory>
    ensures { IfOk result (λ command. command ≡ allow side root) }
{
    let path = root_text(alloc)?;
    Ok(Command::Call {
        side,
        call: Call::Allow { path },
    })
}

pub(crate) fn snapped(alloc: Global, side: Side, number: u32) -> Result<Command, NoMemory>
    ensures { IfOk result (λ command. command ≡ snap side number) }
{
    let path = root_text(alloc)?;
    let name = snap_text(alloc, number)?;
    Ok(Command::Call {
        side,
        call: Call::Snap { path, name },
    })
}

pub(crate) fn dir_made(alloc: Global, dir: u32) -> Result<Command, NoMemory>
    ensures { IfOk result (λ command. command ≡ mkdir Side.Source (dir_path dir)) }
{
    let path = dir_text(alloc, dir)?;
    Ok(Command::Call {
        side: Side::Source,
        call: Call::Mkdir { path },
    })
}

pub(crate) fn file_created(
    alloc: Global,
    dir: u32,
    letter: &str,
    number: u32,
) -> Result<Command, NoMemory>
    ensures { IfOk result (λ command. command ≡ create (file_path dir letter.now number)) }
{
    let path = file_text(alloc, dir, letter, number)?;
    Ok(Command::Call {
        side: Side::Source,
        call: Call::Create { path, over: false },
    })
}

/// Adds the digits of a number to a file that the generator made at first.
pub(crate) fn number_appended(
    alloc: Global,
    dir: u32,
    file: u32,
    number: u32,
) -> Result<Command, NoMemory>
    ensures { IfOk result (λ command. command ≡ append (file_path dir (codes "f") file) (decimal number)) }
{
    let path = file_text(alloc, dir, "f", file)?;
    let bytes = digits_of(alloc, number)?;
    Ok(Command::Call {
        side: Side::Source,
        call: Call::Append { path, bytes },
    })
}

/// Moves the new file of a round.
pub(crate) fn file_moved(
    alloc: Global,
    from: u32,
    to: u32,
    number: u32,
) -> Result<Command, NoMemory>
    ensures { IfOk result (λ command. command ≡ mv (file_path from (codes "k") number) (file_path to (codes "m") number)) }
{
    let old = file_text(alloc, from, "k", number)?;
    let new = file_text(alloc, to, "m", number)?;
    Ok(Command::Call {
        side: Side::Source,
        call: Call::Rename { old, new },
    })
}

/// Removes the file that a round has moved.
pub(crate) fn file_removed(alloc: Global, dir: u32, number: u32) -> Result<Command, NoMemory>
    ensures { IfOk result (λ command. command ≡ rm (file_path dir (codes "m") number)) }
{
    let path = file_text(alloc, dir, "m", number)?;
    Ok(Command::Call {
        side: Side::Source,
        call: Call::Delete {
            path,
            recursive: false,
        },
    })
}

fn two_roots(alloc: Global) -> Result<(PathText, PathText), NoMemory>
    ensures source { IfOk result (λ texts. texts.0 ≡ root) }
    ensures target { IfOk result (λ texts. texts.1 ≡ root) }
{
    Ok((root_text(alloc)?, root_text(alloc)?))
}

fn two_names(alloc: Global, from: u32, to: u32) -> Result<(NameText, NameText), NoMemory>
    ensures from { IfOk result (λ texts. texts.0 ≡ snap_name from) }
    ensures to { IfOk result (λ texts. texts.1 ≡ snap_name to) }
{
    Ok((snap_text(alloc, from)?, snap_text(alloc, to)?))
}

pub(crate) fn roots_synced(alloc: Global, from: u32, to: u32) -> Result<Command, NoMemory>
    ensures { IfOk result (λ command. command ≡ sync from to) }
{
    let (source, target) = two_roots(alloc)?;
    let (from, to) = two_names(alloc, from, to)?;
    Ok(Command::Sync {
        source,
        target,
        from,
        to,
    })
}
