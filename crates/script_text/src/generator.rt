//! The generator of scripts: for the same numbers the same script, as large as they say.
ghost use Rattle.std.specs.Prelude.{◌≡◌, ◌≤◌, ◌+◌, ◌-◌, ◌*◌, ◌++◌, true, length, map, IfOk, OnOk, codes};
ghost use Rattle.std.specs.List.{flat_map, range_with_len};
ghost use Rattle.script_text.specs.Generator.{create, file_path, root_commands, dir_commands, sync_commands, removal, round_commands, round as plain_round, generated_commands, numbered as plain_numbered, generated};
ghost use Rattle.script_text.specs.Order.{are_ordered};

use crate::command::Command;
use crate::draws::{Draws, Round};
use crate::generated::{
    dir_made, file_created, file_moved, file_removed, number_appended, root_allowed, root_made,
    roots_synced, snapped,
};
use crate::script::{Script, ScriptLine, Section};
use hs_types::{List, NoMemory, Side};
use std::alloc::Global;

/// Makes a root with its first snapshot.
fn add_root(alloc: Global, commands: &mut List<Command>, side: Side) -> Result<(), NoMemory>
    ensures { OnOk result (commands.new ≡ commands.old ++ root_commands side) }
{
    commands.push(root_made(alloc, side)?)?;
    commands.push(root_allowed(alloc, side)?)?;
    commands.push(snapped(alloc, side, 0)?)
}

fn add_files(
    alloc: Global,
    commands: &mut List<Command>,
    dir: u32,
    files: u32,
) -> Result<(), NoMemory>
    ensures { OnOk result (commands.new ≡ commands.old ++ map (λ file. create (file_path dir (codes "f") file)) (range_with_len 0 files)) }
{
    for file in 0..files {
        commands.push(file_created(alloc, dir, "f", file)?)?;
    }
    Ok(())
}

/// Makes a directory of the source, and its files.
fn add_dir(
    alloc: Global,
    commands: &mut List<Command>,
    dir: u32,
    files: u32,
) -> Result<(), NoMemory>
    ensures { OnOk result (commands.new ≡ commands.old ++ dir_commands files dir) }
{
    commands.push(dir_made(alloc, dir)?)?;
    add_files(alloc, commands, dir, files)
}

fn add_dirs(
    alloc: Global,
    commands: &mut List<Command>,
    dirs: u32,
    files: u32,
) -> Result<(), NoMemory>
    ensures { OnOk result (commands.new ≡ commands.old ++ flat_map (dir_commands files) (range_with_len 0 dirs)) }
{
    for dir in 0..dirs {
        add_dir(alloc, commands, dir, files)?;
    }
    Ok(())
}

/// Brings the target to a snapshot of the source, and takes the same snapshot there.
fn add_sync(alloc: Global, commands: &mut List<Command>, from: u32, to: u32) -> Result<(), NoMemory>
    ensures { OnOk result (commands.new ≡ commands.old ++ sync_commands from to) }
{
    commands.push(roots_synced(alloc, from, to)?)?;
    commands.push(snapped(alloc, Side::Target, to)?)
}

/// In a round of odd number the file goes that the round before has moved.
fn add_removal(
    alloc: Global,
    commands: &mut List<Command>,
    number: u32,
    moved: u32,
) -> Result<(), NoMemory>
    requires { 1 ≤ number }
    ensures { OnOk result (commands.new ≡ commands.old ++ removal number moved) }
{
    if number % 2 == 1 {
        commands.push(file_removed(alloc, moved, number - 1)?)
    } else {
        Ok(())
    }
}

/// A round of changes, and its snapshot. `moved` is where the round before has moved its file to.
fn add_round(
    alloc: Global,
    commands: &mut List<Command>,
    round: Round,
    moved: u32,
) -> Result<(), NoMemory>
    requires { 1 ≤ round.number }
    ensures { OnOk result (commands.new ≡ commands.old ++ round_commands round.number round.grown_dir round.grown_file round.made_in round.moved_to moved) }
{
    let number = round.number;
    commands.push(number_appended(alloc, round.grown_dir, round.grown_file, number)?)?;
    commands.push(file_created(alloc, round.made_in, "k", number)?)?;
    commands.push(file_moved(alloc, round.made_in, round.moved_to, number)?)?;
    add_removal(alloc, commands, number, moved)?;
    commands.push(snapped(alloc, Side::Source, number)?)
}

/// Rounds 2, 3 and so on, one for each further snapshot.
fn add_rounds(
    alloc: Global,
    commands: &mut List<Command>,
    seed: u32,
    dirs: u32,
    files: u32,
    snaps: u32,
) -> Result<(), NoMemory>
    requires dirs { 1 ≤ dirs }
    requires files { 1 ≤ files }
    requires snaps { 2 ≤ snaps }
    ensures { OnOk result (commands.new ≡ commands.old ++ flat_map (plain_round seed dirs files) (range_with_len 2 (snaps - 2))) }
{
    let mut draws = Draws::start(seed);
    let mut moved = 0;
    for number in 2..snaps {
        let round = draws.round(number, dirs, files);
        add_round(alloc, commands, round, moved)?;
        moved = round.moved_to;
    }
    Ok(())
}

/// The commands in the order in which they run.
fn add_all(
    alloc: Global,
    commands: &mut List<Command>,
    seed: u32,
    dirs: u32,
    files: u32,
    snaps: u32,
) -> Result<(), NoMemory>
    requires dirs { 1 ≤ dirs }
    requires files { 1 ≤ files }
    requires snaps { 3 ≤ snaps }
    ensures { OnOk result (commands.new ≡ commands.old ++ generated_commands seed dirs files snaps) }
{
    add_root(alloc, commands, Side::Source)?;
    add_root(alloc, commands, Side::Target)?;
    add_dirs(alloc, commands, dirs, files)?;
    commands.push(snapped(alloc, Side::Source, 1)?)?;
    add_sync(alloc, commands, 0, 1)?;
    add_rounds(alloc, commands, seed, dirs, files, snaps)?;
    add_sync(alloc, commands, 1, snaps - 1)
}

/// Gives each command the number of its line, from 1.
fn numbered(alloc: Global, commands: List<Command>) -> Result<List<ScriptLine>, NoMemory>
    requires { length commands ≤ u32.MAX }
    ensures { IfOk result (λ lines. lines ≡ plain_numbered 1 commands) }
{
    let mut lines = List::new(alloc);
    let mut line = 0;
    for command in commands.into_vec() {
        line += 1;
        lines.push(ScriptLine {
            line,
            section: Section::Setup,
            command,
        })?;
    }
    Ok(lines)
}

/// Makes a script of one section, whose length grows with `dirs * files` and with `snaps`.
pub fn generate(
    alloc: Global,
    seed: u32,
    dirs: u32,
    files: u32,
    snaps: u32,
) -> Result<Script, NoMemory>
    requires dirs { 1 ≤ dirs }
    requires files { 1 ≤ files }
    requires snaps { 3 ≤ snaps }
    requires size { dirs * (files + 1) + 5 * snaps ≤ 16000000 }
    ensures script { IfOk result (λ script. script ≡ generated seed dirs files snaps) }
    ensures clients { IfOk result (λ script. script.clients ≡ 0) }
    ensures order { IfOk result (λ script. are_ordered script.clients 0 script.lines ≡ true) }
{
    let mut commands = List::new(alloc);
    add_all(alloc, &mut commands, seed, dirs, files, snaps)?;
    Ok(Script {
        lines: numbered(alloc, commands)?,
        clients: 0,
    })
}
