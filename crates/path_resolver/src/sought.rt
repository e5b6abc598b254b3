//! Snapshots of a directory, sought by their names.
ghost use Rattle.std.specs.Prelude.{◌≡◌, Ok, IfOk, IfErr, MatchResult};
ghost use Rattle.hs_plain.specs.declared.state.State.{State};
ghost use Rattle.hs_plain.specs.declared.state.FileBlocks.{FileBlocks};
ghost use Rattle.hs_plain.specs.State as states;
ghost use Rattle.hs_plain.specs.inside.Faults.{IsFaultOf};
ghost use Rattle.snapshot_manager.specs.Snapshots.{Snapshots};
ghost use Rattle.inode_table.specs.Tabled.{Tabled};
ghost use Rattle.inode_table.specs.Whole.{StandsFor};

use hs_plain::AskFault;
use hs_types::{InodeId, Name, NameFault, NameText, Refusal, SnapId};
use snapshot_manager::Snaps;
use std::alloc::Global;

/// The snapshot of this name.
fn snapshot_named(snaps: &Snaps, dir: InodeId, name: &Name) -> Result<SnapId, Refusal>
    ensures { (table : Tabled) (state : State FileBlocks) → StandsFor table snaps.now state → result ≡ states.snapshot_named state.members dir name.now }
{
    match snaps.by_name(dir, name) {
        Some(item) => Ok(item.id),
        None => Err(Refusal::NoSnapshot),
    }
}

/// A text as the name of a snapshot that is sought: none has a name that isn't one.
fn sought_name(alloc: Global, text: &NameText) -> Result<Name, AskFault>
    ensures refused { (table : Tabled) (snaps : Snapshots) (state : State FileBlocks) → StandsFor table snaps state → (dir : InodeId) → IfErr result (IsFaultOf (states.snapshot_named state.members dir text.now)) }
    ensures same { IfOk result (λ name. name ≡ text.now) }
{
    match Name::read(alloc, text) {
        Ok(name) => Ok(name),
        Err(NameFault::Illegal) => Err(AskFault::Refused(Refusal::NoSnapshot)),
        Err(NameFault::NoMemory) => Err(AskFault::NoMemory),
    }
}

/// The id of a directory's snapshot, and its name.
pub fn snapshot_sought(
    alloc: Global,
    snaps: &Snaps,
    dir: InodeId,
    text: &NameText,
) -> Result<(SnapId, Name), AskFault>
    ensures asked { (table : Tabled) (state : State FileBlocks) → StandsFor table snaps.now state → MatchResult result (λ at. states.snapshot_named state.members dir text.now ≡ Ok at.0) (IsFaultOf (states.snapshot_named state.members dir text.now)) }
    ensures name { IfOk result (λ at. at.1 ≡ text.now) }
{
    let name = sought_name(alloc, text)?;
    let id = snapshot_named(snaps, dir, &name)?;
    Ok((id, name))
}
