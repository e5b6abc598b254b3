//! What calls on snapshots ask for, or why they are refused, by look-ups in a table and its snapshots.
ghost use Rattle.std.specs.Prelude.{◌≡◌, not, nat_le, Ok, IfOk, MatchResult};
ghost use Rattle.hs_types.specs.Limits.{snapshot_limit};
ghost use Rattle.hs_types.specs.Names.{is_name};
ghost use Rattle.hs_types.specs.declared.ids.SnapId.{SnapId};
ghost use Rattle.hs_types.specs.declared.refusal.Refusal.TheVariants.{NotSnapshotName};
ghost use Rattle.hs_plain.specs.declared.state.State.{State};
ghost use Rattle.hs_plain.specs.declared.state.FileBlocks.{FileBlocks};
ghost use Rattle.hs_plain.specs.Asked.{refuse_if as plain_refuse_if};
ghost use Rattle.hs_plain.specs.Snapshotting;
ghost use Rattle.hs_plain.specs.State as states;
ghost use Rattle.hs_plain.specs.inside.Faults.{IsFaultOf};
ghost use Rattle.inode_table.specs.Kept.{told};
ghost use Rattle.inode_table.specs.Tabled.{Tabled};
ghost use Rattle.inode_table.specs.Whole.{StandsFor};
ghost use Rattle.namenode_write.specs.SnapTests.{dir_of, renamed_id, takes_name as plain_takes_name, takes_snapshot as plain_takes_snapshot};

use hs_plain::AskFault;
use hs_plain::modifying::refuse_if;
use hs_types::{InodeId, Name, NameFault, NameText, PathText, Refusal, SnapId};
use inode_table::Table;
use path_resolver::above::meets_snapshottable;
use path_resolver::asked::directory_at;
use path_resolver::sought::snapshot_sought;
use snapshot_manager::{SNAPSHOT_LIMIT, Snaps};
use std::alloc::Global;

/// Whether snapshots may be made of a directory.
fn is_snapshottable(snaps: &Snaps, dir: InodeId) -> bool
    ensures { (table : Tabled) (state : State FileBlocks) → StandsFor table snaps.now state → result ≡ states.is_snapshottable state dir }
{
    snaps.count_of(dir).is_some()
}

/// Whether a directory has snapshots.
fn has_snapshots(snaps: &Snaps, dir: InodeId) -> bool
    ensures { (table : Tabled) (state : State FileBlocks) → StandsFor table snaps.now state → result ≡ states.has_snapshots state dir }
{
    snaps.last_of(dir).is_some()
}

/// Whether a directory has a snapshot of this name.
fn is_taken(snaps: &Snaps, dir: InodeId, name: &Name) -> bool
    ensures { (table : Tabled) (state : State FileBlocks) → StandsFor table snaps.now state → result ≡ states.has_snapshot_named state dir name.now }
{
    snaps.by_name(dir, name).is_some()
}

/// Whether a directory has as many snapshots as it may have.
fn is_full(snaps: &Snaps, dir: InodeId) -> bool
    ensures { (table : Tabled) (state : State FileBlocks) → StandsFor table snaps.now state → result ≡ nat_le snapshot_limit (states.snapshots_of state.members dir) }
{
    match snaps.count_of(dir) {
        Some(count) => count >= SNAPSHOT_LIMIT,
        None => false,
    }
}

/// A text as the name of a new snapshot.
fn new_name(alloc: Global, text: &NameText) -> Result<Name, AskFault>
    ensures asked { MatchResult result (λ name. plain_refuse_if (not (is_name text.now)) NotSnapshotName ≡ Ok tt) (IsFaultOf (plain_refuse_if (not (is_name text.now)) NotSnapshotName)) }
    ensures same { IfOk result (λ name. name ≡ text.now) }
{
    match Name::read(alloc, text) {
        Ok(name) => Ok(name),
        Err(NameFault::Illegal) => Err(AskFault::Refused(Refusal::NotSnapshotName)),
        Err(NameFault::NoMemory) => Err(AskFault::NoMemory),
    }
}

/// Whether a directory may have a snapshot of this name, as far as its number goes.
fn takes_name(snaps: &Snaps, dir: InodeId, name: &Name) -> Result<(), Refusal>
    ensures { (table : Tabled) (state : State FileBlocks) → StandsFor table snaps.now state → result ≡ plain_takes_name state dir name.now }
{
    refuse_if(!is_snapshottable(snaps, dir), Refusal::NotSnapshottable)?;
    refuse_if(is_taken(snaps, dir, name), Refusal::SnapshotExists)
}

/// Whether a directory may have one more snapshot, of this name.
fn takes_snapshot(snaps: &Snaps, dir: InodeId, name: &Name) -> Result<(), Refusal>
    ensures { (table : Tabled) (state : State FileBlocks) → StandsFor table snaps.now state → result ≡ plain_takes_snapshot state dir name.now }
{
    takes_name(snaps, dir, name)?;
    refuse_if(is_full(snaps, dir), Refusal::SnapshotLimit)
}

/// The directory that is to become snapshottable.
pub(crate) fn allow_at(
    alloc: Global,
    table: &Table,
    snaps: &Snaps,
    text: &PathText,
) -> Result<InodeId, AskFault>
    ensures { (state : State FileBlocks) → StandsFor (told table.now) snaps.now state → MatchResult result (λ id. Snapshotting.allow_at state text.now ≡ Ok id) (IsFaultOf (Snapshotting.allow_at state text.now)) }
{
    let (path, id) = directory_at(alloc, table, text)?;
    let nested = meets_snapshottable(table, snaps, path.items(), id);
    refuse_if(nested, Refusal::Nested)?;
    Ok(id)
}

/// The snapshottable directory that is to be none.
pub(crate) fn disallow_at(
    alloc: Global,
    table: &Table,
    snaps: &Snaps,
    text: &PathText,
) -> Result<InodeId, AskFault>
    ensures { (state : State FileBlocks) → StandsFor (told table.now) snaps.now state → MatchResult result (λ id. Snapshotting.disallow_at state text.now ≡ Ok id) (IsFaultOf (Snapshotting.disallow_at state text.now)) }
{
    let id = directory_at(alloc, table, text)?.1;
    refuse_if(has_snapshots(snaps, id), Refusal::HasSnapshots)?;
    refuse_if(!is_snapshottable(snaps, id), Refusal::NotSnapshottable)?;
    Ok(id)
}

/// The directory of which there is to be a snapshot, and the name of that.
pub(crate) fn snap_at(
    alloc: Global,
    table: &Table,
    snaps: &Snaps,
    text: &PathText,
    name: &NameText,
) -> Result<(InodeId, Name), AskFault>
    ensures asked { (state : State FileBlocks) → StandsFor (told table.now) snaps.now state → MatchResult result (λ at. dir_of (Snapshotting.snap_at state text.now name.now) ≡ Ok at.0) (IsFaultOf (Snapshotting.snap_at state text.now name.now)) }
    ensures name { IfOk result (λ at. at.1 ≡ name.now) }
{
    let dir = directory_at(alloc, table, text)?.1;
    let name = new_name(alloc, name)?;
    takes_snapshot(snaps, dir, &name)?;
    Ok((dir, name))
}

/// The snapshot that is to go.
pub(crate) fn snap_del_at(
    alloc: Global,
    table: &Table,
    snaps: &Snaps,
    text: &PathText,
    name: &NameText,
) -> Result<SnapId, AskFault>
    ensures { (state : State FileBlocks) → StandsFor (told table.now) snaps.now state → MatchResult result (λ id. Snapshotting.snap_del_at state text.now name.now ≡ Ok id) (IsFaultOf (Snapshotting.snap_del_at state text.now name.now)) }
{
    let dir = directory_at(alloc, table, text)?.1;
    refuse_if(!is_snapshottable(snaps, dir), Refusal::NotSnapshottable)?;
    Ok(snapshot_sought(alloc, snaps, dir, name)?.0)
}

/// A snapshot of a directory that is to have another name.
#[derive(Drop)]
pub(crate) struct Renaming {
    pub(crate) dir: InodeId,
    pub(crate) id: SnapId,
    pub(crate) old: Name,
    pub(crate) new: Name,
}

/// The same, where the new name is read.
fn read_renaming(
    alloc: Global,
    snaps: &Snaps,
    dir: InodeId,
    old: &NameText,
    new: Name,
) -> Result<Renaming, AskFault>
    ensures asked { (table : Tabled) (state : State FileBlocks) → StandsFor table snaps.now state → MatchResult result (λ at. renamed_id state dir old.now new ≡ Ok at.id) (IsFaultOf (renamed_id state dir old.now new)) }
    ensures said { IfOk result (λ at. (at.dir ≡ dir) × (at.old ≡ old.now) × (at.new ≡ new)) }
{
    takes_name(snaps, dir, &new)?;
    let (id, old) = snapshot_sought(alloc, snaps, dir, old)?;
    Ok(Renaming { dir, id, old, new })
}

/// The snapshot that is to have another name.
pub(crate) fn snap_ren_at(
    alloc: Global,
    table: &Table,
    snaps: &Snaps,
    text: &PathText,
    old: &NameText,
    new: &NameText,
) -> Result<Renaming, AskFault>
    ensures asked { (state : State FileBlocks) → StandsFor (told table.now) snaps.now state → MatchResult result (λ at. Snapshotting.snap_ren_at state text.now old.now new.now ≡ Ok at.id) (IsFaultOf (Snapshotting.snap_ren_at state text.now old.now new.now)) }
    ensures dir { (state : State FileBlocks) → StandsFor (told table.now) snaps.now state → IfOk result (λ at. dir_of (Snapshotting.directory_at state text.now) ≡ Ok at.dir) }
    ensures names { IfOk result (λ at. (at.old ≡ old.now) × (at.new ≡ new.now)) }
{
    let dir = directory_at(alloc, table, text)?.1;
    let new = new_name(alloc, new)?;
    read_renaming(alloc, snaps, dir, old, new)
}
