//! What modifying calls on snapshots ask for, or why they are refused.
ghost use Rattle.std.specs.Prelude.{◌≡◌, Ok, Err, MatchResult, OnOk, true};
ghost use Rattle.hs_types.specs.Names.{is_name};
ghost use Rattle.hs_plain.specs.Snapshotting;
ghost use Rattle.hs_plain.specs.inside.Faults.{IsFaultOf};

use crate::modifying::{live_path, refuse_if};
use crate::resolve::{AskFault, is_snapshottable};
use crate::snapshots::{
    has_snapshot_named, has_snapshots, meets_snapshottable, snapshot_named, snapshots_of,
};
use crate::state::{Node, State};
use crate::tree::walk;
use hs_types::name::is_legal_name;
use hs_types::{InodeId, List, Name, NameText, PathText, Refusal, SnapId};
use std::alloc::Global;

/// The most snapshots of one directory.
const MOST_SNAPSHOTS: usize = 65536;

/// The directory that a call on snapshots names, with its path.
fn directory_at<'s, B>(
    alloc: Global,
    state: &'s State<B>,
    text: &PathText,
) -> Result<(List<Name>, &'s Node<B>), AskFault>
    ensures { MatchResult result (λ at. Snapshotting.directory_at state.now text.now ≡ Ok (at.0, at.1.now)) (IsFaultOf (Snapshotting.directory_at state.now text.now)) }
{
    let path = live_path(alloc, text)?;
    let node = walk(state.tree.items(), path.items())?;
    refuse_if(!node.is_dir(), Refusal::NotDir)?;
    Ok((path, node))
}

/// The directory that is to become snapshottable.
pub fn allow_at<B>(alloc: Global, state: &State<B>, text: &PathText) -> Result<InodeId, AskFault>
    ensures { MatchResult result (λ id. Snapshotting.allow_at state.now text.now ≡ Ok id) (IsFaultOf (Snapshotting.allow_at state.now text.now)) }
{
    let (path, node) = directory_at(alloc, state, text)?;
    let nested = meets_snapshottable(state, path.items());
    refuse_if(nested, Refusal::Nested)?;
    Ok(node.id)
}

/// The snapshottable directory that is to be none.
pub fn disallow_at<B>(alloc: Global, state: &State<B>, text: &PathText) -> Result<InodeId, AskFault>
    ensures { MatchResult result (λ id. Snapshotting.disallow_at state.now text.now ≡ Ok id) (IsFaultOf (Snapshotting.disallow_at state.now text.now)) }
{
    let id = directory_at(alloc, state, text)?.1.id;
    refuse_if(has_snapshots(state, id), Refusal::HasSnapshots)?;
    refuse_if(!is_snapshottable(state, id), Refusal::NotSnapshottable)?;
    Ok(id)
}

/// The directory to be frozen under a name, with its path.
pub fn snap_at<'s, B>(
    alloc: Global,
    state: &'s State<B>,
    text: &PathText,
    name: &NameText,
) -> Result<(List<Name>, &'s Node<B>), AskFault>
    ensures asked { MatchResult result (λ at. Snapshotting.snap_at state.now text.now name.now ≡ Ok (at.0, at.1.now)) (IsFaultOf (Snapshotting.snap_at state.now text.now name.now)) }
    ensures named { OnOk result (is_name name.now ≡ true) }
{
    let (path, node) = directory_at(alloc, state, text)?;
    refuse_if(!is_legal_name(name.text()), Refusal::NotSnapshotName)?;
    refuse_if(!is_snapshottable(state, node.id), Refusal::NotSnapshottable)?;
    let taken = has_snapshot_named(state, node.id, name);
    refuse_if(taken, Refusal::SnapshotExists)?;
    let full = snapshots_of(state.members.items(), node.id) >= MOST_SNAPSHOTS;
    refuse_if(full, Refusal::SnapshotLimit)?;
    Ok((path, node))
}

/// The snapshot to be deleted.
pub fn snap_del_at<B>(
    alloc: Global,
    state: &State<B>,
    text: &PathText,
    name: &NameText,
) -> Result<SnapId, AskFault>
    ensures { MatchResult result (λ id. Snapshotting.snap_del_at state.now text.now name.now ≡ Ok id) (IsFaultOf (Snapshotting.snap_del_at state.now text.now name.now)) }
{
    let id = directory_at(alloc, state, text)?.1.id;
    refuse_if(!is_snapshottable(state, id), Refusal::NotSnapshottable)?;
    Ok(snapshot_named(state.members.items(), id, name)?)
}

/// The snapshot to be renamed.
pub fn snap_ren_at<B>(
    alloc: Global,
    state: &State<B>,
    text: &PathText,
    old: &NameText,
    new: &NameText,
) -> Result<SnapId, AskFault>
    ensures asked { MatchResult result (λ id. Snapshotting.snap_ren_at state.now text.now old.now new.now ≡ Ok id) (IsFaultOf (Snapshotting.snap_ren_at state.now text.now old.now new.now)) }
    ensures named { OnOk result (is_name new.now ≡ true) }
{
    let id = directory_at(alloc, state, text)?.1.id;
    refuse_if(!is_legal_name(new.text()), Refusal::NotSnapshotName)?;
    refuse_if(!is_snapshottable(state, id), Refusal::NotSnapshottable)?;
    let taken = has_snapshot_named(state, id, new);
    refuse_if(taken, Refusal::SnapshotExists)?;
    Ok(snapshot_named(state.members.items(), id, old)?)
}
