//! What modifying calls on snapshots change in a plain state. The tick stays.
ghost use Rattle.std.specs.Prelude.{◌≡◌, ◌+◌, ◌<◌, ◌≤◌, ◌^◌, ◌++◌, [], ◌∷◌, Ok, Err, IfOk, IfErr, OnOk, OnErr, true, map, length, vec_len, vec_capacity};
ghost use Rattle.std.specs.List.{zip};
ghost use Rattle.hs_types.specs.Names.{is_name};
ghost use Rattle.hs_types.specs.declared.call.Call.TheVariants as calls;
ghost use Rattle.hs_plain.specs.inside.Faults.{IsFaultOf};
ghost use Rattle.hs_plain.specs.Files.{plain_files};
ghost use Rattle.hs_plain.specs.Snapshotting;
ghost use Rattle.hs_plain.specs.Answer;
ghost use Rattle.hs_plain.specs.Change;

use crate::resolve::{AskFault, is_snapshottable};
use crate::snapshotting::{allow_at, disallow_at, snap_at, snap_del_at, snap_ren_at};
use crate::state::{Bytes, Member, Node, PlainState, State};
use crate::subtree::subtree;
use hs_types::{
    Duplicate, InodeId, List, Name, NameFault, NameText, NoMemory, PathText, Reply, SnapId,
};
use std::alloc::Global;

/// Makes a directory one in which snapshots may be made, if it isn't one already.
fn add_snapshottable<B>(state: &mut State<B>, id: InodeId) -> Result<(), NoMemory>
    ensures ok { OnOk result (state.new ≡ Change.allowed state.old id) }
    ensures err { OnErr result (state.new ≡ state.old) }
{
    if is_snapshottable(state, id) {
        return Ok(());
    }
    state.snapshottable.push(id)
}

/// Makes a directory snapshottable, where that isn't refused.
pub fn allow(alloc: Global, state: &mut PlainState, path: &PathText) -> Result<Reply, AskFault>
    ensures reply { IfOk result (λ reply. Answer.asked plain_files state.old (calls.Allow path.now) ≡ Ok reply) }
    ensures fault { IfErr result (IsFaultOf (Answer.asked plain_files state.old (calls.Allow path.now))) }
    ensures ok { OnOk result (state.new ≡ Change.change plain_files state.old (calls.Allow path.now)) }
    ensures tick { state.new.tick ≡ state.old.tick }
    ensures inodes { state.new.next_inode ≡ state.old.next_inode }
    ensures snapshots { state.new.next_snapshot ≡ state.old.next_snapshot }
    ensures err { OnErr result (state.new ≡ state.old) }
{
    let id = allow_at(alloc, state, path)?;
    add_snapshottable(state, id)?;
    Ok(Reply::Done)
}

/// Takes a directory from those in which snapshots may be made.
fn remove_snapshottable<B>(state: &mut State<B>, id: InodeId)
    ensures { state.new ≡ Change.disallowed state.old id }
{
    let mut ids = state.snapshottable.take();
    ids.retain(|other| *other != id);
    state.snapshottable = List::of(ids);
}

/// Makes a directory one that isn't snapshottable, where that isn't refused.
pub fn disallow(alloc: Global, state: &mut PlainState, path: &PathText) -> Result<Reply, AskFault>
    ensures reply { IfOk result (λ reply. Answer.asked plain_files state.old (calls.Disallow path.now) ≡ Ok reply) }
    ensures fault { IfErr result (IsFaultOf (Answer.asked plain_files state.old (calls.Disallow path.now))) }
    ensures ok { OnOk result (state.new ≡ Change.change plain_files state.old (calls.Disallow path.now)) }
    ensures tick { state.new.tick ≡ state.old.tick }
    ensures inodes { state.new.next_inode ≡ state.old.next_inode }
    ensures snapshots { state.new.next_snapshot ≡ state.old.next_snapshot }
    ensures err { OnErr result (state.new ≡ state.old) }
{
    let id = disallow_at(alloc, state, path)?;
    remove_snapshottable(state, id);
    Ok(Reply::Done)
}

/// A copy of a text that is a name.
fn name_of(alloc: Global, text: &NameText) -> Result<Name, NoMemory>
    requires { is_name text.now ≡ true }
    ensures { IfOk result (λ name. name ≡ text.now) }
{
    match Name::read(alloc, text) {
        Ok(name) => Ok(name),
        Err(NameFault::NoMemory) => Err(NoMemory),
        Err(NameFault::Illegal) => unreachable!(),
    }
}

/// A new snapshot of the directory at a path, with a copy of its whole subtree.
fn new_snapshot(
    alloc: Global,
    state: &PlainState,
    name: &NameText,
    path: &[Name],
    node: &Node<Bytes>,
) -> Result<Member<Bytes>, NoMemory>
    requires named { is_name name.now ≡ true }
    requires ticks { state.now.tick + 1 < 2 ^ 64 }
    ensures { IfOk result (λ member. member ≡ Change.new_member state.now name.now (path.now, node.now)) }
{
    let tree = subtree(alloc, state.tree.items(), path)?;
    Ok(Member {
        snapshot: SnapId(state.next_snapshot),
        directory: node.id,
        name: name_of(alloc, name)?,
        tick: state.tick + 1,
        tree,
    })
}

/// Adds a snapshot, which has the next snapshot id.
fn add_snapshot<B: Drop>(state: &mut State<B>, member: Member<B>) -> Result<(), NoMemory>
    requires { state.old.next_snapshot + 1 < 2 ^ 64 }
    ensures ok { OnOk result (state.new ≡ record state.old { members = state.old.members ++ member ∷ []; next_snapshot = state.old.next_snapshot + 1 }) }
    ensures err { OnErr result (state.new ≡ state.old) }
{
    state.members.push(member)?;
    state.next_snapshot += 1;
    Ok(())
}

/// The new snapshot that a call asks for.
fn asked_snapshot(
    alloc: Global,
    state: &PlainState,
    path: &PathText,
    name: &NameText,
) -> Result<Member<Bytes>, AskFault>
    requires { state.now.tick + 1 < 2 ^ 64 }
    ensures made { IfOk result (λ member. Change.if_asked (Change.snapped state.now name.now) state.now (Snapshotting.snap_at state.now path.now name.now) ≡ record state.now { members = state.now.members ++ member ∷ []; next_snapshot = state.now.next_snapshot + 1 }) }
    ensures reply { OnOk result (Answer.asked plain_files state.now (calls.Snap path.now name.now) ≡ Ok (Answer.snap_made_reply state.now)) }
    ensures fault { IfErr result (IsFaultOf (Answer.asked plain_files state.now (calls.Snap path.now name.now))) }
{
    let (path, node) = snap_at(alloc, state, path, name)?;
    Ok(new_snapshot(alloc, state, name, path.items(), node)?)
}

/// Makes a snapshot, where that isn't refused.
pub fn snap(
    alloc: Global,
    state: &mut PlainState,
    path: &PathText,
    name: &NameText,
) -> Result<Reply, AskFault>
    requires ticks { state.old.tick + 1 < 2 ^ 64 }
    requires snapshots { state.old.next_snapshot + 1 < 2 ^ 64 }
    ensures reply { IfOk result (λ reply. Answer.asked plain_files state.old (calls.Snap path.now name.now) ≡ Ok reply) }
    ensures fault { IfErr result (IsFaultOf (Answer.asked plain_files state.old (calls.Snap path.now name.now))) }
    ensures ok { OnOk result (state.new ≡ Change.change plain_files state.old (calls.Snap path.now name.now)) }
    ensures tick { state.new.tick ≡ state.old.tick }
    ensures inodes { state.new.next_inode ≡ state.old.next_inode }
    ensures snapshots { state.new.next_snapshot ≤ state.old.next_snapshot + 1 }
    ensures err { OnErr result (state.new ≡ state.old) }
{
    let id = SnapId(state.next_snapshot);
    let member = asked_snapshot(alloc, state, path, name)?;
    add_snapshot(state, member)?;
    Ok(Reply::SnapMade { id })
}

/// Takes out the snapshot with this id.
fn remove_snapshot<B: Drop>(state: &mut State<B>, id: SnapId)
    ensures { state.new ≡ Change.unsnapped state.old id }
{
    let mut members = state.members.take();
    members.retain(|member| member.snapshot != id);
    state.members = List::of(members);
}

/// Deletes a snapshot, where that isn't refused.
pub fn snap_del(
    alloc: Global,
    state: &mut PlainState,
    path: &PathText,
    name: &NameText,
) -> Result<Reply, AskFault>
    ensures reply { IfOk result (λ reply. Answer.asked plain_files state.old (calls.SnapDel path.now name.now) ≡ Ok reply) }
    ensures fault { IfErr result (IsFaultOf (Answer.asked plain_files state.old (calls.SnapDel path.now name.now))) }
    ensures ok { OnOk result (state.new ≡ Change.change plain_files state.old (calls.SnapDel path.now name.now)) }
    ensures tick { state.new.tick ≡ state.old.tick }
    ensures inodes { state.new.next_inode ≡ state.old.next_inode }
    ensures snapshots { state.new.next_snapshot ≡ state.old.next_snapshot }
    ensures err { OnErr result (state.new ≡ state.old) }
{
    let id = snap_del_at(alloc, state, path, name)?;
    remove_snapshot(state, id);
    Ok(Reply::Done)
}

/// A copy of a snapshot's name, when the one with this id gets another.
fn new_name<B>(member: &Member<B>, id: SnapId, name: &Name) -> Result<Name, NoMemory>
    ensures { IfOk result (λ copy. copy ≡ (Change.rename_member id name.now member.now).name) }
{
    if member.snapshot == id {
        name.copy()
    } else {
        member.name.copy()
    }
}

/// The names of all snapshots, when the one with this id gets another.
fn new_names<B>(
    alloc: Global,
    members: &[Member<B>],
    id: SnapId,
    name: &Name,
) -> Result<Vec<Name>, NoMemory>
    ensures { IfOk result (λ names. names.items ≡ map (λ member. (Change.rename_member id name.now member).name) members.now) }
{
    let mut names = Vec::with_capacity(alloc, members.len())?;
    for member in members {
        names.push(new_name(member, id, name)?)?;
    }
    Ok(names)
}

/// Puts snapshots with these names behind those that are there. There is room for all.
fn push_renamed<B: Drop>(renamed: &mut Vec<Member<B>>, members: Vec<Member<B>>, names: Vec<Name>)
    requires names { length names.items ≡ length members.items }
    requires room { vec_len renamed.old + vec_len members ≤ vec_capacity renamed.old }
    ensures { renamed.new.items ≡ renamed.old.items ++ map (λ pair. record pair.0 { name = pair.1 }) (zip members.items names.items) }
{
    for (mut member, name) in members.into_iter().zip(names) {
        member.name = name;
        renamed.push(member).unwrap();
    }
}

/// Gives the snapshot with this id another name. Without memory the state is as before.
fn rename_snapshot<B: Drop>(
    alloc: Global,
    state: &mut State<B>,
    id: SnapId,
    name: &Name,
) -> Result<(), NoMemory>
    ensures ok { OnOk result (state.new ≡ Change.resnapped state.old name.now id) }
    ensures err { OnErr result (state.new ≡ state.old) }
{
    let names = new_names(alloc, state.members.items(), id, name)?;
    let mut renamed = Vec::with_capacity(alloc, state.members.len())?;
    push_renamed(&mut renamed, state.members.take(), names);
    state.members = List::of(renamed);
    Ok(())
}

/// Gives a snapshot another name, where that isn't refused.
pub fn snap_ren(
    alloc: Global,
    state: &mut PlainState,
    path: &PathText,
    old: &NameText,
    new: &NameText,
) -> Result<Reply, AskFault>
    ensures reply { IfOk result (λ reply. Answer.asked plain_files state.old (calls.SnapRen path.now old.now new.now) ≡ Ok reply) }
    ensures fault { IfErr result (IsFaultOf (Answer.asked plain_files state.old (calls.SnapRen path.now old.now new.now))) }
    ensures ok { OnOk result (state.new ≡ Change.change plain_files state.old (calls.SnapRen path.now old.now new.now)) }
    ensures tick { state.new.tick ≡ state.old.tick }
    ensures inodes { state.new.next_inode ≡ state.old.next_inode }
    ensures snapshots { state.new.next_snapshot ≡ state.old.next_snapshot }
    ensures err { OnErr result (state.new ≡ state.old) }
{
    let id = snap_ren_at(alloc, state, path, old, new)?;
    let name = name_of(alloc, new)?;
    rename_snapshot(alloc, state, id, &name)?;
    Ok(Reply::Done)
}
