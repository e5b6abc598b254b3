//! The answers of the plain machine.
ghost use Rattle.std.specs.Prelude.{◌≡◌, ◌≢◌, Ok, Err, MatchResult};
ghost use Rattle.hs_plain.specs.Answer;
ghost use Rattle.hs_plain.specs.Files.{plain_files};
ghost use Rattle.hs_plain.specs.inside.Faults.{IsFaultOf, told_reply};

pub use crate::modifying::{
    append_at, create_at, delete_at, live_path, mkdir_at, plain_of, read_path, rename_at,
    set_mode_at,
};
pub use crate::pages::{first_page, next_read};
pub use crate::reading::{found_file, list_page, next_file, stat, stat_at};
use crate::reading::{dirs, list_next, read, read_next, report_first, report_next, snaps};
use crate::resolve::AskFault;
use crate::snapshotting::{allow_at, disallow_at, snap_at, snap_del_at, snap_ren_at};
use crate::state::{PlainState, State};
use hs_types::{Call, InodeId, Reply, SnapId};
use std::alloc::Global;

/// The reply that a result stands for.
pub fn reply_of(asked: Result<Reply, AskFault>) -> Reply
    ensures { result ≡ told_reply asked }
{
    match asked {
        Ok(reply) => reply,
        Err(AskFault::Refused(why)) => Reply::Refused(why),
        Err(AskFault::NoMemory) => Reply::NoMemory,
    }
}

/// A new node gets the next id.
fn made_reply<B>(state: &State<B>) -> Reply
    ensures { result ≡ Answer.made_reply state.now }
{
    Reply::Made {
        id: InodeId(state.next_inode),
    }
}

/// A new snapshot gets the next snapshot id.
fn snap_made_reply<B>(state: &State<B>) -> Reply
    ensures { result ≡ Answer.snap_made_reply state.now }
{
    Reply::SnapMade {
        id: SnapId(state.next_snapshot),
    }
}

/// The reply to what was asked for.
fn replied<X: Drop>(reply: Reply, asked: Result<X, AskFault>) -> Result<Reply, AskFault>
    ensures { MatchResult asked (λ _. result ≡ Ok reply) (λ fault. result ≡ Err fault) }
{
    match asked {
        Ok(_) => Ok(reply),
        Err(fault) => Err(fault),
    }
}

/// Whether a call may change the state.
pub fn is_modifying(call: &Call) -> bool
    ensures { result ≡ Answer.is_modifying call.now }
{
    match call {
        Call::Mkdir { .. }
        | Call::Create { .. }
        | Call::Append { .. }
        | Call::Delete { .. }
        | Call::Rename { .. }
        | Call::SetMode { .. }
        | Call::Allow { .. }
        | Call::Disallow { .. }
        | Call::Snap { .. }
        | Call::SnapDel { .. }
        | Call::SnapRen { .. } => true,
        Call::Read { .. }
        | Call::ReadNext { .. }
        | Call::Stat { .. }
        | Call::List { .. }
        | Call::ListNext { .. }
        | Call::Snaps { .. }
        | Call::Dirs
        | Call::Report { .. }
        | Call::ReportNext { .. } => false,
    }
}

/// Whether a call is made alone: it may change the state, or uses the store.
pub fn is_exclusive(call: &Call) -> bool
    ensures { result ≡ Answer.is_exclusive call.now }
{
    is_modifying(call) || matches!(call, Call::Read { .. } | Call::ReadNext { .. })
}

fn asked(alloc: Global, state: &PlainState, call: &Call) -> Result<Reply, AskFault>
    ensures { MatchResult result (λ reply. Answer.asked plain_files state.now call.now ≡ Ok reply) (IsFaultOf (Answer.asked plain_files state.now call.now)) }
{
    match call {
        Call::Mkdir { path } => replied(made_reply(state), mkdir_at(alloc, state, path)),
        Call::Create { path, over } => replied(
            made_reply(state),
            create_at(alloc, state, path, *over),
        ),
        Call::Append { path, .. } => replied(Reply::Done, append_at(alloc, state, path)),
        Call::Delete { path, recursive } => {
            replied(Reply::Done, delete_at(alloc, state, path, *recursive))
        }
        Call::Rename { old, new } => replied(Reply::Done, rename_at(alloc, state, old, new)),
        Call::SetMode { path, .. } => replied(Reply::Done, set_mode_at(alloc, state, path)),
        Call::Read { path, offset, len } => read(alloc, state, path, *offset, *len),
        Call::ReadNext { cursor, len } => read_next(alloc, state, *cursor, *len),
        Call::Stat { path } => stat(alloc, state, path),
        Call::List { path, size } => list_page(alloc, state, path, *size),
        Call::Allow { path } => replied(Reply::Done, allow_at(alloc, state, path)),
        Call::Disallow { path } => replied(Reply::Done, disallow_at(alloc, state, path)),
        Call::Snap { path, name } => replied(
            snap_made_reply(state),
            snap_at(alloc, state, path, name),
        ),
        Call::SnapDel { path, name } => {
            replied(Reply::Done, snap_del_at(alloc, state, path, name))
        }
        Call::SnapRen { path, old, new } => {
            replied(Reply::Done, snap_ren_at(alloc, state, path, old, new))
        }
        Call::ListNext { cursor, size } => list_next(alloc, state, cursor, *size),
        Call::Snaps { path } => snaps(alloc, state, path),
        Call::Dirs => Ok(dirs(alloc, state)?),
        Call::Report {
            path,
            from,
            to,
            size,
        } => report_first(alloc, state, path, from, to, *size),
        Call::ReportNext { cursor, size } => report_next(alloc, state, *cursor, *size),
    }
}

/// What the plain machine answers to a call. `NoMemory` alone is no answer of the plain machine.
pub fn answer_of(alloc: Global, state: &PlainState, call: &Call) -> Reply
    ensures { result ≢ Reply.NoMemory → result ≡ Answer.answer state.now call.now }
{
    reply_of(asked(alloc, state, call))
}
