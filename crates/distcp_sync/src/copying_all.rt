//! The copies of a plan.
ghost use Rattle.std.specs.Prelude.{◌≡◌, ◌+◌, ◌≤◌, ◌<◌, ◌∷◌, ◌++◌, [], length, vec_len, vec_capacity};
ghost use Rattle.distcp_sync.specs.inside.Tried.{EndsBy, AreCopiedWith};

use crate::answer::SyncAnswer;
use crate::answering::answer_at;
use copy_workers::{Copied, copy_one};
use hs_plain::CopyJob;
use hs_types::{PathText, SnapId};
use page_join::NameLink;
use std::alloc::Global;

/// Copies the files one after the other, up to the first copy that isn't whole. A place is reserved for each.
pub(crate) fn copy_all<L: NameLink>(
    alloc: Global,
    jobs: &[CopyJob],
    snap: SnapId,
    root: &PathText,
    source: &mut L,
    target: &mut L,
    copies: &mut Vec<Copied>,
) -> Result<(), SyncAnswer>
    requires room { vec_len copies.old + length jobs.now ≤ vec_capacity copies.old }
    ensures numbers { (L.number source.new ≡ L.number source.old) × (L.number target.new ≡ L.number target.old) }
    ensures alone { (L.alone source.new ≡ L.alone source.old) × (L.alone target.new ≡ L.alone target.old) }
    ensures stays { (L.stays source.old source.new) × (L.stays target.old target.new) }
    ensures copied { AreCopiedWith snap root.now 0 jobs.now (L.known source.old) (L.known source.new) (L.known target.old) (L.known target.new) copies.old.items copies.new.items result }
{
    for (number, job) in jobs.iter().enumerate() {
        let copied = copy_one(alloc, number as u64, job, snap, root, source, target);
        note_copy(copied, copies)?;
    }
    Ok(())
}

fn note_copy(copied: Copied, copies: &mut Vec<Copied>) -> Result<(), SyncAnswer>
    requires room { vec_len copies.old < vec_capacity copies.old }
    ensures items { copies.new.items ≡ copies.old.items ++ copied ∷ [] }
    ensures len { vec_len copies.new ≡ vec_len copies.old + 1 }
    ensures capacity { vec_capacity copies.new ≡ vec_capacity copies.old }
    ensures ends { EndsBy copied.ended result }
{
    let ended = match &copied.ended {
        Some(look) => Err(answer_at(look)),
        None => Ok(()),
    };
    copies.push_reserved(copied);
    ended
}
