//! The queue of new directories that are to be listed.
ghost use Rattle.std.specs.Prelude.{◌≡◌, ◌++◌, ◌&&◌, not, IfOk, OnOk};
ghost use Rattle.plan_laws.specs.Translated.{renames_id};
ghost use Rattle.std.specs.Option.{option_to_list};
ghost use Rattle.distcp_sync.specs.inside.Queue.{created_dir_id, first_ids, new_dir_id, new_ids, QueueIsListings};

use distcp_plan::Moves;
use hs_types::{InodeId, Item, Line, LineKind, NoMemory};
use std::alloc::Global;

/// A queue that begins with the directories of the `+` lines gives the listings of a plan.
pub(crate) fn queue_is_listings()
    ensures { QueueIsListings }
{}

/// The directories of the `+` lines.
pub(crate) fn first_ids(alloc: Global, lines: &[Line]) -> Result<Vec<InodeId>, NoMemory>
    ensures { IfOk result (λ ids. ids.items ≡ first_ids lines.now) }
{
    let mut ids = Vec::new(alloc);
    for line in lines {
        if let Some(id) = created_dir_id(line) {
            ids.push(id)?;
        }
    }
    Ok(ids)
}

fn created_dir_id(line: &Line) -> Option<InodeId>
    ensures { result ≡ created_dir_id line.now }
{
    match line.kind {
        LineKind::Created if line.is_dir => Some(line.id),
        _ => None,
    }
}

/// Puts the new directories of a listing behind those that wait.
pub(crate) fn add_new<'p>(
    moves: &Moves<'p>,
    items: &[Item],
    ids: &mut Vec<InodeId>,
) -> Result<(), NoMemory>
    ensures { OnOk result (ids.new.items ≡ ids.old.items ++ new_ids moves.now items.now) }
{
    for item in items {
        if let Some(id) = new_dir_id(moves, item) {
            ids.push(id)?;
        }
    }
    Ok(())
}

fn new_dir_id<'p>(moves: &Moves<'p>, item: &Item) -> Option<InodeId>
    ensures { result ≡ new_dir_id moves.now item.now }
{
    if is_new_dir(moves, item) {
        Some(item.id)
    } else {
        None
    }
}

#[tactic(auto, using(crate::proofs::RenamedIds::renamed_so))]
fn is_new_dir<'p>(moves: &Moves<'p>, item: &Item) -> bool
    ensures { result ≡ (item.now.is_dir && not (renames_id moves.now item.now.id)) }
{
    item.is_dir && !moves.has_id(item.id)
}
