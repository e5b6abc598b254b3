//! A sync of the target with the source, by one caller of both.
ghost use Rattle.std.specs.Prelude.{◌≡◌, is_some};
ghost use Rattle.hs_types.specs.Limits.{journal_limit};
ghost use Rattle.script_runner.specs.Nodes.{StaysNode, world};
ghost use Rattle.script_runner.specs.InTurn.{IsSyncDone, world_of};

use crate::client::Client;
use crate::nodes::{Nodes, link_to};
use block_store::BlockStore;
use distcp_sync::{SyncJob, SyncReport, sync_one};
use hs_types::CallerId;
use namenode_lock::NodeLink;
use namenode_write::Namenode;
use std::alloc::Global;

/// Syncs through two links of one caller, which then have the same namenodes.
fn sync_alone<'a, B: BlockStore>(
    alloc: Global,
    source: &mut NodeLink<'a, B>,
    target: &mut NodeLink<'a, B>,
    job: &SyncJob,
) -> SyncReport
    requires usual_source { source.old.node.now.limit ≡ journal_limit }
    requires usual_target { target.old.node.now.limit ≡ journal_limit }
    requires one_caller { target.old.caller ≡ source.old.caller }
    ensures source_node { source.new.node.ghost_name ≡ source.old.node.ghost_name }
    ensures target_node { target.new.node.ghost_name ≡ target.old.node.ghost_name }
    ensures ran { IsSyncDone (is_some (B.blocks source.old.node.now.store)) (is_some (B.blocks target.old.node.now.store)) source.old.caller.0 (world_of source.old.node.now.entries target.old.node.now.entries source.old.seq target.old.seq) (world_of source.new.node.now.entries target.new.node.now.entries source.new.seq target.new.seq) job.now result }
    ensures source_stays { StaysNode B.blocks B.faults source.old.node.now source.new.node.now }
    ensures target_stays { StaysNode B.blocks B.faults target.old.node.now target.new.node.now }
{
    sync_one(alloc, source, target, job)
}

/// Syncs two namenodes through links of one caller, and counts the calls on both.
fn sync_nodes<'a, B: BlockStore>(
    alloc: Global,
    source: &'a mut Namenode<B>,
    target: &'a mut Namenode<B>,
    caller: CallerId,
    source_calls: &mut u64,
    target_calls: &mut u64,
    job: &SyncJob,
) -> SyncReport
    requires usual_source { source.old.limit ≡ journal_limit }
    requires usual_target { target.old.limit ≡ journal_limit }
    ensures ran { IsSyncDone (is_some (B.blocks source.old.store)) (is_some (B.blocks target.old.store)) caller.0 (world_of source.old.entries target.old.entries source_calls.old target_calls.old) (world_of source.new.entries target.new.entries source_calls.new target_calls.new) job.now result }
    ensures source_stays { StaysNode B.blocks B.faults source.old source.new }
    ensures target_stays { StaysNode B.blocks B.faults target.old target.new }
{
    let mut source_link = link_to(alloc, source, caller, *source_calls);
    let mut target_link = link_to(alloc, target, caller, *target_calls);
    let report = sync_alone(alloc, &mut source_link, &mut target_link, job);
    *source_calls = source_link.seq;
    *target_calls = target_link.seq;
    report
}

/// Syncs as a client, which then counts the calls on both sides. Its kept cursors stay.
pub(crate) fn run_sync<B: BlockStore>(
    alloc: Global,
    nodes: &mut Nodes<B>,
    client: &mut Client,
    job: &SyncJob,
) -> SyncReport
    requires usual_source { nodes.old.source.limit ≡ journal_limit }
    requires usual_target { nodes.old.target.limit ≡ journal_limit }
    ensures ran { IsSyncDone (is_some (B.blocks nodes.old.source.store)) (is_some (B.blocks nodes.old.target.store)) client.old.caller.0 (world nodes.old.source.entries nodes.old.target.entries client.old) (world nodes.new.source.entries nodes.new.target.entries client.new) job.now result }
    ensures caller { client.new.caller ≡ client.old.caller }
    ensures source_cursors { client.new.source.cursors ≡ client.old.source.cursors }
    ensures target_cursors { client.new.target.cursors ≡ client.old.target.cursors }
    ensures source_stays { StaysNode B.blocks B.faults nodes.old.source nodes.new.source }
    ensures target_stays { StaysNode B.blocks B.faults nodes.old.target nodes.new.target }
{
    sync_nodes(
        alloc,
        &mut nodes.source,
        &mut nodes.target,
        client.caller,
        &mut client.source.calls,
        &mut client.target.calls,
        job,
    )
}
