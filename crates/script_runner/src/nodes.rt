//! Both namenodes of a run, and the calls of a command on one of them.
ghost use Rattle.std.specs.Prelude.{◌≡◌, is_some, IfOk, OnOk};
ghost use Rattle.hs_types.specs.Limits.{journal_limit};
ghost use Rattle.run_output.specs.Run.{what_of as plain_what_of};
ghost use Rattle.script_runner.specs.Keeping.{kept_of, session_of};
ghost use Rattle.script_runner.specs.Nodes.{StaysNode, IsNodeRun, IsCommandDone, world};
ghost use Rattle.script_runner.specs.Commands.{asked_command};

use crate::client::{Client, Cursors, Session};
use crate::commands::{Ask, ask_command};
use crate::syncs::run_sync;
use block_store::BlockStore;
use distcp_sync::SyncJob;
use hs_types::{Answered, CallerId, List, NoMemory, PageSize, Side};
use namenode_lock::NodeLink;
use namenode_write::Namenode;
use run_output::LogWhat;
use script_text::Command;
use std::alloc::Global;

/// The two namenodes of a run.
#[derive(Drop)]
pub(crate) struct Nodes<B: BlockStore> {
    pub(crate) source: Namenode<B>,
    pub(crate) target: Namenode<B>,
}

/// A link of a caller that made so many calls.
pub(crate) fn link_to<'a, B: BlockStore>(
    alloc: Global,
    node: &'a mut Namenode<B>,
    caller: CallerId,
    calls: u64,
) -> NodeLink<'a, B>
    ensures same { result.node.ghost_name ≡ node.entry.ghost_name }
    ensures node { result.node.now ≡ node.old }
    ensures caller { result.caller ≡ caller }
    ensures calls { result.seq ≡ calls }
{
    NodeLink {
        alloc,
        node,
        caller,
        seq: calls,
    }
}

/// Makes the calls of a command through a link, which then has the same namenode.
fn ask_alone<B: BlockStore>(
    link: &mut NodeLink<'_, B>,
    cursors: &mut Cursors,
    page: PageSize,
    ask: Ask,
) -> Result<List<Answered>, NoMemory>
    requires usual { link.old.node.now.limit ≡ journal_limit }
    ensures node { link.new.node.ghost_name ≡ link.old.node.ghost_name }
    ensures ran { IfOk result (IsNodeRun (is_some (B.blocks link.old.node.now.store)) page link.old.caller.0 ask link.old.node.now.entries link.new.node.now.entries (session_of link.old.seq cursors.old) (session_of link.new.seq cursors.new)) }
    ensures stays { OnOk result (StaysNode B.blocks B.faults link.old.node.now link.new.node.now) }
{
    ask_command(link.alloc, link, cursors, page, ask)
}

/// Makes the calls of a command on one namenode, through a link of its caller.
fn ask_node<B: BlockStore>(
    alloc: Global,
    node: &mut Namenode<B>,
    caller: CallerId,
    session: &mut Session,
    page: PageSize,
    ask: Ask,
) -> Result<List<Answered>, NoMemory>
    requires usual { node.old.limit ≡ journal_limit }
    ensures ran { IfOk result (IsNodeRun (is_some (B.blocks node.old.store)) page caller.0 ask node.old.entries node.new.entries session.old session.new) }
    ensures stays { OnOk result (StaysNode B.blocks B.faults node.old node.new) }
{
    let mut link = link_to(alloc, node, caller, session.calls);
    let replies = ask_alone(&mut link, &mut session.cursors, page, ask)?;
    session.calls = link.seq;
    Ok(replies)
}

/// What a command logs that asked one side.
fn what_of(side: Side, list: List<Answered>) -> LogWhat
    ensures { result ≡ plain_what_of side list }
{
    if list.is_empty() {
        LogWhat::NoCursor { side }
    } else {
        LogWhat::Replies { side, list }
    }
}

/// Makes the calls of a command that asks one side, and logs them.
fn ask_side<B: BlockStore>(
    alloc: Global,
    nodes: &mut Nodes<B>,
    client: &mut Client,
    page: PageSize,
    side: Side,
    ask: Ask,
) -> Result<LogWhat, NoMemory>
    requires usual_source { nodes.old.source.limit ≡ journal_limit }
    requires usual_target { nodes.old.target.limit ≡ journal_limit }
    ensures ran { IfOk result (IsCommandDone (is_some (B.blocks nodes.old.source.store)) (is_some (B.blocks nodes.old.target.store)) page client.old.caller.0 (world nodes.old.source.entries nodes.old.target.entries client.old) (world nodes.new.source.entries nodes.new.target.entries client.new) (kept_of page client.old) (kept_of page client.new) (asked_command side ask)) }
    ensures caller { client.new.caller ≡ client.old.caller }
    ensures source_stays { OnOk result (StaysNode B.blocks B.faults nodes.old.source nodes.new.source) }
    ensures target_stays { OnOk result (StaysNode B.blocks B.faults nodes.old.target nodes.new.target) }
{
    match side {
        Side::Source => {
            let caller = client.caller;
            let session = &mut client.source;
            let list = ask_node(alloc, &mut nodes.source, caller, session, page, ask)?;
            Ok(what_of(Side::Source, list))
        }
        Side::Target => {
            let caller = client.caller;
            let session = &mut client.target;
            let list = ask_node(alloc, &mut nodes.target, caller, session, page, ask)?;
            Ok(what_of(Side::Target, list))
        }
    }
}

/// Runs a command, and logs what it did.
pub(crate) fn run_command<B: BlockStore>(
    alloc: Global,
    nodes: &mut Nodes<B>,
    client: &mut Client,
    page: PageSize,
    command: Command,
) -> Result<LogWhat, NoMemory>
    requires usual_source { nodes.old.source.limit ≡ journal_limit }
    requires usual_target { nodes.old.target.limit ≡ journal_limit }
    ensures ran { IfOk result (IsCommandDone (is_some (B.blocks nodes.old.source.store)) (is_some (B.blocks nodes.old.target.store)) page client.old.caller.0 (world nodes.old.source.entries nodes.old.target.entries client.old) (world nodes.new.source.entries nodes.new.target.entries client.new) (kept_of page client.old) (kept_of page client.new) command) }
    ensures caller { client.new.caller ≡ client.old.caller }
    ensures source_stays { OnOk result (StaysNode B.blocks B.faults nodes.old.source nodes.new.source) }
    ensures target_stays { OnOk result (StaysNode B.blocks B.faults nodes.old.target nodes.new.target) }
{
    match command {
        Command::Call { side, call } => ask_side(alloc, nodes, client, page, side, Ask::Call(call)),
        Command::All { side, pages } => ask_side(alloc, nodes, client, page, side, Ask::All(pages)),
        Command::First { side, pages } => {
            ask_side(alloc, nodes, client, page, side, Ask::First(pages))
        }
        Command::More { side, kind } => ask_side(alloc, nodes, client, page, side, Ask::More(kind)),
        Command::Sync {
            source,
            target,
            from,
            to,
        } => {
            let job = SyncJob {
                source_root: source,
                target_root: target,
                from,
                to,
                page,
            };
            Ok(LogWhat::Synced(run_sync(alloc, nodes, client, &job)))
        }
    }
}
