//! The sections of a script, run one after the other.
ghost use Rattle.std.specs.Prelude.{◌≡◌, ◌≤◌, ◌+◌, ◌++◌, ◌∷◌, [], true, false, if◌then◌else◌, is_some, length, IfOk, OnOk};
ghost use Rattle.std.specs.Option.{option_to_list};
ghost use Rattle.hs_types.specs.Limits.{journal_limit};
ghost use Rattle.run_output.specs.Run.{is_section as plain_is_section};
ghost use Rattle.script_text.specs.Order.{are_ordered};
ghost use Rattle.script_runner.specs.Keeping.{kept_of};
ghost use Rattle.script_runner.specs.Nodes.{world, StaysNode};
ghost use Rattle.script_runner.specs.Sections.{IsLineRun, IsSectionRun, is_past, IsFront, IsClientRun, AreClientsTo, AreSectionsRun};

use crate::client::Client;
use crate::nodes::{Nodes, run_command};
use block_store::BlockStore;
use hs_types::{CallerId, List, NoMemory, PageSize};
use run_output::{ClientLog, LogItem};
use script_text::{ScriptLine, Section};
use std::alloc::Global;
use std::collections::VecDeque;

/// Runs a line of the script.
fn run_line<B: BlockStore>(
    alloc: Global,
    nodes: &mut Nodes<B>,
    client: &mut Client,
    page: PageSize,
    line: ScriptLine,
) -> Result<LogItem, NoMemory>
    requires usual_source { nodes.old.source.limit ≡ journal_limit }
    requires usual_target { nodes.old.target.limit ≡ journal_limit }
    ensures ran { IfOk result (IsLineRun (is_some (B.blocks nodes.old.source.store)) (is_some (B.blocks nodes.old.target.store)) page client.old.caller.0 (world nodes.old.source.entries nodes.old.target.entries client.old) (world nodes.new.source.entries nodes.new.target.entries client.new) (kept_of page client.old) (kept_of page client.new) line) }
    ensures caller { client.new.caller ≡ client.old.caller }
    ensures source_stays { OnOk result (StaysNode B.blocks B.faults nodes.old.source nodes.new.source) }
    ensures target_stays { OnOk result (StaysNode B.blocks B.faults nodes.old.target nodes.new.target) }
{
    let ScriptLine { line, command, .. } = line;
    let what = run_command(alloc, nodes, client, page, command)?;
    Ok(LogItem { line, what })
}

/// Whether these are one section.
fn is_section(a: Section, b: Section) -> bool
    ensures { result ≡ plain_is_section a b }
{
    match (a, b) {
        (Section::Setup, Section::Setup) | (Section::Finish, Section::Finish) => true,
        (Section::Client(a), Section::Client(b)) => a == b,
        _ => false,
    }
}

/// Whether the first line is of the section.
fn is_first_in(rest: &VecDeque<ScriptLine>, section: Section) -> bool
    ensures { is_past section rest.now.items ≡ (if result then false else true) }
{
    match rest.front() {
        Some(line) => is_section(line.section, section),
        None => false,
    }
}

/// Takes the first line, where it is of the section.
fn next_in(rest: &mut VecDeque<ScriptLine>, section: Section) -> Option<ScriptLine>
    ensures taken { rest.old.items ≡ option_to_list result ++ rest.new.items }
    ensures front { IsFront section result rest.new.items }
{
    if is_first_in(rest, section) {
        rest.pop_front()
    } else {
        None
    }
}

/// Runs the lines of a section, which stand at the front of those that are left.
fn run_section<B: BlockStore>(
    alloc: Global,
    nodes: &mut Nodes<B>,
    client: &mut Client,
    page: PageSize,
    section: Section,
    rest: &mut VecDeque<ScriptLine>,
) -> Result<List<LogItem>, NoMemory>
    requires usual_source { nodes.old.source.limit ≡ journal_limit }
    requires usual_target { nodes.old.target.limit ≡ journal_limit }
    ensures ran { IfOk result (IsSectionRun (is_some (B.blocks nodes.old.source.store)) (is_some (B.blocks nodes.old.target.store)) page client.old.caller.0 section (world nodes.old.source.entries nodes.old.target.entries client.old) (world nodes.new.source.entries nodes.new.target.entries client.new) (kept_of page client.old) (kept_of page client.new) rest.old.items rest.new.items) }
    ensures past { OnOk result (is_past section rest.new.items ≡ true) }
    ensures caller { client.new.caller ≡ client.old.caller }
    ensures source_stays { OnOk result (StaysNode B.blocks B.faults nodes.old.source nodes.new.source) }
    ensures target_stays { OnOk result (StaysNode B.blocks B.faults nodes.old.target nodes.new.target) }
{
    let mut items = Vec::new(alloc);
    let mut next = next_in(rest, section);
    while let Some(line) = next {
        let item = run_line(alloc, nodes, client, page, line)?;
        items.push(item)?;
        next = next_in(rest, section);
    }
    Ok(List::of(items))
}

/// Runs a client's section, by a caller of its own, and logs it.
fn run_client<B: BlockStore>(
    alloc: Global,
    nodes: &mut Nodes<B>,
    page: PageSize,
    number: u32,
    rest: &mut VecDeque<ScriptLine>,
) -> Result<ClientLog, NoMemory>
    requires usual_source { nodes.old.source.limit ≡ journal_limit }
    requires usual_target { nodes.old.target.limit ≡ journal_limit }
    ensures ran { IfOk result (IsClientRun (is_some (B.blocks nodes.old.source.store)) (is_some (B.blocks nodes.old.target.store)) page number nodes.old.source.entries nodes.old.target.entries nodes.new.source.entries nodes.new.target.entries rest.old.items rest.new.items) }
    ensures past { OnOk result (is_past (Section.Client number) rest.new.items ≡ true) }
    ensures source_stays { OnOk result (StaysNode B.blocks B.faults nodes.old.source nodes.new.source) }
    ensures target_stays { OnOk result (StaysNode B.blocks B.faults nodes.old.target nodes.new.target) }
{
    let mut client = Client::new(CallerId(number));
    let section = Section::Client(number);
    let items = run_section(alloc, nodes, &mut client, page, section, rest)?;
    Ok(log_of(section, items))
}

/// Runs the clients' sections, by rising numbers, and logs them.
fn run_clients<B: BlockStore>(
    alloc: Global,
    nodes: &mut Nodes<B>,
    page: PageSize,
    clients: u32,
    rest: &mut VecDeque<ScriptLine>,
    logs: &mut Vec<ClientLog>,
) -> Result<(), NoMemory>
    requires few { clients ≤ 16 }
    requires usual_source { nodes.old.source.limit ≡ journal_limit }
    requires usual_target { nodes.old.target.limit ≡ journal_limit }
    requires order { are_ordered clients 1 rest.old.items ≡ true }
    ensures ran { OnOk result (AreClientsTo (is_some (B.blocks nodes.old.source.store)) (is_some (B.blocks nodes.old.target.store)) page clients nodes.old.source.entries nodes.old.target.entries nodes.new.source.entries nodes.new.target.entries rest.old.items rest.new.items logs.old.items logs.new.items) }
    ensures order { OnOk result (are_ordered clients (clients + 1) rest.new.items ≡ true) }
    ensures source_stays { OnOk result (StaysNode B.blocks B.faults nodes.old.source nodes.new.source) }
    ensures target_stays { OnOk result (StaysNode B.blocks B.faults nodes.old.target nodes.new.target) }
{
    for index in 0..clients {
        let log = run_client(alloc, nodes, page, index + 1, rest)?;
        logs.push(log)?;
    }
    Ok(())
}

/// Runs all lines of a script of so many clients, section by section. Caller 0 runs setup and finish, and client n is
/// caller n.
pub(crate) fn run_sections<B: BlockStore>(
    alloc: Global,
    nodes: &mut Nodes<B>,
    page: PageSize,
    clients: u32,
    rest: &mut VecDeque<ScriptLine>,
) -> Result<List<ClientLog>, NoMemory>
    requires new_source { nodes.old.source.entries ≡ [] }
    requires new_target { nodes.old.target.entries ≡ [] }
    requires few { clients ≤ 16 }
    requires usual_source { nodes.old.source.limit ≡ journal_limit }
    requires usual_target { nodes.old.target.limit ≡ journal_limit }
    requires order { are_ordered clients 0 rest.old.items ≡ true }
    ensures ran { IfOk result (AreSectionsRun (is_some (B.blocks nodes.old.source.store)) (is_some (B.blocks nodes.old.target.store)) page clients rest.old.items nodes.new.source.entries nodes.new.target.entries) }
    ensures source_stays { OnOk result (StaysNode B.blocks B.faults nodes.old.source nodes.new.source) }
    ensures target_stays { OnOk result (StaysNode B.blocks B.faults nodes.old.target nodes.new.target) }
{
    let mut logs = Vec::new(alloc);
    let mut client = Client::new(CallerId(0));
    let setup = run_section(alloc, nodes, &mut client, page, Section::Setup, rest)?;
    logs.push(log_of(Section::Setup, setup))?;
    run_clients(alloc, nodes, page, clients, rest, &mut logs)?;
    let finish = run_section(alloc, nodes, &mut client, page, Section::Finish, rest)?;
    logs.push(log_of(Section::Finish, finish))?;
    Ok(List::of(logs))
}

fn log_of(section: Section, items: List<LogItem>) -> ClientLog
    ensures { result ≡ record { section = section; items = items } }
{
    ClientLog { section, items }
}
