//! A whole run of a script, one command after the other.
ghost use Rattle.std.specs.Prelude.{◌≡◌, ◌≤◌, ℕ, [], true, is_some, length, IfOk, IfSome};
ghost use Rattle.run_output.specs.Run.{IsEndOf, IsRunInTurn};
ghost use Rattle.namenode_write.specs.Faulted.{fault_count};
ghost use Rattle.namenode_write.specs.FaultCounts.{RisesAtMost};
ghost use Rattle.script_text.specs.Order.{are_ordered};

use crate::nodes::Nodes;
use crate::sections::run_sections;
use block_store::BlockStore;
use hs_types::{NoMemory, PageSize};
use namenode_write::{JournalLimit, Namenode};
use run_output::{End, Ran, Status};
use script_text::Script;
use std::alloc::Global;
use std::collections::VecDeque;

/// What a run goes by beside its script.
#[derive(Clone, Copy, Debug, PartialEq, Eq)]
pub struct Options {
    /// How many entries a page of a listing or a report has.
    pub page: PageSize,
    /// How many lanes copy for a client, 1 to 8. A run in turn has none.
    pub workers: u32,
}

/// What a namenode shows at the end.
fn end_of<B: BlockStore>(namenode: &Namenode<B>) -> Result<End, NoMemory>
    ensures { IfOk result (IsEndOf namenode.now.entries) }
{
    Ok(End {
        tree: namenode.tree_lines()?,
        counts: namenode.counts(),
    })
}

/// Runs a script on two new namenodes, one command after the other. The script's calls become the namenodes' own: none
/// is copied.
pub fn serial_script<B: BlockStore>(
    alloc: Global,
    script: Script,
    options: &Options,
    source_blocks: B,
    target_blocks: B,
) -> Result<Ran, NoMemory>
    // A store that tells its blocks has none yet.
    requires source_empty { IfSome (B.blocks source_blocks) (λ map. map ≡ []) }
    requires target_empty { IfSome (B.blocks target_blocks) (λ map. map ≡ []) }

    // A script as it is read.
    requires few_clients { script.clients ≤ 16 }
    requires order { are_ordered script.clients 0 script.lines ≡ true }

    // It is a run of the script, in turn.
    ensures run { IfOk result (IsRunInTurn (is_some (B.blocks source_blocks)) (is_some (B.blocks target_blocks)) options.now.page script.clients script.lines) }
    ensures status { IfOk result (λ ran. ran.status ≡ Status.Ok) }

    // A journal has a faulted entry only where its store's count rose: where it rises at most so often, there are at most
    // so many.
    ensures source_faulted { (most : ℕ) → RisesAtMost most B.faults (B.faults source_blocks) → IfOk result (λ ran. fault_count ran.source ≤ most) }
    ensures target_faulted { (most : ℕ) → RisesAtMost most B.faults (B.faults target_blocks) → IfOk result (λ ran. fault_count ran.target ≤ most) }
{
    let clients = script.clients;
    let mut rest = VecDeque::from_vec(script.into_lines());
    let source = Namenode::new(alloc, source_blocks, JournalLimit::usual())?;
    let target = Namenode::new(alloc, target_blocks, JournalLimit::usual())?;
    let mut nodes = Nodes { source, target };
    let logs = run_sections(alloc, &mut nodes, options.page, clients, &mut rest)?;
    let source_end = end_of(&nodes.source)?;
    let target_end = end_of(&nodes.target)?;
    let Nodes { source, target } = nodes;
    let (source_journal, _) = source.end();
    let (target_journal, _) = target.end();
    Ok(Ran {
        status: Status::Ok,
        source: source_journal,
        target: target_journal,
        logs,
        source_end,
        target_end,
    })
}
