//! The summary of a run of a generated script.
ghost use Rattle.std.specs.Prelude.{◌≡◌, ◌++◌, ◌∷◌, [], IfOk, OnOk, codes, length, map, string_bytes};
ghost use Rattle.std.specs.List.{count_by, flat_map};
ghost use Rattle.std.specs.Fmt.{decimal};
ghost use Rattle.run_output.specs.TextParts.{ended, spaced};
ghost use Rattle.run_output.specs.Summary.{is_done as is_answer_done, side_summary, summary_of, sync_answer, sync_answers};

use crate::ran::{ClientLog, End, LogItem, LogWhat, Ran};
use distcp_sync::SyncAnswer;
use hs_types::{Entry, List, NoMemory};
use std::alloc::Global;

/// The summary of a run of the script that this seed gives: four lines, with what each namenode has and how many syncs
/// were done.
pub fn summary_of(alloc: Global, ran: &Ran, seed: u32) -> Result<List<u8>, NoMemory>
    ensures { IfOk result (λ text. text ≡ summary_of ran.now seed) }
{
    let mut out = String::new(alloc);
    write_seed(&mut out, seed)?;
    write_source(&mut out, ran)?;
    write_target(&mut out, ran)?;
    write_syncs(alloc, &mut out, ran)?;
    Ok(List::of(out.into_bytes()))
}

fn write_seed(out: &mut String, seed: u32) -> Result<(), NoMemory>
    ensures { OnOk result (string_bytes out.new ≡ string_bytes out.old ++ ended (spaced (codes "gen seed" ∷ decimal seed ∷ []))) }
{
    writeln!(out, "gen seed {seed}")?;
    Ok(())
}

fn write_source(out: &mut String, ran: &Ran) -> Result<(), NoMemory>
    ensures { OnOk result (string_bytes out.new ≡ string_bytes out.old ++ ended (side_summary (codes "source") ran.now.source ran.now.source_end)) }
{
    write_side(out, "source", ran.source.items(), &ran.source_end)
}

fn write_target(out: &mut String, ran: &Ran) -> Result<(), NoMemory>
    ensures { OnOk result (string_bytes out.new ≡ string_bytes out.old ++ ended (side_summary (codes "target") ran.now.target ran.now.target_end)) }
{
    write_side(out, "target", ran.target.items(), &ran.target_end)
}

/// A namenode: the entries of its journal, the nodes of its live tree, and its live snapshots.
fn write_side(out: &mut String, name: &str, entries: &[Entry], end: &End) -> Result<(), NoMemory>
    ensures { OnOk result (string_bytes out.new ≡ string_bytes out.old ++ ended (side_summary name.now entries.now end.now)) }
{
    write!(out, "{name} entries {}", entries.len())?;
    write_end(out, end)
}

/// The rest of a namenode's line, behind its entries.
fn write_end(out: &mut String, end: &End) -> Result<(), NoMemory>
    ensures { OnOk result (string_bytes out.new ≡ string_bytes out.old ++ ended (codes " nodes " ++ decimal (length end.now.tree) ++ codes " snapshots " ++ decimal end.now.counts.snapshots)) }
{
    let snapshots = end.counts.snapshots;
    writeln!(out, " nodes {} snapshots {snapshots}", end.tree.len())?;
    Ok(())
}

fn write_syncs(alloc: Global, out: &mut String, ran: &Ran) -> Result<(), NoMemory>
    ensures { OnOk result (string_bytes out.new ≡ string_bytes out.old ++ ended (spaced (codes "syncs" ∷ decimal (length (sync_answers ran.now)) ∷ codes "done" ∷ decimal (count_by is_answer_done (sync_answers ran.now)) ∷ []))) }
{
    let answers = answers_of(alloc, ran.logs.items())?;
    let done = done_among(&answers);
    writeln!(out, "syncs {} done {done}", answers.len())?;
    Ok(())
}

/// For each sync, in order, whether it was done.
fn answers_of(alloc: Global, logs: &[ClientLog]) -> Result<Vec<bool>, NoMemory>
    ensures { IfOk result (λ answers. answers.items ≡ map is_answer_done (flat_map (λ log. flat_map (λ item. sync_answer item.what) log.items) logs.now)) }
{
    let mut answers = Vec::new(alloc);
    for log in logs {
        add_answers(log.items.items(), &mut answers)?;
    }
    Ok(answers)
}

fn add_answers(items: &[LogItem], answers: &mut Vec<bool>) -> Result<(), NoMemory>
    ensures { OnOk result (answers.new.items ≡ answers.old.items ++ map is_answer_done (flat_map (λ item. sync_answer item.what) items.now)) }
{
    for item in items {
        if let LogWhat::Synced(report) = &item.what {
            answers.push(is_done(&report.answer))?;
        }
    }
    Ok(())
}

fn is_done(answer: &SyncAnswer) -> bool
    ensures { result ≡ is_answer_done answer.now }
{
    matches!(answer, SyncAnswer::Done)
}

fn done_among(answers: &[bool]) -> usize
    ensures { result ≡ count_by (λ done. done) answers.now }
{
    answers.iter().filter(|done| **done).count()
}
