//! How a sync ended, as the text of a run says it.
ghost use Rattle.std.specs.Prelude.{◌≡◌, ◌++◌, OnOk, string_bytes};
ghost use Rattle.distcp_sync.specs.declared.answer.SyncAnswer.TheVariants as answers;
ghost use Rattle.run_output.specs.TextParts.{ended};
ghost use Rattle.run_output.specs.SyncText.{answer_text, sync_line};

use crate::text::{escaped, side_word, write_call, write_line_text, write_path_call};
use distcp_sync::SyncAnswer;
use hs_types::{Call, Line, NoMemory, Refusal, Side};

/// The line of the script that asked for the sync, and how it ended.
pub(crate) fn write_sync(out: &mut String, line: u32, answer: &SyncAnswer) -> Result<(), NoMemory>
    ensures { OnOk result (string_bytes out.new ≡ string_bytes out.old ++ ended (sync_line line answer.now)) }
{
    write!(out, "{line} sync ")?;
    write_answer(out, answer)
}

fn write_answer(out: &mut String, answer: &SyncAnswer) -> Result<(), NoMemory>
    ensures { OnOk result (string_bytes out.new ≡ string_bytes out.old ++ ended (answer_text answer.now)) }
{
    match answer {
        SyncAnswer::Done => out.push_str("done\n")?,
        SyncAnswer::NoRoot { side, refusal } => {
            let side = side_word(*side);
            writeln!(
                out,
                "no root {side} {} {}",
                refusal.number(),
                refusal.name()
            )?
        }
        SyncAnswer::NoSnapshot { side, name } => {
            return write_no_snapshot(out, *side, name.text());
        }
        SyncAnswer::NotOlder { from, to } => writeln!(out, "not older {} {}", from.0, to.0)?,
        SyncAnswer::TargetChanged { line } => return write_changed(out, line),
        SyncAnswer::PathLimit { path } => writeln!(out, "path limit {}", escaped(path.text()))?,
        SyncAnswer::Gone { side } => writeln!(out, "gone {}", side_word(*side))?,
        SyncAnswer::Refused {
            call,
            refusal,
            position,
        } => return write_refused(out, call, *refusal, *position),
        SyncAnswer::StoreFault { side, position } => {
            writeln!(out, "store fault {}@{position}", side_word(*side))?
        }
        SyncAnswer::JournalFull { side } => writeln!(out, "journal full {}", side_word(*side))?,
        SyncAnswer::NoMemory => out.push_str("no memory\n")?,
    }
    Ok(())
}

fn write_no_snapshot(out: &mut String, side: Side, name: &str) -> Result<(), NoMemory>
    ensures { OnOk result (string_bytes out.new ≡ string_bytes out.old ++ ended (answer_text (answers.NoSnapshot side name.now))) }
{
    out.push_str("no snapshot ")?;
    write_path_call(out, side_word(side), name)
}

/// The first line of the report of a target that was changed.
fn write_changed(out: &mut String, line: &Line) -> Result<(), NoMemory>
    ensures { OnOk result (string_bytes out.new ≡ string_bytes out.old ++ ended (answer_text (answers.TargetChanged line.now))) }
{
    out.push_str("target changed ")?;
    write_line_text(out, line)
}

/// A call that was refused, with the place of the refusal.
fn write_refused(
    out: &mut String,
    call: &Call,
    refusal: Refusal,
    position: u64,
) -> Result<(), NoMemory>
    ensures { OnOk result (string_bytes out.new ≡ string_bytes out.old ++ ended (answer_text (answers.Refused call.now refusal position))) }
{
    let name = refusal.name();
    write!(out, "refused {} {name} @{position} ", refusal.number())?;
    write_call(out, call)
}
