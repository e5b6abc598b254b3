//! The top call: from bytes to bytes, one call after the other.
ghost use Rattle.std.specs.Prelude.{◌≡◌, ◌≤◌, ◌<◌, ◌⊎◌, true, false, List, [], ℕ, Option, None, Some, Ok, Err, is_some, length, IfOk, IfErr, IfSome};
ghost use Rattle.hs_io.specs.Bytes.{Takes, TakesSome, GivesWithin, GivesPast};
ghost use Rattle.hs_types.specs.Faults.{Rose};
ghost use Rattle.namenode_write.specs.Faulted.{fault_count};
ghost use Rattle.namenode_write.specs.FaultCounts.{RisesAtMost};
ghost use Rattle.script_text.specs.Scripts.{meaning_of};
ghost use Rattle.script_text.specs.Generator.{generated};
ghost use Rattle.script_text.specs.declared.fault.FaultKind.{FaultKind};
ghost use Rattle.script_text.specs.declared.script.Script.{Script};
ghost use Rattle.run_output.specs.Run.{IsRunInTurn};
ghost use Rattle.script_text.specs.Order.{are_ordered};
ghost use Rattle.hsnap.specs.ReadStatus.{IsReadCause};
ghost use Rattle.hsnap.specs.CommandLine.{meaning_of_words};
ghost use Rattle.hsnap.specs.Serial.{most_bytes, IsScriptRead, IsScriptIn, text_in, IsDone, IsCutShort, AsksForInput, AsksForGenerated, IsBadScript, IsScriptOrNoMemory, is_too_large_or_no_memory, not_run, no_end as plain_no_end, is_early, is_ok_or_no_memory};

use crate::command_line::{Mode, Words, WordsFault, read_words};
use block_store::BlockStore;
use hs_io::{InputErr, Sink, SinkErr, Source, read_all, write_all};
use hs_types::{Counts, List, NameText, NoMemory};
use run_output::{End, Ran, Status, summary_of, text_of};
use script_runner::{Options, serial_script};
use script_text::{ReadScriptFault, Script, ScriptFault, generate};
use std::alloc::Global;

/// The most bytes that an input has.
const MOST_BYTES: usize = 16_777_216;

/// A run in which nothing was run.
fn unrun(alloc: Global, status: Status) -> Ran
    ensures { result ≡ not_run status }
{
    Ran {
        status,
        source: List::new(alloc),
        target: List::new(alloc),
        logs: List::new(alloc),
        source_end: no_end(alloc),
        target_end: no_end(alloc),
    }
}

fn no_end(alloc: Global) -> End
    ensures { result ≡ plain_no_end }
{
    End {
        tree: List::new(alloc),
        counts: Counts {
            rows: 0,
            records: 0,
            list_entries: 0,
            snapshots: 0,
            blocks: 0,
        },
    }
}

/// Reads the whole input, and the script that it means.
fn read_script<I: Source>(alloc: Global, input: &mut I) -> Result<Script, Status>
    ensures script { IfOk result (IsScriptRead (I.rest input.old) (I.rest input.new)) }
    ensures few_clients { IfOk result (λ script. script.clients ≤ 16) }
    ensures order { IfOk result (λ script. are_ordered script.clients 0 script.lines ≡ true) }
    ensures cause { IfErr result (λ status. (words : List (List ℕ)) → AsksForInput words → IsReadCause words (I.rest input.old) (I.rest input.new) (I.faults input.old) (I.faults input.new) status) }
    ensures count { I.faults input.old ≤ I.faults input.new }
{
    let bytes = match read_all(alloc, input, MOST_BYTES) {
        Ok(bytes) => bytes,
        Err(InputErr::TooLarge) => return Err(Status::TooLarge),
        Err(InputErr::Failed) => return Err(Status::ReadFault),
        Err(InputErr::NoMemory) => return Err(Status::NoMemory),
    };
    match script_text::read(alloc, bytes.items()) {
        Ok(script) => Ok(script),
        Err(ReadScriptFault::Bad(ScriptFault { line, kind })) => Err(Status::Script { line, kind }),
        Err(ReadScriptFault::NoMemory) => Err(Status::NoMemory),
    }
}

/// The script of mode `gen`: 20 directories of 10 files each, and 5 snapshots.
fn generated_script(alloc: Global, seed: u32) -> Result<Script, Status>
    ensures script { IfOk result (λ script. script ≡ generated seed 20 10 5) }
    ensures few_clients { IfOk result (λ script. script.clients ≤ 16) }
    ensures order { IfOk result (λ script. are_ordered script.clients 0 script.lines ≡ true) }
    ensures cause { IfErr result (λ status. status ≡ Status.NoMemory) }
{
    match generate(alloc, seed, 20, 10, 5) {
        Ok(script) => Ok(script),
        Err(NoMemory) => Err(Status::NoMemory),
    }
}

/// The script that the words of the command line ask for.
fn script_of<I: Source>(alloc: Global, words: &Words, input: &mut I) -> Result<Script, Status>
    ensures script { IfOk result (IsScriptIn words.now.mode words.now.seed (I.rest input.old) (I.rest input.new)) }
    ensures few_clients { IfOk result (λ script. script.clients ≤ 16) }
    ensures order { IfOk result (λ script. are_ordered script.clients 0 script.lines ≡ true) }
    ensures cause { IfErr result (λ status. (texts : List (List ℕ)) → meaning_of_words texts ≡ Some words.now → IsReadCause texts (I.rest input.old) (I.rest input.new) (I.faults input.old) (I.faults input.new) status) }
    ensures count { I.faults input.old ≤ I.faults input.new }
{
    match words.mode {
        Mode::Serial => read_script(alloc, input),
        Mode::Generated => generated_script(alloc, words.seed),
    }
}

/// A script, with what the words ask for beside it.
struct Asked {
    words: Words,
    script: Script,
}

/// Reads the words of the command line, and the script that they ask for.
fn read_asked<I: Source>(
    alloc: Global,
    words: &List<NameText>,
    input: &mut I,
) -> Result<Asked, Status>
    ensures words { IfOk result (λ asked. meaning_of_words words.now ≡ Some asked.words) }
    ensures script { IfOk result (λ asked. IsScriptIn asked.words.mode asked.words.seed (I.rest input.old) (I.rest input.new) asked.script) }
    ensures few_clients { IfOk result (λ asked. asked.script.clients ≤ 16) }
    ensures order { IfOk result (λ asked. are_ordered asked.script.clients 0 asked.script.lines ≡ true) }
    ensures cause { IfErr result (IsReadCause words.now (I.rest input.old) (I.rest input.new) (I.faults input.old) (I.faults input.new)) }
    ensures count { I.faults input.old ≤ I.faults input.new }
{
    let words = match read_words(alloc, words) {
        Ok(words) => words,
        Err(WordsFault::Usage) => return Err(Status::Usage),
        Err(WordsFault::NoMemory) => return Err(Status::NoMemory),
    };
    let script = script_of(alloc, &words, input)?;
    Ok(Asked { words, script })
}

/// The text of a run, or the summary of a generated one.
fn text_by(alloc: Global, words: &Words, ran: &Ran) -> Result<List<u8>, NoMemory>
    ensures { IfOk result (λ text. text ≡ text_in words.now.mode words.now.seed ran.now) }
{
    match words.mode {
        Mode::Serial => text_of(alloc, ran),
        Mode::Generated => summary_of(alloc, ran, words.seed),
    }
}

/// Writes what the words ask for of a run, and answers the status that this gives.
fn write_text<O: Sink>(alloc: Global, words: &Words, ran: &Ran, output: &mut O) -> Status
    ensures ok { result ≡ Status.Ok → Takes (O.written output.old) (O.written output.new) (text_in words.now.mode words.now.seed ran.now) }
    ensures some { TakesSome (O.written output.old) (O.written output.new) (text_in words.now.mode words.now.seed ran.now) }
    ensures cause { result ≡ Status.WriteFault → Rose (O.faults output.old) (O.faults output.new) }
    ensures late { is_early result ≡ false }
    ensures count { O.faults output.old ≤ O.faults output.new }
{
    let Ok(text) = text_by(alloc, words, ran) else {
        return Status::NoMemory;
    };
    match write_all(output, text.items()) {
        Ok(()) => Status::Ok,
        Err(SinkErr::Failed) => Status::WriteFault,
        Err(SinkErr::NoMemory) => Status::NoMemory,
    }
}

/// Runs a script over two stores without blocks, and writes the text of the run.
fn run_and_write<O: Sink, B: BlockStore>(
    alloc: Global,
    asked: Asked,
    output: &mut O,
    source_blocks: B,
    target_blocks: B,
) -> Ran
    requires few_clients { asked.script.clients ≤ 16 }
    requires order { are_ordered asked.script.clients 0 asked.script.lines ≡ true }
    requires source_empty { IfSome (B.blocks source_blocks) (λ map. map ≡ []) }
    requires target_empty { IfSome (B.blocks target_blocks) (λ map. map ≡ []) }
    ensures text { result.status ≡ Status.Ok → Takes (O.written output.old) (O.written output.new) (text_in asked.words.mode asked.words.seed result) }
    ensures run { (IsRunInTurn (is_some (B.blocks source_blocks)) (is_some (B.blocks target_blocks)) asked.words.page asked.script.clients asked.script.lines result × TakesSome (O.written output.old) (O.written output.new) (text_in asked.words.mode asked.words.seed result))
        ⊎ ((result ≡ not_run Status.NoMemory) × (output.new ≡ output.old)) }
    ensures cause { result.status ≡ Status.WriteFault → Rose (O.faults output.old) (O.faults output.new) }
    ensures late { is_early result.status ≡ false }
    ensures count { O.faults output.old ≤ O.faults output.new }
    ensures source_faulted { (most : ℕ) → RisesAtMost most B.faults (B.faults source_blocks) → fault_count result.source ≤ most }
    ensures target_faulted { (most : ℕ) → RisesAtMost most B.faults (B.faults target_blocks) → fault_count result.target ≤ most }
{
    let Asked { words, script } = asked;
    let options = Options {
        page: words.page,
        workers: words.workers,
    };
    match serial_script(alloc, script, &options, source_blocks, target_blocks) {
        Ok(mut ran) => {
            ran.status = write_text(alloc, &words, &ran, output);
            ran
        }
        Err(NoMemory) => unrun(alloc, Status::NoMemory),
    }
}

/// Runs the script that the words of the command line ask for on two new namenodes, one call after the other, and writes
/// to `output`: in mode `serial` the script is read from `input`, and the text of its run is written; in mode `gen` it is
/// the generated script, and the summary of its run is written. `words` are without the program's own name. The bytes
/// of files are kept in two stores, which hold no block yet.
pub fn serial<I: Source, O: Sink, B: BlockStore>(
    alloc: Global,
    words: &List<NameText>,
    input: &mut I,
    output: &mut O,
    source_blocks: B,
    target_blocks: B,
) -> Ran
    // A store that tells its blocks has none yet.
    requires source_empty { IfSome (B.blocks source_blocks) (λ map. map ≡ []) }
    requires target_empty { IfSome (B.blocks target_blocks) (λ map. map ≡ []) }

    // With status Ok the words are a command line; the bytes read, to the end of the input, mean a script, or no byte was
    // read and the script is the generated one; the answer is a run of it in turn; and what was written is the text of
    // that run, or its summary. Of a side whose store doesn't tell its blocks, the bytes that replies hold are not claimed.
    ensures ok { result.status ≡ Status.Ok →
        IsDone (is_some (B.blocks source_blocks)) (is_some (B.blocks target_blocks)) words.now (I.rest input.old) (I.rest input.new) (O.written output.old) (O.written output.new) result }

    // The causes of the other statuses.
    ensures usage { result.status ≡ Status.Usage → meaning_of_words words.now ≡ None }
    ensures unusable { meaning_of_words words.now ≡ None → (result.status ≡ Status.Usage) ⊎ (result.status ≡ Status.NoMemory) }
    ensures script { (line : ℕ) (kind : FaultKind) → result.status ≡ Status.Script line kind → IsBadScript (I.rest input.old) (I.rest input.new) line kind }
    ensures read_fault { result.status ≡ Status.ReadFault → Rose (I.faults input.old) (I.faults input.new) }
    ensures write_fault { result.status ≡ Status.WriteFault → Rose (O.faults output.old) (O.faults output.new) }

    // TooLarge comes exactly where one byte past the limit was read. With every other status no such byte was.
    ensures too_large { result.status ≡ Status.TooLarge → GivesPast most_bytes (I.rest input.old) (I.rest input.new) }
    ensures within { (result.status ≡ Status.TooLarge → ⊥) → GivesWithin most_bytes (I.rest input.old) (I.rest input.new) }
    ensures past { (rest : List ℕ) → I.rest input.old ≡ Some rest →
        GivesPast most_bytes (I.rest input.old) (I.rest input.new) → result.status ≡ Status.TooLarge }

    // After a fault of writing the answer is a run of the script, as with status Ok, and a part of its text from the front
    // was written. Want of memory is free: it ends a run so, or nothing was run, and nothing was written.
    ensures cut_short { result.status ≡ Status.WriteFault →
        IsCutShort (is_some (B.blocks source_blocks)) (is_some (B.blocks target_blocks)) words.now (I.rest input.old) (I.rest input.new) (O.written output.old) (O.written output.new) result }
    ensures no_memory { result.status ≡ Status.NoMemory →
        IsCutShort (is_some (B.blocks source_blocks)) (is_some (B.blocks target_blocks)) words.now (I.rest input.old) (I.rest input.new) (O.written output.old) (O.written output.new) result
        ⊎ ((result ≡ not_run Status.NoMemory) × (output.new ≡ output.old)) }

    // With the early statuses nothing was written, and nothing was run.
    ensures unwritten { is_early result.status ≡ true → output.new ≡ output.old }
    ensures unrun { is_early result.status ≡ true → result ≡ not_run result.status }

    // Where the words are right, and the input is a script within its limit, and neither end fails, all is done.
    ensures complete { (rest : List ℕ) (script : Script) → AsksForInput words.now →
        I.rest input.old ≡ Some rest → length rest ≤ most_bytes → meaning_of rest ≡ Ok script →
        (Rose (I.faults input.old) (I.faults input.new) → ⊥) → (Rose (O.faults output.old) (O.faults output.new) → ⊥) →
        is_ok_or_no_memory result.status ≡ true }

    // For a generated script the output alone can fail.
    ensures generated { AsksForGenerated words.now → (Rose (O.faults output.old) (O.faults output.new) → ⊥) → is_ok_or_no_memory result.status ≡ true }

    // And a script whose first bad line is this is refused there.
    ensures refused { (rest : List ℕ) (line : ℕ) (kind : FaultKind) → AsksForInput words.now →
        I.rest input.old ≡ Some rest → length rest ≤ most_bytes → meaning_of rest ≡ Err (record { line = line; kind = kind }) →
        (Rose (I.faults input.old) (I.faults input.new) → ⊥) → IsScriptOrNoMemory line kind result.status }

    // An input of more bytes is too large.
    ensures large { (rest : List ℕ) → AsksForInput words.now → I.rest input.old ≡ Some rest → most_bytes < length rest →
        (Rose (I.faults input.old) (I.faults input.new) → ⊥) → is_too_large_or_no_memory result.status ≡ true }

    // Over stores whose counts never rise the journals have no faulted entry; where they rise at most so often, there
    // are at most so many.
    ensures faultless { ((source : B) → Rose (B.faults source_blocks) (B.faults source) → ⊥) → ((target : B) → Rose (B.faults target_blocks) (B.faults target) → ⊥) →
        (fault_count result.source ≡ 0) × (fault_count result.target ≡ 0) }
    ensures source_faulted { (most : ℕ) → RisesAtMost most B.faults (B.faults source_blocks) → fault_count result.source ≤ most }
    ensures target_faulted { (most : ℕ) → RisesAtMost most B.faults (B.faults target_blocks) → fault_count result.target ≤ most }

    ensures reads { I.faults input.old ≤ I.faults input.new }
    ensures writes { O.faults output.old ≤ O.faults output.new }
{
    match read_asked(alloc, words, input) {
        Ok(asked) => run_and_write(alloc, asked, output, source_blocks, target_blocks),
        Err(status) => unrun(alloc, status),
    }
}
