//! The place of the next entry.
ghost use Rattle.std.specs.Prelude.{◌≡◌, ◌+◌, true, OnOk, IfOk, IfErr};
ghost use Rattle.namenode_write.specs.Outcome.{HasPlace, IsPlaceFault, is_full, is_refusal, tick_of};

use crate::rows::space::RowSpace;
use block_store::BlockStore;
use hs_plain::AskFault;
use hs_types::Refusal;

/// Makes a place for the next entry and tells its tick: there is none where the journal is at its limit. Nothing else changes.
pub(crate) fn make_place<B: BlockStore>(space: &mut RowSpace<B>) -> Result<u64, AskFault>
    ensures tick { IfOk result (λ tick. tick ≡ tick_of space.old + 1) }
    ensures place { OnOk result (HasPlace space.new) }
    ensures fault { IfErr result (λ fault. IsPlaceFault (is_full space.old) fault) }
    ensures refused { IfErr result (λ fault. is_refusal fault ≡ true → space.new ≡ space.old) }
    ensures kept { space.new ≡ record space.old { journal = space.new.journal } }
    ensures journal { space.new.journal.items ≡ space.old.journal.items }
{
    let entries = space.journal.len();
    if entries >= space.limit.entries() as usize {
        return Err(AskFault::Refused(Refusal::JournalFull));
    }
    match space.journal.reserve(1) {
        Ok(()) => Ok(entries as u64 + 1),
        Err(_) => Err(AskFault::NoMemory),
    }
}
