//! Faults of the store, told as faults of a call.
ghost use Rattle.std.specs.Prelude.{◌≡◌};
ghost use Rattle.namenode_write.specs.Reasons.{fault_of as plain_fault_of};

use block_store::StoreErr;
use hs_plain::AskFault;
use hs_types::Refusal;

/// Why a call of the store ends a call of the namenode.
pub(crate) fn fault_of(error: StoreErr) -> AskFault
    ensures { result ≡ plain_fault_of error }
{
    match error {
        StoreErr::Failed => AskFault::Refused(Refusal::StoreFault),
        StoreErr::NoMemory => AskFault::NoMemory,
    }
}
