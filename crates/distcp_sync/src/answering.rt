//! What a sync makes of a reply that ends it.
ghost use Rattle.distcp_sync.specs.Told.{OrNoMemory, answer_at as told_answer, refusal_answer as told_refusal, refused_answer as told_refused};

use crate::answer::SyncAnswer;
use copy_workers::Look;
use hs_types::{Answered, Call, Duplicate, NoMemory, Refusal, Reply, Side};

/// How a sync ends at this reply, which is no Ok reply.
pub(crate) fn answer_at(look: &Look) -> SyncAnswer
    ensures { OrNoMemory (told_answer look.now) result }
{
    match &look.reply.reply {
        Reply::Refused(why) => refusal_answer(look.side, &look.reply, *why),
        _ => SyncAnswer::NoMemory,
    }
}

fn refusal_answer(side: Side, told: &Answered, why: Refusal) -> SyncAnswer
    ensures { OrNoMemory (told_refusal side told.now why) result }
{
    match why {
        Refusal::Gone => SyncAnswer::Gone { side },
        Refusal::StoreFault => SyncAnswer::StoreFault {
            side,
            position: told.position,
        },
        Refusal::JournalFull => SyncAnswer::JournalFull { side },
        why => refused_answer(&told.back, why, told.position),
    }
}

fn refused_answer(back: &Option<Call>, refusal: Refusal, position: u64) -> SyncAnswer
    ensures { OrNoMemory (told_refused back.now refusal position) result }
{
    match back {
        Some(call) => match call.copy() {
            Ok(call) => SyncAnswer::Refused {
                call,
                refusal,
                position,
            },
            Err(NoMemory) => SyncAnswer::NoMemory,
        },
        None => SyncAnswer::NoMemory,
    }
}
