//! Calls that change the target.
ghost use Rattle.std.specs.Prelude.{◌≡◌, ◌<◌, ◌++◌, vec_len, vec_capacity, IfOk, OnErr};
ghost use Rattle.std.specs.Option.{option_to_list};
ghost use Rattle.hs_plain.specs.Answer.{is_ok_reply as is_plain_ok_reply};
ghost use Rattle.copy_workers.specs.Calls.{IsWrite, named_by};

use crate::copied::Made;
use hs_types::{Answered, Call, NoMemory, Reply};
use page_join::NameLink;

/// Whether a reply says that its call was done.
pub fn is_ok_reply(reply: &Reply) -> bool
    ensures { result ≡ is_plain_ok_reply reply.now }
{
    !matches!(reply, Reply::Refused(_) | Reply::NoMemory)
}

/// Makes a call, whose entry is then named among those that were made. The place of its name is there before the call.
pub fn write<L: NameLink>(
    link: &mut L,
    call: Call,
    made: &mut Vec<Made>,
) -> Result<Answered, NoMemory>
    ensures number { L.number link.new ≡ L.number link.old }
    ensures alone { L.alone link.new ≡ L.alone link.old }
    ensures stays { L.stays link.old link.new }
    ensures written { IfOk result (IsWrite (L.known link.old) (L.known link.new) call made.old.items made.new.items) }
    ensures same { OnErr result (L.known link.new ≡ L.known link.old) }
    ensures none { OnErr result (made.new.items ≡ made.old.items) }
{
    made.reserve(1)?;
    let answered = link.call(call);
    note_entry(link, &answered, made);
    Ok(answered)
}

/// A call is handed back exactly where it left no entry.
fn note_entry<L: NameLink>(link: &L, answered: &Answered, made: &mut Vec<Made>)
    requires room { vec_len made.old < vec_capacity made.old }
    ensures { made.new.items ≡ made.old.items ++ option_to_list (named_by (L.known link.now) answered.now) }
{
    if answered.back.is_none() {
        made.push_reserved(Made {
            caller: link.caller(),
            seq: link.calls(),
            position: answered.position,
        });
    }
}
