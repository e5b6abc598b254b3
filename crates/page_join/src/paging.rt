//! Calls for pages, one after the other.
ghost use Rattle.std.specs.Prelude.{◌≡◌, true, false, is_some, IfOk, OnOk, OnErr};
ghost use Rattle.hs_plain.specs.Answer.{is_modifying};
ghost use Rattle.page_join.specs.Paging.{next_call as plain_next_call, ArePages, AreCutOff};
ghost use Rattle.page_join.specs.inside.Asking.{IsAsked};

use crate::link::NameLink;
use hs_types::{
    Answered, Call, Duplicate, List, ListCursor, NoMemory, PageSize, ReadCursor, ReadLen, Reply,
    ReportCursor,
};
use std::alloc::Global;

/// What the pages are of, and how much one holds.
#[derive(Clone, Copy, Debug, PartialEq, Eq)]
pub enum Paging {
    /// Items of a listing.
    Items(PageSize),
    /// Lines of a report.
    Lines(PageSize),
    /// Bytes of a file, 65,536 a page.
    Bytes,
}

/// More pages aren't asked for: behind so many the answer is NoMemory. That no content within a journal's limit has more isn't
/// proved here.
const MOST_PAGES: usize = 1_000_001;

fn next_items(size: PageSize, reply: &Reply) -> Result<Option<Call>, NoMemory>
    ensures next { IfOk result (λ next. next ≡ plain_next_call (Paging.Items size) reply.now) }
    ensures wanting { OnErr result (is_some (plain_next_call (Paging.Items size) reply.now) ≡ true) }
{
    match reply {
        Reply::Page {
            next: Some(cursor),
            ..
        } => Ok(Some(Call::ListNext {
            cursor: cursor.copy()?,
            size,
        })),
        _ => Ok(None),
    }
}

fn next_lines(size: PageSize, reply: &Reply) -> Option<Call>
    ensures { result ≡ plain_next_call (Paging.Lines size) reply.now }
{
    match reply {
        Reply::Report {
            next: Some(cursor),
            ..
        } => Some(Call::ReportNext {
            cursor: *cursor,
            size,
        }),
        _ => None,
    }
}

fn next_bytes(reply: &Reply) -> Option<Call>
    ensures { result ≡ plain_next_call Paging.Bytes reply.now }
{
    match reply {
        Reply::Bytes {
            next: Some(cursor),
            ..
        } => Some(Call::ReadNext {
            cursor: *cursor,
            len: ReadLen::greatest(),
        }),
        _ => None,
    }
}

/// The call for the page behind a reply, where it has a cursor. The reply is kept, so a cursor with a name is copied.
fn next_call(paging: &Paging, reply: &Reply) -> Result<Option<Call>, NoMemory>
    ensures next { IfOk result (λ next. next ≡ plain_next_call paging.now reply.now) }
    ensures wanting { OnErr result (is_some (plain_next_call paging.now reply.now) ≡ true) }
{
    match paging {
        Paging::Items(size) => next_items(*size, reply),
        Paging::Lines(size) => Ok(next_lines(*size, reply)),
        Paging::Bytes => Ok(next_bytes(reply)),
    }
}

/// Makes one call, for whose reply there is room before it is made, and gives the call for the next page.
fn ask_one<L: NameLink>(
    link: &mut L,
    paging: &Paging,
    call: Call,
    replies: &mut Vec<Answered>,
) -> Result<Option<Call>, NoMemory>
    requires reads { is_modifying call ≡ false }
    ensures number { L.number link.new ≡ L.number link.old }
    ensures alone { L.alone link.new ≡ L.alone link.old }
    ensures stays { L.stays link.old link.new }
    ensures asked { IfOk result (IsAsked paging.now (L.known link.old) (L.known link.new) call replies.old.items replies.new.items) }
    ensures cut_off { OnErr result (AreCutOff paging.now (L.known link.old) (L.known link.new) call) }
{
    replies.reserve(1)?;
    let answered = link.call(call);
    let next = next_call(paging, &answered.reply);
    replies.push_reserved(answered);
    next
}

/// Asks for all pages, from the first one on: each further call takes the cursor of the reply before.
pub(crate) fn ask_pages<L: NameLink>(
    alloc: Global,
    link: &mut L,
    paging: Paging,
    begin: Call,
) -> Result<List<Answered>, NoMemory>
    requires reads { is_modifying begin ≡ false }
    ensures number { L.number link.new ≡ L.number link.old }
    ensures alone { L.alone link.new ≡ L.alone link.old }
    ensures stays { L.stays link.old link.new }
    ensures pages { IfOk result (ArePages paging (L.known link.old) (L.known link.new) begin) }
    ensures cut_off { OnErr result (AreCutOff paging (L.known link.old) (L.known link.new) begin) }
{
    let mut replies = Vec::new(alloc);
    let mut next = Some(begin);
    while let Some(call) = next {
        if replies.len() >= MOST_PAGES {
            return Err(NoMemory);
        }
        next = ask_one(link, &paging, call, &mut replies)?;
    }
    Ok(List::of(replies))
}
