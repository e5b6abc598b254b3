//! The calls of one command, through a link.
ghost use Rattle.std.specs.Prelude.{◌≡◌, Some, IfOk};
ghost use Rattle.run_output.specs.Calls.{IsOne};
ghost use Rattle.script_runner.specs.Commands.{AreAll, AreAsked, IsAskedAndKept, IsFirstAsked, IsMoreAsked, IsAskDone};

use crate::client::Cursors;
use hs_types::{Answered, Call, List, NoMemory, PageSize};
use page_join::{ListStart, NameLink, ReadStart, ReportStart, list_all, read_all, report_all};
use script_text::{Pages, PagesKind};
use std::alloc::Global;

/// What a command asks its side for.
#[derive(Drop)]
pub(crate) enum Ask {
    /// A call without pages.
    Call(Call),
    /// All pages, one after the other.
    All(Pages),
    /// The first page alone, whose cursor is kept.
    First(Pages),
    /// The page at the kept cursor.
    More(PagesKind),
}

/// Makes one call.
fn ask_once<L: NameLink>(
    alloc: Global,
    link: &mut L,
    call: Call,
) -> Result<List<Answered>, NoMemory>
    ensures alone { L.alone link.new ≡ L.alone link.old }
    ensures stays { L.stays link.old link.new }
    ensures asked { IfOk result (AreAsked (L.known link.old) (L.known link.new) (IsOne (Some call))) }
{
    let mut replies = Vec::new(alloc);
    replies.push(link.call(call))?;
    Ok(List::of(replies))
}

/// Makes one call, and keeps the cursor of its reply.
fn ask_and_keep<L: NameLink>(
    alloc: Global,
    link: &mut L,
    cursors: &mut Cursors,
    kind: PagesKind,
    call: Call,
) -> Result<List<Answered>, NoMemory>
    ensures alone { L.alone link.new ≡ L.alone link.old }
    ensures stays { L.stays link.old link.new }
    ensures asked { IfOk result (IsAskedAndKept kind call (L.known link.old) (L.known link.new) cursors.old cursors.new) }
{
    let mut replies = Vec::new(alloc);
    let answered = link.call(call);
    cursors.keep(kind, &answered.reply)?;
    replies.push(answered)?;
    Ok(List::of(replies))
}

/// Asks for all pages.
fn ask_all<L: NameLink>(
    alloc: Global,
    link: &mut L,
    page: PageSize,
    pages: Pages,
) -> Result<List<Answered>, NoMemory>
    ensures alone { L.alone link.new ≡ L.alone link.old }
    ensures stays { L.stays link.old link.new }
    ensures asked { IfOk result (AreAsked (L.known link.old) (L.known link.new) (AreAll page pages)) }
{
    match pages {
        Pages::File { path } => read_all(alloc, link, ReadStart::At(path)),
        Pages::Listing { path } => list_all(alloc, link, ListStart::At(path), page),
        Pages::Report { path, from, to } => {
            report_all(alloc, link, ReportStart::At(path, from, to), page)
        }
    }
}

/// Asks for the first page, and keeps its cursor; a file has no kept cursor.
fn ask_first<L: NameLink>(
    alloc: Global,
    link: &mut L,
    cursors: &mut Cursors,
    page: PageSize,
    pages: Pages,
) -> Result<List<Answered>, NoMemory>
    ensures alone { L.alone link.new ≡ L.alone link.old }
    ensures stays { L.stays link.old link.new }
    ensures asked { IfOk result (IsFirstAsked page pages (L.known link.old) (L.known link.new) cursors.old cursors.new) }
{
    match pages {
        Pages::File { path } => ask_once(alloc, link, ReadStart::At(path).first_call()),
        Pages::Listing { path } => {
            let call = ListStart::At(path).first_call(page);
            ask_and_keep(alloc, link, cursors, PagesKind::Listing, call)
        }
        Pages::Report { path, from, to } => {
            let call = ReportStart::At(path, from, to).first_call(page);
            ask_and_keep(alloc, link, cursors, PagesKind::Report, call)
        }
    }
}

/// Asks for the page at a kept cursor, and keeps the cursor of the reply. Without a kept cursor it makes no call.
fn ask_more<L: NameLink>(
    alloc: Global,
    link: &mut L,
    cursors: &mut Cursors,
    page: PageSize,
    kind: PagesKind,
) -> Result<List<Answered>, NoMemory>
    ensures alone { L.alone link.new ≡ L.alone link.old }
    ensures stays { L.stays link.old link.new }
    ensures asked { IfOk result (IsMoreAsked page kind (L.known link.old) (L.known link.new) cursors.old cursors.new) }
{
    match cursors.take_next(page, kind) {
        Some(call) => ask_and_keep(alloc, link, cursors, kind, call),
        None => Ok(List::new(alloc)),
    }
}

/// Makes the calls of a command that asks one side.
pub(crate) fn ask_command<L: NameLink>(
    alloc: Global,
    link: &mut L,
    cursors: &mut Cursors,
    page: PageSize,
    ask: Ask,
) -> Result<List<Answered>, NoMemory>
    ensures alone { L.alone link.new ≡ L.alone link.old }
    ensures stays { L.stays link.old link.new }
    ensures asked { IfOk result (IsAskDone page ask (L.known link.old) (L.known link.new) cursors.old cursors.new) }
{
    match ask {
        Ask::Call(call) => ask_once(alloc, link, call),
        Ask::All(pages) => ask_all(alloc, link, page, pages),
        Ask::First(pages) => ask_first(alloc, link, cursors, page, pages),
        Ask::More(kind) => ask_more(alloc, link, cursors, page, kind),
    }
}
