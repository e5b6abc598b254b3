//! What a plan is made of: the source's report, the listings of its new directories, and the names in both roots.
ghost use Rattle.std.specs.Prelude.{◌≡◌, ◌++◌, ◌∷◌, [], ◌<◌, length, map, vec_len, vec_capacity, IfOk, OnOk};
ghost use Rattle.hs_types.specs.declared.ids.Side.TheVariants.{Source};
ghost use Rattle.hs_types.specs.declared.call.Place.TheVariants as places;
ghost use Rattle.copy_workers.specs.Calls.{look_at};
ghost use Rattle.distcp_sync.specs.Told.{answer_at as told_answer, OrNoMemory};
ghost use Rattle.distcp_sync.specs.inside.Queue.{new_ids};
ghost use Rattle.distcp_sync.specs.inside.Trace.{IsFetchedWith};
ghost use Rattle.distcp_sync.specs.inside.Fetching.{begin_report, WasListed, WasNamed, WasReported, IsListCall, IsReportCall, IsRead, IsGotWith, IsNextListed, IsQueueCall, AreAllListed};

use crate::answer::SyncAnswer;
use crate::answering::answer_at;
use crate::contents::{Content, joined_items, joined_lines};
use crate::queue::{add_new, first_ids};
use crate::start::SyncStart;
use copy_workers::Look;
use distcp_plan::Moves;
use hs_plain::{Listing, RootNames};
use hs_types::{
    Answered, CallerId, InodeId, Item, Line, List, ListCursor, Name, NoMemory, PageSize, Place,
    ReportCursor, Side, SnapId,
};
use page_join::{ListStart, NameLink, ReportStart, list_all, report_all};
use std::alloc::Global;

/// More directories aren't listed: the answer is NoMemory.
const MOST_LISTINGS: usize = 1_000_000;

/// What was fetched.
#[derive(Debug, Drop, PartialEq, Eq)]
pub(crate) struct Fetched {
    pub(crate) lines: List<Line>,
    pub(crate) listings: List<Listing>,
    pub(crate) roots: RootNames,
}

/// Fetches all that a plan is made of. The reply that ends it is put to the looks, for which there is room.
pub(crate) fn fetch<L: NameLink>(
    alloc: Global,
    start: &SyncStart,
    page: PageSize,
    source: &mut L,
    target: &mut L,
    looks: &mut Vec<Look>,
) -> Result<Fetched, SyncAnswer>
    requires room { vec_len looks.old < vec_capacity looks.old }
    ensures numbers { (L.number source.new ≡ L.number source.old) × (L.number target.new ≡ L.number target.old) }
    ensures alone { (L.alone source.new ≡ L.alone source.old) × (L.alone target.new ≡ L.alone target.old) }
    ensures stays { (L.stays source.old source.new) × (L.stays target.old target.new) }
    ensures fetched { IsFetchedWith start.now page (L.known source.old) (L.known source.new) (L.known target.old) (L.known target.new) looks.old.items looks.new.items result }
    ensures same { OnOk result (looks.new ≡ looks.old) }
{
    let lines = fetch_lines(alloc, start, page, source, looks)?;
    let (dir, snap) = (start.target, start.base);
    let old_names = fetch_names(alloc, target, Side::Target, dir, snap, page, looks)?;
    let (dir, snap) = (start.source, start.to);
    let new_names = fetch_names(alloc, source, Side::Source, dir, snap, page, looks)?;
    let listings = fetch_listings(alloc, start.to, page, lines.items(), source, looks)?;
    let roots = RootNames {
        target: old_names,
        source: new_names,
    };
    Ok(Fetched {
        lines,
        listings,
        roots,
    })
}

/// The source's report from `from` to `to`.
fn fetch_lines<L: NameLink>(
    alloc: Global,
    start: &SyncStart,
    page: PageSize,
    source: &mut L,
    looks: &mut Vec<Look>,
) -> Result<List<Line>, SyncAnswer>
    requires room { vec_len looks.old < vec_capacity looks.old }
    ensures number { L.number source.new ≡ L.number source.old }
    ensures alone { L.alone source.new ≡ L.alone source.old }
    ensures stays { L.stays source.old source.new }
    ensures got { IsGotWith Source (IsReportCall (begin_report start.now) page) (WasReported (length (L.known source.old).seen) (L.known source.new).seen (begin_report start.now)) (L.known source.old) (L.known source.new) looks.old.items looks.new.items result }
    ensures same { OnOk result (looks.new ≡ looks.old) }
{
    let caller = source.caller();
    match report_lines(alloc, source, start, page) {
        Ok(Content::Whole(lines)) => Ok(lines),
        Ok(Content::Ended(reply)) => Err(end_at(Side::Source, caller, reply, looks)),
        Err(NoMemory) => Err(SyncAnswer::NoMemory),
    }
}

fn report_lines<L: NameLink>(
    alloc: Global,
    source: &mut L,
    start: &SyncStart,
    page: PageSize,
) -> Result<Content<Line>, NoMemory>
    ensures number { L.number source.new ≡ L.number source.old }
    ensures alone { L.alone source.new ≡ L.alone source.old }
    ensures stays { L.stays source.old source.new }
    ensures read { IsRead (IsReportCall (begin_report start.now) page) (WasReported (length (L.known source.old).seen) (L.known source.new).seen (begin_report start.now)) (L.known source.old) (L.known source.new) result }
{
    let cursor = ReportCursor {
        root: start.source,
        from: start.from,
        to: start.to,
        tick: None,
        index: 0,
    };
    let replies = report_all(alloc, source, ReportStart::Next(cursor), page)?;
    joined_lines(alloc, replies)
}

/// The names in a frozen directory.
fn fetch_names<L: NameLink>(
    alloc: Global,
    link: &mut L,
    side: Side,
    dir: InodeId,
    snap: SnapId,
    page: PageSize,
    looks: &mut Vec<Look>,
) -> Result<List<Name>, SyncAnswer>
    requires room { vec_len looks.old < vec_capacity looks.old }
    ensures number { L.number link.new ≡ L.number link.old }
    ensures alone { L.alone link.new ≡ L.alone link.old }
    ensures stays { L.stays link.old link.new }
    ensures got { IsGotWith side (IsListCall (places.Frozen dir snap) page) (WasNamed (length (L.known link.old).seen) (L.known link.new).seen (places.Frozen dir snap)) (L.known link.old) (L.known link.new) looks.old.items looks.new.items result }
    ensures same { OnOk result (looks.new ≡ looks.old) }
{
    let items = fetch_items(alloc, link, side, dir, snap, page, looks)?;
    match names_of(alloc, items) {
        Ok(names) => Ok(names),
        Err(NoMemory) => Err(SyncAnswer::NoMemory),
    }
}

fn names_of(alloc: Global, items: List<Item>) -> Result<List<Name>, NoMemory>
    ensures { IfOk result (λ names. names ≡ map (λ item. item.name) items) }
{
    let mut names = Vec::new(alloc);
    for item in items.into_vec() {
        names.push(item.name)?;
    }
    Ok(List::of(names))
}

/// The items of a frozen directory.
fn fetch_items<L: NameLink>(
    alloc: Global,
    link: &mut L,
    side: Side,
    dir: InodeId,
    snap: SnapId,
    page: PageSize,
    looks: &mut Vec<Look>,
) -> Result<List<Item>, SyncAnswer>
    requires room { vec_len looks.old < vec_capacity looks.old }
    ensures number { L.number link.new ≡ L.number link.old }
    ensures alone { L.alone link.new ≡ L.alone link.old }
    ensures stays { L.stays link.old link.new }
    ensures got { IsGotWith side (IsListCall (places.Frozen dir snap) page) (WasListed (length (L.known link.old).seen) (L.known link.new).seen (places.Frozen dir snap)) (L.known link.old) (L.known link.new) looks.old.items looks.new.items result }
    ensures same { OnOk result (looks.new ≡ looks.old) }
{
    let caller = link.caller();
    match list_items(alloc, link, dir, snap, page) {
        Ok(Content::Whole(items)) => Ok(items),
        Ok(Content::Ended(reply)) => Err(end_at(side, caller, reply, looks)),
        Err(NoMemory) => Err(SyncAnswer::NoMemory),
    }
}

fn list_items<L: NameLink>(
    alloc: Global,
    link: &mut L,
    dir: InodeId,
    snap: SnapId,
    page: PageSize,
) -> Result<Content<Item>, NoMemory>
    ensures number { L.number link.new ≡ L.number link.old }
    ensures alone { L.alone link.new ≡ L.alone link.old }
    ensures stays { L.stays link.old link.new }
    ensures read { IsRead (IsListCall (places.Frozen dir snap) page) (WasListed (length (L.known link.old).seen) (L.known link.new).seen (places.Frozen dir snap)) (L.known link.old) (L.known link.new) result }
{
    let place = Place::Frozen(dir, snap);
    let cursor = ListCursor { place, after: None };
    let replies = list_all(alloc, link, ListStart::Next(cursor), page)?;
    joined_items(alloc, replies)
}

/// The listings of the new directories, in the order in which they are found.
fn fetch_listings<L: NameLink>(
    alloc: Global,
    to: SnapId,
    page: PageSize,
    lines: &[Line],
    source: &mut L,
    looks: &mut Vec<Look>,
) -> Result<List<Listing>, SyncAnswer>
    requires room { vec_len looks.old < vec_capacity looks.old }
    ensures number { L.number source.new ≡ L.number source.old }
    ensures alone { L.alone source.new ≡ L.alone source.old }
    ensures stays { L.stays source.old source.new }
    ensures got { IsGotWith Source (IsQueueCall (length (L.known source.old).seen) (L.known source.new).seen to page lines.now) (AreAllListed (length (L.known source.old).seen) (L.known source.new).seen to lines.now) (L.known source.old) (L.known source.new) looks.old.items looks.new.items result }
    ensures same { OnOk result (looks.new ≡ looks.old) }
{
    let Ok(moves) = Moves::of(alloc, lines) else {
        return Err(SyncAnswer::NoMemory);
    };
    let Ok(mut ids) = first_ids(alloc, lines) else {
        return Err(SyncAnswer::NoMemory);
    };
    let mut listings = Vec::new(alloc);
    while listings.len() < ids.len() {
        if listings.len() >= MOST_LISTINGS {
            return Err(SyncAnswer::NoMemory);
        }
        list_next(
            alloc,
            to,
            page,
            &moves,
            source,
            looks,
            &mut ids,
            &mut listings,
        )?;
    }
    Ok(List::of(listings))
}

/// Lists the first directory that waits. What is new in it waits behind the others.
fn list_next<'p, L: NameLink>(
    alloc: Global,
    to: SnapId,
    page: PageSize,
    moves: &Moves<'p>,
    source: &mut L,
    looks: &mut Vec<Look>,
    ids: &mut Vec<InodeId>,
    listings: &mut Vec<Listing>,
) -> Result<(), SyncAnswer>
    requires room { vec_len looks.old < vec_capacity looks.old }
    requires waits { vec_len listings.old < vec_len ids.old }
    ensures number { L.number source.new ≡ L.number source.old }
    ensures alone { L.alone source.new ≡ L.alone source.old }
    ensures stays { L.stays source.old source.new }
    ensures listed { IsNextListed to page moves.now (L.known source.old) (L.known source.new) ids.old.items ids.new.items listings.old.items listings.new.items looks.old.items looks.new.items result }
    ensures same { OnOk result (looks.new ≡ looks.old) }
{
    let dir = ids[listings.len()];
    let items = fetch_items(alloc, source, Side::Source, dir, to, page, looks)?;
    match add_listing(moves, dir, items, ids, listings) {
        Ok(()) => Ok(()),
        Err(NoMemory) => Err(SyncAnswer::NoMemory),
    }
}

fn add_listing<'p>(
    moves: &Moves<'p>,
    dir: InodeId,
    items: List<Item>,
    ids: &mut Vec<InodeId>,
    listings: &mut Vec<Listing>,
) -> Result<(), NoMemory>
    ensures ids { OnOk result (ids.new.items ≡ ids.old.items ++ new_ids moves.now items) }
    ensures listings { OnOk result (listings.new.items ≡ listings.old.items ++ record { dir = dir; items = items } ∷ []) }
{
    add_new(moves, items.items(), ids)?;
    listings.push(Listing { dir, items })?;
    Ok(())
}

/// Puts the reply that ends the fetching to the looks.
fn end_at(side: Side, caller: CallerId, reply: Answered, looks: &mut Vec<Look>) -> SyncAnswer
    requires room { vec_len looks.old < vec_capacity looks.old }
    ensures looks { looks.new.items ≡ looks.old.items ++ look_at side caller reply ∷ [] }
    ensures answer { OrNoMemory (told_answer (look_at side caller reply)) result }
{
    let look = Look {
        side,
        caller,
        reply,
    };
    let answer = answer_at(&look);
    looks.push_reserved(look);
    answer
}
