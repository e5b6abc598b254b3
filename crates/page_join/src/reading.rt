//! All pages of a listing, of a report, and of a file.
ghost use Rattle.std.specs.Prelude.{◌≡◌, IfOk, OnErr};
ghost use Rattle.page_join.specs.declared.paging.Paging.TheVariants as pages_of;
ghost use Rattle.page_join.specs.Paging.{AreCutOff};
ghost use Rattle.page_join.specs.Contents.{list_call, report_call, read_call, AreListed, AreReported, AreRead};

use crate::link::NameLink;
use crate::paging::{Paging, ask_pages};
use crate::starts::{ListStart, ReadStart, ReportStart};
use hs_types::{Answered, List, NoMemory, PageSize};
use std::alloc::Global;

/// All pages of a listing, from a path or a cursor on. The replies are legal calls of the link, and those of a frozen
/// directory join to its listing, whatever others do between them. All replies but the last are pages with a cursor. The
/// place of a reply is there before its call, so NoMemory comes behind pages alone, none of which left an entry.
pub fn list_all<L: NameLink>(
    alloc: Global,
    link: &mut L,
    start: ListStart,
    size: PageSize,
) -> Result<List<Answered>, NoMemory>
    ensures number { L.number link.new ≡ L.number link.old }
    ensures alone { L.alone link.new ≡ L.alone link.old }
    ensures stays { L.stays link.old link.new }
    ensures listed { IfOk result (AreListed (L.known link.old) (L.known link.new) start size) }
    ensures cut_off { OnErr result (AreCutOff (pages_of.Items size) (L.known link.old) (L.known link.new) (list_call start size)) }
{
    ask_pages(alloc, link, Paging::Items(size), start.first_call(size))
}

/// All pages of a report, from a path or a cursor on. The replies are legal calls of the link, and they join to the report at
/// the first page, whatever others do between them, unless an end is the current state and it has moved. All replies but the
/// last are pages with a cursor, and NoMemory comes behind pages alone, none of which left an entry.
pub fn report_all<L: NameLink>(
    alloc: Global,
    link: &mut L,
    start: ReportStart,
    size: PageSize,
) -> Result<List<Answered>, NoMemory>
    ensures number { L.number link.new ≡ L.number link.old }
    ensures alone { L.alone link.new ≡ L.alone link.old }
    ensures stays { L.stays link.old link.new }
    ensures reported { IfOk result (AreReported (L.known link.old) (L.known link.new) start size) }
    ensures cut_off { OnErr result (AreCutOff (pages_of.Lines size) (L.known link.old) (L.known link.new) (report_call start size)) }
{
    ask_pages(alloc, link, Paging::Lines(size), start.first_call(size))
}

/// All bytes of a file, from a path or a cursor on, in pages of 65,536. The replies are legal calls of the link, and those of a
/// frozen file join to its bytes, whatever others do between them. All replies but the last are pages with a cursor, and
/// NoMemory comes behind pages alone, none of which left an entry.
pub fn read_all<L: NameLink>(
    alloc: Global,
    link: &mut L,
    start: ReadStart,
) -> Result<List<Answered>, NoMemory>
    ensures number { L.number link.new ≡ L.number link.old }
    ensures alone { L.alone link.new ≡ L.alone link.old }
    ensures stays { L.stays link.old link.new }
    ensures read { IfOk result (AreRead (L.known link.old) (L.known link.new) start) }
    ensures cut_off { OnErr result (AreCutOff pages_of.Bytes (L.known link.old) (L.known link.new) (read_call start)) }
{
    ask_pages(alloc, link, Paging::Bytes, start.first_call())
}
