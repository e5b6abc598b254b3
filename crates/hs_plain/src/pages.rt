//! Pages: lists cut by name, lines cut by index, bytes cut by offset.
ghost use Rattle.std.specs.Prelude.{◌≡◌, ◌+◌, take, drop, IfOk};
ghost use Rattle.std.specs.List.{filter};
ghost use Rattle.std.specs.Option.{option_copied};
ghost use Rattle.hs_plain.specs.Pages;

use crate::state::Bytes;
use hs_types::{
    Chunk, Duplicate, Item, Line, List, ListCursor, Name, NoMemory, PageSize, Place, ReadCursor,
    ReadLen, Reply, ReportCursor,
};
use std::alloc::Global;
use std::cmp::Ordering;

/// The name of the last item.
fn last_name(items: &[Item]) -> Option<&Name>
    ensures { option_copied result ≡ Pages.last_name items.now }
{
    match items.last() {
        Some(item) => Some(&item.name),
        None => None,
    }
}

/// The items with a greater name than the cursor's, or all.
pub fn items_behind(after: Option<&Name>, items: List<Item>) -> List<Item>
    ensures { result ≡ Pages.items_behind (option_copied after.entry) items }
{
    match after {
        None => items,
        Some(name) => behind(name, items),
    }
}

/// The items with a greater name.
fn behind(name: &Name, items: List<Item>) -> List<Item>
    ensures { result ≡ filter (Pages.is_behind name.now) items }
{
    let mut items = items.into_vec();
    items.retain(|item| name.cmp(&item.name) == Ordering::Less);
    List::of(items)
}

/// The first page of these items. It keeps them, and copies the one name that a cursor holds.
pub fn first_page(place: Place, items: List<Item>, size: PageSize) -> Result<Reply, NoMemory>
    ensures { IfOk result (λ reply. reply ≡ Pages.first_page place items size) }
{
    let mut items = items.into_vec();
    let most = usize::from(size.entries());
    if items.len() <= most {
        return Ok(Reply::Page {
            items: List::of(items),
            next: None,
        });
    }
    items.truncate(most);
    let after = match last_name(items.as_slice()) {
        Some(name) => Some(name.copy()?),
        None => None,
    };
    Ok(Reply::Page {
        items: List::of(items),
        next: Some(ListCursor { place, after }),
    })
}

/// A file's bytes from a place on, at most so many.
pub fn cut(alloc: Global, bytes: &Bytes, offset: u64, len: ReadLen) -> Result<Chunk, NoMemory>
    ensures { IfOk result (λ chunk. chunk ≡ take len (drop offset bytes.now)) }
{
    let all = bytes.items();
    let from = (all.len() as u64).min(offset) as usize;
    let rest = &all[from..];
    let count = rest.len().min(len.bytes() as usize);
    let mut page = Vec::with_capacity(alloc, count)?;
    page.extend_from_slice(&rest[..count])?;
    match Chunk::new(page) {
        Ok(chunk) => Ok(chunk),
        Err(_) => unreachable!(),
    }
}

/// Where the next page of a read begins, unless the end is reached.
pub fn next_read(place: Place, size: u64, offset: u64, len: ReadLen) -> Option<ReadCursor>
    ensures { result ≡ Pages.next_read place size (offset + len) }
{
    let end = offset.saturating_add(u64::from(len.bytes()));
    if size <= end {
        None
    } else {
        Some(ReadCursor { place, offset: end })
    }
}

/// Where the next page of a report begins, if a line is left.
fn next_lines(cursor: ReportCursor, began: u64, count: u64, size: PageSize) -> Option<ReportCursor>
    ensures { result ≡ Pages.next_lines cursor began count (cursor.index + size) }
{
    let end = cursor.index.saturating_add(u64::from(size.entries()));
    if count <= end {
        None
    } else {
        Some(ReportCursor {
            tick: Some(began),
            index: end,
            ..cursor
        })
    }
}

/// The lines from an index on, at most so many.
fn cut_lines(lines: List<Line>, index: u64, size: PageSize) -> Result<List<Line>, NoMemory>
    ensures { IfOk result (λ page. page ≡ take size (drop index lines)) }
{
    let mut all = lines.into_vec();
    let from = (all.len() as u64).min(index) as usize;
    let mut page = all.split_off(from)?;
    page.truncate(usize::from(size.entries()));
    Ok(List::of(page))
}

/// The lines from the cursor's index on, as many as the page holds. The next page goes with the tick at which the report
/// began.
pub fn lines_page(
    cursor: ReportCursor,
    began: u64,
    lines: List<Line>,
    size: PageSize,
) -> Result<Reply, NoMemory>
    ensures { IfOk result (λ reply. reply ≡ Pages.lines_page cursor began lines size) }
{
    let next = next_lines(cursor, began, lines.len() as u64, size);
    Ok(Reply::Report {
        lines: cut_lines(lines, cursor.index, size)?,
        next,
    })
}
