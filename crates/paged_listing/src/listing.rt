//! Pages of a directory or of the list of its snapshots. A page of a list that lies in memory costs the search of its
//! place, by halves, and its items.
ghost use Rattle.std.specs.Prelude.{◌≡◌, ◌≢◌, ◌++◌, ◌∷◌, [], ◌≤◌, ℕ, true, length, map, Ok, IfOk, OnOk, IsTrue, List, MatchResult};
ghost use Rattle.std.specs.List.{prefix_len};
ghost use Rattle.std.specs.Option.{option_copied};
ghost use Rattle.hs_types.specs.declared.call.Call.TheVariants.{ListNext};
ghost use Rattle.hs_plain.specs.declared.state.State.{State};
ghost use Rattle.hs_plain.specs.declared.state.FileBlocks.{FileBlocks};
ghost use Rattle.hs_plain.specs.Answer.{answer};
ghost use Rattle.hs_plain.specs.Pages.{page_of};
ghost use Rattle.hs_plain.specs.Reading.{list_next_reply};
ghost use Rattle.hs_plain.specs.Viewed as viewed;
ghost use Rattle.hs_plain.specs.inside.Faults.{IsFaultOf};
ghost use Rattle.dir_changes.specs.Entries.{in_order};
ghost use Rattle.dir_changes.specs.History.{children_at};
ghost use Rattle.snapshot_manager.specs.Snapshots.{snaps_in};
ghost use Rattle.inode_table.specs.Kept.{told};
ghost use Rattle.inode_table.specs.RowHistory.{rows_at};
ghost use Rattle.inode_table.specs.Whole.{StandsFor};
ghost use Rattle.paged_listing.specs.Items.{is_passed, entries_behind, item_in, items_in, snap_items, paged, page_found, page_asked};
ghost use Rattle.paged_listing.specs.Places.{IsThere};

use crate::rows::{is_dir, rows_of};
use crate::snapshots::snapshot_items;
use dir_changes::{Child, DirRows};
use hs_plain::AskFault;
use hs_plain::answer::{first_page, reply_of};
use hs_plain::pages::items_behind;
use hs_types::{
    Duplicate, InodeId, Item, List, ListCursor, Name, NoMemory, PageSize, Place, Refusal, Reply,
    SnapId,
};
use inode_table::{Rows, Table};
use path_resolver::upward::stands_at;
use snapshot_manager::Snaps;
use std::alloc::Global;
use std::cmp::Ordering;

/// Adds a child as it is shown.
fn push_item(items: &mut Vec<Item>, table: &Table, child: &Child) -> Result<(), NoMemory>
    ensures { OnOk result (items.new.items ≡ items.old.items ++ item_in (told table.now).rows child.now ∷ []) }
{
    let id = child.id;
    let item = Item {
        name: child.name.copy()?,
        id,
        is_dir: is_dir(table, id),
    };
    items.push(item)?;
    Ok(())
}

/// Children as they are shown.
fn items_of(alloc: Global, table: &Table, children: &[Child]) -> Result<List<Item>, NoMemory>
    ensures { IfOk result (λ items. items ≡ map (item_in (told table.now).rows) children.now) }
{
    let mut items = Vec::with_capacity(alloc, children.len())?;
    for child in children {
        push_item(&mut items, table, child)?;
    }
    Ok(List::of(items))
}

/// Whether a child's name is not greater than this one.
fn is_passed(child: &Child, name: &Name) -> bool
    ensures { result ≡ is_passed name.now child.now }
{
    name.cmp(&child.name) != Ordering::Less
}

/// How many children at the front have no greater name, by halves.
fn passed_count(children: &[Child], name: &Name) -> usize
    requires { IsTrue (in_order children.now) }
    ensures count { result ≡ prefix_len (is_passed name.now) children.now }
    ensures within { result ≤ length children.now }
{
    children.partition_point(|child| is_passed(child, name))
}

/// The children with a greater name than the cursor's, or all.
fn children_behind<'c>(children: &'c [Child], after: Option<&Name>) -> &'c [Child]
    requires { IsTrue (in_order children.now) }
    ensures { result.now ≡ entries_behind (option_copied after.entry) children.now }
{
    match after {
        None => children,
        Some(name) => &children[passed_count(children, name)..],
    }
}

/// A page of children. One item more than it holds is made, which tells whether any is left.
fn children_page(
    alloc: Global,
    table: &Table,
    children: &[Child],
    cursor: &ListCursor,
    size: PageSize,
) -> Result<Reply, NoMemory>
    requires { IsTrue (in_order children.now) }
    ensures { IfOk result (λ reply. reply ≡ page_of cursor.now.place (map (item_in (told table.now).rows) children.now) cursor.now.after size) }
{
    let left = children_behind(children, cursor.after.as_ref());
    let most = usize::from(size.entries()) + 1;
    let items = items_of(alloc, table, &left[..left.len().min(most)])?;
    first_page(cursor.place, items, size)
}

/// Whether the child list at a snapshot, at 0 now, is the current one, since no record tells it.
fn is_current(dir: &DirRows, s: SnapId) -> bool
    ensures { result ≡ true → children_at s.0 dir.now.history ≡ dir.now.history.children }
{
    if s == SnapId(0) || dir.count() == 0 {
        return true;
    }
    dir.last_number() < s
}

/// A page of a directory at a snapshot, at 0 now. A list is made only where a record tells the snapshot.
fn dir_page(
    alloc: Global,
    table: &Table,
    s: SnapId,
    dir: &DirRows,
    cursor: &ListCursor,
    size: PageSize,
) -> Result<Reply, NoMemory>
    ensures { IfOk result (λ reply. reply ≡ page_of cursor.now.place (map (item_in (told table.now).rows) (children_at s.0 dir.now.history)) cursor.now.after size) }
{
    if is_current(dir, s) {
        return children_page(alloc, table, dir.current().items(), cursor, size);
    }
    let view = dir.at(s)?;
    children_page(alloc, table, view.children.items(), cursor, size)
}

/// A page of an inode at a snapshot, at 0 now: a file has none.
fn node_page(
    alloc: Global,
    table: &Table,
    s: SnapId,
    id: InodeId,
    cursor: &ListCursor,
    size: PageSize,
) -> Result<Reply, AskFault>
    ensures { MatchResult result (λ reply. paged cursor.now size (items_in (told table.now).rows s.0 (rows_at (told table.now).rows id)) ≡ Ok reply) (IsFaultOf (paged cursor.now size (items_in (told table.now).rows s.0 (rows_at (told table.now).rows id)))) }
{
    match rows_of(table, id) {
        None => Err(AskFault::Refused(Refusal::NotFound)),
        Some(Rows::File(_)) => Err(AskFault::Refused(Refusal::NotDir)),
        Some(Rows::Dir(dir)) => Ok(dir_page(alloc, table, s, dir, cursor, size)?),
    }
}

/// A page of the list of a directory's snapshots.
fn snapshots_page(
    alloc: Global,
    snaps: &Snaps,
    dir: InodeId,
    cursor: &ListCursor,
    size: PageSize,
) -> Result<Reply, NoMemory>
    ensures { IfOk result (λ reply. reply ≡ page_of cursor.now.place (snap_items dir (snaps_in snaps.now dir)) cursor.now.after size) }
{
    let items = snapshot_items(alloc, snaps, dir)?;
    let left = items_behind(cursor.after.as_ref(), items);
    first_page(cursor.place, left, size)
}

fn found_page(
    alloc: Global,
    table: &Table,
    snaps: &Snaps,
    cursor: &ListCursor,
    size: PageSize,
) -> Result<Reply, AskFault>
    ensures { MatchResult result (λ reply. page_found (told table.now).rows snaps.now cursor.now size ≡ Ok reply) (IsFaultOf (page_found (told table.now).rows snaps.now cursor.now size)) }
{
    match cursor.place {
        Place::Live(id) => node_page(alloc, table, SnapId(0), id, cursor, size),
        Place::Frozen(id, snapshot) => node_page(alloc, table, snapshot, id, cursor, size),
        Place::SnapshotsOf(dir) => Ok(snapshots_page(alloc, snaps, dir, cursor, size)?),
    }
}

/// A page of a place that is there, as a path leads to one.
pub fn page_at(
    alloc: Global,
    table: &Table,
    snaps: &Snaps,
    cursor: &ListCursor,
    size: PageSize,
) -> Result<Reply, AskFault>
    ensures { (state : State FileBlocks) → StandsFor (told table.now) snaps.now state → IsThere state cursor.now.place → MatchResult result (λ reply. page_asked state cursor.now size ≡ Ok reply) (IsFaultOf (page_asked state cursor.now size)) }
{
    found_page(alloc, table, snaps, cursor, size)
}

/// The next page of what a cursor lists, or why there is none.
fn list_next(
    alloc: Global,
    table: &Table,
    snaps: &Snaps,
    cursor: &ListCursor,
    size: PageSize,
) -> Result<Reply, AskFault>
    ensures { (state : State FileBlocks) → StandsFor (told table.now) snaps.now state → MatchResult result (λ reply. list_next_reply state cursor.now size ≡ Ok reply) (IsFaultOf (list_next_reply state cursor.now size)) }
{
    stands_at(table, snaps, cursor.place)?;
    page_at(alloc, table, snaps, cursor, size)
}

/// The answer to a call for the next page of what a cursor lists.
pub fn list_page(
    alloc: Global,
    table: &Table,
    snaps: &Snaps,
    cursor: &ListCursor,
    size: PageSize,
) -> Reply
    ensures answered { (state : State FileBlocks) (plain : State (List ℕ)) → StandsFor (told table.now) snaps.now state → viewed.StandsFor state plain → result ≢ Reply.NoMemory → result ≡ answer plain (ListNext cursor.now size) }
{
    reply_of(list_next(alloc, table, snaps, cursor, size))
}
