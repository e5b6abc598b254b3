//! What a namenode shows of its rows: the lines of the live tree, and how much there is.
ghost use Rattle.std.specs.Prelude.{◌≡◌, ◌≤◌, ◌+◌, ◌-◌, ◌^◌, ◌++◌, ◌∷◌, [], length, min, reverse, map, IfOk, OnOk, ℕ, List};
ghost use Rattle.hs_plain.specs.declared.state.State.{State};
ghost use Rattle.hs_plain.specs.declared.state.FileBlocks.{FileBlocks};
ghost use Rattle.hs_plain.specs.Lines.{tree_lines as plain_tree_lines};
ghost use Rattle.hs_plain.specs.Viewed as viewed;
ghost use Rattle.snapshot_manager.specs.Snapshots.{Snapshots};
ghost use Rattle.inode_table.specs.Kept.{told};
ghost use Rattle.inode_table.specs.Numbered.{history_of};
ghost use Rattle.inode_table.specs.RowHistory.{File, Dir, rows_at};
ghost use Rattle.inode_table.specs.Tabled.{Tabled};
ghost use Rattle.inode_table.specs.Totals.{weight, counts_of as table_counts};
ghost use Rattle.inode_table.specs.Whole.{StandsFor};
ghost use Rattle.namenode_write.specs.RowCounts.{snaps_of_all};
ghost use Rattle.namenode_write.specs.RowLines.{line_in, lines_at, child_line, below_in, below_at, walked, root_line};

use dir_changes::{Child, DirRows};
use file_changes::{FileRows, FileState};
use hs_types::{BlockId, Counts, Duplicate, InodeId, List, Name, NoMemory, SnapId, TreeLine};
use inode_table::{Row, Rows, Table};
use snapshot_manager::Snaps;
use std::alloc::Global;

/// A node whose line is still to come: how many directories stand above it, and its name, unless it is the root.
#[derive(Debug, Drop)]
pub(crate) struct Pending {
    pub(crate) depth: u64,
    pub(crate) name: Option<Name>,
    pub(crate) id: InodeId,
}

fn file_line(next: Pending, file: &FileRows) -> TreeLine
    ensures { result ≡ line_in next (File file.now.history) }
{
    let state = file.current();
    TreeLine {
        depth: next.depth,
        id: next.id,
        is_dir: false,
        mode: state.mode,
        stamp: state.stamp,
        size: state.size,
        name: next.name,
    }
}

fn dir_line(next: Pending, dir: &DirRows) -> TreeLine
    ensures { result ≡ line_in next (Dir dir.now.history) }
{
    let marks = dir.marks_at(SnapId(0));
    TreeLine {
        depth: next.depth,
        id: next.id,
        is_dir: true,
        mode: marks.mode,
        stamp: marks.stamp,
        size: dir.current().len() as u64,
        name: next.name,
    }
}

fn line_of(next: Pending, rows: &Rows) -> TreeLine
    ensures { result ≡ line_in next (history_of rows.now) }
{
    match rows {
        Rows::File(file) => file_line(next, file),
        Rows::Dir(dir) => dir_line(next, dir),
    }
}

fn push_child(stack: &mut Vec<Pending>, depth: u64, child: &Child) -> Result<(), NoMemory>
    ensures { OnOk result (stack.new.items ≡ stack.old.items ++ child_line depth child.now ∷ []) }
{
    stack.push(Pending {
        depth,
        name: Some(child.name.copy()?),
        id: child.id,
    })?;
    Ok(())
}

/// Puts children on the stack, the first one on top.
fn push_children(stack: &mut Vec<Pending>, depth: u64, children: &[Child]) -> Result<(), NoMemory>
    ensures { OnOk result (stack.new.items ≡ stack.old.items ++ reverse (map (child_line depth) children.now)) }
{
    for child in children.iter().rev() {
        push_child(stack, depth, child)?;
    }
    Ok(())
}

/// Puts the children of a row on the stack, the first one on top. No tree is so deep that its depth isn't a `u64`.
fn push_below(stack: &mut Vec<Pending>, depth: u64, rows: &Rows) -> Result<(), NoMemory>
    ensures { OnOk result (stack.new.items ≡ stack.old.items ++ reverse (below_in depth (history_of rows.now))) }
{
    match rows {
        Rows::File(_) => Ok(()),
        Rows::Dir(dir) => {
            let below = depth.checked_add(1).ok_or(NoMemory)?;
            push_children(stack, below, dir.current().items())
        }
    }
}

/// Adds the line of a node, and puts its children on the stack.
fn visit(
    lines: &mut Vec<TreeLine>,
    stack: &mut Vec<Pending>,
    next: Pending,
    rows: &Rows,
) -> Result<(), NoMemory>
    ensures lines { OnOk result (lines.new.items ≡ lines.old.items ++ line_in next (history_of rows.now) ∷ []) }
    ensures stack { OnOk result (stack.new.items ≡ stack.old.items ++ reverse (below_in next.depth (history_of rows.now))) }
{
    push_below(stack, next.depth, rows)?;
    lines.push(line_of(next, rows))?;
    Ok(())
}

/// The same, where the node has a row.
fn visit_row(
    lines: &mut Vec<TreeLine>,
    stack: &mut Vec<Pending>,
    next: Pending,
    table: &Table,
) -> Result<(), NoMemory>
    ensures lines { OnOk result (lines.new.items ≡ lines.old.items ++ lines_at next (rows_at (told table.now).rows next.id)) }
    ensures stack { OnOk result (stack.new.items ≡ stack.old.items ++ reverse (below_at next.depth (rows_at (told table.now).rows next.id))) }
{
    match table.row(next.id) {
        None => Ok(()),
        Some(row) => visit(lines, stack, next, &row.rows),
    }
}

/// The lines of the nodes on the stack and of all below them: as many as there are ids at most, and no tree has more.
fn walk(alloc: Global, table: &Table, mut stack: Vec<Pending>) -> Result<List<TreeLine>, NoMemory>
    ensures { IfOk result (λ lines. lines ≡ walked (told table.now).rows ((told table.now).greatest + 1) (reverse stack.items)) }
{
    let mut lines = Vec::new(alloc);
    let mut left = table.greatest().0;
    while let Some(next) = stack.pop() {
        visit_row(&mut lines, &mut stack, next, table)?;
        if left == 0 {
            return Ok(List::of(lines));
        }
        left -= 1;
    }
    Ok(List::of(lines))
}

fn lines_by_rows(alloc: Global, table: &Table) -> Result<List<TreeLine>, NoMemory>
    ensures { IfOk result (λ lines. lines ≡ walked (told table.now).rows ((told table.now).greatest + 1) (root_line ∷ [])) }
{
    let mut stack = Vec::new(alloc);
    stack.push(Pending {
        depth: 0,
        name: None,
        id: InodeId::ROOT,
    })?;
    walk(alloc, table, stack)
}

/// The live tree, a line for each node: a directory before its children, and children in name order. It costs a look-up for each
/// node, whatever the depth.
pub(crate) fn tree_lines(alloc: Global, table: &Table) -> Result<List<TreeLine>, NoMemory>
    ensures { IfOk result (λ lines. (snaps : Snapshots) (state : State FileBlocks) (plain : State (List ℕ)) → StandsFor (told table.now) snaps state → viewed.StandsFor state plain → lines ≡ plain_tree_lines plain) }
{
    lines_by_rows(alloc, table)
}

/// How many snapshots all directories have.
fn snapshot_count(snaps: &Snaps) -> u64
    ensures { result ≡ min (snaps_of_all snaps.now snaps.now.dirs) (2 ^ 64 - 1) }
{
    snaps.always();
    let mut count: u64 = 0;
    let mut next = snaps.dir_at(0);
    while let Some(dir) = next {
        count = count.saturating_add(snaps.count_of(dir).unwrap_or(0) as u64);
        next = snaps.dir_after(dir);
    }
    count
}

/// The same, where these stand for a state, each of whose snapshots has an id of its own.
fn live_count(snaps: &Snaps) -> u64
    ensures { (table : Tabled) (state : State FileBlocks) → StandsFor table snaps.now state → result ≡ length state.members }
{
    snaps.always();
    let _issued = snaps.issued();
    snapshot_count(snaps)
}

/// The state of a file that follows the one that record `i` saved.
fn state_after(file: &FileRows, i: usize) -> &FileState {
    match file.saved(i.saturating_add(1)) {
        Some(state) => state,
        None => file.current(),
    }
}

/// Whether a state behind record `i` names a block. Mostly the next one has it at the same place.
fn is_named_after(file: &FileRows, i: usize, place: usize, block: BlockId) -> bool {
    if state_after(file, i).blocks.get(place) == Some(&block) {
        return true;
    }
    for later in i..file.count() {
        if state_after(file, later).blocks.items().contains(&block) {
            return true;
        }
    }
    false
}

/// How many blocks record `i` names that no state behind it names.
fn blocks_of_record(file: &FileRows, i: usize) -> u64 {
    let Some(state) = file.saved(i) else {
        return 0;
    };
    let mut count: u64 = 0;
    for (place, block) in state.blocks.items().iter().enumerate() {
        if !is_named_after(file, i, place, *block) {
            count = count.saturating_add(1);
        }
    }
    count
}

/// How many blocks the states of a file name, each once.
fn blocks_of_file(file: &FileRows) -> u64 {
    let mut count = file.current().blocks.len() as u64;
    for i in 0..file.count() {
        count = count.saturating_add(blocks_of_record(file, i));
    }
    count
}

fn blocks_of_row(row: Option<&Row>) -> u64 {
    let Some(row) = row else {
        return 0;
    };
    match &row.rows {
        Rows::File(file) => blocks_of_file(file),
        Rows::Dir(_) => 0,
    }
}

/// How many blocks the states of all rows name: different rows share none.
fn named_blocks(table: &Table) -> u64 {
    let mut count: u64 = 0;
    for id in 0..=table.greatest().0 {
        count = count.saturating_add(blocks_of_row(table.row(InodeId(id))));
    }
    count
}

fn waiting_blocks(waiting: &[List<BlockId>]) -> u64 {
    let mut count: u64 = 0;
    for blocks in waiting {
        count = count.saturating_add(blocks.len() as u64);
    }
    count
}

/// How much a namenode holds. The blocks are those that states name and those that wait to be freed; no clause speaks of them. It
/// costs a pass over the rows.
pub(crate) fn counts_of(table: &Table, snaps: &Snaps, waiting: &[List<BlockId>]) -> Counts
    ensures rows { record { rows = result.rows; records = result.records; list_entries = result.list_entries } ≡ table_counts (told table.now).rows }
    ensures weight { result.rows + (result.records + result.list_entries) ≡ weight (told table.now).rows }
    ensures live { (state : State FileBlocks) → StandsFor (told table.now) snaps.now state → length state.tree ≤ result.rows }
    ensures snapshots { (state : State FileBlocks) → StandsFor (told table.now) snaps.now state → result.snapshots ≡ length state.members }

    // Without snapshots there are no records, and no rows but those of the live tree.
    ensures bare_records { (state : State FileBlocks) → StandsFor (told table.now) snaps.now state → state.members ≡ [] → result.records ≡ 0 }
    ensures bare_rows { (state : State FileBlocks) → StandsFor (told table.now) snaps.now state → state.members ≡ [] → result.rows ≡ length state.tree }
{
    let counts = table.counts();
    Counts {
        rows: counts.rows,
        records: counts.records,
        list_entries: counts.list_entries,
        snapshots: live_count(snaps),
        blocks: named_blocks(table).saturating_add(waiting_blocks(waiting)),
    }
}
