//! The moves that a report tells: where paths are led, and whose ids were moved.
ghost use Rattle.std.specs.Prelude.{◌≡◌, ◌||◌, ◌++◌, IfOk, OnOk};
ghost use Rattle.std.specs.Option.{option_copied, option_map};
ghost use Rattle.std.specs.Ordering.{nat_cmp};
ghost use Rattle.std.specs.BTreeSet.{contains};
ghost use Rattle.std.specs.FinMap.Entries.{find};
ghost use Rattle.hs_plain.specs.Tree.{path_cmp};
ghost use Rattle.hs_plain.specs.Plan.{translate};
ghost use Rattle.distcp_plan.specs.Planned.{target_of, has_id, renames};
ghost use Rattle.distcp_plan.specs.inside.Leads.{with_lead, lead_table, shown_table};

use hs_types::{Duplicate, InodeId, Line, LineKind, List, Name, NoMemory, RelPath};
use std::alloc::Global;
use std::collections::{BTreeMap, BTreeSet};
use std::marker::Model;

/// The lines of a report, with their moves by source and by id.
#[derive(Drop)]
pub struct Moves<'a> {
    lines: &'a [Line],
    leads: BTreeMap<&'a [Name], &'a [Name]>,
    ids: BTreeSet<u64>,
}

impl<'a> Model for Moves<'a> {
    ghost use Rattle.std.specs.Prelude.{List, ◌≡◌};
    ghost use Rattle.std.specs.Ordering.{nat_cmp};
    ghost use Rattle.std.specs.BTreeSet.{contains};
    ghost use Rattle.hs_types.specs.declared.reply.Line.{Line};
    ghost use Rattle.hs_types.specs.declared.ids.InodeId.{InodeId};
    ghost use Rattle.distcp_plan.specs.Planned.{renames};
    ghost use Rattle.distcp_plan.specs.inside.Leads.{lead_table, shown_table};

    ghost Value = { List Line };

    ghost view = { λ m. m.lines.now };

    ghost invariant = { λ m. (shown_table m.leads.entries ≡ lead_table m.lines.now) × ((id : InodeId) → contains nat_cmp m.ids id.0 ≡ renames m.lines.now id) };
}

impl<'a> Moves<'a> {
    /// Puts the moves of these lines in order.
    pub fn of(alloc: Global, lines: &'a [Line]) -> Result<Moves<'a>, NoMemory>
        ensures { IfOk result (λ moves. moves ≡ lines.now) }
    {
        let leads = leads_of(alloc, lines)?;
        let ids = ids_of(alloc, lines)?;
        Ok(Moves { lines, leads, ids })
    }

    /// Whether an `R` line has this id.
    pub fn has_id(&self, id: InodeId) -> bool
        ensures { result ≡ renames self.now id }
    {
        self.ids.contains(&id.0)
    }
}

/// Where an `R` line leads.
pub(crate) fn target_of(line: &Line) -> Option<&List<Name>>
    ensures { option_copied result ≡ target_of line.now }
{
    match line.kind {
        LineKind::Renamed => line.to.as_ref(),
        LineKind::Deleted | LineKind::Modified | LineKind::Created => None,
    }
}

/// Each source with its target; of lines with one source the first counts.
fn leads_of<'a>(
    alloc: Global,
    lines: &'a [Line],
) -> Result<BTreeMap<&'a [Name], &'a [Name]>, NoMemory>
    ensures { IfOk result (λ leads. shown_table leads.entries ≡ lead_table lines.now) }
{
    let mut leads = BTreeMap::new(alloc);
    let mut at = lines.len();
    while at > 0 {
        at -= 1;
        add_lead(&mut leads, &lines[at])?;
    }
    Ok(leads)
}

fn add_lead<'a>(
    leads: &mut BTreeMap<&'a [Name], &'a [Name]>,
    line: &'a Line,
) -> Result<(), NoMemory>
    ensures { OnOk result (shown_table leads.new.entries ≡ with_lead line.now.path (target_of line.now) (shown_table leads.old.entries)) }
{
    match target_of(line) {
        Some(target) => {
            leads.insert(line.path.items(), target.items())?;
            Ok(())
        }
        None => Ok(()),
    }
}

/// The ids of the lines with a target.
fn ids_of(alloc: Global, lines: &[Line]) -> Result<BTreeSet<u64>, NoMemory>
    ensures { IfOk result (λ ids. (id : InodeId) → contains nat_cmp ids id.0 ≡ renames lines.now id) }
{
    let mut ids = BTreeSet::new(alloc);
    for line in lines {
        add_id(&mut ids, line)?;
    }
    Ok(ids)
}

fn add_id(ids: &mut BTreeSet<u64>, line: &Line) -> Result<(), NoMemory>
    ensures { OnOk result ((id : InodeId) → contains nat_cmp ids.new id.0 ≡ (has_id (target_of line.now) line.now.id id || contains nat_cmp ids.old id.0)) }
{
    match target_of(line) {
        Some(_) => {
            ids.insert(line.id.0)?;
            Ok(())
        }
        None => Ok(()),
    }
}

/// The target of this source, if it is one.
fn lead_at<'p>(moves: &Moves<'p>, source: &'p [Name]) -> Option<&'p [Name]>
    ensures { option_map (λ target. target.now) result ≡ find path_cmp source.now (lead_table moves.now) }
{
    moves.leads.get(&source).copied()
}

/// The path that the longest source above it, or at it, leads to.
pub(crate) fn translated<'p>(
    alloc: Global,
    moves: &Moves<'p>,
    path: &'p [Name],
) -> Result<RelPath, NoMemory>
    ensures { IfOk result (λ led. led ≡ translate moves.now path.now) }
{
    let mut left = path.len() + 1;
    while left > 0 {
        left -= 1;
        if let Some(target) = lead_at(moves, &path[..left]) {
            return joined(alloc, target, &path[left..]);
        }
    }
    joined(alloc, path, &path[..0])
}

/// The names of both, copied.
pub(crate) fn joined(alloc: Global, first: &[Name], rest: &[Name]) -> Result<RelPath, NoMemory>
    ensures { IfOk result (λ path. path ≡ first.now ++ rest.now) }
{
    let mut names = Vec::with_capacity(alloc, first.len() + rest.len())?;
    push_names(&mut names, first)?;
    push_names(&mut names, rest)?;
    Ok(List::of(names))
}

fn push_names(names: &mut Vec<Name>, more: &[Name]) -> Result<(), NoMemory>
    ensures { OnOk result (names.new.items ≡ names.old.items ++ more.now) }
{
    for name in more {
        names.push(name.copy()?)?;
    }
    Ok(())
}

/// The path after the moves of these lines: the longest source that is the path or above it gives its target and the rest. Of
/// several lines with this source the first counts, and an `R` line without a target doesn't.
pub fn translate<'p>(
    alloc: Global,
    lines: &'p List<Line>,
    path: &'p RelPath,
) -> Result<RelPath, NoMemory>
    ensures { IfOk result (λ led. led ≡ translate lines.now path.now) }
{
    let moves = Moves::of(alloc, lines.items())?;
    translated(alloc, &moves, path.items())
}
