//! The plan of a sync.
ghost use Rattle.std.specs.Prelude.{◌≡◌, None, IfOk, IfErr, OnOk};
ghost use Rattle.distcp_plan.specs.Planned.{planned, plan_with};
ghost use Rattle.distcp_plan.specs.Limits.{first_bad, plan_texts, IsPlanFault};
ghost use Rattle.distcp_plan.specs.Laws.{IsTheirPlan, HasNoBadPath, IsOfTheirPaths};
ghost use Rattle.distcp_plan.specs.declared.planning.PlanFault.TheVariants.{NoMemory as fault_no_memory};

use crate::found::{Found, all_found};
use crate::limits::check_plan;
use crate::outs::outs_of;
use crate::puts::{copies_of, puts_of};
use crate::temporary::free_name;
use hs_plain::{Listing, Plan, RootNames};
use hs_types::{Line, List, NoMemory, PathText};
use std::alloc::Global;

/// Why there is no plan.
#[derive(Debug, Drop, PartialEq, Eq)]
pub enum PlanFault {
    /// The first path of the plan's calls that passes a limit.
    PathLimit { path: PathText },
    /// Memory ran out.
    NoMemory,
}

impl From<NoMemory> for PlanFault {
    ghost from_gives = { λ _ e. e ≡ fault_no_memory };

    fn from(_error: NoMemory) -> PlanFault {
        PlanFault::NoMemory
    }
}

/// The plan of a sync to the target's root with this text, from the lines of the source's report, the listings of its new
/// directories in the order in which they are found, and the names in both roots.
pub fn plan(
    alloc: Global,
    lines: &List<Line>,
    listings: &List<Listing>,
    roots: &RootNames,
    target_root: &PathText,
) -> Result<Plan, PlanFault>
    ensures plan { IfOk result (λ plan. plan ≡ planned lines.now listings.now roots.now) }
    ensures within { IfOk result (λ plan. first_bad (plan_texts target_root.now plan) ≡ None) }
    ensures fault { IfErr result (IsPlanFault (first_bad (plan_texts target_root.now (planned lines.now listings.now roots.now)))) }
    ensures of_trees { IfOk result (IsTheirPlan lines.now listings.now roots.now) }
    ensures paths_keep { OnOk result (HasNoBadPath lines.now listings.now roots.now target_root.now) }
    ensures first_path { IfErr result (IsOfTheirPaths lines.now listings.now roots.now target_root.now) }
{
    let plan = planned(alloc, lines.items(), listings.items(), roots)?;
    match check_plan(alloc, target_root, &plan) {
        Ok(()) => Ok(plan),
        Err(fault) => Err(fault),
    }
}

fn planned(
    alloc: Global,
    lines: &[Line],
    listings: &[Listing],
    roots: &RootNames,
) -> Result<Plan, NoMemory>
    ensures { IfOk result (λ plan. plan ≡ planned lines.now listings.now roots.now) }
{
    let found = all_found(alloc, lines, listings)?;
    plan_with(alloc, lines, found, roots)
}

fn plan_with(
    alloc: Global,
    lines: &[Line],
    found: Found,
    roots: &RootNames,
) -> Result<Plan, NoMemory>
    ensures { IfOk result (λ plan. plan ≡ plan_with lines.now found roots.now) }
{
    let Found { dirs, files } = found;
    let copies = copies_of(alloc, files)?;
    let outs = outs_of(alloc, lines)?;
    let puts = puts_of(alloc, lines, outs.len(), dirs)?;
    let tmp = free_name(alloc, roots)?;
    Ok(Plan {
        tmp,
        outs,
        puts,
        copies,
    })
}
