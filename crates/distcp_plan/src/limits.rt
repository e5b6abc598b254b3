//! Whether the paths of a plan's calls keep the rules of paths.
ghost use Rattle.std.specs.Prelude.{◌≡◌, ◌∷◌, [], map, None, IfOk, IfErr, OnOk};
ghost use Rattle.std.specs.List.{flat_map};
ghost use Rattle.hs_types.specs.Paths.{path_of};
ghost use Rattle.hs_plain.specs.Plan.{text_below, out_place, bad_path};
ghost use Rattle.distcp_plan.specs.Limits.{first_bad, out_texts, put_texts, copy_text, plan_texts, IsPlanFault};

use crate::path_texts::{out_text, text_below, tmp_text};
use crate::planning::PlanFault;
use hs_plain::{CopyJob, Plan, Put};
use hs_types::{Name, Path, PathFault, PathText};
use std::alloc::Global;

/// Whether no path of the plan's calls passes a limit; the first that does is told.
pub(crate) fn check_plan(alloc: Global, root: &PathText, plan: &Plan) -> Result<(), PlanFault>
    ensures ok { OnOk result (first_bad (plan_texts root.now plan.now) ≡ None) }
    ensures err { IfErr result (IsPlanFault (first_bad (plan_texts root.now plan.now))) }
{
    check_tmp(alloc, root, plan)?;
    check_outs(alloc, root, plan)?;
    check_puts(alloc, root, plan)?;
    check_copies(alloc, root, plan.copies.items())
}

fn check_tmp(alloc: Global, root: &PathText, plan: &Plan) -> Result<(), PlanFault>
    ensures ok { OnOk result (first_bad (text_below root.now (plan.now.tmp ∷ []) ∷ []) ≡ None) }
    ensures err { IfErr result (IsPlanFault (first_bad (text_below root.now (plan.now.tmp ∷ []) ∷ []))) }
{
    check_text(alloc, tmp_text(alloc, root, &plan.tmp)?)
}

fn check_outs(alloc: Global, root: &PathText, plan: &Plan) -> Result<(), PlanFault>
    ensures ok { OnOk result (first_bad (out_texts root.now plan.now 0 plan.now.outs) ≡ None) }
    ensures err { IfErr result (IsPlanFault (first_bad (out_texts root.now plan.now 0 plan.now.outs))) }
{
    for (index, path) in plan.outs.items().iter().enumerate() {
        check_moved(alloc, root, plan, index as u64, path.items())?;
    }
    Ok(())
}

/// What is moved out, and its place in the temporary directory.
fn check_moved(
    alloc: Global,
    root: &PathText,
    plan: &Plan,
    index: u64,
    path: &[Name],
) -> Result<(), PlanFault>
    ensures ok { OnOk result (first_bad (text_below root.now path.now ∷ text_below root.now (out_place plan.now index) ∷ []) ≡ None) }
    ensures err { IfErr result (IsPlanFault (first_bad (text_below root.now path.now ∷ text_below root.now (out_place plan.now index) ∷ []))) }
{
    check_path(alloc, root, path)?;
    check_out(alloc, root, plan, index)
}

fn check_puts(alloc: Global, root: &PathText, plan: &Plan) -> Result<(), PlanFault>
    ensures ok { OnOk result (first_bad (flat_map (put_texts root.now plan.now) plan.now.puts) ≡ None) }
    ensures err { IfErr result (IsPlanFault (first_bad (flat_map (put_texts root.now plan.now) plan.now.puts))) }
{
    for put in plan.puts.items() {
        check_put(alloc, root, plan, put)?;
    }
    Ok(())
}

fn check_put(alloc: Global, root: &PathText, plan: &Plan, put: &Put) -> Result<(), PlanFault>
    ensures ok { OnOk result (first_bad (put_texts root.now plan.now put.now) ≡ None) }
    ensures err { IfErr result (IsPlanFault (first_bad (put_texts root.now plan.now put.now))) }
{
    match put {
        Put::Back { index, to } => {
            check_out(alloc, root, plan, *index)?;
            check_path(alloc, root, to.items())
        }
        Put::NewDir { to } => check_path(alloc, root, to.items()),
    }
}

fn check_copies(alloc: Global, root: &PathText, copies: &[CopyJob]) -> Result<(), PlanFault>
    ensures ok { OnOk result (first_bad (map (copy_text root.now) copies.now) ≡ None) }
    ensures err { IfErr result (IsPlanFault (first_bad (map (copy_text root.now) copies.now))) }
{
    for job in copies {
        check_path(alloc, root, job.to.items())?;
    }
    Ok(())
}

/// The path of these names below the root.
fn check_path(alloc: Global, root: &PathText, names: &[Name]) -> Result<(), PlanFault>
    ensures ok { OnOk result (first_bad (text_below root.now names.now ∷ []) ≡ None) }
    ensures err { IfErr result (IsPlanFault (first_bad (text_below root.now names.now ∷ []))) }
{
    check_text(alloc, text_below(alloc, root, names)?)
}

/// The place of an out in the temporary directory.
fn check_out(alloc: Global, root: &PathText, plan: &Plan, index: u64) -> Result<(), PlanFault>
    ensures ok { OnOk result (first_bad (text_below root.now (out_place plan.now index) ∷ []) ≡ None) }
    ensures err { IfErr result (IsPlanFault (first_bad (text_below root.now (out_place plan.now index) ∷ []))) }
{
    check_text(alloc, out_text(alloc, root, &plan.tmp, index)?)
}

fn check_text(alloc: Global, text: PathText) -> Result<(), PlanFault>
    ensures ok { OnOk result (first_bad (text ∷ []) ≡ None) }
    ensures err { IfErr result (IsPlanFault (first_bad (text ∷ []))) }
{
    match Path::read(alloc, &text) {
        Ok(_) => Ok(()),
        Err(PathFault::NoMemory) => Err(PlanFault::NoMemory),
        Err(PathFault::BadPath | PathFault::TooLong | PathFault::TooDeep) => {
            Err(PlanFault::PathLimit { path: text })
        }
    }
}
