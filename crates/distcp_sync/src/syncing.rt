//! A sync through one pair of links.
ghost use Rattle.std.specs.Prelude.{◌≡◌, ◌+◌, ◌≤◌, ◌<◌, [], length, IfErr, OnOk, vec_len, vec_capacity};
ghost use Rattle.distcp_sync.specs.declared.answer.SyncAnswer.TheVariants as answers;
ghost use Rattle.distcp_sync.specs.inside.Ran.{answer_of, report_of, HasPlan, IsPlanOf, HasCarried};
ghost use Rattle.distcp_sync.specs.inside.Trace.{IsRun};
ghost use Rattle.distcp_sync.specs.Calls.{AreSyncCalls};
ghost use Rattle.distcp_sync.specs.Around.{IsSyncedWithin};

use crate::answer::SyncAnswer;
use crate::beginning::begin;
use crate::copying_all::copy_all;
use crate::fetching::{Fetched, fetch};
use crate::laws::runs_are_told;
use crate::moving::{delete_tmp, make_moves};
use crate::report::{SyncJob, SyncReport};
use crate::start::SyncStart;
use copy_workers::{Copied, Look, Made};
use distcp_plan::{PlanFault, plan};
use hs_plain::Plan;
use hs_types::{List, PathText};
use page_join::NameLink;
use std::alloc::Global;

/// Brings the target up to date: what the source's snapshots record is applied to it, one call after the other, through one link
/// to the source and one to the target.
pub fn sync_one<L: NameLink>(
    alloc: Global,
    source: &mut L,
    target: &mut L,
    job: &SyncJob,
) -> SyncReport
    ensures numbers { (L.number source.new ≡ L.number source.old) × (L.number target.new ≡ L.number target.old) }
    ensures alone { (L.alone source.new ≡ L.alone source.old) × (L.alone target.new ≡ L.alone target.old) }
    ensures stays { (L.stays source.old source.new) × (L.stays target.old target.new) }
    ensures calls { AreSyncCalls (L.known source.old) (L.known source.new) (L.known target.old) (L.known target.new) result }
    ensures synced { IsSyncedWithin (L.known source.old) (L.known source.new) (L.known target.old) (L.known target.new) job.now result }
{
    // Each says that what its link has seen so far is a journal that a namenode may have.
    source.caller();
    target.caller();
    runs_are_told();
    run_sync(alloc, source, target, job)
}

fn run_sync<L: NameLink>(alloc: Global, source: &mut L, target: &mut L, job: &SyncJob) -> SyncReport
    ensures numbers { (L.number source.new ≡ L.number source.old) × (L.number target.new ≡ L.number target.old) }
    ensures alone { (L.alone source.new ≡ L.alone source.old) × (L.alone target.new ≡ L.alone target.old) }
    ensures stays { (L.stays source.old source.new) × (L.stays target.old target.new) }
    ensures ran { IsRun job.now (L.known source.old) (L.known source.new) (L.known target.old) (L.known target.new) result }
{
    let mut moves = Vec::new(alloc);
    let mut copies = Vec::new(alloc);
    let mut looks = Vec::new(alloc);
    let ended = run(
        alloc,
        source,
        target,
        job,
        &mut moves,
        &mut copies,
        &mut looks,
    );
    SyncReport {
        answer: answer_of(ended),
        moves: List::of(moves),
        copies: List::of(copies),
        looks: List::of(looks),
    }
}

fn answer_of(ended: Result<(), SyncAnswer>) -> SyncAnswer
    ensures { result ≡ answer_of ended }
{
    match ended {
        Ok(()) => SyncAnswer::Done,
        Err(answer) => answer,
    }
}

fn run<L: NameLink>(
    alloc: Global,
    source: &mut L,
    target: &mut L,
    job: &SyncJob,
    moves: &mut Vec<Made>,
    copies: &mut Vec<Copied>,
    looks: &mut Vec<Look>,
) -> Result<(), SyncAnswer>
    requires no_moves { moves.old.items ≡ [] }
    requires no_copies { copies.old.items ≡ [] }
    requires no_looks { looks.old.items ≡ [] }
    ensures numbers { (L.number source.new ≡ L.number source.old) × (L.number target.new ≡ L.number target.old) }
    ensures alone { (L.alone source.new ≡ L.alone source.old) × (L.alone target.new ≡ L.alone target.old) }
    ensures stays { (L.stays source.old source.new) × (L.stays target.old target.new) }
    ensures ran { IsRun job.now (L.known source.old) (L.known source.new) (L.known target.old) (L.known target.new) (report_of result moves.new.items copies.new.items looks.new.items) }
{
    match looks.reserve(4) {
        Ok(()) => run_with_room(alloc, source, target, job, moves, copies, looks),
        Err(_) => Err(SyncAnswer::NoMemory),
    }
}

fn run_with_room<L: NameLink>(
    alloc: Global,
    source: &mut L,
    target: &mut L,
    job: &SyncJob,
    moves: &mut Vec<Made>,
    copies: &mut Vec<Copied>,
    looks: &mut Vec<Look>,
) -> Result<(), SyncAnswer>
    requires room { vec_len looks.old + 4 ≤ vec_capacity looks.old }
    requires no_moves { moves.old.items ≡ [] }
    requires no_copies { copies.old.items ≡ [] }
    requires no_looks { looks.old.items ≡ [] }
    ensures numbers { (L.number source.new ≡ L.number source.old) × (L.number target.new ≡ L.number target.old) }
    ensures alone { (L.alone source.new ≡ L.alone source.old) × (L.alone target.new ≡ L.alone target.old) }
    ensures stays { (L.stays source.old source.new) × (L.stays target.old target.new) }
    ensures ran { IsRun job.now (L.known source.old) (L.known source.new) (L.known target.old) (L.known target.new) (report_of result moves.new.items copies.new.items looks.new.items) }
{
    let start = begin(job, source, target, looks)?;
    let plan = planned(alloc, &start, job, source, target, looks)?;
    carry(
        alloc,
        &start,
        &job.target_root,
        &plan,
        source,
        target,
        moves,
        copies,
        looks,
    )
}

/// Fetches what the plan is made of, and makes it.
fn planned<L: NameLink>(
    alloc: Global,
    start: &SyncStart,
    job: &SyncJob,
    source: &mut L,
    target: &mut L,
    looks: &mut Vec<Look>,
) -> Result<Plan, SyncAnswer>
    requires room { vec_len looks.old < vec_capacity looks.old }
    ensures numbers { (L.number source.new ≡ L.number source.old) × (L.number target.new ≡ L.number target.old) }
    ensures alone { (L.alone source.new ≡ L.alone source.old) × (L.alone target.new ≡ L.alone target.old) }
    ensures stays { (L.stays source.old source.new) × (L.stays target.old target.new) }
    ensures plan { HasPlan start.now job.now (L.known source.old) (L.known source.new) (L.known target.old) (L.known target.new) looks.old.items looks.new.items result }
    ensures room { OnOk result (vec_len looks.new < vec_capacity looks.new) }
{
    let fetched = fetch(alloc, start, job.page, source, target, looks)?;
    plan_of(alloc, &fetched, &job.target_root)
}

/// Makes the plan of what was fetched.
fn plan_of(alloc: Global, fetched: &Fetched, root: &PathText) -> Result<Plan, SyncAnswer>
    ensures { IsPlanOf root.now fetched.now result }
{
    match plan(
        alloc,
        &fetched.lines,
        &fetched.listings,
        &fetched.roots,
        root,
    ) {
        Ok(plan) => Ok(plan),
        Err(PlanFault::PathLimit { path }) => Err(SyncAnswer::PathLimit { path }),
        Err(PlanFault::NoMemory) => Err(SyncAnswer::NoMemory),
    }
}

/// Makes the calls of the plan.
fn carry<L: NameLink>(
    alloc: Global,
    start: &SyncStart,
    root: &PathText,
    plan: &Plan,
    source: &mut L,
    target: &mut L,
    moves: &mut Vec<Made>,
    copies: &mut Vec<Copied>,
    looks: &mut Vec<Look>,
) -> Result<(), SyncAnswer>
    requires room { vec_len looks.old < vec_capacity looks.old }
    requires no_moves { moves.old.items ≡ [] }
    requires no_copies { copies.old.items ≡ [] }
    ensures numbers { (L.number source.new ≡ L.number source.old) × (L.number target.new ≡ L.number target.old) }
    ensures alone { (L.alone source.new ≡ L.alone source.old) × (L.alone target.new ≡ L.alone target.old) }
    ensures stays { (L.stays source.old source.new) × (L.stays target.old target.new) }
    ensures carried { HasCarried start.now root.now plan.now (L.known source.old) (L.known source.new) (L.known target.old) (L.known target.new) moves.new.items copies.new.items looks.old.items looks.new.items result }
{
    make_moves(alloc, root, plan, target, moves, looks)?;
    reserve_copies(plan, copies)?;
    copy_all(
        alloc,
        plan.copies.items(),
        start.to,
        root,
        source,
        target,
        copies,
    )?;
    delete_tmp(alloc, root, plan, target, moves, looks)
}

/// Makes room for what becomes of each copy.
fn reserve_copies(plan: &Plan, copies: &mut Vec<Copied>) -> Result<(), SyncAnswer>
    ensures same { copies.new.items ≡ copies.old.items }
    ensures room { OnOk result (vec_len copies.new + length plan.now.copies ≤ vec_capacity copies.new) }
    ensures wanting { IfErr result (λ answer. answer ≡ answers.NoMemory) }
{
    match copies.reserve(plan.copies.len()) {
        Ok(()) => Ok(()),
        Err(_) => Err(SyncAnswer::NoMemory),
    }
}
