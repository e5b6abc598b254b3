//! The moves of a plan, and the delete of its temporary directory.
ghost use Rattle.std.specs.Prelude.{◌≡◌, ◌<◌, ◌∷◌, [], map, IfOk, OnOk, vec_len, vec_capacity};
ghost use Rattle.hs_types.specs.declared.call.Call.TheVariants as calls;
ghost use Rattle.hs_plain.specs.Plan.{text_below, out_place, out_calls, put_call as planned_put, move_calls, last_call};
ghost use Rattle.distcp_sync.specs.inside.Tried.{IsTried, IsNoted};

use crate::answer::SyncAnswer;
use crate::answering::answer_at;
use copy_workers::{Look, Made, is_ok_reply, write};
use distcp_plan::{out_text, text_below, tmp_text};
use hs_plain::{Plan, Put};
use hs_types::{Answered, Call, CallerId, NoMemory, PathText, RelPath, Side};
use page_join::NameLink;
use std::alloc::Global;

/// Makes the temporary directory, moves the outs into it and makes the puts.
pub(crate) fn make_moves<L: NameLink>(
    alloc: Global,
    root: &PathText,
    plan: &Plan,
    target: &mut L,
    made: &mut Vec<Made>,
    looks: &mut Vec<Look>,
) -> Result<(), SyncAnswer>
    requires room { vec_len looks.old < vec_capacity looks.old }
    ensures number { L.number target.new ≡ L.number target.old }
    ensures alone { L.alone target.new ≡ L.alone target.old }
    ensures stays { L.stays target.old target.new }
    ensures tried { IsTried (L.known target.old) (L.known target.new) (move_calls root.now plan.now) made.old.items made.new.items looks.old.items looks.new.items result }
    ensures room { OnOk result (vec_len looks.new < vec_capacity looks.new) }
{
    make_tmp(alloc, root, plan, target, made, looks)?;
    make_outs(alloc, root, plan, target, made, looks)?;
    make_puts(alloc, root, plan, target, made, looks)
}

fn make_tmp<L: NameLink>(
    alloc: Global,
    root: &PathText,
    plan: &Plan,
    target: &mut L,
    made: &mut Vec<Made>,
    looks: &mut Vec<Look>,
) -> Result<(), SyncAnswer>
    requires room { vec_len looks.old < vec_capacity looks.old }
    ensures number { L.number target.new ≡ L.number target.old }
    ensures alone { L.alone target.new ≡ L.alone target.old }
    ensures stays { L.stays target.old target.new }
    ensures tried { IsTried (L.known target.old) (L.known target.new) (calls.Mkdir (text_below root.now (plan.now.tmp ∷ [])) ∷ []) made.old.items made.new.items looks.old.items looks.new.items result }
    ensures room { OnOk result (vec_len looks.new < vec_capacity looks.new) }
{
    match tmp_text(alloc, root, &plan.tmp) {
        Ok(path) => make(target, Call::Mkdir { path }, made, looks),
        Err(NoMemory) => Err(SyncAnswer::NoMemory),
    }
}

fn make_outs<L: NameLink>(
    alloc: Global,
    root: &PathText,
    plan: &Plan,
    target: &mut L,
    made: &mut Vec<Made>,
    looks: &mut Vec<Look>,
) -> Result<(), SyncAnswer>
    requires room { vec_len looks.old < vec_capacity looks.old }
    ensures number { L.number target.new ≡ L.number target.old }
    ensures alone { L.alone target.new ≡ L.alone target.old }
    ensures stays { L.stays target.old target.new }
    ensures tried { IsTried (L.known target.old) (L.known target.new) (out_calls root.now plan.now 0 plan.now.outs) made.old.items made.new.items looks.old.items looks.new.items result }
    ensures room { OnOk result (vec_len looks.new < vec_capacity looks.new) }
{
    for (index, path) in plan.outs.items().iter().enumerate() {
        make_out(alloc, root, plan, index as u64, path, target, made, looks)?;
    }
    Ok(())
}

fn make_out<L: NameLink>(
    alloc: Global,
    root: &PathText,
    plan: &Plan,
    index: u64,
    path: &RelPath,
    target: &mut L,
    made: &mut Vec<Made>,
    looks: &mut Vec<Look>,
) -> Result<(), SyncAnswer>
    requires room { vec_len looks.old < vec_capacity looks.old }
    ensures number { L.number target.new ≡ L.number target.old }
    ensures alone { L.alone target.new ≡ L.alone target.old }
    ensures stays { L.stays target.old target.new }
    ensures tried { IsTried (L.known target.old) (L.known target.new) (calls.Rename (text_below root.now path.now) (text_below root.now (out_place plan.now index)) ∷ []) made.old.items made.new.items looks.old.items looks.new.items result }
    ensures room { OnOk result (vec_len looks.new < vec_capacity looks.new) }
{
    match out_call(alloc, root, plan, index, path) {
        Ok(call) => make(target, call, made, looks),
        Err(NoMemory) => Err(SyncAnswer::NoMemory),
    }
}

fn out_call(
    alloc: Global,
    root: &PathText,
    plan: &Plan,
    index: u64,
    path: &RelPath,
) -> Result<Call, NoMemory>
    ensures { IfOk result (λ call. call ≡ calls.Rename (text_below root.now path.now) (text_below root.now (out_place plan.now index))) }
{
    let old = text_below(alloc, root, path.items())?;
    let new = out_text(alloc, root, &plan.tmp, index)?;
    Ok(Call::Rename { old, new })
}

fn make_puts<L: NameLink>(
    alloc: Global,
    root: &PathText,
    plan: &Plan,
    target: &mut L,
    made: &mut Vec<Made>,
    looks: &mut Vec<Look>,
) -> Result<(), SyncAnswer>
    requires room { vec_len looks.old < vec_capacity looks.old }
    ensures number { L.number target.new ≡ L.number target.old }
    ensures alone { L.alone target.new ≡ L.alone target.old }
    ensures stays { L.stays target.old target.new }
    ensures tried { IsTried (L.known target.old) (L.known target.new) (map (planned_put root.now plan.now) plan.now.puts) made.old.items made.new.items looks.old.items looks.new.items result }
    ensures room { OnOk result (vec_len looks.new < vec_capacity looks.new) }
{
    for put in plan.puts.items() {
        make_put(alloc, root, plan, put, target, made, looks)?;
    }
    Ok(())
}

fn make_put<L: NameLink>(
    alloc: Global,
    root: &PathText,
    plan: &Plan,
    put: &Put,
    target: &mut L,
    made: &mut Vec<Made>,
    looks: &mut Vec<Look>,
) -> Result<(), SyncAnswer>
    requires room { vec_len looks.old < vec_capacity looks.old }
    ensures number { L.number target.new ≡ L.number target.old }
    ensures alone { L.alone target.new ≡ L.alone target.old }
    ensures stays { L.stays target.old target.new }
    ensures tried { IsTried (L.known target.old) (L.known target.new) (planned_put root.now plan.now put.now ∷ []) made.old.items made.new.items looks.old.items looks.new.items result }
    ensures room { OnOk result (vec_len looks.new < vec_capacity looks.new) }
{
    match put_call(alloc, root, plan, put) {
        Ok(call) => make(target, call, made, looks),
        Err(NoMemory) => Err(SyncAnswer::NoMemory),
    }
}

fn put_call(alloc: Global, root: &PathText, plan: &Plan, put: &Put) -> Result<Call, NoMemory>
    ensures { IfOk result (λ call. call ≡ planned_put root.now plan.now put.now) }
{
    match put {
        Put::Back { index, to } => back_call(alloc, root, plan, *index, to),
        Put::NewDir { to } => Ok(Call::Mkdir {
            path: text_below(alloc, root, to.items())?,
        }),
    }
}

fn back_call(
    alloc: Global,
    root: &PathText,
    plan: &Plan,
    index: u64,
    to: &RelPath,
) -> Result<Call, NoMemory>
    ensures { IfOk result (λ call. call ≡ calls.Rename (text_below root.now (out_place plan.now index)) (text_below root.now to.now)) }
{
    let old = out_text(alloc, root, &plan.tmp, index)?;
    let new = text_below(alloc, root, to.items())?;
    Ok(Call::Rename { old, new })
}

/// Deletes the temporary directory, with what was left in it.
pub(crate) fn delete_tmp<L: NameLink>(
    alloc: Global,
    root: &PathText,
    plan: &Plan,
    target: &mut L,
    made: &mut Vec<Made>,
    looks: &mut Vec<Look>,
) -> Result<(), SyncAnswer>
    requires room { vec_len looks.old < vec_capacity looks.old }
    ensures number { L.number target.new ≡ L.number target.old }
    ensures alone { L.alone target.new ≡ L.alone target.old }
    ensures stays { L.stays target.old target.new }
    ensures tried { IsTried (L.known target.old) (L.known target.new) (last_call root.now plan.now ∷ []) made.old.items made.new.items looks.old.items looks.new.items result }
    ensures room { OnOk result (vec_len looks.new < vec_capacity looks.new) }
{
    match tmp_text(alloc, root, &plan.tmp) {
        Ok(path) => {
            let recursive = true;
            make(target, Call::Delete { path, recursive }, made, looks)
        }
        Err(NoMemory) => Err(SyncAnswer::NoMemory),
    }
}

/// Makes one call. A reply that isn't an Ok reply is put to the looks, for which there is room.
fn make<L: NameLink>(
    target: &mut L,
    call: Call,
    made: &mut Vec<Made>,
    looks: &mut Vec<Look>,
) -> Result<(), SyncAnswer>
    requires room { vec_len looks.old < vec_capacity looks.old }
    ensures number { L.number target.new ≡ L.number target.old }
    ensures alone { L.alone target.new ≡ L.alone target.old }
    ensures stays { L.stays target.old target.new }
    ensures tried { IsTried (L.known target.old) (L.known target.new) (call ∷ []) made.old.items made.new.items looks.old.items looks.new.items result }
    ensures room { OnOk result (vec_len looks.new < vec_capacity looks.new) }
{
    let caller = target.caller();
    match write(target, call, made) {
        Ok(reply) => note_reply(caller, reply, looks),
        Err(NoMemory) => Err(SyncAnswer::NoMemory),
    }
}

fn note_reply(caller: CallerId, reply: Answered, looks: &mut Vec<Look>) -> Result<(), SyncAnswer>
    requires room { vec_len looks.old < vec_capacity looks.old }
    ensures noted { IsNoted caller reply looks.old.items looks.new.items result }
    ensures room { OnOk result (vec_len looks.new < vec_capacity looks.new) }
{
    if is_ok_reply(&reply.reply) {
        Ok(())
    } else {
        let side = Side::Target;
        let look = Look {
            side,
            caller,
            reply,
        };
        let answer = answer_at(&look);
        looks.push_reserved(look);
        Err(answer)
    }
}
