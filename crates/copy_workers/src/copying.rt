//! The copy of one file.
ghost use Rattle.std.specs.Prelude.{◌≡◌, [], true};
ghost use Rattle.hs_types.specs.declared.call.Call.TheVariants as calls;
ghost use Rattle.hs_types.specs.declared.call.Place.TheVariants as places;
ghost use Rattle.hs_plain.specs.Plan.{text_below};
ghost use Rattle.copy_workers.specs.Calls.{IsChange};
ghost use Rattle.copy_workers.specs.Copying.{IsCopy, IsCopyTo};
ghost use Rattle.copy_workers.specs.inside.Pages.{ended_by, IsPageRead, IsAppended, IsPageCopied};

use crate::copied::{Copied, Look, Made};
use crate::writing::{is_ok_reply, write};
use distcp_plan::text_below;
use hs_plain::CopyJob;
use hs_types::{
    Answered, Call, Chunk, Duplicate, List, NoMemory, PathText, Place, ReadCursor, ReadLen, Reply,
    Side, SnapId,
};
use page_join::NameLink;
use std::alloc::Global;

/// Copies a file of the source's snapshot to its place below the target's root: the file is made anew, and its pages are
/// read and appended one after the other, until the last of them or a reply that isn't an Ok reply.
pub fn copy_one<L: NameLink>(
    alloc: Global,
    number: u64,
    job: &CopyJob,
    snap: SnapId,
    target_root: &PathText,
    source: &mut L,
    target: &mut L,
) -> Copied
    ensures numbers { (L.number source.new ≡ L.number source.old) × (L.number target.new ≡ L.number target.old) }
    ensures alone { (L.alone source.new ≡ L.alone source.old) × (L.alone target.new ≡ L.alone target.old) }
    ensures stays { (L.stays source.old source.new) × (L.stays target.old target.new) }
    ensures copy { IsCopy number job.now snap target_root.now (L.known source.old) (L.known source.new) (L.known target.old) (L.known target.new) result }
{
    let mut made = Vec::new(alloc);
    let ended = copy_file(alloc, job, snap, target_root, source, target, &mut made).err();
    Copied {
        job: number,
        made: List::of(made),
        ended,
    }
}

fn copy_file<L: NameLink>(
    alloc: Global,
    job: &CopyJob,
    snap: SnapId,
    target_root: &PathText,
    source: &mut L,
    target: &mut L,
    made: &mut Vec<Made>,
) -> Result<(), Look>
    requires none { made.old.items ≡ [] }
    ensures numbers { (L.number source.new ≡ L.number source.old) × (L.number target.new ≡ L.number target.old) }
    ensures alone { (L.alone source.new ≡ L.alone source.old) × (L.alone target.new ≡ L.alone target.old) }
    ensures stays { (L.stays source.old source.new) × (L.stays target.old target.new) }
    ensures copy { IsCopyTo (text_below target_root.now job.now.to) (places.Frozen job.now.id snap) (L.known source.old) (L.known source.new) (L.known target.old) (L.known target.new) made.new.items (ended_by result) }
{
    match text_below(alloc, target_root, job.to.items()) {
        Ok(path) => copy_to(source, target, &path, Place::Frozen(job.id, snap), made),
        Err(NoMemory) => Err(Look::wanting(Side::Target, target.caller())),
    }
}

/// Makes the file at this path anew, with the bytes of what stands at that place.
fn copy_to<L: NameLink>(
    source: &mut L,
    target: &mut L,
    path: &PathText,
    place: Place,
    made: &mut Vec<Made>,
) -> Result<(), Look>
    requires none { made.old.items ≡ [] }
    ensures numbers { (L.number source.new ≡ L.number source.old) × (L.number target.new ≡ L.number target.old) }
    ensures alone { (L.alone source.new ≡ L.alone source.old) × (L.alone target.new ≡ L.alone target.old) }
    ensures stays { (L.stays source.old source.new) × (L.stays target.old target.new) }
    ensures copy { IsCopyTo path.now place (L.known source.old) (L.known source.new) (L.known target.old) (L.known target.new) made.new.items (ended_by result) }
{
    create(target, path, made)?;
    let mut next = Some(ReadCursor { place, offset: 0 });
    while let Some(cursor) = next {
        next = copy_page(source, target, path, cursor, made)?;
    }
    Ok(())
}

/// Copies the page at a cursor, and gives the cursor of the next one.
fn copy_page<L: NameLink>(
    source: &mut L,
    target: &mut L,
    path: &PathText,
    cursor: ReadCursor,
    made: &mut Vec<Made>,
) -> Result<Option<ReadCursor>, Look>
    ensures numbers { (L.number source.new ≡ L.number source.old) × (L.number target.new ≡ L.number target.old) }
    ensures alone { (L.alone source.new ≡ L.alone source.old) × (L.alone target.new ≡ L.alone target.old) }
    ensures stays { (L.stays source.old source.new) × (L.stays target.old target.new) }
    ensures page { IsPageCopied path.now cursor (L.known source.old) (L.known source.new) (L.known target.old) (L.known target.new) made.old.items made.new.items result }
{
    let Page { bytes, next } = read_page(source, cursor)?;
    append_page(target, path, bytes, made)?;
    Ok(next)
}

/// A page of a file, and where the next one begins.
#[derive(Debug, Drop)]
struct Page {
    bytes: Chunk,
    next: Option<ReadCursor>,
}

fn read_page<L: NameLink>(source: &mut L, cursor: ReadCursor) -> Result<Page, Look>
    ensures number { L.number source.new ≡ L.number source.old }
    ensures alone { L.alone source.new ≡ L.alone source.old }
    ensures stays { L.stays source.old source.new }
    ensures page { IsPageRead (L.known source.old) (L.known source.new) cursor result }
{
    let caller = source.caller();
    let Answered {
        reply,
        position,
        back,
    } = source.call(Call::ReadNext {
        cursor,
        len: ReadLen::greatest(),
    });
    match reply {
        Reply::Bytes { bytes, next } => Ok(Page { bytes, next }),
        reply => Err(Look {
            side: Side::Source,
            caller,
            reply: Answered {
                reply,
                position,
                back,
            },
        }),
    }
}

fn create<L: NameLink>(target: &mut L, path: &PathText, made: &mut Vec<Made>) -> Result<(), Look>
    ensures number { L.number target.new ≡ L.number target.old }
    ensures alone { L.alone target.new ≡ L.alone target.old }
    ensures stays { L.stays target.old target.new }
    ensures created { IsChange (L.known target.old) (L.known target.new) (calls.Create path.now true) made.old.items made.new.items result }
{
    match path.copy() {
        Ok(path) => change(target, Call::Create { path, over: true }, made),
        Err(NoMemory) => Err(Look::wanting(Side::Target, target.caller())),
    }
}

/// Appends a page that has bytes; of one without bytes there is nothing to do.
fn append_page<L: NameLink>(
    target: &mut L,
    path: &PathText,
    bytes: Chunk,
    made: &mut Vec<Made>,
) -> Result<(), Look>
    ensures number { L.number target.new ≡ L.number target.old }
    ensures alone { L.alone target.new ≡ L.alone target.old }
    ensures stays { L.stays target.old target.new }
    ensures appended { IsAppended (L.known target.old) (L.known target.new) path.now bytes made.old.items made.new.items result }
{
    if bytes.bytes().is_empty() {
        return Ok(());
    }
    match path.copy() {
        Ok(path) => change(target, Call::Append { path, bytes }, made),
        Err(NoMemory) => Err(Look::wanting(Side::Target, target.caller())),
    }
}

/// Makes a call at the target, where any reply but an Ok reply ends the work.
pub fn change<L: NameLink>(target: &mut L, call: Call, made: &mut Vec<Made>) -> Result<(), Look>
    ensures number { L.number target.new ≡ L.number target.old }
    ensures alone { L.alone target.new ≡ L.alone target.old }
    ensures stays { L.stays target.old target.new }
    ensures changed { IsChange (L.known target.old) (L.known target.new) call made.old.items made.new.items result }
{
    let caller = target.caller();
    match write(target, call, made) {
        Ok(answered) => {
            if is_ok_reply(&answered.reply) {
                Ok(())
            } else {
                Err(Look {
                    side: Side::Target,
                    caller,
                    reply: answered,
                })
            }
        }
        Err(NoMemory) => Err(Look::wanting(Side::Target, caller)),
    }
}
