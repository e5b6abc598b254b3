//! A caller of both namenodes, and what it keeps between its commands.
ghost use Rattle.std.specs.Prelude.{◌≡◌, IfNone, IfOk, OnOk};
ghost use Rattle.hs_types.specs.declared.reply.Reply.{Reply};
ghost use Rattle.hs_plain.specs.Joined.{list_cursor as plain_list_cursor, report_cursor as plain_report_cursor};
ghost use Rattle.script_runner.specs.Keeping.{no_cursors, no_calls, new_client, with_cursor, next_kept};

use hs_types::{Call, CallerId, Duplicate, ListCursor, NoMemory, PageSize, Reply, ReportCursor};
use script_text::PagesKind;

/// The cursors at which `more` and `dmore` go on.
#[derive(Drop)]
pub(crate) struct Cursors {
    pub(crate) listing: Option<ListCursor>,
    pub(crate) report: Option<ReportCursor>,
}

impl Cursors {
    fn none() -> Cursors
        ensures { result ≡ no_cursors }
    {
        Cursors {
            listing: None,
            report: None,
        }
    }

    /// Keeps the cursor of a reply, or none where the reply has none. The reply goes into the log, so a cursor with a name is
    /// copied.
    pub(crate) fn keep(&mut self, kind: PagesKind, reply: &Reply) -> Result<(), NoMemory>
        ensures { OnOk result (self.new ≡ with_cursor kind reply.now self.old) }
    {
        match kind {
            PagesKind::Listing => self.listing = list_cursor(reply)?,
            PagesKind::Report => self.report = report_cursor(reply),
        }
        Ok(())
    }

    /// Takes a kept cursor, for the call that goes on there.
    pub(crate) fn take_next(&mut self, page: PageSize, kind: PagesKind) -> Option<Call>
        ensures next { result ≡ next_kept page self.old kind }
        ensures others { (reply : Reply) → with_cursor kind reply self.new ≡ with_cursor kind reply self.old }
        ensures none { IfNone result (self.new ≡ self.old) }
    {
        match kind {
            PagesKind::Listing => match self.listing.take() {
                Some(cursor) => Some(Call::ListNext { cursor, size: page }),
                None => None,
            },
            PagesKind::Report => match self.report.take() {
                Some(cursor) => Some(Call::ReportNext { cursor, size: page }),
                None => None,
            },
        }
    }
}

/// What a client knows of one namenode: the number of its last call there, and its cursors.
#[derive(Drop)]
pub(crate) struct Session {
    pub(crate) calls: u64,
    pub(crate) cursors: Cursors,
}

impl Session {
    fn new() -> Session
        ensures { result ≡ no_calls }
    {
        Session {
            calls: 0,
            cursors: Cursors::none(),
        }
    }
}

/// A caller, with what it knows of each namenode.
#[derive(Drop)]
pub(crate) struct Client {
    pub(crate) caller: CallerId,
    pub(crate) source: Session,
    pub(crate) target: Session,
}

impl Client {
    /// A caller that has made no call.
    pub(crate) fn new(caller: CallerId) -> Client
        ensures { result ≡ new_client caller }
    {
        Client {
            caller,
            source: Session::new(),
            target: Session::new(),
        }
    }
}

/// The cursor of a page of a listing, where it has one.
fn list_cursor(reply: &Reply) -> Result<Option<ListCursor>, NoMemory>
    ensures { IfOk result (λ cursor. cursor ≡ plain_list_cursor reply.now) }
{
    match reply {
        Reply::Page {
            next: Some(cursor),
            ..
        } => Ok(Some(cursor.copy()?)),
        _ => Ok(None),
    }
}

/// The cursor of a page of a report, where it has one.
fn report_cursor(reply: &Reply) -> Option<ReportCursor>
    ensures { result ≡ plain_report_cursor reply.now }
{
    match reply {
        Reply::Report { next, .. } => *next,
        _ => None,
    }
}
