//! Pages put together, up to the reply that is none.
ghost use Rattle.std.specs.Prelude.{◌≡◌, ◌++◌, [], IfOk, OnOk};
ghost use Rattle.distcp_sync.specs.inside.Pages.{items_of_page, lines_of_page, content_of, IsAdded};

use hs_types::{Answered, Item, Line, List, NoMemory, Reply};
use std::alloc::Global;

/// All that pages hold, or the reply that is no page.
#[derive(Debug, Drop)]
pub(crate) enum Content<T> {
    Whole(List<T>),
    Ended(Answered),
}

/// The items of a listing's pages.
pub(crate) fn joined_items(
    alloc: Global,
    replies: List<Answered>,
) -> Result<Content<Item>, NoMemory>
    ensures { IfOk result (λ content. content ≡ content_of items_of_page [] replies) }
{
    let mut items = Vec::new(alloc);
    for answered in replies.into_vec() {
        if let Some(ended) = add_page(&mut items, answered)? {
            return Ok(Content::Ended(ended));
        }
    }
    Ok(Content::Whole(List::of(items)))
}

/// Adds what a page holds, and gives back what is no page.
fn add_page(items: &mut Vec<Item>, answered: Answered) -> Result<Option<Answered>, NoMemory>
    ensures { IfOk result (IsAdded (items_of_page answered.reply) answered items.old.items items.new.items) }
{
    let Answered {
        reply,
        position,
        back,
    } = answered;
    match reply {
        Reply::Page { items: more, .. } => {
            push_all(items, more)?;
            Ok(None)
        }
        reply => Ok(Some(Answered {
            reply,
            position,
            back,
        })),
    }
}

/// The lines of a report's pages.
pub(crate) fn joined_lines(
    alloc: Global,
    replies: List<Answered>,
) -> Result<Content<Line>, NoMemory>
    ensures { IfOk result (λ content. content ≡ content_of lines_of_page [] replies) }
{
    let mut lines = Vec::new(alloc);
    for answered in replies.into_vec() {
        if let Some(ended) = add_report(&mut lines, answered)? {
            return Ok(Content::Ended(ended));
        }
    }
    Ok(Content::Whole(List::of(lines)))
}

/// Adds the lines of a page, and gives back what is no page.
fn add_report(lines: &mut Vec<Line>, answered: Answered) -> Result<Option<Answered>, NoMemory>
    ensures { IfOk result (IsAdded (lines_of_page answered.reply) answered lines.old.items lines.new.items) }
{
    let Answered {
        reply,
        position,
        back,
    } = answered;
    match reply {
        Reply::Report { lines: more, .. } => {
            push_all(lines, more)?;
            Ok(None)
        }
        reply => Ok(Some(Answered {
            reply,
            position,
            back,
        })),
    }
}

/// Puts these behind those.
fn push_all<T: Drop>(items: &mut Vec<T>, more: List<T>) -> Result<(), NoMemory>
    ensures { OnOk result (items.new.items ≡ items.old.items ++ more) }
{
    for item in more.into_vec() {
        items.push(item)?;
    }
    Ok(())
}
