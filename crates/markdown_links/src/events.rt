//! What an event means for links: whether one begins or ends with it.
ghost use Rattle.std.specs.Prelude.{◌≡◌, IfOk, IsSome, None, OnErr};
ghost use Rattle.markdown_base.specs.Event.{event_view, link_view};
ghost use Rattle.markdown_links.specs.LinkEntries.{ends_link, opened_link};
ghost use Rattle.markdown_links.specs.FoundLinks.{begun_at, is_opened_by};

use crate::found::Found;
use markdown_base::cow_str::CowStr;
use markdown_base::event::Event;
use markdown_base::tag::{LinkType, Tag, TagEnd};
use std::alloc::{AllocError, Global};
use std::ops::Range;

/// Where a link or an image begins.
#[derive(Debug, Drop)]
pub struct Place {
    /// In the source.
    pub range: Range<usize>,
    /// In the shared text.
    pub text_start: usize,
}

/// Returns whether an event is the End of a link or an image.
pub fn ends_link(event: &Event<'_>) -> bool
    ensures { result ≡ ends_link (event_view event.now) }
{
    matches!(event, Event::End(TagEnd::Link | TagEnd::Image))
}

/// Returns a link or an image that has no text yet.
fn begun<'a>(
    alloc: Global,
    is_image: bool,
    link_type: LinkType,
    texts: (&CowStr<'a>, &CowStr<'a>, &CowStr<'a>),
    place: Place,
) -> Result<Found, AllocError>
    ensures { IfOk result (λ found. begun_at is_image
        (link_view (link_type, texts.entry.0.now, texts.entry.1.now, texts.entry.2.now)) place
        found) }
{
    let (dest_url, title, id) = texts;
    Ok(Found {
        is_image,
        link_type,
        dest_url: String::from_str(alloc, dest_url.as_str())?,
        title: String::from_str(alloc, title.as_str())?,
        id: String::from_str(alloc, id.as_str())?,
        range: place.range,
        text_start: place.text_start,
        text_end: None,
    })
}

/// Returns the link or the image that begins with an event at this place, if one does.
pub fn opened_link(
    alloc: Global,
    event: &Event<'_>,
    place: Place,
) -> Result<Option<Found>, AllocError>
    ensures found { IfOk result (is_opened_by (opened_link (event_view event.now)) place) }
    ensures refused { OnErr result (IsSome (opened_link (event_view event.now))) }
{
    match event {
        Event::Start(
            Tag::Link {
                link_type,
                dest_url,
                title,
                id,
            },
        ) => Ok(Some(begun(alloc, false, *link_type, (dest_url, title, id), place)?)),
        Event::Start(
            Tag::Image {
                link_type,
                dest_url,
                title,
                id,
            },
        ) => Ok(Some(begun(alloc, true, *link_type, (dest_url, title, id), place)?)),
        _ => Ok(None),
    }
}
