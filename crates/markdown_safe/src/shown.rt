//! What an event becomes that depends on the rules and on the events before it: what is shown of it, and the outermost
//! of links in links.
ghost use Rattle.std.specs.Prelude.{◌≡◌, IfOk, IfSome};
ghost use Rattle.markdown_base.specs.CowText.{text_of};
ghost use Rattle.markdown_base.specs.Event.{end as end_event, event_view, start as start_event, tag_view};
ghost use Rattle.markdown_safe.specs.OuterLinks.{links_after, outermost, written_reference};
ghost use Rattle.markdown_safe.specs.SafeEvents.{comment_after, uncommented};
ghost use Rattle.markdown_safe.specs.ShownImages.{shown_image};

use crate::raw::{ends_in_comment, shown_html};
use crate::rules::Images;
use markdown_base::cow_str::CowStr;
use markdown_base::event::Event;
use markdown_base::tag::{Tag, TagEnd};
use std::alloc::{AllocError, Global};

/// Returns an event without comments, where the HTML before it ends in a comment or does not.
pub(crate) fn uncommented<'a>(
    alloc: Global,
    within: bool,
    event: Event<'a>,
) -> Result<Event<'a>, AllocError>
    ensures { IfOk result (λ made. event_view made ≡ uncommented within (event_view event.entry)) }
{
    match event {
        Event::Html(html) => Ok(Event::Html(shown_html(alloc, within, html)?)),
        Event::InlineHtml(html) => Ok(Event::InlineHtml(shown_html(alloc, false, html)?)),
        other => Ok(other),
    }
}

/// Returns whether the HTML ends in a comment after an event, where that before it does or does not.
pub(crate) fn comment_after(within: bool, event: &Event<'_>) -> bool
    ensures { result ≡ comment_after (event_view event.now) within }
{
    match event {
        Event::Html(html) => ends_in_comment(within, html.as_str()),
        Event::Start(Tag::HtmlBlock) | Event::End(TagEnd::HtmlBlock) => false,
        _ => within,
    }
}

/// Returns the Start of a tag, where an image is what it becomes.
fn shown_start<'a>(images: Images, tag: Tag<'a>) -> Event<'a>
    ensures { event_view result ≡ shown_image images (start_event (tag_view tag.entry)) }
{
    match tag {
        Tag::Image {
            link_type,
            dest_url,
            title,
            id,
        } => match images {
            Images::Shown => Event::Start(Tag::Image {
                link_type,
                dest_url,
                title,
                id,
            }),
            Images::Links => Event::Start(Tag::Link {
                link_type,
                dest_url,
                title,
                id,
            }),
            Images::Text => Event::Text(CowStr::from("")),
        },
        other => Event::Start(other),
    }
}

/// Returns an End, where that of an image is what it becomes.
fn shown_end<'a>(images: Images, end: TagEnd) -> Event<'a>
    ensures { event_view result ≡ shown_image images (end_event end) }
{
    match (end, images) {
        (TagEnd::Image, Images::Links) => Event::End(TagEnd::Link),
        (TagEnd::Image, Images::Text) => Event::Text(CowStr::from("")),
        _ => Event::End(end),
    }
}

/// Returns an event, where an image is what it becomes: itself, a link, or its alt text.
pub(crate) fn shown_image<'a>(images: Images, event: Event<'a>) -> Event<'a>
    ensures { event_view result ≡ shown_image images (event_view event.entry) }
{
    match event {
        Event::Start(tag) => shown_start(images, tag),
        Event::End(end) => shown_end(images, end),
        other => other,
    }
}

/// Returns how many links are open after an event, where so many are open before it, and images are what they become:
/// `None` where more are than can be counted.
pub(crate) fn links_after(images: Images, links: usize, event: &Event<'_>) -> Option<usize>
    ensures { IfSome result (λ after.
        after ≡ links_after (shown_image images (event_view event.now)) links) }
{
    match (event, images) {
        (Event::Start(Tag::Link { .. }), _) | (Event::Start(Tag::Image { .. }), Images::Links) =>
            links.checked_add(1),
        (Event::End(TagEnd::Link), _) | (Event::End(TagEnd::Image), Images::Links) => {
            Some(links.saturating_sub(1))
        }
        _ => Some(links),
    }
}

/// Returns the reference to a footnote as it was written.
fn written_reference<'a>(alloc: Global, name: &str) -> Result<CowStr<'a>, AllocError>
    ensures { IfOk result (λ made. text_of made ≡ written_reference name.now) }
{
    let mut made = String::from_str(alloc, "[^")?;
    made.push_str(name)?;
    made.push_str("]")?;
    Ok(CowStr::from(made))
}

/// Returns the Start of a tag, or an empty Text for that of a link where so many others are open, if any.
fn outermost_start<'a>(links: usize, tag: Tag<'a>) -> Event<'a>
    ensures { event_view result ≡ outermost (start_event (tag_view tag.entry)) links }
{
    match tag {
        Tag::Link { .. } if links > 0 => Event::Text(CowStr::from("")),
        other => Event::Start(other),
    }
}

/// Returns an event, or, where so many links are open before it, an empty Text for the Start and the End of another link,
/// and what was written for a reference to a footnote.
pub(crate) fn outermost<'a>(
    alloc: Global,
    links: usize,
    event: Event<'a>,
) -> Result<Event<'a>, AllocError>
    ensures { IfOk result (λ made. event_view made ≡ outermost (event_view event.entry) links) }
{
    match event {
        Event::Start(tag) => Ok(outermost_start(links, tag)),
        Event::End(TagEnd::Link) if links > 1 => Ok(Event::Text(CowStr::from(""))),
        Event::FootnoteReference(name) if links > 0 => {
            Ok(Event::Text(written_reference(alloc, name.as_str())?))
        }
        other => Ok(other),
    }
}
