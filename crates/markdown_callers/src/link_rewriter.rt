//! A link rewriter: where a link or an image leads to a path from the root of a site, as `/ovens`, the site's address, as
//! `https://bread.example`, is put before it, so that it leads there from anywhere.
ghost use Rattle.std.specs.Prelude.{◌≡◌, IfOk, IfErr, string_bytes};
ghost use Rattle.markdown.specs.EventWords.{event_view, tag_view, text_of};
ghost use Rattle.markdown_callers.specs.LinkRewriter.{IsItemAtSite, html_at_site};
ghost use Rattle.markdown_callers.specs.LinkRewriter.{destination_at_site, is_root_relative, tag_at_site};

use markdown::html::push_html;
use markdown::{CowStr, Event, Fault, Parser, Tag};
use std::alloc::{AllocError, Global};

/// Returns the HTML of a text, with the site's address before each destination that is a path from its root.
pub fn html_at_site(alloc: Global, source: &str, site: &str) -> Result<String, Fault>
    ensures { IfOk result (λ html. string_bytes html ≡ html_at_site site.now source.now) }
{
    let parser = Parser::new(alloc, source)?;
    let mut html = String::new(alloc);
    let events = parser.map(
        |item|
            ensures { IsItemAtSite site.entry.now item.entry result }
        { item_at_site(alloc, site, item) },
    );
    push_html(alloc, &mut html, events)?;
    Ok(html)
}

/// Changes the tag that the event of an item begins, if any, by `tag_at_site`, and returns an error unchanged.
fn item_at_site<'a>(
    alloc: Global,
    site: &str,
    item: Result<Event<'a>, Fault>,
) -> Result<Event<'a>, Fault>
    ensures { IsItemAtSite site.now item.entry result }
{
    match item? {
        Event::Start(tag) => Ok(Event::Start(tag_at_site(alloc, site, tag)?)),
        other => Ok(other),
    }
}

/// Changes the destination of a link or an image by `destination_at_site`, and returns other tags unchanged. The only
/// error is `Fault::Memory`.
fn tag_at_site<'a>(alloc: Global, site: &str, tag: Tag<'a>) -> Result<Tag<'a>, Fault>
    ensures tag { IfOk result
        (λ made. tag_view made ≡ tag_at_site site.now (tag_view tag.entry)) }
    ensures refused { IfErr result (λ fault. fault ≡ Fault.Memory) }
{
    match tag {
        Tag::Link {
            link_type,
            dest_url,
            title,
            id,
        } => Ok(Tag::Link {
            link_type,
            dest_url: destination_at_site(alloc, site, dest_url)?,
            title,
            id,
        }),
        Tag::Image {
            link_type,
            dest_url,
            title,
            id,
        } => Ok(Tag::Image {
            link_type,
            dest_url: destination_at_site(alloc, site, dest_url)?,
            title,
            id,
        }),
        other => Ok(other),
    }
}

/// Returns a new text, of the site's address and the destination, if this is a path from the root; otherwise the
/// destination. Fails only if an allocation fails.
fn destination_at_site<'a>(
    alloc: Global,
    site: &str,
    destination: CowStr<'a>,
) -> Result<CowStr<'a>, AllocError>
    ensures { IfOk result
        (λ made. text_of made ≡ destination_at_site site.now (text_of destination.entry)) }
{
    if !is_root_relative(destination.as_str()) {
        return Ok(destination);
    }
    let mut made = String::from_str(alloc, site)?;
    made.push_str(destination.as_str())?;
    Ok(CowStr::from(made))
}

/// Returns whether a destination is a path from the root: it begins with one slash. Two slashes begin the name of a host.
fn is_root_relative(destination: &str) -> bool
    ensures { result ≡ is_root_relative destination.now }
{
    destination.starts_with("/") && !destination.starts_with("//")
}
