//! A site generator: lines break where they do in the source, and headings move down below the title of the site.
ghost use Rattle.std.specs.Prelude.{◌≡◌, IfOk, string_bytes};
ghost use Rattle.markdown.specs.EventWords.{event_view};
ghost use Rattle.markdown.specs.OptionWords.{profile_syntax, source_as};
ghost use Rattle.markdown_callers.specs.SiteGenerator.{IsItemOnPage, event_on_page, one_below, page_of_text};

use markdown::html::push_html;
use markdown::{Event, Fault, HeadingLevel, Options, Parser, Tag, TagEnd};
use std::alloc::Global;

/// Returns the page of a text.
///
/// # Errors
///
/// `Memory` if an allocation fails, and `Depth` as `push_html` returns it.
pub fn page_html(alloc: Global, source: &str, options: Options) -> Result<String, Fault>
    ensures { IfOk result (λ html.
        string_bytes html ≡ page_of_text (source_as (profile_syntax options) source.now)) }
{
    let parser = Parser::new_ext(alloc, source, options)?;
    let mut html = String::new(alloc);
    push_html(alloc, &mut html, parser.map(page_item))?;
    Ok(html)
}

/// Changes the event of an item by `page_event`, and returns an error unchanged.
fn page_item<'a>(item: Result<Event<'a>, Fault>) -> Result<Event<'a>, Fault>
    ensures { IsItemOnPage item.entry result }
{
    Ok(page_event(item?))
}

/// Returns an event as a page has it: soft breaks become hard breaks, and headings move one level down.
pub fn page_event<'a>(event: Event<'a>) -> Event<'a>
    ensures { event_view result ≡ event_on_page (event_view event.entry) }
{
    match event {
        Event::SoftBreak => Event::HardBreak,
        Event::Start(
            Tag::Heading {
                level,
                id,
                classes,
                attrs,
            },
        ) => Event::Start(Tag::Heading {
            level: one_below(level),
            id,
            classes,
            attrs,
        }),
        Event::End(TagEnd::Heading(level)) => Event::End(TagEnd::Heading(one_below(level))),
        other => other,
    }
}

/// Returns the level below a level, or level 6 for level 6.
fn one_below(level: HeadingLevel) -> HeadingLevel
    ensures { result ≡ one_below level }
{
    match level {
        HeadingLevel::H1 => HeadingLevel::H2,
        HeadingLevel::H2 => HeadingLevel::H3,
        HeadingLevel::H3 => HeadingLevel::H4,
        HeadingLevel::H4 => HeadingLevel::H5,
        HeadingLevel::H5 | HeadingLevel::H6 => HeadingLevel::H6,
    }
}
