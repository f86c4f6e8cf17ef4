//! Events made one by one, so that only what reads them allocates.
ghost use Rattle.std.specs.Iterator.{IsFinite};

use crate::labels::{LabelKind, first_labels};
use markdown_base::cow_str::CowStr;
use markdown_base::event::Event;
use markdown_base::fault::Fault;
use markdown_base::tag::{LinkType, Tag, TagEnd};
use markdown_out::html::push_html;
use markdown_out::merge::TextMergeStream;
use markdown_test_helpers::events::{link, text};
use markdown_test_helpers::lists::{Items, Listed};
use std::alloc::Global;

/// The number of events of a paragraph.
const PARAGRAPH: usize = 12;

const PROSE: &str =
    "Some words of prose, with an ampersand & and a comparison a < b in the middle.";

/// Returns the event at a position of a paragraph, counted from 0.
fn paragraph_event<'a>(place: usize, prose: &'a str) -> Event<'a> {
    match place {
        0 => Event::Start(Tag::Paragraph),
        1 => text(prose),
        2 => Event::Start(Tag::Emphasis),
        3 => text(prose),
        4 => Event::End(TagEnd::Emphasis),
        5 => Event::SoftBreak,
        6 => link(LinkType::Inline, "https://example.com/a b", "a \"title\""),
        7 => Event::Code(CowStr::Borrowed("a && b")),
        8 => Event::End(TagEnd::Link),
        9 => Event::HardBreak,
        10 => text(prose),
        _ => Event::End(TagEnd::Paragraph),
    }
}

/// The events of paragraphs.
#[derive(Drop)]
struct Paragraphs<'a> {
    prose: &'a str,
}

impl<'a> Listed for Paragraphs<'a> {
    type Item = Result<Event<'a>, Fault>;

    fn item(&self, at: usize) -> Option<Result<Event<'a>, Fault>> {
        Some(Ok(paragraph_event(at % PARAGRAPH, self.prose)))
    }
}

/// Returns the length of the HTML of `paragraphs` paragraphs in bytes.
pub fn rendered_bytes(alloc: Global, paragraphs: usize) -> Option<usize> {
    let mut html = String::new(alloc);
    let count = paragraphs.checked_mul(PARAGRAPH)?;
    let events = Items::of(Paragraphs { prose: PROSE }, count);
    push_html(alloc, &mut html, events).ok()?;
    Some(html.as_str().len())
}

/// Footnote references: to each name from the last to the first, and then to each once more.
#[derive(Drop)]
struct References<'a> {
    names: &'a [String],
}

impl<'a> Listed for References<'a> {
    type Item = Result<Event<'a>, Fault>;

    fn item(&self, at: usize) -> Option<Result<Event<'a>, Fault>> {
        let count = self.names.len();
        let before = if at < count { at } else { at - count };
        let last = count.checked_sub(1)?;
        let name = self.names.get(last.checked_sub(before)?)?;
        Some(Ok(Event::FootnoteReference(CowStr::Borrowed(name.as_str()))))
    }
}

/// Returns the length in bytes of the HTML of two references to each of `size` names.
pub fn footnote_bytes(alloc: Global, kind: LabelKind, size: usize) -> Option<usize> {
    let names = first_labels(alloc, kind, size)?;
    let mut html = String::new(alloc);
    let references = References {
        names: names.as_slice(),
    };
    let events = Items::of(references, size.checked_mul(2)?);
    push_html(alloc, &mut html, events).ok()?;
    Some(html.as_str().len())
}

/// Texts of one byte.
#[derive(Drop)]
struct Letters<'a> {
    letter: &'a str,
}

impl<'a> Listed for Letters<'a> {
    type Item = Result<Event<'a>, Fault>;

    fn item(&self, at: usize) -> Option<Result<Event<'a>, Fault>> {
        let _ = at;
        Some(Ok(text(self.letter)))
    }
}

/// Returns the length of a text in bytes, or None for any other item.
fn text_bytes(item: &Result<Event<'_>, Fault>) -> Option<usize> {
    match item {
        Ok(Event::Text(text)) => Some(text.as_str().len()),
        _ => None,
    }
}

/// Returns the sum of what `size` returns for the items, or None where it returns None for one of them.
fn sum_of<T: Drop, I: Iterator<Item = T> + Drop, F: Fn(&T) -> Option<usize> + Drop>(
    items: I,
    size: F,
) -> Option<usize>
    requires can { I.can_next items }
    requires ends { IsFinite (I.remaining items) }
    requires callable { F.IsAlwaysCallable size }
{
    let mut sum = 0usize;
    for item in items {
        sum = sum.saturating_add(size(&item)?);
    }
    Some(sum)
}

/// Returns the length in bytes of the merge of `texts` texts of one byte.
pub fn merged_bytes(alloc: Global, texts: usize) -> Option<usize> {
    let letters = Items::of(Letters { letter: "a" }, texts);
    sum_of(TextMergeStream::new(alloc, letters), text_bytes)
}
