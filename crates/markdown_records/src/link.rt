//! Links, images and headings, and where the texts of links may stand in the source.
ghost use Rattle.std.specs.Prelude.{◌≡◌, ◌+◌, ◌≤◌, ◌^◌, ℕ, MatchResult, length};
ghost use Rattle.std.specs.Option.{option_map_or};
ghost use Rattle.std.specs.declared.ops.Range.{Range};
ghost use Rattle.markdown_base.specs.Event.{attribute_view, link_view};
ghost use Rattle.markdown_records.specs.Drafts.{attribute_parts, destination_of, parts_of_heading};
ghost use Rattle.markdown_records.specs.Drafts.{inline_end, parts_of_link, no_text, pooled};
ghost use Rattle.markdown_records.specs.RecordOf.{heading_of, link_of, span_range, wording_of};

use crate::draft::{Span, TextPlace};
use crate::fault::RecordFault;
use markdown_base::cow_str::CowStr;
use markdown_base::tag::{HeadingLevel, LinkType};

/// The texts of the Start of a link or an image.
#[derive(Clone, Copy, Drop)]
pub(crate) struct Link<'x> {
    pub link_type: LinkType,
    pub destination: &'x str,
    pub title: &'x str,
    pub label: &'x str,
}

impl<'x> Link<'x> {
    /// Borrows the texts of the Start of a link or an image.
    pub fn new(
        link_type: LinkType,
        destination: &'x CowStr<'_>,
        title: &'x CowStr<'_>,
        label: &'x CowStr<'_>,
    ) -> Link<'x>
        ensures { link_of result
            ≡ link_view (link_type, destination.entry.now, title.entry.now, label.entry.now) }
    {
        Link {
            link_type,
            destination: destination.as_str(),
            title: title.as_str(),
            label: label.as_str(),
        }
    }

    /// Returns how many parts the link has: its title and its label, unless they are empty.
    pub fn parts(&self) -> usize
        ensures { (inside : ℕ) (range : Range ℕ)
            → length (parts_of_link inside range (link_of self.now)) ≡ result }
    {
        let title = if self.title.is_empty() { 0usize } else { 1 };
        let label = if self.label.is_empty() { 0 } else { 1 };
        title + label
    }
}

/// The fields of the Start of a heading.
#[derive(Clone, Copy, Drop)]
pub(crate) struct Heading<'x, 'a> {
    pub level: HeadingLevel,
    pub id: &'x Option<CowStr<'a>>,
    pub classes: &'x [CowStr<'a>],
    pub attributes: &'x [(CowStr<'a>, Option<CowStr<'a>>)],
}

/// Returns how many parts an attribute has.
fn part_count(attribute: &(CowStr<'_>, Option<CowStr<'_>>)) -> usize
    ensures { result ≡ length (attribute_parts (attribute_view attribute.now)) }
{
    match &attribute.1 {
        None => 1,
        Some(_) => 2,
    }
}

impl Heading<'_, '_> {
    /// Returns the text of the heading's id.
    pub fn id_text(&self) -> TextPlace<'_>
        ensures { wording_of result
            ≡ option_map_or (λ id. pooled id) (heading_of self.now).id no_text }
    {
        match self.id {
            None => TextPlace::Absent,
            Some(id) => TextPlace::Pooled(id.as_str()),
        }
    }

    /// Returns how many parts the heading has.
    pub fn parts(&self) -> Result<usize, RecordFault>
        ensures { MatchResult result (λ parts. parts ≡ length (parts_of_heading
            (heading_of self.now)))
            (λ fault. (fault ≡ RecordFault.TooLong)
            × (2 ^ 32 ≤ length (parts_of_heading (heading_of self.now)))) }
    {
        let mut parts = self.classes.len();
        for attribute in self.attributes {
            let Some(more) = parts.checked_add(part_count(attribute)) else {
                return Err(RecordFault::TooLong);
            };
            parts = more;
        }
        Ok(parts)
    }
}

/// Returns the end of an inline link's destination, or of the `>` after it.
fn inline_end(span: Span, title: &str) -> usize
    ensures { result ≡ inline_end (span_range span) title.now }
{
    let last = (span.end as usize).saturating_sub(1);
    if title.is_empty() {
        last
    } else {
        last.saturating_sub(title.len()).saturating_sub(3)
    }
}

/// Returns where the destination of a link is, whose text begins so many bytes after its start.
pub(crate) fn destination_of<'x>(link: &Link<'x>, opening: u8, span: Span) -> TextPlace<'x>
    ensures { wording_of result ≡ destination_of link.now.link_type (span.start + opening)
        (span_range span) (link_of link.now) }
{
    let words = link.destination;
    let inside = span.start as usize + opening as usize;
    match link.link_type {
        LinkType::Inline => {
            let end = inline_end(span, link.title);
            let first = end.saturating_sub(words.len());
            let second = first.saturating_sub(1);
            TextPlace::Sought {
                words,
                first,
                second,
            }
        }
        LinkType::Autolink | LinkType::Email => TextPlace::Sought {
            words,
            first: inside,
            second: span.start as usize,
        },
        LinkType::WikiLink { .. } => {
            let name = inside + 1;
            TextPlace::Sought {
                words,
                first: name,
                second: name,
            }
        }
        LinkType::Reference
        | LinkType::ReferenceUnknown
        | LinkType::Collapsed
        | LinkType::CollapsedUnknown
        | LinkType::Shortcut
        | LinkType::ShortcutUnknown => TextPlace::Pooled(words),
    }
}
