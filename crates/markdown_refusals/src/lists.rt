//! Lists of events made by hand, to be merged or rendered, and the lists that they have to become.
ghost use Rattle.std.specs.Iterator.{IsFinite};

use crate::tries::{Given, gives, writes};
use markdown_base::cow_str::CowStr;
use markdown_base::event::Event;
use markdown_base::fault::Fault;
use markdown_base::tag::{Tag, TagEnd};
use markdown_out::merge::{TextMergeStream, TextMergeWithOffset};
use markdown_test_helpers::events::{image, text};
use markdown_test_helpers::lists::{Items, Listed, WithoutErrors};
use std::alloc::Global;
use std::ops::Range;

const MIXED: &str = "<ol start=\"7\">\n<sup class=\"footnote-reference\"><a href=\"#a\">1</a></sup>\
    <img src=\"u\" alt=\"[2]&lt;\" title=\"t\" /><span class=\"math math-inline\">x</span></ol>\n";

/// Two runs of two texts, with a rule between them.
#[derive(Drop)]
struct Texts;

impl Listed for Texts {
    type Item = Event<'static>;

    fn item(&self, at: usize) -> Option<Event<'static>> {
        match at {
            0 => Some(text("a first text ")),
            1 => Some(text("and a second")),
            2 => Some(Event::Rule),
            3 => Some(text("a third ")),
            4 => Some(text("and a fourth")),
            _ => None,
        }
    }
}

/// The same, with ranges.
#[derive(Drop)]
struct RangedTexts;

impl Listed for RangedTexts {
    type Item = (Event<'static>, Range<usize>);

    fn item(&self, at: usize) -> Option<(Event<'static>, Range<usize>)> {
        let range = match at {
            0 => 0..13,
            1 => 13..25,
            2 => 25..29,
            3 => 29..37,
            _ => 37..49,
        };
        let event = Texts.item(at)?;
        Some((event, range))
    }
}

/// An image with alt text, footnotes of this name, and a list.
#[derive(Drop)]
struct Mixed<'a> {
    name: &'a str,
}

impl<'a> Listed for Mixed<'a> {
    type Item = Event<'a>;

    fn item(&self, at: usize) -> Option<Event<'a>> {
        match at {
            0 => Some(Event::Start(Tag::List(Some(7)))),
            1 => Some(Event::FootnoteReference(CowStr::Borrowed(self.name))),
            2 => Some(image("u", "t")),
            3 => Some(Event::FootnoteReference(CowStr::Borrowed("b"))),
            4 => Some(text("<")),
            5 => Some(Event::End(TagEnd::Image)),
            6 => Some(Event::InlineMath(CowStr::Borrowed("x"))),
            7 => Some(Event::End(TagEnd::List(true))),
            _ => None,
        }
    }
}

/// Returns an iterator over the `count` items of a list.
fn give<L>(list: L, count: usize) -> Items<WithoutErrors<L>> {
    Items::of(WithoutErrors::of(list), count)
}

/// Returns whether a merge gives these items, or a prefix of them. The type is a parameter, so that no event is dropped
/// here.
fn merges_to<T: Given, I: Iterator<Item = Result<T, Fault>> + Drop>(merge: I, full: [T; 3]) -> bool
    requires can { (left : I) → I.can_next left }
    requires ends { (left : I) → IsFinite (I.remaining left) }
{
    gives(Ok(merge), &full, false)
}

/// Returns whether the texts are merged, or a prefix of the merged events is given and an allocation failed.
pub fn merges(alloc: Global) -> bool {
    merges_to(
        TextMergeStream::new(alloc, give(Texts, 5)),
        [
            text("a first text and a second"),
            Event::Rule,
            text("a third and a fourth"),
        ],
    )
}

/// Returns the same for the texts with ranges.
pub fn merges_with_ranges(alloc: Global) -> bool {
    merges_to(
        TextMergeWithOffset::new(alloc, give(RangedTexts, 5)),
        [
            (text("a first text and a second"), 0..25),
            (Event::Rule, 25..29),
            (text("a third and a fourth"), 29..49),
        ],
    )
}

/// Returns whether the HTML of the mixed events is written, or a prefix of it and an allocation failed; None if one
/// failed for the expected HTML or the old text.
pub fn renders_mixed_events(alloc: Global) -> Option<bool> {
    let html = String::from_str(alloc, MIXED).ok();
    writes(alloc, html, Ok(give(Mixed { name: "a" }, 8)))
}
