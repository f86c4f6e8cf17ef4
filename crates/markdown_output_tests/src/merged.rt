//! Parsers under merges and adapters, and their HTML.
use crate::events::{RangedItem, html_of_hardened, is_soft_break};
use markdown_base::cow_str::CowStr;
use markdown_base::event::Event;
use markdown_out::laws::a_mapped_iterator_can_be_merged;
use markdown_out::merge::{TextMergeStream, TextMergeWithOffset};
use markdown_render::merged::{merged_html, offsets_can_be_merged};
use markdown_test_helpers::notes::notes_of;
use markdown_test_helpers::rows::gives;
use markdown_test_parsers::faults::or_fail;
use markdown_test_parsers::parsers::plain_parser;
use std::alloc::Global;
use std::test::Fail;

#[test]
fn html_of_a_map(rt: HostRuntime) -> Result<(), Fail> {
    let html = html_of_hardened(rt.alloc(), plain_parser(rt.alloc(), "a\nb")?)?;
    gives("a\nb", html.as_str(), "<p>a<br />\nb</p>\n")
}

#[test]
fn html_of_a_mapped_merge(rt: HostRuntime) -> Result<(), Fail> {
    let merge = TextMergeStream::new(rt.alloc(), plain_parser(rt.alloc(), "a\nb")?);
    let html = html_of_hardened(rt.alloc(), merge)?;
    gives("a\nb", html.as_str(), "<p>a<br />\nb</p>\n")
}

#[test]
fn html_of_a_merge(rt: HostRuntime) -> Result<(), Fail> {
    let alloc = rt.alloc();
    let html = or_fail(merged_html(alloc, plain_parser(alloc, "a\nb")?))?;
    gives("a\nb", html.as_str(), "<p>a\nb</p>\n")
}

/// Returns a text of one space for a soft break, and any other item unchanged.
fn soften<'a>(placed: RangedItem<'a>) -> RangedItem<'a> {
    let (event, range) = placed?;
    if is_soft_break(&event) {
        drop(event);
        return Ok((Event::Text(CowStr::Borrowed(" ")), range));
    }
    Ok((event, range))
}

#[test]
fn ranges_of_a_merged_map(rt: HostRuntime) -> Result<(), Fail> {
    let alloc = rt.alloc();
    let iter = plain_parser(alloc, "a\nb")?.into_offset_iter();
    offsets_can_be_merged(&iter);
    let mapped = iter.map(soften);
    a_mapped_iterator_can_be_merged(&mapped);
    let notes = notes_of(alloc, TextMergeWithOffset::new(alloc, mapped))?;
    gives("a\nb", notes.as_str(), "<p>0..3 +[a b]0..3 </p>0..3 ")
}
