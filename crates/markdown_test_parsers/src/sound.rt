//! Checks of what holds for the events of every text: each End closes the last Start that is open, no Start stays open,
//! and each range is in the text, between characters.
use crate::faults::or_fail;
use crate::parsers::{all_events, text_parser};
use markdown_base::event::Event;
use markdown_base::options::Options;
use markdown_base::tag::TagEnd;
use std::alloc::{AllocError, Global};
use std::ops::Range;
use std::test::Fail;

/// Returns whether an event may follow those that have opened these tags, and opens or closes its own.
fn is_next(open: &mut Vec<TagEnd>, event: &Event<'_>) -> Result<bool, AllocError> {
    match event {
        Event::Start(tag) => {
            open.push(tag.to_end())?;
            Ok(true)
        }
        Event::End(tag) => Ok(open.pop() == Some(*tag)),
        _ => Ok(true),
    }
}

/// Returns whether each End is that of its Start.
fn are_balanced(alloc: Global, events: &[(Event<'_>, Range<usize>)]) -> Result<bool, AllocError> {
    let mut open = Vec::new(alloc);
    for (event, _) in events {
        if !is_next(&mut open, event)? {
            return Ok(false);
        }
    }
    Ok(open.is_empty())
}

/// Returns whether a range is in the text, between characters.
fn lies_in(source: &str, range: &Range<usize>) -> bool {
    range.start <= range.end
        && source.is_char_boundary(range.start)
        && source.is_char_boundary(range.end)
}

/// Returns whether the range of each event is in the text, between characters.
fn all_lie_in(source: &str, events: &[(Event<'_>, Range<usize>)]) -> bool {
    for (_, range) in events {
        if !lies_in(source, range) {
            return false;
        }
    }
    true
}

/// Returns whether the walk over a text ends and its events are sound.
pub fn is_sound(alloc: Global, source: &str, options: Options) -> Result<bool, Fail> {
    let (events, callback) = or_fail(all_events(text_parser(alloc, source, options)?))?;
    drop(callback);
    let balanced = are_balanced(alloc, events.as_slice());
    let placed = all_lie_in(source, events.as_slice());
    drop(events);
    Ok(balanced? && placed)
}

/// Returns the options of many extensions.
fn extensions() -> Options {
    Options::ENABLE_TABLES
        .union(Options::ENABLE_FOOTNOTES)
        .union(Options::ENABLE_STRIKETHROUGH)
        .union(Options::ENABLE_SUPERSCRIPT)
        .union(Options::ENABLE_SUBSCRIPT)
        .union(Options::ENABLE_TASKLISTS)
}

/// Returns each option that changes how a text is read, and those of the extensions.
fn all_options() -> Options {
    extensions()
        .union(Options::ENABLE_SMART_PUNCTUATION)
        .union(Options::ENABLE_OLD_FOOTNOTES)
        .union(Options::ENABLE_MATH)
        .union(Options::ENABLE_GFM)
        .union(Options::ENABLE_DEFINITION_LIST)
        .union(Options::ENABLE_WIKILINKS)
}

/// Returns whether the same holds with no option, with some and with all.
pub fn is_sound_with_any(alloc: Global, source: &str) -> Result<bool, Fail> {
    let tasks = Options::ENABLE_TASKLISTS.union(Options::ENABLE_STRIKETHROUGH);
    for options in [Options::empty(), tasks, extensions(), all_options()] {
        if !is_sound(alloc, source, options)? {
            return Ok(false);
        }
    }
    Ok(true)
}
