//! What an event means for an outline: whether a heading ends with it, and the text that it adds to one; and what a
//! heading's Start holds.
ghost use Rattle.std.specs.Prelude.{◌≡◌, IfOk, IsSome, OnErr, string_bytes};
ghost use Rattle.std.specs.Option.{option_map};
ghost use Rattle.markdown_base.specs.CowText.{text_of};
ghost use Rattle.markdown_base.specs.Event.{event_view};
ghost use Rattle.markdown_base.specs.HeadingLevels.{level_number};
ghost use Rattle.markdown_outline.specs.Outline.{ends_heading, text_added};

use markdown_base::cow_str::CowStr;
use markdown_base::event::Event;
use markdown_base::tag::{HeadingLevel, TagEnd};
use std::alloc::{AllocError, Global};

/// Returns the number of a level.
pub fn level_number(level: HeadingLevel) -> u8
    ensures { result ≡ level_number level }
{
    match level {
        HeadingLevel::H1 => 1,
        HeadingLevel::H2 => 2,
        HeadingLevel::H3 => 3,
        HeadingLevel::H4 => 4,
        HeadingLevel::H5 => 5,
        HeadingLevel::H6 => 6,
    }
}

/// Returns a copy of the id of a heading, if it has one.
pub fn copied_id(alloc: Global, id: &Option<CowStr<'_>>) -> Result<Option<String>, AllocError>
    ensures copy { IfOk result (λ copy. option_map string_bytes copy ≡ option_map text_of id.now) }
    ensures refused { OnErr result (IsSome id.now) }
{
    match id {
        Some(text) => Ok(Some(String::from_str(alloc, text.as_str())?)),
        None => Ok(None),
    }
}

/// Returns whether an event is the End of a heading.
pub fn ends_heading(event: &Event<'_>) -> bool
    ensures { result ≡ ends_heading (event_view event.now) }
{
    matches!(event, Event::End(TagEnd::Heading(_)))
}

/// Returns what an event adds to the text of the heading that it is in.
pub fn text_added<'x>(event: &'x Event<'_>) -> &'x str
    ensures { result.now ≡ text_added (event_view event.now) }
{
    match event {
        Event::Text(text) => text.as_str(),
        Event::Code(text) => text.as_str(),
        Event::InlineMath(text) => text.as_str(),
        Event::DisplayMath(text) => text.as_str(),
        Event::SoftBreak | Event::HardBreak => " ",
        _ => "",
    }
}
