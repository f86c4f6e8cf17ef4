//! The title in the metadata before a text.
ghost use Rattle.std.specs.Prelude.{◌≡◌, ◌++◌, ℕ, List, [], IfErr, IfOk, None, if◌then◌else◌, option_map};
ghost use Rattle.std.specs.Prelude.{string_bytes};
ghost use Rattle.markdown_base.specs.Event.{event_view};
ghost use Rattle.markdown_base.specs.Source.{source_as};
ghost use Rattle.markdown_inline.specs.Elements.{events_of};
ghost use Rattle.markdown_inline.specs.ParserLeft.{elements, parser_callback};
ghost use Rattle.markdown_tool_output.specs.Metadata.{leading_text, leading_title, opened_metadata, text_then};
ghost use Rattle.markdown_tool_output.specs.Metadata.{title_in_metadata};

use markdown_base::event::Event;
use markdown_base::fault::Fault;
use markdown_base::syntax::Syntax;
use markdown_base::tag::{MetadataBlockKind, Tag};
use markdown_defs::DefaultBrokenLinkCallback;
use markdown_inline::walk::Parser;
use markdown_page::metadata_title;
use std::alloc::{AllocError, Global};

/// Returns the kind of the metadata that begin with an event, if some do.
fn opened_metadata(event: &Event<'_>) -> Option<MetadataBlockKind>
    ensures { result ≡ opened_metadata (event_view event.now) }
{
    match event {
        Event::Start(Tag::MetadataBlock(kind)) => Some(*kind),
        _ => None,
    }
}

/// Appends the text of an event if it is a Text, and returns whether it is one.
fn add_text(text: &mut String, event: &Event<'_>) -> Result<bool, AllocError>
    ensures { IfOk result (λ is_text. (later : List ℕ)
        → string_bytes text.new ++ (if is_text then later else [])
        ≡ string_bytes text.old ++ text_then (event_view event.now) later) }
{
    match event {
        Event::Text(more) => {
            text.push_str(more.as_str())?;
            Ok(true)
        }
        _ => Ok(false),
    }
}

/// Returns the Texts that the events begin with that are left, joined.
fn leading_text(alloc: Global, events: Parser<'_>) -> Result<String, Fault>
    requires alone { parser_callback events ≡ None }
    ensures text { IfOk result (λ text.
        string_bytes text ≡ leading_text (events_of (elements events.entry []))) }
    ensures refused { IfErr result (λ fault. fault ≡ Fault.Memory) }
{
    let mut events = events;
    let mut text = String::new(alloc);
    'events: while let Some(item) = events.next() {
        let event = item?;
        let is_text = add_text(&mut text, &event)?;
        drop(event);
        if !is_text {
            return Ok(text);
        }
    }
    Ok(text)
}

/// Returns the title in the metadata that the events begin with that are left.
fn leading_title(alloc: Global, events: Parser<'_>) -> Result<Option<String>, Fault>
    requires alone { parser_callback events ≡ None }
    ensures title { IfOk result (λ title. option_map string_bytes title
        ≡ leading_title (events_of (elements events.entry []))) }
    ensures refused { IfErr result (λ fault. fault ≡ Fault.Memory) }
{
    let mut events = events;
    let Some(item) = events.next() else {
        return Ok(None);
    };
    let first = item?;
    let opened = opened_metadata(&first);
    drop(first);
    let Some(kind) = opened else {
        return Ok(None);
    };
    let text = leading_text(alloc, events)?;
    metadata_title(alloc, kind, text.as_str())
}

/// Returns the title in the metadata before a text of which `syntax` is read, if there is one. Reads no further than the
/// metadata, once the blocks are found.
pub(crate) fn title_in_metadata(
    alloc: Global,
    text: &str,
    syntax: Syntax,
) -> Result<Option<String>, Fault>
    ensures title { IfOk result (λ title. option_map string_bytes title
        ≡ title_in_metadata (source_as syntax text.now)) }
    ensures refused { IfErr result (λ fault. fault ≡ Fault.Memory) }
{
    let nobody: Option<DefaultBrokenLinkCallback> = None;
    let events = Parser::of_source(alloc, text, syntax, nobody)?;
    leading_title(alloc, events)
}
