//! The events of a text, with what is added to them.
ghost use Rattle.std.specs.Prelude.{◌≡◌, IfErr, IfOk};
ghost use Rattle.markdown_additions.specs.Additions.{additions_view, adds_ids, adds_no_ids, adds_prefixed_ids};
ghost use Rattle.markdown_additions.specs.TextEvents.{IsNewAdded, IsNewParser, IsNewText, IsNewWithIds};
ghost use Rattle.markdown_base.specs.Source.{Source, source_as};

use crate::additions::{Additions, Ids};
use either::Either;
use markdown_autolinks::Autolinks;
use markdown_base::event::Event;
use markdown_base::fault::Fault;
use markdown_base::options::Options;
use markdown_base::syntax::Syntax;
use markdown_blocks::Blocks;
use markdown_defs::DefaultBrokenLinkCallback;
use markdown_heading_ids::{HeadingIds, Prefixed, Taken};
use markdown_inline::walk::{OffsetIter, Parser};
use std::alloc::Global;
use std::ops::Range;

/// The events of a text that is read without a callback.
type Events<'a> = OffsetIter<'a, DefaultBrokenLinkCallback>;

/// The same, or these with links of bare addresses.
type ParsedEvents<'a> = Either<Events<'a>, Autolinks<'a, Events<'a>>>;

/// The same with the ids of their headings.
type EventsWithIds<'a> = HeadingIds<'a, ParsedEvents<'a>>;

/// The same without added ids, with ids, or with ids and a prefix.
type NestedEvents<'a> = Either<
    ParsedEvents<'a>,
    Either<EventsWithIds<'a>, Prefixed<'a, EventsWithIds<'a>>>,
>;

/// The events of a text with what is added to them. Its contracts name no adapter, so that those of what reads it stay short.
#[derive(Drop)]
pub(crate) struct TextEvents<'a> {
    events: NestedEvents<'a>,
}

impl<'a> Iterator for TextEvents<'a> {
    type Item = Result<(Event<'a>, Range<usize>), Fault>;

    ghost use Rattle.std.specs.Iterator.{at_most, size};
    ghost use Rattle.markdown_additions.specs.TextEvents.{nested_events, nested_rest, text_steps};

    ghost can_next = { λ s. Unit {0} };

    ghost next_gives = { text_steps };

    ghost remaining = { λ s. at_most (size (nested_rest (nested_events s))) };

    /// Returns the next event with its range.
    fn next(&mut self) -> Option<Result<(Event<'a>, Range<usize>), Fault>> {
        self.events.next()
    }
}

/// Returns the events of a text, with its bare addresses as links if `autolinks` is set.
fn with_links<'a>(
    alloc: Global,
    text: &'a str,
    autolinks: bool,
    events: Events<'a>,
) -> ParsedEvents<'a>
    ensures { (s : Source) → s.text ≡ text.now → IsNewParser s events.entry
        → IsNewText autolinks s result }
{
    if autolinks {
        Either::Right(Autolinks::new(alloc, text, events))
    } else {
        Either::Left(events)
    }
}

/// Returns the events of a text of which `syntax` is read, with their ranges, and with links of bare addresses if `autolinks`
/// is set.
fn parsed_events<'a>(
    alloc: Global,
    text: &'a str,
    syntax: Syntax,
    autolinks: bool,
) -> Result<ParsedEvents<'a>, Fault>
    ensures new { IfOk result (IsNewText autolinks (source_as syntax text.now)) }
    ensures refused { IfErr result (λ fault. fault ≡ Fault.Memory) }
{
    let blocks = Blocks::of_source(alloc, text, Options::empty(), syntax)?;
    let nobody: Option<DefaultBrokenLinkCallback> = None;
    let events = Parser::from_blocks(alloc, blocks, nobody)?.into_offset_iter();
    Ok(with_links(alloc, text, autolinks, events))
}

/// Returns the same events with the ids of their headings.
fn events_with_ids<'a>(
    alloc: Global,
    text: &'a str,
    syntax: Syntax,
    autolinks: bool,
) -> Result<EventsWithIds<'a>, Fault>
    ensures new { IfOk result (IsNewWithIds autolinks (source_as syntax text.now)) }
    ensures refused { IfErr result (λ fault. fault ≡ Fault.Memory) }
{
    let blocks = Blocks::of_source(alloc, text, Options::empty(), syntax)?;
    let taken = Taken::of_blocks(alloc, &blocks)?;
    let nobody: Option<DefaultBrokenLinkCallback> = None;
    let events = Parser::from_blocks(alloc, blocks, nobody)?.into_offset_iter();
    let linked = with_links(alloc, text, autolinks, events);
    Ok(HeadingIds::new(alloc, taken, linked))
}

/// Returns the events of a text, with its bare addresses as links if `autolinks` is set.
fn without_ids<'a>(
    alloc: Global,
    text: &'a str,
    syntax: Syntax,
    autolinks: bool,
) -> Result<TextEvents<'a>, Fault>
    ensures new { IfOk result (IsNewAdded (record { autolinks = autolinks; ids = adds_no_ids })
        (source_as syntax text.now)) }
    ensures refused { IfErr result (λ fault. fault ≡ Fault.Memory) }
{
    let events = parsed_events(alloc, text, syntax, autolinks)?;
    Ok(TextEvents {
        events: Either::Left(events),
    })
}

/// Returns the same with the ids of the headings.
fn with_ids<'a>(
    alloc: Global,
    text: &'a str,
    syntax: Syntax,
    autolinks: bool,
) -> Result<TextEvents<'a>, Fault>
    ensures new { IfOk result (IsNewAdded (record { autolinks = autolinks; ids = adds_ids })
        (source_as syntax text.now)) }
    ensures refused { IfErr result (λ fault. fault ≡ Fault.Memory) }
{
    let events = events_with_ids(alloc, text, syntax, autolinks)?;
    Ok(TextEvents {
        events: Either::Right(Either::Left(events)),
    })
}

/// Returns the same with a prefix of all ids.
fn with_prefix<'a>(
    alloc: Global,
    text: &'a str,
    syntax: Syntax,
    autolinks: bool,
    prefix: &str,
) -> Result<TextEvents<'a>, Fault>
    ensures new { IfOk result (IsNewAdded
        (record { autolinks = autolinks; ids = adds_prefixed_ids prefix.now })
        (source_as syntax text.now)) }
    ensures refused { IfErr result (λ fault. fault ≡ Fault.Memory) }
{
    let prefix = String::from_str(alloc, prefix)?;
    let events = events_with_ids(alloc, text, syntax, autolinks)?;
    let prefixed = Prefixed::new(alloc, prefix, events);
    Ok(TextEvents {
        events: Either::Right(Either::Right(prefixed)),
    })
}

/// Returns the events of a text of which `syntax` is read, with what is added to them.
pub(crate) fn added_events<'a>(
    alloc: Global,
    text: &'a str,
    syntax: Syntax,
    additions: Additions<'_>,
) -> Result<TextEvents<'a>, Fault>
    ensures new { IfOk result
        (IsNewAdded (additions_view additions.entry) (source_as syntax text.now)) }
    ensures refused { IfErr result (λ fault. fault ≡ Fault.Memory) }
{
    let autolinks = additions.autolinks;
    match additions.ids {
        Ids::Own => without_ids(alloc, text, syntax, autolinks),
        Ids::All => with_ids(alloc, text, syntax, autolinks),
        Ids::Prefixed(prefix) => with_prefix(alloc, text, syntax, autolinks, prefix),
    }
}
