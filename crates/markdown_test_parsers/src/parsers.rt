//! Parsers of trees, of texts and with callbacks, and their events. Each call of the block pass for a text has to fit.
ghost use Rattle.std.specs.Prelude.{IfOk, IfSome};
ghost use Rattle.markdown_inline.specs.ParserLeft.{parser_callback};

use crate::faults::or_fail;
use markdown_base::block_parts::BlockParts;
use markdown_base::event::Event;
use markdown_base::fault::Fault;
use markdown_base::item::Item;
use markdown_base::options::Options;
use markdown_base::tree::Tree;
use markdown_blocks::Blocks;
use markdown_defs::BrokenLinkCallback;
use markdown_inline::walk::Parser;
use markdown_test_helpers::lists::is_nothing;
use markdown_test_helpers::notes::{notes_of, notes_of_list};
use markdown_test_helpers::rows::gives;
use std::alloc::Global;
use std::ops::Range;
use std::test::Fail;

/// Returns a parser of a tree over a text.
pub fn parser_of<'a>(
    alloc: Global,
    source: &'a str,
    options: Options,
    tree: Tree<Item>,
    parts: BlockParts<'a>,
) -> Result<Parser<'a>, Fail> {
    let blocks = or_fail(Blocks::checked(alloc, source, options, tree, parts))?;
    or_fail(Parser::from_blocks(alloc, blocks, None))
}

/// Returns a parser of a text with these options.
pub fn text_parser<'a>(
    alloc: Global,
    source: &'a str,
    options: Options,
) -> Result<Parser<'a>, Fail> {
    or_fail(Parser::new_ext(alloc, source, options))
}

/// Returns a parser of a text, by the full reading, with these options.
pub fn extended_parser<'a>(
    alloc: Global,
    source: &'a str,
    options: Options,
) -> Result<Parser<'a>, Fail> {
    or_fail(Parser::new_extended(alloc, source, options, None))
}

/// Returns a parser of a text with no options.
pub fn plain_parser<'a>(alloc: Global, source: &'a str) -> Result<Parser<'a>, Fail> {
    or_fail(Parser::new(alloc, source))
}

/// Returns a parser of a text with a callback, with no options.
pub fn parser_asking<'a, F: BrokenLinkCallback<'a>>(
    alloc: Global,
    source: &'a str,
    callback: F,
) -> Result<Parser<'a, F>, Fail>
    requires { F.can_ask callback }
    ensures { IfOk result (λ parser. IfSome (parser_callback parser) F.can_ask) }
{
    let options = Options::empty();
    Ok(Parser::new_with_broken_link_callback(alloc, source, options, Some(callback))?)
}

/// Returns all events of a parser, each with its range, and the callback.
pub fn all_events<'a, F: BrokenLinkCallback<'a>>(
    parser: Parser<'a, F>,
) -> Result<(Vec<(Event<'a>, Range<usize>)>, Option<F>), Fault>
    requires { IfSome (parser_callback parser) F.can_ask }
{
    parser.into_offset_iter().into_events()
}

/// Returns the same, with the events as a text.
pub fn all_noted<'a, F: BrokenLinkCallback<'a>>(
    alloc: Global,
    parser: Parser<'a, F>,
) -> Result<(String, Option<F>), Fault>
    requires { IfSome (parser_callback parser) F.can_ask }
{
    let (events, callback) = all_events(parser)?;
    let notes = notes_of_list(alloc, events.as_slice());
    drop(events);
    Ok((notes?, callback))
}

/// Calls `next` of a parser `calls` times. Returns the number of events that it returned.
pub fn ask_for(parser: &mut Parser<'_>, calls: u64) -> u64 {
    let mut given = 0u64;
    for _ in 0..calls {
        if !is_nothing(parser.next()) {
            given = given.saturating_add(1);
        }
    }
    given
}

/// Returns the events of a parser as a text, each with its range.
pub fn events_of(alloc: Global, parser: Parser<'_>) -> Result<String, Fail> {
    notes_of(alloc, parser.into_offset_iter())
}

/// Checks the events of a parser, each with its range.
pub fn parser_gives(
    alloc: Global,
    row: &str,
    parser: Parser<'_>,
    wanted: &str,
) -> Result<(), Fail> {
    let notes = events_of(alloc, parser)?;
    gives(row, notes.as_str(), wanted)
}
