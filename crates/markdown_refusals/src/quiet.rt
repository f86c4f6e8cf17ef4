//! The calls that do not allocate. Each function makes what the calls need, and makes the calls if `calls` is true: a
//! run that makes them allocates as often as one that does not.
ghost use Rattle.std.specs.Prelude.{◌≡◌, None};

use crate::tables::{lists_one, made, puts_alignments, puts_attributes, puts_link, puts_text};
use markdown_base::cow_str::CowStr;
use markdown_base::fault::Fault;
use markdown_base::options::Options;
use markdown_base::tag::LinkType;
use markdown_blocks::Blocks;
use markdown_defs::{
    Allocations, BrokenLink, BrokenLinkCallback, Closure, DefaultBrokenLinkCallback,
};
use markdown_inline::walk::Parser;
use markdown_out::merge::{TextMergeStream, TextMergeWithOffset};
use markdown_test_helpers::lists::is_nothing;
use std::alloc::Global;

const DEFINING: &str = "a\n\n[b]: /u";

/// Calls the accessors of a new parser, with ranges and without, and merges with ranges.
fn has_definition(alloc: Global, parser: Parser<'_, DefaultBrokenLinkCallback>) -> bool {
    let first = lists_one(parser.reference_definitions(), "b") && parser.work().items == 0;
    let iter = parser.into_offset_iter();
    let second = lists_one(iter.reference_definitions(), "b") && iter.work().items == 0;
    drop(TextMergeWithOffset::new(alloc, iter));
    first && second
}

fn parsers(alloc: Global, calls: bool) -> Result<bool, Fault> {
    let parser = Parser::new(alloc, DEFINING)?;
    if calls {
        return Ok(has_definition(alloc, parser));
    }
    drop(parser);
    Ok(true)
}

/// Calls a parser whose walk is over, with ranges and without.
fn is_over(parser: Parser<'_, DefaultBrokenLinkCallback>) -> bool {
    let mut parser = parser;
    let first = is_nothing(parser.next());
    let second = is_nothing(parser.next());
    let mut iter = parser.into_offset_iter();
    let third = is_nothing(iter.next());
    drop(iter);
    first && second && third
}

fn ended_parsers(alloc: Global, calls: bool) -> Result<bool, Fault> {
    let mut parser = Parser::new(alloc, DEFINING)?;
    for _ in 0..4 {
        drop(parser.next());
    }
    if calls {
        return Ok(is_over(parser));
    }
    drop(parser);
    Ok(true)
}

fn merges(alloc: Global, calls: bool) -> Result<bool, Fault> {
    let parser = Parser::new(alloc, "")?;
    if calls {
        drop(TextMergeStream::new(alloc, parser));
        return Ok(true);
    }
    drop(parser);
    Ok(true)
}

fn blocks(alloc: Global, calls: bool) -> Result<bool, Fault> {
    let blocks = Blocks::of_text(alloc, DEFINING, Options::ENABLE_MATH)?;
    if !calls {
        return Ok(true);
    }
    let (text, options, tree, parts) = blocks.into_parts();
    let definitions = parts.definitions.len();
    drop(parts);
    Ok(text == DEFINING && options == Options::ENABLE_MATH && tree.len() == 3 && definitions == 1)
}

/// Puts in a value of each kind, and takes it out again if `calls` is true.
fn puts_values(alloc: Global, held: &mut Allocations<'static>, calls: bool) -> Result<bool, Fault> {
    Ok(
        puts_text(held, calls)?
            && puts_link(held, calls)?
            && puts_alignments(alloc, held, calls)?
            && puts_attributes(alloc, held, calls)?,
    )
}

fn values(alloc: Global, calls: bool) -> Result<bool, Fault> {
    let mut held = made(alloc)?;
    puts_values(alloc, &mut held, calls)
}

/// Returns whether a callback returns None.
fn is_silent<'input, C: BrokenLinkCallback<'input>>(callback: &mut C) -> bool
    requires { C.can_ask callback.old }
{
    is_nothing(callback.handle_broken_link(BrokenLink {
        span: 0..3,
        link_type: LinkType::Shortcut,
        reference: CowStr::Borrowed("a"),
    }))
}

fn callbacks(calls: bool) -> bool {
    if !calls {
        return true;
    }
    let silent = |link: BrokenLink| -> Option<(CowStr, CowStr)>
        ensures answer { result ≡ None }
    {
        drop(link);
        None
    };
    let mut closure = Closure::new(silent);
    let mut none = DefaultBrokenLinkCallback;
    is_silent(&mut closure) && is_silent(&mut none)
}

/// Makes what the calls need, and the calls if `calls` is true. Returns whether all of them return what they should; no
/// allocation is refused.
pub fn gives(alloc: Global, calls: bool) -> Result<bool, Fault> {
    Ok(
        parsers(alloc, calls)?
            && ended_parsers(alloc, calls)?
            && merges(alloc, calls)?
            && blocks(alloc, calls)?
            && values(alloc, calls)?
            && callbacks(calls),
    )
}
