//! The HTML of events.
ghost use Rattle.std.specs.Iterator.{IsFinite};

use crate::faults::or_fail;
use markdown_base::event::Event;
use markdown_base::fault::Fault;
use markdown_inline::walk::Parser;
use markdown_out::html::push_html;
use markdown_test_helpers::rows::gives;
use std::alloc::Global;
use std::test::Fail;

/// Returns the HTML of the events of an iterator.
pub fn html_of<'a, I: Iterator<Item = Result<Event<'a>, Fault>>>(
    alloc: Global,
    iter: I,
) -> Result<String, Fail>
    requires can { I.can_next iter }
    requires ends { IsFinite (I.remaining iter) }
{
    let mut html = String::new(alloc);
    or_fail(push_html(alloc, &mut html, iter))?;
    Ok(html)
}

/// Returns the HTML of a parser.
pub fn parser_html(alloc: Global, parser: Parser<'_>) -> Result<String, Fail> {
    html_of(alloc, parser)
}

/// Checks the HTML of a parser.
pub fn parser_shows(
    alloc: Global,
    row: &str,
    parser: Parser<'_>,
    wanted: &str,
) -> Result<(), Fail> {
    let html = parser_html(alloc, parser)?;
    gives(row, html.as_str(), wanted)
}
