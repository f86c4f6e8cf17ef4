//! A linter: the line and column of each piece of raw HTML in a text.
ghost use Rattle.std.specs.Prelude.{◌≡◌, ◌<◌, IfOk, IfErr, length};
ghost use Rattle.markdown.specs.EventWords.{event_view};
ghost use Rattle.markdown_callers.specs.Linter.{html_positions_in, ends_line_at, is_html, position_at};

use markdown::{Event, Fault, Parser};
use std::alloc::Global;

/// A position in a text. Lines and columns are counted from 1; columns are counted in bytes.
#[derive(Clone, Copy, Debug, PartialEq, Eq, Drop)]
pub struct LineColumn {
    pub line: usize,
    pub column: usize,
}

/// Returns whether a line ends with the byte at an offset: a line feed, or a carriage return with
/// no line feed after it.
fn is_line_end(bytes: &[u8], at: usize) -> bool
    requires { at < length bytes.now }
    ensures { result ≡ ends_line_at bytes.now at }
{
    match bytes[at] {
        b'\n' => true,
        b'\r' => at + 1 == bytes.len() || bytes[at + 1] != b'\n',
        _ => false,
    }
}

/// Returns the line and column of a byte offset. An offset past the end of the text has the position of
/// its end.
pub fn position_of(source: &str, offset: usize) -> LineColumn
    ensures { result ≡ position_at source.now offset }
{
    let bytes = source.as_bytes();
    let end = offset.min(bytes.len());
    let mut line = 1;
    let mut line_start = 0;
    for at in 0..end {
        if is_line_end(bytes, at) {
            line += 1;
            line_start = at + 1;
        }
    }
    LineColumn {
        line,
        column: end - line_start + 1,
    }
}

/// Returns whether an event is raw HTML: a tag or comment in a paragraph, or a line of an HTML
/// block.
fn is_raw_html(event: &Event<'_>) -> bool
    ensures { result ≡ is_html (event_view event.now) }
{
    matches!(event, Event::Html(_) | Event::InlineHtml(_))
}

/// Returns where the raw HTML of a text begins: each tag or comment in a paragraph, and each line of
/// an HTML block. The only error is `Fault::Memory`.
pub fn raw_html(alloc: Global, source: &str) -> Result<Vec<LineColumn>, Fault>
    ensures positions { IfOk result (λ positions.
        positions.items ≡ html_positions_in source.now) }
    ensures refused { IfErr result (λ fault. fault ≡ Fault.Memory) }
{
    let parser = Parser::new(alloc, source)?;
    let (events, _) = parser.into_offset_iter().into_events()?;
    let mut positions = Vec::new(alloc);
    for (event, range) in &events {
        if is_raw_html(event) {
            positions.push(position_of(source, range.start))?;
        }
    }
    Ok(positions)
}

/// Returns a line for each piece of raw HTML. The only error is `Fault::Memory`.
pub fn report(alloc: Global, source: &str) -> Result<String, Fault>
    ensures refused { IfErr result (λ fault. fault ≡ Fault.Memory) }
{
    let mut lines = String::new(alloc);
    for position in &raw_html(alloc, source)? {
        let line = format!(in alloc; "{}:{}: raw HTML\n", position.line, position.column)?;
        lines.push_str(line.as_str())?;
    }
    Ok(lines)
}
