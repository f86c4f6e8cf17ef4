//! The body of a wikilink.
ghost use Rattle.std.specs.Prelude.{◌≡◌, ◌+◌, Option, take};
ghost use Rattle.std.specs.Option.{option_map};
ghost use Rattle.std.specs.Str.{IsCharBoundary};
ghost use Rattle.markdown_scan.specs.WikilinkPipe.{wikilink_pipe};
ghost use Rattle.markdown_brackets.specs.Wikilink.{wikilink_body, named};
ghost use Rattle.markdown_brackets.specs.WikilinkView.{body_view, shown_view};

use markdown_scan::wikilink_pipe::scan_wikilink_pipe;

/// The part of its body that a wikilink shows.
#[derive(Clone, Copy, Debug, PartialEq, Eq, Drop)]
pub enum Shown {
    /// Its name, which is the whole body.
    Name,
    /// Nothing: the body ends at this byte offset, directly after the pipe.
    Nothing(usize),
    /// The text from this byte offset on, directly after the pipe.
    From(usize),
}

/// The name of a wikilink, as it is written, and what the wikilink shows.
#[derive(Debug, Drop)]
pub struct WikilinkBody<'t> {
    pub name: &'t str,
    pub shown: Shown,
}

// Returns the body with this name, if the name is not empty.
fn body_of<'t>(name: &'t str, shown: Shown) -> Option<WikilinkBody<'t>>
    ensures { option_map body_view result ≡ named name.now (shown_view shown) }
{
    if name.is_empty() {
        return None;
    }
    Some(WikilinkBody { name, shown })
}

// Returns the byte offset after the first `|` in the `length` bytes from the byte offset `start` on, and the text
// before it; `None` if they contain no pipe before the block's end.
fn scan_pipe(text: &str, block_end: usize, start: usize, length: usize) -> Option<(usize, &str)>
    requires start { IsCharBoundary text.now start }
    requires end { IsCharBoundary text.now (start + length) }
    ensures { option_map (λ p. (p.0, p.1.now)) result
        ≡ wikilink_pipe (take block_end text.now) start length }
{
    let (after, name) = scan_wikilink_pipe(text, start, length)?;
    if after > block_end {
        return None;
    }
    Some((after, name))
}

/// Returns the body of a wikilink between the byte offsets `start` and `end` of the text, in a block that ends at the
/// byte offset `block_end`. The first `|` in it, before the block's end, separates the name from the shown text.
/// Returns `None` if the body or the name is empty, or if `end` is less than `start`.
pub fn scan_wikilink_body(
    text: &str,
    block_end: usize,
    start: usize,
    end: usize,
) -> Option<WikilinkBody<'_>>
    requires start { IsCharBoundary text.now start }
    requires end { IsCharBoundary text.now end }
    ensures { option_map body_view result ≡ wikilink_body text.now block_end start end }
{
    if end <= start {
        return None;
    }
    match scan_pipe(text, block_end, start, end - start) {
        None => body_of(&text[start..end], Shown::Name),
        Some((after, name)) if after < end => body_of(name, Shown::From(after)),
        Some((after, name)) => body_of(name, Shown::Nothing(after)),
    }
}
