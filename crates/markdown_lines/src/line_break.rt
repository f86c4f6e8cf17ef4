//! The breaks between two lines of a paragraph (CommonMark 6.7, 6.8).
ghost use Rattle.std.specs.Prelude.{◌≡◌, ◌≤◌, true};
ghost use Rattle.std.specs.Str.{IsCharBoundary};
ghost use Rattle.markdown_builder.specs.Bodies.{is_settled};
ghost use Rattle.markdown_lines.specs.LineBreaks.{IsLineBreak};

use crate::line::{content_end, run_start};
use markdown_base::item::ItemBody;

/// What ends a line that another line of its paragraph follows: its text ends before byte offset `text_end`, and the
/// break begins at `start`.
#[derive(Clone, Copy, Drop)]
pub struct LineBreak {
    pub text_end: usize,
    pub start: usize,
    /// A `SoftBreak` or a `HardBreak`.
    pub body: ItemBody,
}

/// Returns the break after a line whose content is from byte offset `from` up to `stop`: a hard break where it ends
/// with an odd number of backslashes or with two or more spaces, and otherwise a soft break.
pub fn line_break(text: &str, from: usize, stop: usize) -> LineBreak
    requires ordered { from ≤ stop }
    requires boundary { IsCharBoundary text.now stop }
    ensures value { IsLineBreak text.now from stop result }
    ensures settled { is_settled result.body ≡ true }
{
    let backslashes = run_start(text, from, stop, b'\\');
    if (stop - backslashes) % 2 == 1 {
        return LineBreak {
            text_end: stop - 1,
            start: stop - 1,
            body: ItemBody::HardBreak(true),
        };
    }
    let spaces = run_start(text, from, stop, b' ');
    let text_end = content_end(text, from, spaces);
    if stop - spaces < 2 {
        return LineBreak {
            text_end,
            start: stop,
            body: ItemBody::SoftBreak,
        };
    }
    LineBreak {
        text_end,
        start: spaces,
        body: ItemBody::HardBreak(false),
    }
}
