//! Delimiter runs: where they end, and which of them are items (CommonMark 6.2).
ghost use Rattle.std.specs.Prelude.{◌≡◌, ◌<◌, ◌≤◌, length};
ghost use Rattle.markdown_items.specs.LineItems.{IsMaximalRun, run_end, makes_run, run_flags};

use crate::extensions::ItemSyntax;
use crate::flanking::{Flags, flags_of};

/// Returns the byte offset after the run of the byte at `at`, in a line's content that ends at `end`.
pub fn run_end(text: &str, at: usize, end: usize) -> usize
    requires more { at < end }
    requires within { end ≤ length text.now }
    ensures value { result ≡ run_end text.now at end }
    ensures whole { IsMaximalRun text.now at end result }
{
    let bytes = text.as_bytes();
    for stop in at + 1..end {
        if bytes[stop] != bytes[at] {
            return stop;
        }
    }
    end
}

/// Returns whether `count` of the character can be a delimiter run, regardless of the characters around them.
fn makes_run(extensions: ItemSyntax, byte: u8, count: usize) -> bool
    ensures { result ≡ makes_run extensions byte count }
{
    match byte {
        b'*' | b'_' => true,
        b'~' => extensions.tildes && count <= 2,
        b'^' => extensions.carets,
        _ => false,
    }
}

/// Returns the flags of a run between two characters; `None` if it is text, either because these are no delimiters or
/// because it can neither open nor close.
pub fn run_flags(
    extensions: ItemSyntax,
    byte: u8,
    count: usize,
    before: Option<char>,
    after: Option<char>,
) -> Option<Flags>
    ensures { result ≡ run_flags extensions byte count before after }
{
    if !makes_run(extensions, byte, count) {
        return None;
    }
    let flags = flags_of(byte, before, after);
    if flags.opens || flags.closes {
        Some(flags)
    } else {
        None
    }
}
