//! Thematic breaks (CommonMark 4.1) and the underlines of setext headings (4.3).
ghost use Rattle.std.specs.Prelude.{◌≡◌, ◌==◌, ◌≤◌, true, length, MatchResult};
ghost use Rattle.std.specs.List.{count_by, prefix_len};
ghost use Rattle.markdown_lines.specs.ThematicBreaks.{is_break_mark, is_of_break, is_thematic_break, IsBrokenOff};
ghost use Rattle.markdown_lines.specs.ThematicBreaks.{underline_level, setext_level};

use crate::bytes::{is_white, run_length};
use crate::line::is_space_or_tab;
use markdown_base::tag::HeadingLevel;

/// Returns whether a byte is a character of thematic breaks.
fn is_break_mark(byte: u8) -> bool
    ensures { result ≡ is_break_mark byte }
{
    byte == b'*' || byte == b'-' || byte == b'_'
}

/// Returns the number of bytes before the first one that is neither the mark nor a space or a tab.
fn break_length(content: &[u8], mark: u8) -> usize
    ensures value { result ≡ prefix_len (is_of_break mark) content.now }
    ensures within { result ≤ length content.now }
{
    for at in 0..content.len() {
        if content[at] != mark && !is_space_or_tab(content[at]) {
            return at;
        }
    }
    content.len()
}

/// Returns how often a byte occurs.
fn count_of(bytes: &[u8], byte: u8) -> usize
    ensures { result ≡ count_by (λ b. b == byte) bytes.now }
{
    let mut count: usize = 0;
    for at in 0..bytes.len() {
        if bytes[at] == byte {
            count += 1;
        }
    }
    count
}

/// Returns whether a line's content is a thematic break: three or more of one of the characters `*`, `-` and `_`, with
/// spaces and tabs between and after them. The error is the number of bytes before the first one that cannot belong to
/// the break, so that no thematic break begins at any of them; 0 where there is no such byte, or no break can begin
/// here.
pub fn thematic_break(content: &[u8]) -> Result<(), usize>
    ensures { MatchResult result
        (λ _. is_thematic_break content.now ≡ true)
        (λ length. IsBrokenOff content.now length) }
{
    let Some(first) = content.first() else {
        return Err(0);
    };
    let mark = *first;
    if !is_break_mark(mark) {
        return Err(0);
    }
    let length = break_length(content, mark);
    if length < content.len() {
        return Err(length);
    }
    if count_of(content, mark) >= 3 {
        Ok(())
    } else {
        Err(0)
    }
}

/// Returns the level of a setext heading, from the character of its underline.
fn underline_level(byte: u8) -> Option<HeadingLevel>
    ensures { result ≡ underline_level byte }
{
    match byte {
        b'=' => Some(HeadingLevel::H1),
        b'-' => Some(HeadingLevel::H2),
        _ => None,
    }
}

/// Returns the level of the setext heading whose underline a line's content is: a run of `=` or of `-`, and spaces and
/// tabs after it.
pub fn setext_underline(content: &[u8]) -> Option<HeadingLevel>
    ensures { result ≡ setext_level content.now }
{
    let Some(first) = content.first() else {
        return None;
    };
    let count = run_length(content, *first);
    if !is_white(&content[count..]) {
        return None;
    }
    underline_level(*first)
}
