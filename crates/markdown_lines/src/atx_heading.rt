//! ATX headings (CommonMark 4.2).
ghost use Rattle.std.specs.Prelude.{◌≡◌, ◌≤◌, ◌-◌, length, IfSome};
ghost use Rattle.std.specs.List.{suffix_len};
ghost use Rattle.markdown_base.specs.HeadingLevels.{level_of};
ghost use Rattle.markdown_lines.specs.AtxHeadings.{is_hash, heading_content, atx_heading_at};
ghost use Rattle.markdown_lines.specs.Lines.{is_space_or_tab};

use crate::braces::Braces;
use crate::bytes::{bytes_of, is_parted, run_length, white_length};
use crate::line::is_space_or_tab;
use markdown_base::tag::HeadingLevel;
use std::convert::TryFrom;

/// An ATX heading: its level, its content, from byte offset `from` up to `to`, and the braces around its attributes, by
/// byte offsets.
#[derive(Clone, Copy, Drop)]
pub struct AtxHeading {
    pub level: HeadingLevel,
    pub from: usize,
    pub to: usize,
    pub braces: Option<Braces>,
}

/// Returns the level of an opening sequence of `count` characters, or `None` where there are none or more than six.
fn heading_level(count: usize) -> Option<HeadingLevel>
    ensures { result ≡ level_of count }
{
    HeadingLevel::try_from(count).ok()
}

/// Returns the length of the bytes without the spaces and tabs at their end.
pub fn trimmed_length(content: &[u8]) -> usize
    ensures value { result ≡ length content.now - suffix_len is_space_or_tab content.now }
    ensures within { result ≤ length content.now }
{
    let mut end = content.len();
    'trim: while end > 0 && is_space_or_tab(content[end - 1]) {
        end -= 1;
    }
    end
}

/// Returns the length of the bytes without the run of `#` at their end.
fn unclosed_length(content: &[u8]) -> usize
    ensures value { result ≡ length content.now - suffix_len is_hash content.now }
    ensures within { result ≤ length content.now }
{
    let mut end = content.len();
    'run: while end > 0 && content[end - 1] == b'#' {
        end -= 1;
    }
    end
}

/// Returns the length of a heading's content without the white space at its end, and without a closing sequence: a run
/// of `#` after white space or at the beginning.
pub fn content_length(content: &[u8]) -> usize
    ensures value { result ≡ length (heading_content content.now) }
    ensures within { result ≤ length content.now }
{
    let end = trimmed_length(content);
    let open = unclosed_length(&content[..end]);
    let before = trimmed_length(&content[..open]);
    if before < open || open == 0 {
        before
    } else {
        end
    }
}

/// Returns the ATX heading whose first `#` is at byte offset `at`, in a line whose content ends before `stop`. Braces
/// are not looked for.
pub fn atx_heading(text: &str, at: usize, stop: usize) -> Option<AtxHeading>
    ensures value { result ≡ atx_heading_at text.now at stop }
    ensures after { IfSome result (λ heading. at ≤ heading.from) }
{
    let line = bytes_of(text, at, stop);
    let count = run_length(line, b'#');
    let level = heading_level(count)?;
    let rest = &line[count..];
    if !is_parted(rest) {
        return None;
    }
    let white = white_length(rest);
    let from = at.saturating_add(count).saturating_add(white);
    Some(AtxHeading {
        level,
        from,
        to: from.saturating_add(content_length(&rest[white..])),
        braces: None,
    })
}
