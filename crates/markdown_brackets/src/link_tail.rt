//! The tail of an inline link (CommonMark 6.3).
ghost use Rattle.std.specs.Prelude.{◌≡◌, ◌≤◌, ◌+◌, ℕ, Some, IfOk, IfSome, length};
ghost use Rattle.std.specs.Option.{option_map};
ghost use Rattle.std.specs.Str.{IsCharBoundary};
ghost use Rattle.markdown_brackets.specs.LinkTail.{destination_at, link_tail, past_separator};
ghost use Rattle.markdown_brackets.specs.LinkTailView.{ReadsTail, BorrowsTail};
ghost use Rattle.markdown_document.specs.LinkTitle.{title_at};
ghost use Rattle.markdown_brackets.specs.TitlePart.{IsTitlePart};

use crate::block_rules::{BlockRules, Replacing};
use crate::byte_at::stands_at;
use crate::items_after::ItemsAfter;
use crate::link_title::scan_link_title;
use crate::separator::scan_separator;
use markdown_base::cow_str::CowStr;
use markdown_scan::destination::scan_link_destination;
use markdown_scan::line_rule::LineRule;
use markdown_scan::unescape::unescape;
use std::alloc::{AllocError, Global};

/// The maximum number of parentheses that are open in a destination where another one is opened.
pub const MAX_NESTING: usize = 32;

/// What follows the `]` of an inline link.
#[derive(Debug, Drop)]
pub struct LinkTail<'t> {
    /// The byte offset after the `)`.
    pub end: usize,
    pub destination: CowStr<'t>,
    /// Empty if there is no title.
    pub title: CowStr<'t>,
}

// Returns the byte offset after the separator at the byte offset `at`.
fn past_separator<R: LineRule>(text: &str, at: usize, rule: &R) -> usize
    requires { IsCharBoundary text.now at }
    ensures value { result ≡ past_separator (R.skipped rule.now) text.now at }
    ensures boundary { IsCharBoundary text.now result }
{
    at + scan_separator(&text[at..], rule)
}

// Returns the length in bytes and the text of the destination at the byte offset `at`. A destination may be left out
// only before a `)`.
fn scan_destination(text: &str, at: usize) -> Option<(usize, &str)>
    requires { IsCharBoundary text.now at }
    ensures value { option_map (λ p. (p.0, p.1.now)) result ≡ destination_at text.now at }
    ensures within { IfSome result (λ p. at + p.0 ≤ length text.now) }
    ensures boundary { IfSome result (λ p. IsCharBoundary text.now (at + p.0)) }
{
    if stands_at(text, at, b')') {
        return Some((0, ""));
    }
    let (length, written) = scan_link_destination(text, at, MAX_NESTING)?;
    if length == 0 {
        return None;
    }
    Some((length, written))
}

// Returns the title at the byte offset `at`, and the byte offset after it and the separator that follows; `at` and an
// empty title if there is none.
fn scan_title_part<'t, R: LineRule, I: ItemsAfter>(
    rules: &BlockRules<'_, R>,
    text: &'t str,
    at: usize,
    items: &mut I,
) -> Result<(usize, CowStr<'t>), AllocError>
    requires at { IsCharBoundary text.now at }
    requires items { (n s : ℕ) → I.starts items.old n ≡ Some s → s ≤ length text.now
        → IsCharBoundary text.now s }
    ensures value { IfOk result (λ part.
        IsTitlePart (R.skipped rules.now.rule.now) rules.now.names rules.now.in_table text.now at
        (title_at (I.starts items.old) text.now at)
        part.0 part.1) }
{
    let replacing = Replacing {
        in_table: rules.in_table,
        names: rules.names,
    };
    match scan_link_title(rules.alloc, text, at, replacing, items)? {
        None => Ok((at, CowStr::Borrowed(""))),
        Some((end, title)) => Ok((past_separator(text, end, rules.rule), title)),
    }
}

/// Returns the tail of an inline link at the byte offset `at` of the text, directly after a `]`: `(`, a separator, the
/// destination, a separator, perhaps a title and a separator, and `)`. Escapes and entities in the destination and the
/// title are replaced; either is a slice of the source if it does not change. Returns `None` if there is no tail at
/// `at`. Fails only if an allocation fails. Upstream: `scan_inline_link`.
pub fn scan_link_tail<'t, R: LineRule, I: ItemsAfter>(
    rules: &BlockRules<'_, R>,
    text: &'t str,
    at: usize,
    items: &mut I,
) -> Result<Option<LinkTail<'t>>, AllocError>
    requires at { IsCharBoundary text.now at }
    requires items { (n s : ℕ) → I.starts items.old n ≡ Some s → s ≤ length text.now
        → IsCharBoundary text.now s }
    ensures value { IfOk result
        (ReadsTail rules.now.names rules.now.in_table
        (link_tail (R.skipped rules.now.rule.now) (I.starts items.old) text.now at)) }
    ensures borrowed { IfOk result
        (BorrowsTail (link_tail (R.skipped rules.now.rule.now) (I.starts items.old) text.now at)) }
{
    if !stands_at(text, at, b'(') {
        return Ok(None);
    }
    let start = past_separator(text, at + 1, rules.rule);
    let Some((length, written)) = scan_destination(text, start) else {
        return Ok(None);
    };
    let next = past_separator(text, start + length, rules.rule);
    let (close, title) = scan_title_part(rules, text, next, items)?;
    if !stands_at(text, close, b')') {
        drop(title);
        return Ok(None);
    }
    let destination = unescape(rules.alloc, written, rules.in_table, rules.names)?;
    Ok(Some(LinkTail {
        end: close + 1,
        destination,
        title,
    }))
}
