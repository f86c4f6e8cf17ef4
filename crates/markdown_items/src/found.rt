//! What begins at a special byte of a line's content.
ghost use Rattle.std.specs.Prelude.{◌≡◌, ◌<◌, ◌^◌, true, slice_index};
ghost use Rattle.markdown_base.specs.WellFormed.{is_delimiter};
ghost use Rattle.markdown_items.specs.Found.{escape_at, entity_at, image_at, run_at, mark_at, hyphens_at, dots_at};
ghost use Rattle.markdown_items.specs.FoundFits.{IsAtSpecial, FoundFits, next_after};
ghost use Rattle.markdown_items.specs.FoundView.{found_view};

use crate::around::{character_after, character_before};
use crate::delimiter_run::{run_end, run_flags};
use crate::extensions::ItemSyntax;
use crate::flanking::Flags;
use crate::marks::{math_mark, quote_mark};
use markdown_base::item::ItemBody;
use markdown_scan::entity::{EntityText, scan_entity};
use markdown_scan::laws::entity_begins_and_ends;

/// A line's content, the bytes from `start` up to, but not including, `end`, with the extensions that are read in it.
#[derive(Clone, Copy)]
pub struct LineRange {
    pub start: usize,
    pub end: usize,
    pub extensions: ItemSyntax,
}

/// What begins at a special byte. Ends are byte offsets in the text.
#[derive(Clone, Copy)]
pub enum Found {
    /// Text, up to this offset at least.
    Text(usize),
    /// A backslash that is in no item: a text begins after it (CommonMark 2.4).
    Escape,
    /// An open item of one byte.
    Mark(ItemBody),
    /// A `![`.
    Image,
    /// Backticks up to this offset.
    Backticks(usize),
    /// A backslash that is in no item, and backticks up to this offset.
    EscapedBackticks(usize),
    /// A delimiter run up to this offset, and its flags.
    Run(usize, Flags),
    /// An entity up to this offset, and its characters (CommonMark 2.5).
    Entity(usize, EntityText),
    /// Hyphens up to this offset, at least two.
    Dashes(usize),
    /// Three dots.
    Ellipsis,
}

impl Found {
    /// Returns the byte offset at which to continue, for what was found at `at`.
    pub fn next(self, at: usize) -> usize
        requires { next_after at self < 2 ^ 64 }
        ensures { result ≡ next_after at self }
    {
        match self {
            Found::Escape | Found::Image => at + 2,
            Found::Mark(_) => at + 1,
            Found::Ellipsis => at + 3,
            Found::Text(next)
            | Found::Backticks(next)
            | Found::EscapedBackticks(next)
            | Found::Run(next, _)
            | Found::Entity(next, _)
            | Found::Dashes(next) => next,
        }
    }
}

/// Returns what begins at a backslash.
#[tactic(auto, unfolding(crate::specs::Found::escape_at))]
pub fn find_escape(text: &str, line: LineRange, at: usize) -> Found
    requires { IsAtSpecial text.now line at }
    ensures value { found_view result ≡ escape_at text.now line.end at }
    ensures fits { FoundFits text.now line.end at result }
{
    let bytes = text.as_bytes();
    if at + 1 == line.end || !bytes[at + 1].is_ascii_punctuation() {
        return Found::Text(at + 1);
    }
    if bytes[at + 1] == b'`' {
        return Found::EscapedBackticks(run_end(text, at + 1, line.end));
    }
    Found::Escape
}

/// Returns what begins at a `&`.
#[tactic(auto, unfolding(crate::specs::Found::entity_at))]
pub fn find_entity(text: &str, line: LineRange, at: usize) -> Found
    requires { IsAtSpecial text.now line at }
    ensures value { found_view result ≡ entity_at line.extensions.names text.now line.end at }
    ensures fits { FoundFits text.now line.end at result }
{
    let bytes = &text.as_bytes()[at..line.end];
    let names = line.extensions.names;
    entity_begins_and_ends(names, bytes);
    match scan_entity(bytes, names) {
        Some((length, characters)) => Found::Entity(at + length, characters),
        None => Found::Text(at + 1),
    }
}

/// Returns what begins at a `!`.
#[tactic(auto, unfolding(crate::specs::Found::image_at))]
pub fn find_image(text: &str, line: LineRange, at: usize) -> Found
    requires here { IsAtSpecial text.now line at }
    requires byte { slice_index text.now at ≡ 33 }
    ensures value { found_view result ≡ image_at text.now line.end at }
    ensures fits { FoundFits text.now line.end at result }
{
    if at + 1 == line.end || text.as_bytes()[at + 1] != b'[' {
        Found::Text(at + 1)
    } else {
        Found::Image
    }
}

/// Returns what the run at `at` is: a delimiter run, or text.
#[tactic(auto, using(crate::proofs::ItemLemmas::past_run), unfolding(crate::specs::Found::run_at))]
pub fn find_run(text: &str, line: LineRange, at: usize) -> Found
    requires here { IsAtSpecial text.now line at }
    requires byte { is_delimiter (slice_index text.now at) ≡ true }
    ensures value { found_view result ≡ run_at line text.now at }
    ensures fits { FoundFits text.now line.end at result }
{
    let stop = run_end(text, at, line.end);
    let before = character_before(text, line.start, at);
    let after = character_after(text, stop);
    let byte = text.as_bytes()[at];
    match run_flags(line.extensions, byte, stop - at, before, after) {
        Some(flags) => Found::Run(stop, flags),
        None => Found::Text(stop),
    }
}

/// Returns what begins at a `$` or a quotation mark.
#[tactic(auto, using(crate::proofs::ItemLemmas::past_special), unfolding(crate::specs::Found::mark_at))]
pub fn find_mark(text: &str, line: LineRange, at: usize) -> Found
    requires { IsAtSpecial text.now line at }
    ensures value { found_view result ≡ mark_at line text.now at }
    ensures fits { FoundFits text.now line.end at result }
{
    let byte = text.as_bytes()[at];
    match byte {
        b'$' if line.extensions.math => {}
        b'\'' | b'"' if line.extensions.quotes => {}
        _ => return Found::Text(at + 1),
    }
    let before = character_before(text, line.start, at);
    let after = character_after(text, at + 1);
    if byte == b'$' {
        Found::Mark(math_mark(before, after))
    } else {
        Found::Mark(quote_mark(byte, before, after))
    }
}

/// Returns what the hyphens at `at` are: dashes, or text if there is one.
#[tactic(auto, using(crate::proofs::ItemLemmas::past_run), unfolding(crate::specs::Found::hyphens_at))]
pub fn find_dashes(text: &str, line: LineRange, at: usize) -> Found
    requires { IsAtSpecial text.now line at }
    ensures value { found_view result ≡ hyphens_at text.now line.end at }
    ensures fits { FoundFits text.now line.end at result }
{
    let stop = run_end(text, at, line.end);
    if stop - at < 2 {
        Found::Text(stop)
    } else {
        Found::Dashes(stop)
    }
}

/// Returns what the dots at `at` are: an ellipsis, or text if there are fewer than three.
#[tactic(auto, unfolding(crate::specs::Found::dots_at))]
pub fn find_ellipsis(text: &str, line: LineRange, at: usize) -> Found
    requires { IsAtSpecial text.now line at }
    ensures value { found_view result ≡ dots_at text.now line.end at }
    ensures fits { FoundFits text.now line.end at result }
{
    if text.as_bytes()[at..line.end].starts_with(b"...") {
        Found::Ellipsis
    } else {
        Found::Text(at + 1)
    }
}
