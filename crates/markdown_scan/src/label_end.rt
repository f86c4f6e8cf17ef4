//! The end of a link label (CommonMark 6.3): a scan that allocates no memory.
ghost use Rattle.std.specs.Prelude.{◌≡◌, ◌≤◌, ◌<◌, ◌||◌, ◌∷◌, [], false, IfSome, IsTrue, take, length, slice_index};
ghost use Rattle.std.specs.Prelude.{count_by};
ghost use Rattle.std.specs.List.{list_any, list_all};
ghost use Rattle.std.specs.Char.{is_ascii};
ghost use Rattle.markdown_scan.specs.Label as label;
ghost use Rattle.markdown_scan.specs.LabelScan as scan;
ghost use Rattle.markdown_scan.specs.LabelScan.{end_after};

use crate::ascii_kinds::is_white_space;
use crate::backslash::{escapes_pipe, is_bare};
use crate::line_prefix::prefix_after;
use crate::line_rule::LineRule;

/// The maximum number of characters of a label.
pub(crate) const MAX_LABEL_CHARACTERS: usize = 999;

// Returns 1 if the byte is the first of a character, and 0 otherwise.
fn begun_by(byte: u8) -> usize
    ensures { result ≡ count_by label.begins_character (byte ∷ []) }
{
    usize::from(byte < 128 || 192 <= byte)
}

// Returns the number of characters that the byte adds to the text, if the bytes `next` follow it.
fn characters_shown(in_table: bool, byte: u8, next: &[u8]) -> usize
    ensures value { result
        ≡ count_by label.begins_character (scan.byte_shown in_table byte next.now) }
    ensures few { result ≤ 1 }
{
    if escapes_pipe(in_table, byte, next) {
        0
    } else {
        begun_by(byte)
    }
}

// Returns whether the text has a character that is not white space after the byte, which the bytes `next` follow, is
// added.
fn solid_after(solid: bool, in_table: bool, byte: u8, next: &[u8]) -> bool
    ensures { result
        ≡ (solid || list_any label.is_not_white_space (scan.byte_shown in_table byte next.now)) }
{
    solid || !(escapes_pipe(in_table, byte, next) || is_white_space(byte))
}

/// Returns the byte offset of a label's closing bracket, in the bytes after its opening bracket; `None` if there is no
/// label of at most 999 characters, at least one of them not white space.
pub(crate) fn label_end<R: LineRule>(bytes: &[u8], rule: &R, in_table: bool) -> Option<usize>
    ensures value { result
        ≡ end_after 0 0 false (scan.found_in (R.skipped rule.now) in_table false bytes.now) }
    ensures here { IfSome result (λ n. (n < length bytes.now) × (slice_index bytes.now n ≡ 93)) }
{
    let mut rest = bytes;
    let mut at = 0;
    let mut escaped = false;
    let mut characters = 0;
    let mut solid = false;
    while let Some((first, tail)) = rest.split_first() {
        let byte = *first;
        if is_bare(escaped, byte, b']') {
            return if solid { Some(at) } else { None };
        }
        if is_bare(escaped, byte, b'[') {
            return None;
        }
        let Some(skipped) = prefix_after(rule, byte, tail) else {
            return None;
        };
        rest = &tail[skipped..];
        characters += characters_shown(in_table, byte, rest);
        if characters > MAX_LABEL_CHARACTERS {
            return None;
        }
        solid = solid_after(solid, in_table, byte, rest);
        escaped = is_bare(escaped, byte, b'\\');
        at = at + 1 + skipped;
    }
    None
}
