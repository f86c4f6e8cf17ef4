//! Which delimiters can open, and which can close, by the characters around them (CommonMark 6.2).
ghost use Rattle.std.specs.Prelude.{◌≡◌};
ghost use Rattle.markdown_items.specs.Flanking.{is_left_flanking, is_right_flanking, stays_outside_words, flags_of};

use crate::around::{is_punctuation, is_white};

/// Whether a delimiter can open, and whether it can close.
#[derive(Clone, Copy)]
pub struct Flags {
    pub opens: bool,
    pub closes: bool,
}

/// Returns whether a run between two characters is left-flanking.
fn is_left_flanking(before: Option<char>, after: Option<char>) -> bool
    ensures { result ≡ is_left_flanking before after }
{
    !is_white(after) && (!is_punctuation(after) || is_white(before) || is_punctuation(before))
}

/// Returns whether a run between two characters is right-flanking.
fn is_right_flanking(before: Option<char>, after: Option<char>) -> bool
    ensures { result ≡ is_right_flanking before after }
{
    !is_white(before) && (!is_punctuation(before) || is_white(after) || is_punctuation(after))
}

/// Returns whether delimiters of this byte neither open nor close within a word: `_` and quotation marks.
fn stays_outside_words(byte: u8) -> bool
    ensures { result ≡ stays_outside_words byte }
{
    byte == b'_' || byte == b'\'' || byte == b'"'
}

/// Returns whether a delimiter of this byte between two characters can open, and can close.
pub fn flags_of(byte: u8, before: Option<char>, after: Option<char>) -> Flags
    ensures { result ≡ flags_of byte before after }
{
    let left = is_left_flanking(before, after);
    let right = is_right_flanking(before, after);
    if stays_outside_words(byte) {
        Flags {
            opens: left && (!right || is_punctuation(before)),
            closes: right && (!left || is_punctuation(after)),
        }
    } else {
        Flags {
            opens: left,
            closes: right,
        }
    }
}
