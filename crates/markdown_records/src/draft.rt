//! A record whose text has no place yet.
ghost use Rattle.std.specs.Prelude.{◌≡◌, ◌∷◌, [], ◌<◌, ◌≤◌, ◌^◌, MatchResult};
ghost use Rattle.markdown_records.specs.Drafts.{part, single_draft};
ghost use Rattle.markdown_records.specs.RecordOf.{draft_view, span_range, wording_of};
ghost use Rattle.markdown_records.specs.RecordsOf.{IsShortRange};

use crate::fault::RecordFault;
use std::ops::Range;

/// A range of the source whose ends are below 2^32, in bytes.
#[derive(Clone, Copy, Drop)]
pub(crate) struct Span {
    pub start: u32,
    pub end: u32,
}

/// Returns the number in 32 bits, or `TooLong`.
pub(crate) fn small(number: usize) -> Result<u32, RecordFault>
    ensures { MatchResult result (λ same. (same ≡ number) × (number < 2 ^ 32))
        (λ fault. (fault ≡ RecordFault.TooLong) × (2 ^ 32 ≤ number)) }
{
    if number < 1 << 32 {
        Ok(number as u32)
    } else {
        Err(RecordFault::TooLong)
    }
}

/// Returns the range in 32 bits, or `TooLong`.
pub(crate) fn span_of(range: &Range<usize>) -> Result<Span, RecordFault>
    ensures { MatchResult result (λ span. span_range span ≡ range.now)
        (λ fault. (fault ≡ RecordFault.TooLong) × (IsShortRange range.now → ⊥)) }
{
    Ok(Span {
        start: small(range.start)?,
        end: small(range.end)?,
    })
}

/// The text of a draft, and where it is to be.
#[derive(Clone, Copy, Drop)]
pub(crate) enum TextPlace<'x> {
    /// There is no text.
    Absent,
    /// A number in the place of a text.
    Number(u64),
    /// In the pool.
    Pooled(&'x str),
    /// In the source, at the first offset or at the second one, if it stands there, and otherwise
    /// in the pool.
    Sought {
        words: &'x str,
        first: usize,
        second: usize,
    },
}

/// Where a text is.
#[derive(Clone, Copy, Drop)]
pub(crate) struct SpotHeld {
    pub place: u8,
    pub at: u32,
    pub length: u32,
}

/// A record whose text has no place yet.
#[derive(Clone, Copy, Drop)]
pub(crate) struct Draft<'x> {
    pub kind: u8,
    pub detail: u8,
    pub span: Span,
    pub text: TextPlace<'x>,
    /// How many parts follow.
    pub parts: usize,
}

impl<'x> Draft<'x> {
    /// Returns the draft of a record without parts.
    pub fn single(kind: u8, detail: u8, span: Span, text: TextPlace<'x>) -> Draft<'x>
        ensures { draft_view result ∷ []
            ≡ single_draft kind detail (span_range span) (wording_of text.entry) }
    {
        Draft {
            kind,
            detail,
            span,
            text,
            parts: 0,
        }
    }

    /// Returns the draft of a part.
    pub fn part(kind: u8, text: TextPlace<'x>) -> Draft<'x>
        ensures { draft_view result ∷ [] ≡ part kind (wording_of text.entry) }
    {
        Draft::single(kind, 0, Span { start: 0, end: 0 }, text)
    }
}
