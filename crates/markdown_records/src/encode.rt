//! `Records`, which writes events, questions and definitions as records.
ghost use Rattle.std.specs.Prelude.{◌≡◌, ◌∷◌, [], ◌≤◌, ◌^◌, MatchResult, length, max};
ghost use Rattle.markdown_records.specs.Drafts.{pooled, single_draft};
ghost use Rattle.markdown_records.specs.Encoded.{blank, is_found_at};
ghost use Rattle.markdown_records.specs.RecordOf.{draft_view, span_range, spot_view, wording_of};
ghost use Rattle.markdown_records.specs.RecordView.{in_source};
ghost use Rattle.markdown_records.specs.RecordsOf.{Finishes, Places, Writes, marked_entries};
ghost use Rattle.markdown_records.specs.RecordsOf.{records_source, sheet_of};

use crate::draft::{Draft, Span, SpotHeld, TextPlace, small};
use crate::fault::RecordFault;
use crate::record::{A_NUMBER, IN_POOL, IN_SOURCE, NOWHERE, Record};
use crate::slices::slice_of;
use std::alloc::Global;

/// The records of the events of a text, and the pool of the texts that are no slices of it.
///
/// ```
/// let mut records = Records::new(alloc, "a");
/// for item in Parser::new(alloc, "a")?.into_offset_iter() {
///     let (event, range) = item?;
///     records.push_event(&event, &range)?;
/// }
/// let bytes = records.finish()?;
/// ```
#[derive(Drop)]
pub struct Records<'t> {
    alloc: Global,
    source: &'t str,
    count: u32,
    /// How many of the records come before the definitions.
    entries: u32,
    records: Vec<u8>,
    pool: String,
}

/// Returns whether a text stands at this offset of the source.
fn is_found_at(source: &str, at: usize, text: &str) -> bool
    ensures { result ≡ is_found_at source.now at text.now }
{
    match slice_of(source, at, text.len()) {
        Some(slice) => slice == text,
        None => false,
    }
}

impl<'t> Records<'t> {
    /// Returns records of nothing yet, of a text. Allocates no memory.
    pub fn new(alloc: Global, text: &'t str) -> Records<'t>
        ensures source { records_source result ≡ text.entry.now }
        ensures blank { sheet_of result ≡ blank }
        ensures entries { marked_entries result ≡ 0 }
    {
        Records {
            alloc,
            source: text,
            count: 0,
            entries: 0,
            records: Vec::new(alloc),
            pool: String::new(alloc),
        }
    }

    /// Appends a text to the pool, and returns where it is.
    fn in_pool(&mut self, words: &str) -> Result<SpotHeld, RecordFault>
        ensures { Places self.old (pooled words.now) result self.new }
    {
        let at = small(self.pool.len())?;
        let length = small(words.len())?;
        self.pool.push_str(words)?;
        Ok(SpotHeld {
            place: IN_POOL,
            at,
            length,
        })
    }

    /// Returns where a text is: at an offset of the source.
    fn in_source(at: usize, words: &str) -> Result<SpotHeld, RecordFault>
        ensures { MatchResult result
            (λ spot. spot_view spot
            ≡ record { place = in_source; at = at; length = length words.now })
            (λ fault. (fault ≡ RecordFault.TooLong) × (2 ^ 32 ≤ max at (length words.now))) }
    {
        Ok(SpotHeld {
            place: IN_SOURCE,
            at: small(at)?,
            length: small(words.len())?,
        })
    }

    /// Returns where the text of a draft is, which is appended to the pool if it stands at neither
    /// offset of the source.
    fn spot(&mut self, text: TextPlace<'_>) -> Result<SpotHeld, RecordFault>
        ensures { Places self.old (wording_of text.entry) result self.new }
    {
        match text {
            TextPlace::Absent => Ok(SpotHeld {
                place: NOWHERE,
                at: 0,
                length: 0,
            }),
            TextPlace::Number(number) => Ok(SpotHeld {
                place: A_NUMBER,
                at: (number % (1 << 32)) as u32,
                length: (number >> 32) as u32,
            }),
            TextPlace::Pooled(words) => self.in_pool(words),
            TextPlace::Sought {
                words,
                first,
                second,
            } => {
                if is_found_at(self.source, first, words) {
                    Records::in_source(first, words)
                } else if is_found_at(self.source, second, words) {
                    Records::in_source(second, words)
                } else {
                    self.in_pool(words)
                }
            }
        }
    }

    /// Appends the record of a draft.
    pub(crate) fn push(&mut self, draft: Draft<'_>) -> Result<(), RecordFault>
        ensures { Writes self.old (draft_view draft.entry ∷ []) result self.new }
    {
        let spot = self.spot(draft.text)?;
        let record = Record {
            kind: draft.kind,
            detail: draft.detail,
            place: spot.place,
            spare: 0,
            start: draft.span.start,
            end: draft.span.end,
            at: spot.at,
            length: spot.length,
            parts: small(draft.parts)?,
        };
        let Some(count) = self.count.checked_add(1) else {
            return Err(RecordFault::TooLong);
        };
        self.records.extend_from_slice(&record.bytes())?;
        self.count = count;
        Ok(())
    }

    /// Appends one record without parts.
    pub(crate) fn push_single(
        &mut self,
        kind: u8,
        detail: u8,
        span: Span,
        text: TextPlace<'_>,
    ) -> Result<(), RecordFault>
        ensures { Writes self.old (single_draft kind detail (span_range span)
            (wording_of text.entry))
            result self.new }
    {
        self.push(Draft::single(kind, detail, span, text))
    }

    /// Returns the allocator of the records.
    pub(crate) fn alloc(&self) -> Global {
        self.alloc
    }

    /// Marks all records so far as those before the definitions.
    pub(crate) fn mark_entries(&mut self)
        ensures source { records_source self.new ≡ records_source self.old }
        ensures sheet { sheet_of self.new ≡ sheet_of self.old }
        ensures entries { marked_entries self.new ≡ (sheet_of self.old).count }
    {
        self.entries = self.count;
    }

    /// Returns the whole: the header, the records and the pool.
    ///
    /// # Errors
    ///
    /// `TooLong` if the text or the pool has 2^32 bytes or more, and `Of(Fault::Memory)` if an
    /// allocation fails.
    pub fn finish(self) -> Result<Vec<u8>, RecordFault>
        ensures { Finishes self.entry result }
    {
        let pool = small(self.pool.len())?;
        let source = small(self.source.len())?;
        let mut whole = Vec::new(self.alloc);
        whole.extend_from_slice(&[b'M', b'D', b'R', b'1', 1, 0, 24, 0])?;
        whole.extend_from_slice(&self.count.to_le_bytes())?;
        whole.extend_from_slice(&self.entries.to_le_bytes())?;
        whole.extend_from_slice(&pool.to_le_bytes())?;
        whole.extend_from_slice(&source.to_le_bytes())?;
        whole.extend_from_slice(self.records.as_slice())?;
        whole.extend_from_slice(self.pool.as_bytes())?;
        Ok(whole)
    }
}
