//! The functions that C calls to write and to read records. A slice is passed as a pointer and a length, and the allocator
//! is not passed.
ghost use Rattle.std.specs.Prelude.{◌≡◌, ℕ, List, Result};
ghost use Rattle.markdown_c.specs.CallsFromC.{IsChosenOutcome, SafeChoiceView, buffer_after, returned_number};
ghost use Rattle.markdown_c.specs.RecordCalls.{IsFoldOutcome, IsRecordsHtmlOutcome, IsRecordsOutcome};
ghost use Rattle.markdown_c.specs.RecordCalls.{IsRecordsSafeHtmlOutcome};
ghost use Rattle.markdown_c.specs.declared.readings.Refusal.{Refusal};
ghost use Rattle.markdown_safe.specs.SafeRules.{default_rules};

use crate::buffer::{answer, answer_bytes};
use crate::choice::SafeChoice;
use crate::records::{
    chosen_records_html_of, fold_of, records_html_of, records_of, records_safe_html_of,
};
use std::alloc::Global;

/// Writes the records of a text: its events with their ranges, the questions of a callback for broken links, and the link
/// reference definitions. Returns their length in bytes, and writes them to the front of `out`, if they fit; otherwise
/// `out` is unchanged. `options` are as for `markdown_to_html`, but no links of bare addresses and no ids are added. `answers`
/// are records of answers of this text: the k-th question gets the k-th answer, if that is to its range, and None otherwise.
///
/// # Errors
///
/// Returns -1 if `text` is not UTF-8, -2 if an allocation fails, -4 if a bit of `options` means nothing, -5 if `answers` are
/// no records of this text, and -6 if a length or a number in the records is 2^32 or greater. `out` is then unchanged.
#[unsafe(no_mangle)]
pub extern "C" fn markdown_to_records(
    alloc: Global,
    text: &[u8],
    options: u32,
    answers: &[u8],
    out: &mut [u8],
) -> i64
    ensures { (outcome : Result (List ℕ) Refusal)
        × IsRecordsOutcome options text.now answers.now outcome
        × (result ≡ returned_number outcome) × (out.new ≡ buffer_after out.old outcome) }
{
    answer_bytes(records_of(alloc, text, options, answers), out)
}

/// Renders the events that records say of a text as HTML, which is not sanitised. Returns the length of the HTML in bytes,
/// and writes the HTML to the front of `out`, if it fits; otherwise `out` is unchanged. `options` decide nothing yet.
///
/// # Errors
///
/// Returns -1 if `text` is not UTF-8, -2 if an allocation fails, -3 if more than 2^64 - 1 Starts are open in one image,
/// -4 if a bit of `options` means nothing, and -5 if `records` are no records of this text. `out` is then unchanged.
#[unsafe(no_mangle)]
pub extern "C" fn markdown_records_to_html(
    alloc: Global,
    text: &[u8],
    records: &[u8],
    options: u32,
    out: &mut [u8],
) -> i64
    ensures { (outcome : Result (List ℕ) Refusal)
        × IsRecordsHtmlOutcome options text.now records.now outcome
        × (result ≡ returned_number outcome) × (out.new ≡ buffer_after out.old outcome) }
{
    answer(records_html_of(alloc, text, records, options), out)
}

/// Renders the events that records say of a text as safe HTML, whatever they say, as `markdown_to_safe_html` renders a
/// text; but where elements stand is not looked at. The rest is as for `markdown_records_to_html`.
///
/// # Errors
///
/// As those of `markdown_records_to_html`. `out` is then unchanged.
#[unsafe(no_mangle)]
pub extern "C" fn markdown_records_to_safe_html(
    alloc: Global,
    text: &[u8],
    records: &[u8],
    options: u32,
    out: &mut [u8],
) -> i64
    ensures { (outcome : Result (List ℕ) Refusal)
        × IsRecordsSafeHtmlOutcome default_rules options text.now records.now outcome
        × (result ≡ returned_number outcome) × (out.new ≡ buffer_after out.old outcome) }
{
    answer(records_safe_html_of(alloc, text, records, options), out)
}

/// Renders the events that records say of a text as safe HTML by rules that the caller chooses, as for
/// `markdown_to_safe_html_by`. The rest is as for `markdown_records_to_safe_html`.
///
/// # Errors
///
/// As those of `markdown_records_to_safe_html`, and for what is chosen those of `markdown_to_safe_html_by`. `out` is then
/// unchanged.
#[unsafe(no_mangle)]
pub extern "C" fn markdown_records_to_safe_html_by(
    alloc: Global,
    text: &[u8],
    records: &[u8],
    options: u32,
    prefix: &[u8],
    rules: u32,
    nesting: usize,
    limit: usize,
    out: &mut [u8],
) -> i64
    ensures { let choice : SafeChoiceView = record {
      prefix = prefix.now;
      bits = rules;
      nesting = nesting;
      limit = limit;
    } in
        (outcome : Result (List ℕ) Refusal)
        × IsChosenOutcome (λ rules. IsRecordsSafeHtmlOutcome rules options text.now records.now)
        choice outcome
        × (result ≡ returned_number outcome) × (out.new ≡ buffer_after out.old outcome) }
{
    let choice = SafeChoice {
        prefix,
        bits: rules,
        nesting,
        limit,
    };
    answer(
        chosen_records_html_of(alloc, text, records, options, choice),
        out,
    )
}

/// Writes the case folding of a link label: two labels match if and only if theirs are equal. Returns its length in bytes,
/// and writes it to the front of `out`, if it fits; otherwise `out` is unchanged.
///
/// # Errors
///
/// Returns -1 if `label` is not UTF-8, and -2 if an allocation fails. `out` is then unchanged.
#[unsafe(no_mangle)]
pub extern "C" fn markdown_fold(alloc: Global, label: &[u8], out: &mut [u8]) -> i64
    ensures { (outcome : Result (List ℕ) Refusal) × IsFoldOutcome label.now outcome
        × (result ≡ returned_number outcome) × (out.new ≡ buffer_after out.old outcome) }
{
    answer(fold_of(alloc, label), out)
}
