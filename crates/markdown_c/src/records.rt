//! The outcomes of the calls that write and read records.
ghost use Rattle.std.specs.Prelude.{◌≡◌, ◌≢◌, ◌⊎◌, [], None, MatchResult};
ghost use Rattle.markdown_base.specs.declared.fault.Fault.TheVariants.{Memory};
ghost use Rattle.markdown_c.specs.CallsFromC.{IsChosenOutcome, bytes_of, vec_bytes};
ghost use Rattle.markdown_c.specs.SafeChoice.{choice_view};
ghost use Rattle.markdown_c.specs.RecordCalls.{IsFoldOutcome, IsRecordsHtmlOutcome, IsRecordsOutcome};
ghost use Rattle.markdown_c.specs.RecordCalls.{IsRecordsSafeHtmlOutcome, IsTable};
ghost use Rattle.markdown_records.specs.Decoded.{decoded};
ghost use Rattle.markdown_records.specs.declared.fault.RecordFault.TheVariants.{NotRecords, Of};
ghost use Rattle.markdown_safe.specs.SafeRules.{default_rules, rules_view};
ghost use Rattle.markdown_text_records.specs.AnsweringView.{table_in};

use crate::choice::{SafeChoice, rules_of, within};
use crate::readings::{Refusal, syntax_of, text_of};
use markdown_records::{RecordAnswers, RecordFault, RecordedText};
use markdown_safe::SafeRules;
use markdown_text_records::{fold_label, html_of_records, records_source, safe_html_of_records};
use std::alloc::Global;

/// Converts an error of records.
impl From<RecordFault> for Refusal {
    ghost use Rattle.std.specs.Prelude.{◌≡◌};
    ghost use Rattle.markdown_c.specs.RecordCalls.{refusal_of_records};

    ghost from_gives = { λ fault refusal. refusal ≡ refusal_of_records fault };

    fn from(fault: RecordFault) -> Refusal {
        match fault {
            RecordFault::Of(fault) => Refusal::from(fault),
            RecordFault::TooLong => Refusal::TooLong,
            RecordFault::NotRecords => Refusal::NotRecords,
        }
    }
}

/// Returns the answers in bytes that are records of a text, or None if there are no bytes.
fn answers_in<'a>(
    alloc: Global,
    text: &'a str,
    bytes: &'a [u8],
) -> Result<Option<RecordAnswers<'a>>, RecordFault>
    ensures { MatchResult result
        (λ answers. IsTable text.entry.now bytes.entry.now (table_in answers))
        (λ fault. ((fault ≡ NotRecords) × ((bytes.entry.now ≢ []) ×
        (decoded text.entry.now bytes.entry.now ≡ None)))
        ⊎ (fault ≡ Of Memory)) }
{
    if bytes.is_empty() {
        return Ok(None);
    }
    let recorded = RecordedText::of_bytes(alloc, text, bytes)?;
    Ok(Some(recorded.answers()))
}

/// Returns the records of a text, whose questions these answers answer.
pub(crate) fn records_of(
    alloc: Global,
    bytes: &[u8],
    bits: u32,
    answers: &[u8],
) -> Result<Vec<u8>, Refusal>
    ensures { IsRecordsOutcome bits bytes.now answers.now (vec_bytes result) }
{
    let syntax = syntax_of(bits)?;
    let text = text_of(bytes)?;
    let answers = answers_in(alloc, text, answers)?;
    Ok(records_source(alloc, text, syntax, answers)?)
}

/// Returns the HTML of the events that records say of a text.
pub(crate) fn records_html_of(
    alloc: Global,
    bytes: &[u8],
    records: &[u8],
    bits: u32,
) -> Result<String, Refusal>
    ensures { IsRecordsHtmlOutcome bits bytes.now records.now (bytes_of result) }
{
    // the options decide nothing yet
    let _ = syntax_of(bits)?;
    let text = text_of(bytes)?;
    Ok(html_of_records(alloc, text, records)?)
}

/// Returns the safe HTML by rules of the events that records say of a text.
fn records_safe_html_by(
    alloc: Global,
    bytes: &[u8],
    records: &[u8],
    bits: u32,
    rules: SafeRules<'_>,
) -> Result<String, Refusal>
    ensures { IsRecordsSafeHtmlOutcome (rules_view rules.entry) bits bytes.now records.now
        (bytes_of result) }
{
    let _ = syntax_of(bits)?;
    let text = text_of(bytes)?;
    Ok(safe_html_of_records(alloc, text, records, rules)?)
}

/// Returns the safe HTML of the events that records say of a text.
pub(crate) fn records_safe_html_of(
    alloc: Global,
    bytes: &[u8],
    records: &[u8],
    bits: u32,
) -> Result<String, Refusal>
    ensures { IsRecordsSafeHtmlOutcome default_rules bits bytes.now records.now
        (bytes_of result) }
{
    records_safe_html_by(alloc, bytes, records, bits, SafeRules::new())
}

/// Returns the safe HTML, by the rules that a call chooses, of the events that records say of a text.
pub(crate) fn chosen_records_html_of(
    alloc: Global,
    bytes: &[u8],
    records: &[u8],
    bits: u32,
    choice: SafeChoice<'_>,
) -> Result<String, Refusal>
    ensures { IsChosenOutcome (λ rules. IsRecordsSafeHtmlOutcome rules bits bytes.now records.now)
        (choice_view choice.entry) (bytes_of result) }
{
    let rules = rules_of(choice)?;
    let html = records_safe_html_by(alloc, bytes, records, bits, rules)?;
    within(html, choice.limit)
}

/// Returns the case folding of a link label.
pub(crate) fn fold_of(alloc: Global, label: &[u8]) -> Result<String, Refusal>
    ensures { IsFoldOutcome label.now (bytes_of result) }
{
    let label = text_of(label)?;
    Ok(fold_label(alloc, label)?)
}
