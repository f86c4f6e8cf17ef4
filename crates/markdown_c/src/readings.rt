//! The outcomes of calls: the HTML or the lines of a text, or the refusal.
ghost use Rattle.std.specs.Prelude.{◌≡◌, true, false, IfOk, IfErr, flat_map, map, string_bytes};
ghost use Rattle.std.specs.Str.{IsUtf8};
ghost use Rattle.markdown_additions.specs.Additions.{additions_view};
ghost use Rattle.markdown_base.specs.Source.{source_as};
ghost use Rattle.markdown_c.specs.CallsFromC.{IsChosenOutcome, IsHtmlOutcome, IsJsonOutcome, IsOutlineOutcome};
ghost use Rattle.markdown_c.specs.CallsFromC.{IsSafeHtmlOutcome};
ghost use Rattle.markdown_c.specs.CallsFromC.{additions_by_bits, are_known, bytes_of, gives_autolinks, gives_ids};
ghost use Rattle.markdown_c.specs.CallsFromC.{outline_by_bits, syntax_by_bits};
ghost use Rattle.markdown_c.specs.SafeChoice.{choice_view};
ghost use Rattle.markdown_c.specs.declared.readings.Refusal.{Refusal};
ghost use Rattle.markdown_outline.specs.Outline.{entry_view};
ghost use Rattle.markdown_safe.specs.SafeRules.{default_rules, rules_view};
ghost use Rattle.markdown_text_json.specs.OutlineJson.{entry_line};

use crate::choice::{SafeChoice, rules_of, within};
use bitflags::Flags;
use markdown_additions::{Additions, Form, Ids, headings_source, written_source};
use markdown_base::fault::Fault;
use markdown_base::options::Options;
use markdown_base::syntax::Syntax;
use markdown_outline::Entry;
use markdown_safe::SafeRules;
use markdown_text_json::{push_outline, push_outline_with_ids};
use std::alloc::{AllocError, Global};
use std::str;

/// Why a call has nothing to write.
#[derive(Clone, Copy, Drop)]
pub enum Refusal {
    /// The bytes are not UTF-8.
    NotUtf8,
    /// An allocation failed.
    Memory,
    /// More than 2^64 - 1 Starts are open in one image.
    Depth,
    /// A bit of the options is set that means nothing.
    UnknownOption,
    /// The bytes are no records, or not of this text.
    NotRecords,
    /// A length or a number in the records is 2^32 or greater.
    TooLong,
    /// The HTML has more bytes than the call allows.
    OverLimit,
}

/// Converts an error of the library. No text has the error `Blocks`.
impl From<Fault> for Refusal {
    ghost use Rattle.std.specs.Prelude.{◌≡◌};
    ghost use Rattle.markdown_c.specs.CallsFromC.{refusal_of};

    ghost from_gives = { λ fault refusal. refusal ≡ refusal_of fault };

    fn from(fault: Fault) -> Refusal {
        match fault {
            Fault::Memory | Fault::Blocks => Refusal::Memory,
            Fault::Depth => Refusal::Depth,
        }
    }
}

/// Returns the bytes as text, or `NotUtf8`.
pub(crate) fn text_of(bytes: &[u8]) -> Result<&str, Refusal>
    ensures text { IfOk result (λ text. (text.now ≡ bytes.now) × IsUtf8 bytes.now) }
    ensures refused { IfErr result (λ refusal. (refusal ≡ Refusal.NotUtf8)
        × (IsUtf8 bytes.now → ⊥)) }
{
    match str::from_utf8(bytes) {
        Ok(text) => Ok(text),
        Err(_) => Err(Refusal::NotUtf8),
    }
}

/// The bits that enable extensions of the syntax.
const EXTENSIONS: u32 = 0xEFFE;

/// The bit that makes links of bare addresses.
const AUTOLINKS: u32 = 1 << 27;

/// The bit that gives headings ids.
const HEADING_IDS: u32 = 1 << 28;

/// The bit that asks for the port's profile.
const PROFILE: u32 = 1 << 29;

/// The bit that asked for the full reading before that was the default, and now changes nothing.
const EXTENDED: u32 = 1 << 30;

/// Returns what is read of a text by these bits, or `UnknownOption` if one of them means nothing.
pub(crate) fn syntax_of(bits: u32) -> Result<Syntax, Refusal>
    ensures known { IfOk result (λ syntax. (syntax ≡ syntax_by_bits bits)
        × (are_known bits ≡ true)) }
    ensures refused { IfErr result (λ refusal. (refusal ≡ Refusal.UnknownOption)
        × (are_known bits ≡ false)) }
{
    if bits & (EXTENSIONS + AUTOLINKS + HEADING_IDS + PROFILE + EXTENDED) != bits {
        return Err(Refusal::UnknownOption);
    }
    let options = Options::from_bits_retain(bits);
    if bits & PROFILE == 0 {
        Ok(Syntax::full(options))
    } else {
        Ok(Syntax::profile(options))
    }
}

/// Returns whether these bits make links of bare addresses.
fn gives_autolinks(bits: u32) -> bool
    ensures { result ≡ gives_autolinks bits }
{
    bits & PROFILE == 0 && bits & AUTOLINKS != 0
}

/// Returns whether these bits give headings ids.
fn gives_ids(bits: u32) -> bool
    ensures { result ≡ gives_ids bits }
{
    bits & PROFILE == 0 && bits & HEADING_IDS != 0
}

/// Returns what these bits add to the events of a text.
fn additions_of<'p>(bits: u32) -> Additions<'p>
    ensures { additions_view result ≡ additions_by_bits bits }
{
    let autolinks = gives_autolinks(bits);
    let ids = if gives_ids(bits) { Ids::All } else { Ids::Own };
    Additions { autolinks, ids }
}

/// Returns the HTML of a text, without a callback.
pub(crate) fn html_of(alloc: Global, bytes: &[u8], bits: u32) -> Result<String, Refusal>
    ensures { IsHtmlOutcome bits bytes.now (bytes_of result) }
{
    let syntax = syntax_of(bits)?;
    let text = text_of(bytes)?;
    let additions = additions_of(bits);
    Ok(written_source(alloc, text, syntax, additions, Form::Html)?)
}

/// Returns the safe HTML of a text by rules, without a callback.
fn safe_html_by<'a>(
    alloc: Global,
    bytes: &'a [u8],
    bits: u32,
    rules: SafeRules<'a>,
) -> Result<String, Refusal>
    ensures { IsSafeHtmlOutcome (rules_view rules.entry) bits bytes.entry.now (bytes_of result) }
{
    let syntax = syntax_of(bits)?;
    let text = text_of(bytes)?;
    let additions = additions_of(bits);
    Ok(written_source(alloc, text, syntax, additions, Form::SafeHtml(rules))?)
}

/// Returns the safe HTML of a text, without a callback.
pub(crate) fn safe_html_of(alloc: Global, bytes: &[u8], bits: u32) -> Result<String, Refusal>
    ensures { IsSafeHtmlOutcome default_rules bits bytes.now (bytes_of result) }
{
    safe_html_by(alloc, bytes, bits, SafeRules::new())
}

/// Returns the safe HTML of a text by the rules that a call chooses, without a callback.
pub(crate) fn chosen_html_of<'a>(
    alloc: Global,
    bytes: &'a [u8],
    bits: u32,
    choice: SafeChoice<'a>,
) -> Result<String, Refusal>
    ensures { IsChosenOutcome (λ rules. IsSafeHtmlOutcome rules bits bytes.entry.now)
        (choice_view choice.entry) (bytes_of result) }
{
    let rules = rules_of(choice)?;
    let html = safe_html_by(alloc, bytes, bits, rules)?;
    within(html, choice.limit)
}

/// Returns the lines of the events of a text.
pub(crate) fn json_of(alloc: Global, bytes: &[u8], bits: u32) -> Result<String, Refusal>
    ensures { IsJsonOutcome bits bytes.now (bytes_of result) }
{
    let syntax = syntax_of(bits)?;
    let text = text_of(bytes)?;
    let additions = additions_of(bits);
    Ok(written_source(alloc, text, syntax, additions, Form::Lines)?)
}

/// Returns the lines of headings, with their ids or without them.
fn lines_of(alloc: Global, headings: &[Entry], with_ids: bool) -> Result<String, AllocError>
    ensures { IfOk result (λ lines.
        string_bytes lines ≡ flat_map (entry_line with_ids) (map entry_view headings.now)) }
{
    let mut lines = String::new(alloc);
    if with_ids {
        push_outline_with_ids(&mut lines, headings)?;
    } else {
        push_outline(&mut lines, headings)?;
    }
    Ok(lines)
}

/// Returns the lines of the headings of a text.
fn outline_source(alloc: Global, text: &str, syntax: Syntax, bits: u32) -> Result<String, Fault>
    ensures lines { IfOk result (λ lines.
        string_bytes lines ≡ outline_by_bits bits (source_as syntax text.now)) }
    ensures refused { IfErr result (λ fault. fault ≡ Fault.Memory) }
{
    let additions = additions_of(bits);
    let headings = headings_source(alloc, text, syntax, additions, None)?;
    Ok(lines_of(alloc, headings.as_slice(), gives_ids(bits))?)
}

/// Returns the lines of the headings of a text.
pub(crate) fn outline_of(alloc: Global, bytes: &[u8], bits: u32) -> Result<String, Refusal>
    ensures { IsOutlineOutcome bits bytes.now (bytes_of result) }
{
    let syntax = syntax_of(bits)?;
    let text = text_of(bytes)?;
    Ok(outline_source(alloc, text, syntax, bits)?)
}
