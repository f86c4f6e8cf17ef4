//! The parts of tags (CommonMark 6.6). Each function takes what the source begins with, and returns the source after
//! that, or `None` if the source does not begin with it. It combines at most two parts, as the grammar does.
ghost use Rattle.std.specs.Prelude.{◌≡◌, ◌==◌, Some, not};
ghost use Rattle.std.specs.Option.{option_copied};
ghost use Rattle.markdown_raw_html.specs.ByteKinds.{in_kind};
ghost use Rattle.markdown_raw_html.specs.HtmlTag.{all, attribute, attribute_name, attribute_value, both, byte, either};
ghost use Rattle.markdown_raw_html.specs.HtmlTag.{is_tag_blank, line_end, nonempty, one, optional, quoted_value};
ghost use Rattle.markdown_raw_html.specs.HtmlTag.{tag_name, unquoted_value, value_specification, white_space};
ghost use Rattle.markdown_raw_html.specs.TagSteps.{after_part};

use crate::byte_kind::ByteKind;
use crate::tag_text::{take_all, take_one};
use markdown_scan::line_rule::LineRule;

/// Takes an optional byte of the kind.
#[tactic(auto, using(crate::proofs::TagTextLemmas::optional_none, crate::proofs::TagTextLemmas::optional_some))]
pub(crate) fn take_optional<'t, R: LineRule>(rule: &R, source: &'t [u8], kind: ByteKind) -> &'t [u8]
    ensures { Some result.now
        ≡ after_part (R.skipped rule.now) (optional (one (in_kind kind))) source.now }
{
    match take_one(rule, source, kind) {
        Some(rest) => rest,
        None => source,
    }
}

/// Takes a carriage return, and the line feed after it if there is one.
#[tactic(auto, using(crate::proofs::TagTextLemmas::both_none, crate::proofs::TagTextLemmas::both_some))]
fn take_carriage_return<'t, R: LineRule>(rule: &R, source: &'t [u8]) -> Option<&'t [u8]>
    ensures { option_copied result
        ≡ after_part (R.skipped rule.now) (both (byte 13) (optional (byte 10))) source.now }
{
    let rest = take_one(rule, source, ByteKind::Only(b'\r'))?;
    Some(take_optional(rule, rest, ByteKind::Only(b'\n')))
}

/// Takes a line ending.
#[tactic(auto, using(crate::proofs::TagTextLemmas::either_none, crate::proofs::TagTextLemmas::either_some))]
fn take_line_end<'t, R: LineRule>(rule: &R, source: &'t [u8]) -> Option<&'t [u8]>
    ensures { option_copied result
        ≡ after_part (R.skipped rule.now) line_end source.now }
{
    match take_one(rule, source, ByteKind::Only(b'\n')) {
        Some(rest) => Some(rest),
        None => take_carriage_return(rule, source),
    }
}

/// Takes an optional line ending.
#[tactic(auto, using(crate::proofs::TagTextLemmas::optional_none, crate::proofs::TagTextLemmas::optional_some))]
fn take_optional_line_end<'t, R: LineRule>(rule: &R, source: &'t [u8]) -> &'t [u8]
    ensures { Some result.now
        ≡ after_part (R.skipped rule.now) (optional line_end) source.now }
{
    match take_line_end(rule, source) {
        Some(rest) => rest,
        None => source,
    }
}

/// Takes an optional line ending, and spaces and tabs.
#[tactic(auto, using(crate::proofs::TagTextLemmas::both_none, crate::proofs::TagTextLemmas::both_some))]
fn take_next_line<'t, R: LineRule>(rule: &R, source: &'t [u8]) -> &'t [u8]
    ensures { Some result.now
        ≡ after_part (R.skipped rule.now) (both (optional line_end) (all is_tag_blank)) source.now }
{
    let line = take_optional_line_end(rule, source);
    take_all(rule, line, ByteKind::Blank)
}

/// Takes spaces and tabs, and at most one line ending.
#[tactic(auto, using(crate::proofs::TagTextLemmas::both_none, crate::proofs::TagTextLemmas::both_some))]
pub(crate) fn take_white_space<'t, R: LineRule>(rule: &R, source: &'t [u8]) -> &'t [u8]
    ensures { Some result.now
        ≡ after_part (R.skipped rule.now) white_space source.now }
{
    let line_end = take_all(rule, source, ByteKind::Blank);
    take_next_line(rule, line_end)
}

/// Takes a tag's name.
#[tactic(auto, using(crate::proofs::TagTextLemmas::both_none, crate::proofs::TagTextLemmas::both_some))]
pub(crate) fn take_tag_name<'t, R: LineRule>(rule: &R, source: &'t [u8]) -> Option<&'t [u8]>
    ensures { option_copied result
        ≡ after_part (R.skipped rule.now) tag_name source.now }
{
    let rest = take_one(rule, source, ByteKind::Letter)?;
    Some(take_all(rule, rest, ByteKind::InTagName))
}

/// Takes an attribute's name.
#[tactic(auto, using(crate::proofs::TagTextLemmas::both_none, crate::proofs::TagTextLemmas::both_some))]
fn take_attribute_name<'t, R: LineRule>(rule: &R, source: &'t [u8]) -> Option<&'t [u8]>
    ensures { option_copied result
        ≡ after_part (R.skipped rule.now) attribute_name source.now }
{
    let rest = take_one(rule, source, ByteKind::BeginsAttribute)?;
    Some(take_all(rule, rest, ByteKind::InAttribute))
}

/// Takes a value without quotes.
#[tactic(auto, using(crate::proofs::TagTextLemmas::both_none, crate::proofs::TagTextLemmas::both_some))]
fn take_unquoted_value<'t, R: LineRule>(rule: &R, source: &'t [u8]) -> Option<&'t [u8]>
    ensures { option_copied result
        ≡ after_part (R.skipped rule.now) unquoted_value source.now }
{
    let rest = take_one(rule, source, ByteKind::Unquoted)?;
    Some(take_all(rule, rest, ByteKind::Unquoted))
}

/// Takes everything through the first `mark`.
#[tactic(auto, using(crate::proofs::TagTextLemmas::both_none, crate::proofs::TagTextLemmas::both_some))]
fn take_to_mark<'t, R: LineRule>(rule: &R, source: &'t [u8], mark: u8) -> Option<&'t [u8]>
    ensures { option_copied result
        ≡ after_part (R.skipped rule.now) (both (all (λ b. not (b == mark))) (byte mark))
        source.now }
{
    let end = take_all(rule, source, ByteKind::Except(mark));
    take_one(rule, end, ByteKind::Only(mark))
}

/// Takes a value between two of the marks.
#[tactic(auto, using(crate::proofs::TagTextLemmas::both_none, crate::proofs::TagTextLemmas::both_some))]
fn take_quoted_value<'t, R: LineRule>(rule: &R, source: &'t [u8], mark: u8) -> Option<&'t [u8]>
    ensures { option_copied result
        ≡ after_part (R.skipped rule.now) (quoted_value mark) source.now }
{
    let inside = take_one(rule, source, ByteKind::Only(mark))?;
    take_to_mark(rule, inside, mark)
}

/// Takes a value in single or double quotes.
#[tactic(auto, using(crate::proofs::TagTextLemmas::either_none, crate::proofs::TagTextLemmas::either_some))]
fn take_value_in_quotes<'t, R: LineRule>(rule: &R, source: &'t [u8]) -> Option<&'t [u8]>
    ensures { option_copied result
        ≡ after_part (R.skipped rule.now) (either (quoted_value 39) (quoted_value 34)) source.now }
{
    match take_quoted_value(rule, source, b'\'') {
        Some(rest) => Some(rest),
        None => take_quoted_value(rule, source, b'"'),
    }
}

/// Takes an attribute's value.
#[tactic(auto, using(crate::proofs::TagTextLemmas::either_none, crate::proofs::TagTextLemmas::either_some))]
fn take_attribute_value<'t, R: LineRule>(rule: &R, source: &'t [u8]) -> Option<&'t [u8]>
    ensures { option_copied result
        ≡ after_part (R.skipped rule.now) attribute_value source.now }
{
    match take_unquoted_value(rule, source) {
        Some(rest) => Some(rest),
        None => take_value_in_quotes(rule, source),
    }
}

/// Takes optional white space, and a value.
#[tactic(auto, using(crate::proofs::TagTextLemmas::both_none, crate::proofs::TagTextLemmas::both_some))]
fn take_spaced_value<'t, R: LineRule>(rule: &R, source: &'t [u8]) -> Option<&'t [u8]>
    ensures { option_copied result
        ≡ after_part (R.skipped rule.now) (both white_space attribute_value) source.now }
{
    let value = take_white_space(rule, source);
    take_attribute_value(rule, value)
}

/// Takes `=`, optional white space, and a value.
#[tactic(auto, using(crate::proofs::TagTextLemmas::both_none, crate::proofs::TagTextLemmas::both_some))]
fn take_equals_and_value<'t, R: LineRule>(rule: &R, source: &'t [u8]) -> Option<&'t [u8]>
    ensures { option_copied result
        ≡ after_part (R.skipped rule.now) (both (byte 61) (both white_space attribute_value))
        source.now }
{
    let value = take_one(rule, source, ByteKind::Only(b'='))?;
    take_spaced_value(rule, value)
}

/// Takes `=` and a value, with optional white space before each.
#[tactic(auto, using(crate::proofs::TagTextLemmas::both_none, crate::proofs::TagTextLemmas::both_some))]
fn take_value_specification<'t, R: LineRule>(rule: &R, source: &'t [u8]) -> Option<&'t [u8]>
    ensures { option_copied result
        ≡ after_part (R.skipped rule.now) value_specification source.now }
{
    let equals = take_white_space(rule, source);
    take_equals_and_value(rule, equals)
}

/// Takes an optional `=` and value.
#[tactic(auto, using(crate::proofs::TagTextLemmas::optional_none, crate::proofs::TagTextLemmas::optional_some))]
fn take_optional_value<'t, R: LineRule>(rule: &R, source: &'t [u8]) -> &'t [u8]
    ensures { Some result.now
        ≡ after_part (R.skipped rule.now) (optional value_specification) source.now }
{
    match take_value_specification(rule, source) {
        Some(rest) => rest,
        None => source,
    }
}

/// Takes an attribute's name, and optionally its value.
#[tactic(auto, using(crate::proofs::TagTextLemmas::both_none, crate::proofs::TagTextLemmas::both_some))]
pub(crate) fn take_name_and_value<'t, R: LineRule>(rule: &R, source: &'t [u8]) -> Option<&'t [u8]>
    ensures { option_copied result
        ≡ after_part (R.skipped rule.now) (both attribute_name (optional value_specification))
        source.now }
{
    let rest = take_attribute_name(rule, source)?;
    Some(take_optional_value(rule, rest))
}
