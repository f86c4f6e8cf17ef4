//! Open and closing tags (CommonMark 6.6). Each function takes what the source begins with, and returns the source
//! after that, or `None` if the source does not begin with it.
ghost use Rattle.std.specs.Prelude.{◌≡◌, Some};
ghost use Rattle.std.specs.Option.{option_copied};
ghost use Rattle.markdown_raw_html.specs.HtmlTag.{attribute, both, byte, closing_tag, html_tag, nonempty, often};
ghost use Rattle.markdown_raw_html.specs.HtmlTag.{open_tag, open_tag_end, optional, tag_name, white_space};
ghost use Rattle.markdown_raw_html.specs.TagSteps.{after_part};

use crate::byte_kind::ByteKind;
use crate::tag_parts::{take_name_and_value, take_optional, take_tag_name, take_white_space};
use crate::tag_text::take_one;
use markdown_scan::line_rule::LineRule;

/// Takes white space of at least one byte.
fn take_some_white_space<'t, R: LineRule>(rule: &R, source: &'t [u8]) -> Option<&'t [u8]>
    ensures { option_copied result
        ≡ after_part (R.skipped rule.now) (nonempty white_space) source.now }
{
    let rest = take_white_space(rule, source);
    if rest.len() < source.len() {
        Some(rest)
    } else {
        None
    }
}

/// Takes white space, an attribute's name, and optionally its value.
#[tactic(auto, using(crate::proofs::TagTextLemmas::both_none, crate::proofs::TagTextLemmas::both_some))]
fn take_attribute<'t, R: LineRule>(rule: &R, source: &'t [u8]) -> Option<&'t [u8]>
    ensures { option_copied result
        ≡ after_part (R.skipped rule.now) attribute source.now }
{
    let rest = take_some_white_space(rule, source)?;
    take_name_and_value(rule, rest)
}

/// Takes as many attributes as there are.
fn take_attributes<'t, R: LineRule>(rule: &R, source: &'t [u8]) -> &'t [u8]
    ensures { Some result.now
        ≡ after_part (R.skipped rule.now) (often attribute) source.now }
{
    let mut rest = source;
    while let Some(tail) = take_attribute(rule, rest) {
        rest = tail;
    }
    rest
}

/// Takes an optional `/`, and `>`.
#[tactic(auto, using(crate::proofs::TagTextLemmas::both_none, crate::proofs::TagTextLemmas::both_some))]
fn take_angle_bracket<'t, R: LineRule>(rule: &R, source: &'t [u8]) -> Option<&'t [u8]>
    ensures { option_copied result
        ≡ after_part (R.skipped rule.now) (both (optional (byte 47)) (byte 62)) source.now }
{
    let rest = take_optional(rule, source, ByteKind::Only(b'/'));
    take_one(rule, rest, ByteKind::Only(b'>'))
}

/// Takes the end of an open tag.
#[tactic(auto, using(crate::proofs::TagTextLemmas::both_none, crate::proofs::TagTextLemmas::both_some))]
fn take_open_tag_end<'t, R: LineRule>(rule: &R, source: &'t [u8]) -> Option<&'t [u8]>
    ensures { option_copied result
        ≡ after_part (R.skipped rule.now) open_tag_end source.now }
{
    let rest = take_white_space(rule, source);
    take_angle_bracket(rule, rest)
}

/// Takes attributes and the end of an open tag.
#[tactic(auto, using(crate::proofs::TagTextLemmas::both_none, crate::proofs::TagTextLemmas::both_some))]
fn take_attributes_and_end<'t, R: LineRule>(rule: &R, source: &'t [u8]) -> Option<&'t [u8]>
    ensures { option_copied result
        ≡ after_part (R.skipped rule.now) (both (often attribute) open_tag_end) source.now }
{
    let rest = take_attributes(rule, source);
    take_open_tag_end(rule, rest)
}

/// Takes an open tag after its `<`.
#[tactic(auto, using(crate::proofs::TagTextLemmas::both_none, crate::proofs::TagTextLemmas::both_some))]
fn take_open_tag_inside<'t, R: LineRule>(rule: &R, source: &'t [u8]) -> Option<&'t [u8]>
    ensures { option_copied result
        ≡ after_part (R.skipped rule.now) (both tag_name (both (often attribute) open_tag_end))
        source.now }
{
    let rest = take_tag_name(rule, source)?;
    take_attributes_and_end(rule, rest)
}

/// Takes an open tag.
#[tactic(auto, using(crate::proofs::TagTextLemmas::both_none, crate::proofs::TagTextLemmas::both_some))]
fn take_open_tag<'t, R: LineRule>(rule: &R, source: &'t [u8]) -> Option<&'t [u8]>
    ensures { option_copied result
        ≡ after_part (R.skipped rule.now) open_tag source.now }
{
    let rest = take_one(rule, source, ByteKind::Only(b'<'))?;
    take_open_tag_inside(rule, rest)
}

/// Takes the end of a closing tag.
#[tactic(auto, using(crate::proofs::TagTextLemmas::both_none, crate::proofs::TagTextLemmas::both_some))]
fn take_closing_tag_end<'t, R: LineRule>(rule: &R, source: &'t [u8]) -> Option<&'t [u8]>
    ensures { option_copied result
        ≡ after_part (R.skipped rule.now) (both white_space (byte 62)) source.now }
{
    let rest = take_white_space(rule, source);
    take_one(rule, rest, ByteKind::Only(b'>'))
}

/// Takes a closing tag after its `</`.
#[tactic(auto, using(crate::proofs::TagTextLemmas::both_none, crate::proofs::TagTextLemmas::both_some))]
fn take_closing_tag_name<'t, R: LineRule>(rule: &R, source: &'t [u8]) -> Option<&'t [u8]>
    ensures { option_copied result
        ≡ after_part (R.skipped rule.now) (both tag_name (both white_space (byte 62))) source.now }
{
    let rest = take_tag_name(rule, source)?;
    take_closing_tag_end(rule, rest)
}

/// Takes a closing tag after its `<`.
#[tactic(auto, using(crate::proofs::TagTextLemmas::both_none, crate::proofs::TagTextLemmas::both_some))]
fn take_closing_tag_inside<'t, R: LineRule>(rule: &R, source: &'t [u8]) -> Option<&'t [u8]>
    ensures { option_copied result
        ≡ after_part (R.skipped rule.now)
        (both (byte 47) (both tag_name (both white_space (byte 62)))) source.now }
{
    let rest = take_one(rule, source, ByteKind::Only(b'/'))?;
    take_closing_tag_name(rule, rest)
}

/// Takes a closing tag.
#[tactic(auto, using(crate::proofs::TagTextLemmas::both_none, crate::proofs::TagTextLemmas::both_some))]
fn take_closing_tag<'t, R: LineRule>(rule: &R, source: &'t [u8]) -> Option<&'t [u8]>
    ensures { option_copied result
        ≡ after_part (R.skipped rule.now) closing_tag source.now }
{
    let rest = take_one(rule, source, ByteKind::Only(b'<'))?;
    take_closing_tag_inside(rule, rest)
}

/// Takes a tag. Each byte is read a bounded number of times, since no text begins with both kinds of tags.
#[tactic(auto, using(crate::proofs::TagTextLemmas::either_none, crate::proofs::TagTextLemmas::either_some))]
pub(crate) fn take_html_tag<'t, R: LineRule>(rule: &R, source: &'t [u8]) -> Option<&'t [u8]>
    ensures { option_copied result
        ≡ after_part (R.skipped rule.now) html_tag source.now }
{
    match take_open_tag(rule, source) {
        Some(rest) => Some(rest),
        None => take_closing_tag(rule, source),
    }
}
