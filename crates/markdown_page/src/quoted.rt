//! Values in quotes.
ghost use Rattle.std.specs.Prelude.{◌≡◌, ◌&&◌, IfErr, IfOk, chars, encode_utf8_all, option_map, string_bytes};
ghost use Rattle.markdown_base.specs.Bytes.{apostrophe};
ghost use Rattle.markdown_page.specs.MetadataTitle.{can_be_escaped, double_quoted, doubles_apostrophes};
ghost use Rattle.markdown_page.specs.MetadataTitle.{may_follow_quotes, single_quoted, starts_with_char};
ghost use Rattle.markdown_page.specs.MetadataTitle.{value_in_quotes};

use crate::line::{is_comment_or_nothing, is_gap_or_nothing, past_gap, starts_with_char};
use markdown_base::fault::Fault;
use markdown_base::tag::MetadataBlockKind;
use std::alloc::Global;

/// Returns whether a text may follow a value in quotes.
fn may_follow_quotes(kind: MetadataBlockKind, text: &str) -> bool
    ensures { result ≡ may_follow_quotes kind (chars text.now) }
{
    let follows = is_comment_or_nothing(past_gap(text));
    match kind {
        MetadataBlockKind::YamlStyle => is_gap_or_nothing(text) && follows,
        MetadataBlockKind::PlusesStyle => follows,
    }
}

/// Returns whether a backslash and a character stand for the character.
fn can_be_escaped(c: char) -> bool
    ensures { result ≡ can_be_escaped c }
{
    c == '"' || c == '\\'
}

/// Returns the value that ends with the next `"`, if no backslash stands in it but before `"` and `\`, and if what follows it
/// may.
pub(crate) fn double_quoted_value(
    alloc: Global,
    kind: MetadataBlockKind,
    text: &str,
) -> Result<Option<String>, Fault>
    ensures read { IfOk result (λ value. option_map string_bytes value
        ≡ option_map encode_utf8_all (value_in_quotes kind (double_quoted (chars text.now)))) }
    ensures refused { IfErr result (λ fault. fault ≡ Fault.Memory) }
{
    let mut value = String::new(alloc);
    let mut rest = text.chars();
    while let Some(c) = rest.next() {
        if c == '"' {
            if may_follow_quotes(kind, rest.as_str()) {
                return Ok(Some(value));
            }
            return Ok(None);
        }
        if c != '\\' {
            value.push(c)?;
            continue;
        }
        let Some(escaped) = rest.next() else {
            return Ok(None);
        };
        if !can_be_escaped(escaped) {
            return Ok(None);
        }
        value.push(escaped)?;
    }
    Ok(None)
}

/// Returns whether `'` is doubled in values in `'`.
fn doubles_apostrophes(kind: MetadataBlockKind) -> bool
    ensures { result ≡ doubles_apostrophes kind }
{
    match kind {
        MetadataBlockKind::YamlStyle => true,
        MetadataBlockKind::PlusesStyle => false,
    }
}

/// Returns whether `'` is doubled before a text: whether it begins with `'`, in YAML.
fn is_doubled(kind: MetadataBlockKind, after: &str) -> bool
    ensures { result ≡ doubles_apostrophes kind && starts_with_char apostrophe (chars after.now) }
{
    doubles_apostrophes(kind) && starts_with_char(after, '\'')
}

/// Returns the value that ends with the next `'`, if what follows it may. In YAML `''` in it stands for one.
pub(crate) fn single_quoted_value(
    alloc: Global,
    kind: MetadataBlockKind,
    text: &str,
) -> Result<Option<String>, Fault>
    ensures read { IfOk result (λ value. option_map string_bytes value
        ≡ option_map encode_utf8_all
        (value_in_quotes kind (single_quoted (doubles_apostrophes kind) (chars text.now)))) }
    ensures refused { IfErr result (λ fault. fault ≡ Fault.Memory) }
{
    let mut value = String::new(alloc);
    let mut rest = text.chars();
    while let Some(c) = rest.next() {
        if c != '\'' {
            value.push(c)?;
            continue;
        }
        let after = rest.as_str();
        if !is_doubled(kind, after) {
            if may_follow_quotes(kind, after) {
                return Ok(Some(value));
            }
            return Ok(None);
        }
        let Some(second) = rest.next() else {
            return Ok(None);
        };
        value.push(second)?;
    }
    Ok(None)
}
