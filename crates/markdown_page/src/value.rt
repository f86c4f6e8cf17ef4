//! Values in metadata.
ghost use Rattle.std.specs.Prelude.{◌≡◌, IfErr, IfOk, chars, encode_utf8_all, option_map, string_bytes};
ghost use Rattle.markdown_page.specs.MetadataTitle.{before_comment, begins_comment, begins_plain_value, ends_key};
ghost use Rattle.markdown_page.specs.MetadataTitle.{has_key, is_no_value, is_null_word, is_yaml_indicator, marks_alone};
ghost use Rattle.markdown_page.specs.MetadataTitle.{plain_value, value_without_quotes, value_of_text};

use crate::line::{is_gap, is_gap_or_nothing, is_space_or_nothing, starts_with_char, up_to_gap};
use crate::quoted::{double_quoted_value, single_quoted_value};
use markdown_base::fault::Fault;
use markdown_base::tag::MetadataBlockKind;
use std::alloc::Global;

/// What has a meaning of its own at the beginning of a value of YAML.
const INDICATORS: [char; 14] = [
    '|', '>', '[', ']', '{', '}', ',', '&', '*', '!', '%', '@', '`', '#',
];

/// Returns whether a character has a meaning at the beginning of a value of YAML only where it stands alone.
fn marks_alone(c: char) -> bool
    ensures { result ≡ marks_alone c }
{
    c == '-' || c == '?'
}

/// Returns whether a character has a meaning of its own at the beginning of a value of YAML.
fn is_yaml_indicator(c: char) -> bool
    ensures { result ≡ is_yaml_indicator c }
{
    INDICATORS.contains(&c)
}

/// Returns whether a value of YAML that stands in no quotes may begin so.
fn begins_plain_value(text: &str) -> bool
    ensures { result ≡ begins_plain_value (chars text.now) }
{
    let mut rest = text.chars();
    let Some(first) = rest.next() else {
        return false;
    };
    if marks_alone(first) {
        return !is_gap_or_nothing(rest.as_str());
    }
    !is_yaml_indicator(first)
}

/// Returns whether a comment begins with a character and what follows it.
fn begins_comment(c: char, rest: &str) -> bool
    ensures { result ≡ begins_comment c (chars rest.now) }
{
    is_gap(c) && starts_with_char(rest, '#')
}

/// Returns what stands before a comment.
fn before_comment(alloc: Global, text: &str) -> Result<String, Fault>
    ensures read { IfOk result (λ before.
        string_bytes before ≡ encode_utf8_all (before_comment (chars text.now))) }
    ensures refused { IfErr result (λ fault. fault ≡ Fault.Memory) }
{
    let mut before = String::new(alloc);
    let mut rest = text.chars();
    while let Some(c) = rest.next() {
        if begins_comment(c, rest.as_str()) {
            return Ok(before);
        }
        before.push(c)?;
    }
    Ok(before)
}

/// Returns whether a key of YAML ends with a character before what follows it.
fn ends_key(c: char, rest: &str) -> bool
    ensures { result ≡ ends_key c (chars rest.now) }
{
    c == ':' && is_space_or_nothing(rest)
}

/// Returns whether a value of YAML has a key in it.
fn has_key(value: &str) -> bool
    ensures { result ≡ has_key (chars value.now) }
{
    let mut rest = value.chars();
    while let Some(c) = rest.next() {
        if ends_key(c, rest.as_str()) {
            return true;
        }
    }
    false
}

/// Returns whether a value of YAML says that there is none.
fn is_null_word(value: &str) -> bool
    ensures { result ≡ is_null_word value.now }
{
    value == "~" || value == "null" || value == "Null" || value == "NULL"
}

/// Returns whether a text is no value of YAML.
fn is_no_value(value: &str) -> bool
    ensures { result ≡ is_no_value (chars value.now) }
{
    if has_key(value) {
        return true;
    }
    is_null_word(value)
}

/// Returns the value of YAML that stands in no quotes.
fn plain_value(alloc: Global, text: &str) -> Result<Option<String>, Fault>
    ensures read { IfOk result (λ value. option_map string_bytes value
        ≡ option_map encode_utf8_all (plain_value (chars text.now))) }
    ensures refused { IfErr result (λ fault. fault ≡ Fault.Memory) }
{
    if !begins_plain_value(text) {
        return Ok(None);
    }
    let before = before_comment(alloc, text)?;
    let value = up_to_gap(before.as_str());
    if is_no_value(value) {
        return Ok(None);
    }
    Ok(Some(String::from_str(alloc, value)?))
}

/// Returns the value that stands in no quotes.
fn value_without_quotes(
    alloc: Global,
    kind: MetadataBlockKind,
    text: &str,
) -> Result<Option<String>, Fault>
    ensures read { IfOk result (λ value. option_map string_bytes value
        ≡ option_map encode_utf8_all (value_without_quotes kind (chars text.now))) }
    ensures refused { IfErr result (λ fault. fault ≡ Fault.Memory) }
{
    match kind {
        MetadataBlockKind::YamlStyle => plain_value(alloc, text),
        MetadataBlockKind::PlusesStyle => Ok(None),
    }
}

/// Returns the value that a text gives.
pub(crate) fn value_of_text(
    alloc: Global,
    kind: MetadataBlockKind,
    text: &str,
) -> Result<Option<String>, Fault>
    ensures read { IfOk result (λ value. option_map string_bytes value
        ≡ option_map encode_utf8_all (value_of_text kind (chars text.now))) }
    ensures refused { IfErr result (λ fault. fault ≡ Fault.Memory) }
{
    let mut rest = text.chars();
    match rest.next() {
        Some('"') => double_quoted_value(alloc, kind, rest.as_str()),
        Some('\'') => single_quoted_value(alloc, kind, rest.as_str()),
        _ => value_without_quotes(alloc, kind, text),
    }
}
