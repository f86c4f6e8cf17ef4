//! Titles: of metadata, of headings, and of files.
ghost use Rattle.std.specs.Prelude.{◌≡◌, ◌==◌, if◌then◌else◌, IfErr, IfOk, chars, length, option_copied, option_map};
ghost use Rattle.std.specs.Prelude.{string_bytes};
ghost use Rattle.markdown_page.specs.MetadataTitle.{begins_table, first_title_text, metadata_lines, metadata_title};
ghost use Rattle.markdown_page.specs.MetadataTitle.{shown_title, text_past_equals, text_past_gap, title_text};
ghost use Rattle.markdown_page.specs.FileTitle.{file_title, without_ending};
ghost use Rattle.markdown_base.specs.Bytes.{slash};
ghost use Rattle.std.specs.List.{after_last};

use crate::line::{is_gap_or_nothing, past_gap, starts_with_char, text_after};
use crate::value::value_of_text;
use markdown_base::fault::Fault;
use markdown_base::tag::MetadataBlockKind;
use std::alloc::Global;

/// Returns what follows the colon of a key of YAML, without the white space before it.
fn text_past_gap(text: &str) -> Option<&str>
    ensures { option_map (λ rest. chars rest.now) result ≡ text_past_gap (chars text.now) }
{
    if is_gap_or_nothing(text) {
        Some(past_gap(text))
    } else {
        None
    }
}

/// Returns what follows the `=` after a key of TOML, without the white space before it.
fn text_past_equals(text: &str) -> Option<&str>
    ensures { option_map (λ rest. chars rest.now) result ≡ text_past_equals (chars text.now) }
{
    match text_after("=", past_gap(text)) {
        Some(text) => Some(past_gap(text)),
        None => None,
    }
}

/// Returns the text of the value of `title`, in a line that gives one.
fn title_text(kind: MetadataBlockKind, line: &str) -> Option<&str>
    ensures { option_map (λ rest. chars rest.now) result ≡ title_text kind (chars line.now) }
{
    match kind {
        MetadataBlockKind::YamlStyle => match text_after("title:", line) {
            Some(text) => text_past_gap(text),
            None => None,
        },
        MetadataBlockKind::PlusesStyle => match text_after("title", line) {
            Some(text) => text_past_equals(text),
            None => None,
        },
    }
}

/// Returns whether a line begins a table of TOML.
fn begins_table(kind: MetadataBlockKind, line: &str) -> bool
    ensures { result ≡ begins_table kind (chars line.now) }
{
    match kind {
        MetadataBlockKind::YamlStyle => false,
        MetadataBlockKind::PlusesStyle => starts_with_char(line, '['),
    }
}

/// Returns the text of the value of `title` in the first line that gives one, up to the first table.
fn first_title_text(kind: MetadataBlockKind, text: &str) -> Option<&str>
    ensures { option_map (λ value. chars value.now) result
        ≡ first_title_text kind (metadata_lines (chars text.now)) }
{
    for line in text.split(['\n', '\r']) {
        if begins_table(kind, line) {
            return None;
        }
        if let Some(value) = title_text(kind, line) {
            return Some(value);
        }
    }
    None
}

/// Returns the title in metadata, of which this is the text: the value of `title` in the first line that gives one.
pub fn metadata_title(
    alloc: Global,
    kind: MetadataBlockKind,
    text: &str,
) -> Result<Option<String>, Fault>
    ensures title { IfOk result (λ title. option_map string_bytes title
        ≡ metadata_title kind text.now) }
    ensures refused { IfErr result (λ fault. fault ≡ Fault.Memory) }
{
    let Some(text) = first_title_text(kind, text) else {
        return Ok(None);
    };
    let Some(value) = value_of_text(alloc, kind, text)? else {
        return Ok(None);
    };
    match heading_title(value.as_str()) {
        Some(title) => Ok(Some(String::from_str(alloc, title)?)),
        None => Ok(None),
    }
}

/// Returns the title that the text of a heading gives: it without the white space at its ends, if anything is left.
pub fn heading_title(text: &str) -> Option<&str>
    ensures { option_copied result ≡ shown_title text.now }
{
    let title = text.trim();
    if title.is_empty() { None } else { Some(title) }
}

/// Returns what follows the last `/` of a name.
fn after_last_slash(name: &str) -> &str
    ensures { result.now ≡ after_last (λ b. b == slash) name.now }
{
    match name.rsplit_once('/') {
        Some((_, last)) => last,
        None => name,
    }
}

/// Returns what stands before the ending of a name, or the name where that is nothing.
fn stem_or_name<'a>(stem: &'a str, name: &'a str) -> &'a str
    ensures { result.now ≡ (if length stem.now == 0 then name.now else stem.now) }
{
    if stem.is_empty() { name } else { stem }
}

/// Returns a name without its last `.` and what follows it, unless nothing stands before that.
fn without_ending(name: &str) -> &str
    ensures { result.now ≡ without_ending name.now }
{
    match name.rsplit_once('.') {
        Some((stem, _)) => stem_or_name(stem, name),
        None => name,
    }
}

/// Returns the title that the name of a file gives: what follows its last `/`, without the last `.` and what follows that,
/// unless the `.` is the first; `Untitled` for `-`, which stands for standard input.
pub fn file_title(name: &str) -> &str
    ensures { result.now ≡ file_title name.now }
{
    if name == "-" {
        return "Untitled";
    }
    without_ending(after_last_slash(name))
}
