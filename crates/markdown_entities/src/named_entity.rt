//! The search for the named entity that bytes begin with.
ghost use Rattle.std.specs.Prelude.{◌≡◌, ◌≤◌, ◌<◌, ◌-◌, ◌/◌, List, [], IfNone, IfSome, encode_utf8_all, get_or, length, map};
ghost use Rattle.std.specs.Prelude.{slice_index, MatchOption};
ghost use Rattle.std.specs.Char.{is_ascii_alphanumeric};
ghost use Rattle.std.specs.List.{prefix_len};
ghost use Rattle.std.specs.Option.{option_map};
ghost use Rattle.markdown_base.specs.Bytes.{space};
ghost use Rattle.markdown_entities.specs.EntityRow.{EntityRow};
ghost use Rattle.markdown_entities.specs.EntityTable.{entity_groups};
ghost use Rattle.markdown_entities.specs.EntitySteps.{AreRows, AreSorted, IsCut, characters_of, named_in};
ghost use Rattle.markdown_entities.specs.EntitySteps.{BeginsWithName, BeginsWithNoName, group_number, rows_text};
ghost use Rattle.markdown_entities.specs.NamedEntity.{entity_rows, in_utf8, named_entity};

use crate::table::GROUPS;
use std::cmp::Ordering;

/// The most letters and digits that a name has.
const LONGEST: usize = 31;

/// Returns the number of letters and digits that the bytes begin with.
fn name_length(bytes: &[u8]) -> usize
    ensures value { result ≡ prefix_len is_ascii_alphanumeric bytes.now }
    ensures within { result ≤ length bytes.now }
{
    bytes
        .iter()
        .take_while(|byte| byte.is_ascii_alphanumeric())
        .count()
}

/// Returns the letters and digits between the `&` that the bytes begin with and a `;`, unless there are more than a name
/// has.
fn written_name(bytes: &[u8]) -> Option<&[u8]>
    ensures some { IfSome result (λ name. BeginsWithName bytes.now name.now) }
    ensures none { IfNone result (BeginsWithNoName bytes.now) }
{
    if !bytes.starts_with(b"&") {
        return None;
    }
    let rest = &bytes[1..];
    let length = name_length(&rest[..rest.len().min(LONGEST)]);
    if rest[length..].starts_with(b";") {
        Some(&rest[..length])
    } else {
        None
    }
}

/// Returns the place among the groups of the names that begin as a name does.
fn group_number(name: &[u8]) -> Option<usize>
    ensures value { result ≡ group_number (slice_index name.now 0) }
    ensures few { IfSome result (λ number. number < 52) }
{
    match name.first() {
        Some(letter @ b'A'..=b'Z') => Some(usize::from(letter - b'A')),
        Some(letter @ b'a'..=b'z') => Some(usize::from(letter - b'a') + 26),
        _ => None,
    }
}

/// Returns a text of a list.
fn text_at(texts: &[&'static str], number: usize) -> &'static str
    requires { number < length texts.now }
    ensures { result.now ≡ get_or (map (λ text. text.now) texts.now) number [] }
{
    texts[number]
}

/// Returns the rows of a group.
fn group(number: usize) -> &'static str
    requires { number < 52 }
    ensures { result.now ≡ rows_text (get_or entity_groups number []) }
{
    text_at(&GROUPS, number)
}

/// Returns where the row begins that the middle of some rows is in.
fn middle_row(rows: &[u8]) -> usize
    ensures half { result ≤ length rows.now / 2 }
    ensures after_space { 0 < result → slice_index rows.now (result - 1) ≡ space }
{
    let mut start = rows.len() / 2;
    while start > 0 && rows[start - 1] != b' ' {
        start -= 1;
    }
    start
}

/// A row, and the texts of the rows before and after it.
#[derive(Clone, Copy)]
struct Row<'t> {
    before: &'t str,
    name: &'t str,
    characters: &'t str,
    after: &'t str,
}

/// Returns the row in the middle of some rows, with those before and after it.
fn row_in_middle(rows: &str) -> Option<Row<'_>>
    ensures cases { (known : List EntityRow) → rows.now ≡ rows_text known → AreRows known →
        MatchOption result (known ≡ [])
        (λ row. IsCut known row.before.now row.name.now row.characters.now row.after.now) }
    ensures shorter { IfSome result
        (λ row. (length row.before.now < length rows.now)
        × (length row.after.now < length rows.now)) }
{
    let (before, rest) = rows.split_at_checked(middle_row(rows.as_bytes()))?;
    let (name, rest) = rest.split_once(';')?;
    let (characters, after) = rest.split_once(' ')?;
    Some(Row {
        before,
        name,
        characters,
        after,
    })
}

/// Returns the characters of a name in the text of some rows, whose names rise in the order of bytes.
fn characters_in<'t>(text: &'t str, name: &[u8]) -> Option<&'t str>
    ensures { (known : List EntityRow) → text.now ≡ rows_text known → AreRows known
        → AreSorted known → option_map (λ found. found.now) result
        ≡ characters_of (named_in known name.now) }
{
    let mut rows = text;
    while let Some(row) = row_in_middle(rows) {
        match row.name.as_bytes().cmp(name) {
            Ordering::Less => rows = row.after,
            Ordering::Equal => return Some(row.characters),
            Ordering::Greater => rows = row.before,
        }
    }
    None
}

/// Returns the characters of a name.
fn characters_of(name: &[u8]) -> Option<&'static str>
    ensures { option_map (λ found. found.now) result
        ≡ characters_of (named_in entity_rows name.now) }
{
    let number = group_number(name)?;
    characters_in(group(number), name)
}

/// Returns the length in bytes of the named entity that the bytes begin with, from its `&` through its `;`, and its
/// one or two characters. Reads at most 33 bytes.
pub fn scan_named_entity(bytes: &[u8]) -> Option<(usize, &'static str)>
    ensures value { option_map (λ found. (found.0, found.1.now)) result
        ≡ option_map in_utf8 (named_entity bytes.now) }
    ensures within { IfSome result (λ found. found.0 ≤ length bytes.now) }
    ensures few { IfSome result (λ found. length found.1.now ≤ 6) }
{
    let name = written_name(bytes)?;
    let characters = characters_of(name)?;
    Some((name.len() + 2, characters))
}
