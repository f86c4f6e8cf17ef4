//! The header of records, and what comes after it.
ghost use Rattle.std.specs.Prelude.{◌≡◌, ◌≤◌, length, take};
ghost use Rattle.std.specs.Str.{bytes_eq};
ghost use Rattle.markdown_records.specs.FormOf.{FindsForm, has_header};
ghost use Rattle.markdown_records.specs.RecordView.{format_bytes};

use crate::record::{SIZE, number_at};
use std::str;

/// The parts of bytes whose header is right.
#[derive(Clone, Copy, Drop)]
pub(crate) struct Form<'a> {
    pub pool: &'a str,
    pub entries: &'a [u8],
    pub definitions: &'a [u8],
}

/// Returns whether bytes begin with the name of the format, its version, and the size of a record.
fn names_format(bytes: &[u8]) -> bool
    requires { 8 ≤ length bytes.now }
    ensures { result ≡ bytes_eq (take 8 bytes.now) format_bytes }
{
    let (name, _) = bytes.split_at(8);
    name == [b'M', b'D', b'R', b'1', 1, 0, 24, 0].as_slice()
}

/// Returns whether the header names this format and the lengths of the bytes and of the source, and
/// not more entries than records.
fn has_header(source: &str, bytes: &[u8]) -> bool
    requires { 24 ≤ length bytes.now }
    ensures { result ≡ has_header source.now bytes.now }
{
    let count = number_at(bytes, 8) as usize;
    let pool = number_at(bytes, 16) as usize;
    bytes.len() == SIZE + SIZE * count + pool
        && names_format(bytes)
        && number_at(bytes, 20) as usize == source.len()
        && number_at(bytes, 12) as usize <= count
}

/// Returns the parts of bytes, or None where their header is wrong or the pool is no text.
pub(crate) fn form_of<'a>(source: &str, bytes: &'a [u8]) -> Option<Form<'a>>
    ensures { FindsForm source.now bytes.entry.now result }
{
    if bytes.len() < SIZE || !has_header(source, bytes) {
        return None;
    }
    let count = number_at(bytes, 8) as usize;
    let entries = number_at(bytes, 12) as usize;
    let (front, pool) = bytes.split_at(SIZE + SIZE * count);
    let pool = match str::from_utf8(pool) {
        Ok(pool) => pool,
        Err(_) => return None,
    };
    let (_, records) = front.split_at(SIZE);
    let (entries, definitions) = records.split_at(SIZE * entries);
    Some(Form {
        pool,
        entries,
        definitions,
    })
}
