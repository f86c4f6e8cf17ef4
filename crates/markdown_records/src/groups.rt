//! Records with the parts after them.
ghost use Rattle.std.specs.Prelude.{◌≡◌, ◌==◌, ◌&&◌};
ghost use Rattle.markdown_records.specs.Decoded.{has_no_text, is_part, is_sound};
ghost use Rattle.markdown_records.specs.GroupOf.{CountsParts, IsWhole, SplitsParts, TakesGroup};
ghost use Rattle.markdown_records.specs.GroupOf.{group_view};
ghost use Rattle.markdown_records.specs.RecordOf.{record_view};
ghost use Rattle.markdown_records.specs.RecordView.{records_in};

use crate::numbers;
use crate::record::{NOWHERE, Record, SIZE, take_record};

impl Record {
    /// Returns whether there is neither a text nor a number.
    pub fn has_no_text(&self) -> bool
        ensures { result ≡ has_no_text (record_view self.now) }
    {
        self.place == NOWHERE && self.at == 0 && self.length == 0
    }

    /// Returns whether the record has what a part has.
    fn is_part(&self) -> bool
        ensures { result ≡ is_part (record_view self.now) }
    {
        self.detail == 0 && self.spare == 0 && self.start == 0 && self.end == 0 && self.parts == 0
    }
}

/// A record, and the bytes of the parts after it.
#[derive(Clone, Copy, Drop)]
pub(crate) struct Group<'a> {
    pub head: Record,
    pub parts: &'a [u8],
}

/// Returns how many records there are, if each of them has what a part has.
fn count_parts(parts: &[u8]) -> Option<usize>
    ensures { CountsParts (records_in parts.now) result }
{
    let mut count = 0;
    let mut left = parts;
    'parts: loop {
        let Some((part, rest)) = take_record(left) else {
            return Some(count);
        };
        if !part.is_part() {
            return None;
        }
        count += 1;
        left = rest;
    }
}

impl Group<'_> {
    /// Returns whether no range ends before it begins, and as many parts follow as are announced.
    pub fn is_sound(&self) -> bool
        ensures { result ≡ is_sound (group_view self.now) }
    {
        let Some(count) = count_parts(self.parts) else {
            return false;
        };
        self.head.spare == 0
            && self.head.start <= self.head.end
            && self.head.parts as usize == count
    }

    /// Returns whether there are neither parts nor a text.
    pub fn is_bare(&self) -> bool
        ensures { result ≡ (has_no_text (record_view self.now.head) && (self.now.head.parts == 0)) }
    {
        self.head.has_no_text() && self.head.parts == 0
    }

    /// Returns whether there are no parts, and the detail is 0.
    pub fn is_lone(&self) -> bool
        ensures { result ≡ ((self.now.head.detail == 0) && (self.now.head.parts == 0)) }
    {
        self.head.detail == 0 && self.head.parts == 0
    }
}

/// Returns the parts at the head of the bytes of records, and the bytes after them.
pub(crate) fn split_parts(bytes: &[u8]) -> (&[u8], &[u8])
    ensures { SplitsParts bytes.now result.0.now result.1.now }
{
    let mut end = 0;
    let mut left = bytes;
    'parts: loop {
        match take_record(left) {
            Some((record, rest)) if record.kind >= numbers::FIRST_PART => {
                end += SIZE;
                left = rest;
            }
            _ => break,
        }
    }
    bytes.split_at(end)
}

/// Returns the first group of bytes that begin with no part, and the bytes after it; or None where
/// there is none.
pub(crate) fn take_group(bytes: &[u8]) -> Option<(Group<'_>, &[u8])>
    requires { IsWhole bytes.now }
    ensures { TakesGroup bytes.now result }
{
    let (head, rest) = take_record(bytes)?;
    let (parts, others) = split_parts(rest);
    Some((Group { head, parts }, others))
}
