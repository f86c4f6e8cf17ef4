//! A record, and its bytes.
ghost use Rattle.std.specs.Prelude.{◌≡◌, ◌+◌, ◌≤◌, length};
ghost use Rattle.markdown_records.specs.RecordView.{number_at, record_bytes, record_in};
ghost use Rattle.markdown_records.specs.RecordOf.{record_view};
ghost use Rattle.markdown_records.specs.RecordTaken.{TakesRecord};

/// The number of bytes of a record, and of the header.
pub(crate) const SIZE: usize = 24;

pub(crate) const NOWHERE: u8 = 0;

pub(crate) const IN_SOURCE: u8 = 1;

pub(crate) const IN_POOL: u8 = 2;
/// `at` and `length` are the low and the high half of a number.
pub(crate) const A_NUMBER: u8 = 3;

/// A record.
#[derive(Clone, Copy, Drop)]
pub(crate) struct Record {
    pub kind: u8,
    pub detail: u8,
    /// Where the text is: no_place, in the source, in the pool; or that there is a number.
    pub place: u8,
    /// A byte that is 0.
    pub spare: u8,
    /// The range in the source, in bytes.
    pub start: u32,
    pub end: u32,
    /// The offset of the text and its length, in bytes.
    pub at: u32,
    pub length: u32,
    /// How many parts follow this record.
    pub parts: u32,
}

impl Record {
    /// Returns the bytes of the record.
    pub fn bytes(&self) -> [u8; 24]
        ensures { result ≡ record_bytes (record_view self.now) }
    {
        let s = self.start.to_le_bytes();
        let e = self.end.to_le_bytes();
        let a = self.at.to_le_bytes();
        let l = self.length.to_le_bytes();
        let p = self.parts.to_le_bytes();
        [
            self.kind,
            self.detail,
            self.place,
            self.spare,
            s[0],
            s[1],
            s[2],
            s[3],
            e[0],
            e[1],
            e[2],
            e[3],
            a[0],
            a[1],
            a[2],
            a[3],
            l[0],
            l[1],
            l[2],
            l[3],
            p[0],
            p[1],
            p[2],
            p[3],
        ]
    }
}

/// Returns the number in four bytes from an offset on.
pub(crate) fn number_at(bytes: &[u8], at: usize) -> u32
    requires { at + 4 ≤ length bytes.now }
    ensures { result ≡ number_at bytes.now at }
{
    u32::from_le_bytes([bytes[at], bytes[at + 1], bytes[at + 2], bytes[at + 3]])
}

/// Returns the record in 24 bytes.
fn record_in(bytes: &[u8]) -> Record
    requires { 24 ≤ length bytes.now }
    ensures { record_view result ≡ record_in bytes.now }
{
    Record {
        kind: bytes[0],
        detail: bytes[1],
        place: bytes[2],
        spare: bytes[3],
        start: number_at(bytes, 4),
        end: number_at(bytes, 8),
        at: number_at(bytes, 12),
        length: number_at(bytes, 16),
        parts: number_at(bytes, 20),
    }
}

/// Returns the first record, and the bytes after it; or None where there are too few bytes.
pub(crate) fn take_record(bytes: &[u8]) -> Option<(Record, &[u8])>
    ensures { TakesRecord bytes.now result }
{
    if bytes.len() < SIZE {
        return None;
    }
    let (first, rest) = bytes.split_at(SIZE);
    Some((record_in(first), rest))
}
