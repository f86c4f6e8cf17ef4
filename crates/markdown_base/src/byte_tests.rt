//! Whether some byte is one of a few. A loop of one comparison for each byte is compiled to compare sixteen bytes at once;
//! several tests are joined by `|`.
ghost use Rattle.std.specs.Prelude.{◌≡◌, ◌==◌, ◌||◌, nat_le};
ghost use Rattle.std.specs.List.{list_any};
ghost use Rattle.markdown_base.specs.WellFormed.{is_delimiter};

/// Returns whether a byte is a character of delimiter runs.
#[inline(always)]
pub fn is_delimiter(byte: u8) -> bool
    ensures { result ≡ is_delimiter byte }
{
    byte == b'*' || byte == b'_' || byte == b'~' || byte == b'^'
}

/// Returns whether one of the bytes is `wanted`.
#[inline(always)]
pub fn holds(bytes: &[u8], wanted: u8) -> bool
    ensures { result ≡ list_any (λ byte. byte == wanted) bytes.now }
{
    let mut found = false;
    for byte in bytes {
        found |= *byte == wanted;
    }
    found
}

/// Returns whether one of the bytes is `one` or `other`. This is compiled to one comparison for each byte only where
/// the two differ in one bit, as those of all callers do.
#[inline(always)]
pub fn holds_either(bytes: &[u8], one: u8, other: u8) -> bool
    ensures { result ≡ list_any (λ byte. (byte == one) || (byte == other)) bytes.now }
{
    let mut found = false;
    for byte in bytes {
        found |= (*byte == one) | (*byte == other);
    }
    found
}

/// Returns whether one of the bytes is at most `most`.
#[inline(always)]
pub fn holds_at_most(bytes: &[u8], most: u8) -> bool
    ensures { result ≡ list_any (λ byte. nat_le byte most) bytes.now }
{
    let mut found = false;
    for byte in bytes {
        found |= *byte <= most;
    }
    found
}
