//! The bytes that may begin something other than text.
ghost use Rattle.std.specs.Prelude.{◌≡◌, ◌≤◌, true, false, length};
ghost use Rattle.std.specs.List.{list_any};
ghost use Rattle.markdown_items.specs.LineItems.{is_dash_byte, is_special, is_plain, IsFirstSpecial};

const T: bool = true;

const F: bool = false;

// Whether a byte is one of `special_bytes`, indexed by the byte: 32 bytes per line. No constant can be computed by a loop,
// so the table is written out, and `is_special` is proved of each entry.
static SPECIALS: [bool; 256] = [
    F, F, F, F, F, F, F, F, F, F, F, F, F, F, F, F, F, F, F, F, F, F, F, F, F, F, F, F, F, F, F, F,
    F, T, T, F, T, F, T, T, F, F, T, F, F, F, F, F, F, F, F, F, F, F, F, F, F, F, F, F, T, F, F, F,
    F, F, F, F, F, F, F, F, F, F, F, F, F, F, F, F, F, F, F, F, F, F, F, F, F, F, F, T, T, T, T, T,
    T, F, F, F, F, F, F, F, F, F, F, F, F, F, F, F, F, F, F, F, F, F, F, F, F, F, F, F, F, F, T, F,
    F, F, F, F, F, F, F, F, F, F, F, F, F, F, F, F, F, F, F, F, F, F, F, F, F, F, F, F, F, F, F, F,
    F, F, F, F, F, F, F, F, F, F, F, F, F, F, F, F, F, F, F, F, F, F, F, F, F, F, F, F, F, F, F, F,
    F, F, F, F, F, F, F, F, F, F, F, F, F, F, F, F, F, F, F, F, F, F, F, F, F, F, F, F, F, F, F, F,
    F, F, F, F, F, F, F, F, F, F, F, F, F, F, F, F, F, F, F, F, F, F, F, F, F, F, F, F, F, F, F, F,
];

/// The number of bytes that are tested together, without a branch for each, as long as none is special.
const TOGETHER: usize = 16;

/// Returns whether dashes and an ellipsis are written by a byte: `-` and `.`.
#[inline(always)]
fn is_dash_byte(byte: u8) -> bool
    ensures { result ≡ is_dash_byte byte }
{
    (byte == b'-') | (byte == b'.')
}

/// Returns whether a byte may begin something other than text.
#[inline(always)]
fn is_special(byte: u8, dashes: bool) -> bool
    ensures { result ≡ is_special dashes byte }
{
    SPECIALS[byte as usize] | (is_dash_byte(byte) & dashes)
}

/// Returns whether a byte is plain, as most bytes of text are, by a few comparisons and without a table.
#[inline(always)]
fn is_plain(byte: u8, dashes: bool) -> bool
    ensures { result ≡ is_plain dashes byte }
{
    (byte <= b' ')
        | ((byte >= b'+') & (byte <= b'Z') & (byte != b'<') & !(is_dash_byte(byte) & dashes))
        | ((byte >= b'a') & (byte != b'~'))
}

/// Returns whether all bytes are plain; none of them is special then.
#[inline(always)]
fn are_plain(bytes: &[u8], dashes: bool) -> bool
    ensures { result ≡ true → list_any (is_special dashes) bytes.now ≡ false }
{
    let mut plain = true;
    for byte in bytes {
        plain &= is_plain(*byte, dashes);
    }
    plain
}

/// Returns the number of bytes before the first special one, or the number of all bytes.
#[inline(always)]
fn length_before_special(bytes: &[u8], dashes: bool) -> usize
    ensures { IsFirstSpecial dashes bytes.now 0 (length bytes.now) result }
{
    for at in 0..bytes.len() {
        if is_special(bytes[at], dashes) {
            return at;
        }
    }
    bytes.len()
}

/// Returns the first byte offset from `from` on whose byte may begin something other than text, or `end`, where dashes
/// are read or not. Bytes after `end` may be read, since several are tested together.
// inlined into the one function that calls it
#[inline(always)]
pub fn first_special(bytes: &[u8], from: usize, end: usize, dashes: bool) -> usize
    requires ordered { from ≤ end }
    requires within { end ≤ length bytes.now }
    ensures { IsFirstSpecial dashes bytes.now from end result }
{
    // a scan of its own for each value, so that no byte's test has to ask for it
    if dashes {
        scan_with_dashes(bytes, from, end)
    } else {
        scan_to_special(bytes, from, end, false)
    }
}

/// Returns what `first_special` does where dashes are read.
// not inlined: most texts are read without dashes
#[inline(never)]
fn scan_with_dashes(bytes: &[u8], from: usize, end: usize) -> usize
    requires ordered { from ≤ end }
    requires within { end ≤ length bytes.now }
    ensures { IsFirstSpecial true bytes.now from end result }
{
    scan_to_special(bytes, from, end, true)
}

/// Returns what `first_special` does.
#[inline(always)]
fn scan_to_special(bytes: &[u8], from: usize, end: usize, dashes: bool) -> usize
    requires ordered { from ≤ end }
    requires within { end ≤ length bytes.now }
    ensures { IsFirstSpecial dashes bytes.now from end result }
{
    // bytes are tested together as long as `TOGETHER` of them are left
    let last = end.min(bytes.len().saturating_sub(TOGETHER - 1));
    let mut start = from;
    'plain: while start < last {
        let together = &bytes[start..start + TOGETHER];
        if !are_plain(together, dashes) {
            let before = length_before_special(together, dashes);
            if before < TOGETHER {
                return end.min(start + before);
            }
        }
        start += TOGETHER;
    }
    if start < end {
        start + length_before_special(&bytes[start..end], dashes)
    } else {
        end
    }
}
