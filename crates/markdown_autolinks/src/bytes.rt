//! The bytes at places of a text.
ghost use Rattle.std.specs.Prelude.{◌≡◌, ◌-◌};
ghost use Rattle.markdown_autolinks.specs.AddressBytes as bytes;

/// Returns the byte at a place; 0 after the text.
pub fn byte_at(text: &[u8], at: usize) -> u8
    ensures { result ≡ bytes.byte_at text.now at }
{
    match text.get(at) {
        Some(byte) => *byte,
        None => 0,
    }
}

fn is_white_byte(a: u8) -> bool
    ensures { result ≡ bytes.is_white_byte a }
{
    (9 <= a && a <= 13) || a == b' '
}

fn are_white_pair(a: u8, b: u8) -> bool
    ensures { result ≡ bytes.are_white_pair a b }
{
    a == 0xC2 && (b == 0x85 || b == 0xA0)
}

fn are_white_triple(a: u8, b: u8, c: u8) -> bool
    ensures { result ≡ bytes.are_white_triple a b c }
{
    (a == 0xE1 && b == 0x9A && c == 0x80)
        || (a == 0xE2
            && b == 0x80
            && ((0x80 <= c && c <= 0x8A) || c == 0xA8 || c == 0xA9 || c == 0xAF))
        || (a == 0xE2 && b == 0x81 && c == 0x9F)
        || (a == 0xE3 && b == 0x80 && c == 0x80)
}

/// Returns whether white space begins at a place.
pub fn is_white_at(text: &[u8], at: usize) -> bool
    ensures { result ≡ bytes.is_white_at text.now at }
{
    let a = byte_at(text, at);
    if a < 128 {
        return is_white_byte(a);
    }
    let b = byte_at(text, at + 1);
    are_white_pair(a, b) || are_white_triple(a, b, byte_at(text, at + 2))
}

/// Returns whether white space ends at a place.
pub fn is_white_before(text: &[u8], at: usize) -> bool
    ensures { result ≡ bytes.is_white_before text.now at }
{
    let a = byte_at(text, at.saturating_sub(3));
    let b = byte_at(text, at.saturating_sub(2));
    let c = byte_at(text, at.saturating_sub(1));
    is_white_byte(c) || are_white_pair(b, c) || are_white_triple(a, b, c)
}

/// Returns the number of bytes from `start` to `end` that are `byte`.
#[tactic(auto, using(crate::proofs::PlaceLemmas::counts_next, crate::proofs::PlaceLemmas::count_is_few))]
pub fn count_of(text: &[u8], byte: u8, start: usize, end: usize) -> usize
    ensures { result ≡ bytes.count_of text.now byte start (end - start) }
{
    let mut count = 0;
    let mut at = start;
    while at < end {
        if byte_at(text, at) == byte {
            count += 1;
        }
        at += 1;
    }
    count
}
