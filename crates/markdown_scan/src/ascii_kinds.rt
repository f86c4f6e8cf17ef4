//! Kinds of ASCII characters.
ghost use Rattle.std.specs.Prelude.{◌≡◌, ◌<◌, IsTrue, length};
ghost use Rattle.markdown_scan.specs.AsciiKinds as kinds;
ghost use Rattle.markdown_scan.specs.Beginnings as beginnings;

/// Returns whether the bytes begin with an ASCII letter.
pub fn begins_with_letter(bytes: &[u8]) -> bool
    ensures value { result ≡ beginnings.begins_with_letter bytes.now }
    ensures some { IsTrue result → 0 < length bytes.now }
{
    match bytes.first() {
        Some(first) => first.is_ascii_alphabetic(),
        None => false,
    }
}

/// Returns whether the byte is an ASCII control character (U+0000 to U+001F, U+007F) or a space.
pub(crate) fn is_control_or_space(byte: u8) -> bool
    ensures { result ≡ kinds.is_control_or_space byte }
{
    byte.is_ascii_control() || byte == b' '
}

/// Returns whether the byte is a space, tab, line feed, line tabulation, form feed or carriage return.
pub(crate) fn is_white_space(byte: u8) -> bool
    ensures { result ≡ kinds.is_white_space byte }
{
    matches!(byte, b' ' | b'\t'..=b'\r')
}
