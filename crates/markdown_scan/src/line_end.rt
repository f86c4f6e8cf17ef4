//! Line endings (CommonMark 2.1).
ghost use Rattle.std.specs.Prelude.{◌≡◌, ◌≤◌, IfSome, length};
ghost use Rattle.markdown_scan.specs.LineEnd.{line_ending};

/// Returns the length in bytes of the line ending that the bytes begin with: 1 for a line feed or a carriage return, 2
/// for a carriage return followed by a line feed; `None` if they begin with no line ending.
pub fn scan_line_ending(bytes: &[u8]) -> Option<usize>
    ensures value { result ≡ line_ending bytes.now }
    ensures within { IfSome result (λ n. n ≤ length bytes.now) }
{
    match bytes.split_first() {
        Some((b'\n', _)) => Some(1),
        Some((b'\r', rest)) if rest.first() == Some(&b'\n') => Some(2),
        Some((b'\r', _)) => Some(1),
        _ => None,
    }
}
