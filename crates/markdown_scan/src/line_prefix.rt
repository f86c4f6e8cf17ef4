//! The prefix of a line on which a text continues.
ghost use Rattle.std.specs.Prelude.{◌≡◌, ◌≤◌, IfSome, IsTrue, take, length};
ghost use Rattle.std.specs.List.{list_all};
ghost use Rattle.std.specs.Char.{is_ascii};
ghost use Rattle.markdown_scan.specs.LinePrefix as prefix;

use crate::line_rule::LineRule;

/// Returns whether the byte, which `rest` follows, is the last one of a line ending.
fn ends_line(byte: u8, rest: &[u8]) -> bool
    ensures { result ≡ prefix.ends_line byte rest.now }
{
    byte == b'\n' || (byte == b'\r' && rest.first() != Some(&b'\n'))
}

/// Returns the length in bytes of the line prefix that `rest` begins with: 0 if the byte before it does not end a line,
/// and `None` if the text may not continue on another line.
pub fn prefix_after<R: LineRule>(rule: &R, byte: u8, rest: &[u8]) -> Option<usize>
    ensures value { result ≡ prefix.prefix_after (R.skipped rule.now) byte rest.now }
    ensures within { IfSome result (λ n. n ≤ length rest.now) }
    ensures ascii { IfSome result (λ n. IsTrue (list_all is_ascii (take n rest.now))) }
{
    if ends_line(byte, rest) {
        rule.skip(rest)
    } else {
        Some(0)
    }
}
