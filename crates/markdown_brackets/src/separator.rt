//! The separators between the parts of an inline link (CommonMark 6.3).
ghost use Rattle.std.specs.Prelude.{◌≡◌, ◌+◌, ◌≤◌, drop, length};
ghost use Rattle.std.specs.Str.{IsCharBoundary};
ghost use Rattle.markdown_brackets.specs.Separator as separator;

use markdown_scan::line_end::scan_line_ending;
use markdown_scan::line_rule::LineRule;

// Returns whether the byte is a space, tab, line tabulation or form feed.
fn is_blank(byte: u8) -> bool
    ensures { result ≡ separator.is_blank byte }
{
    matches!(byte, b' ' | b'\t' | b'\x0b' | b'\x0c')
}

// Returns the number of such bytes that the bytes begin with.
fn count_blanks(bytes: &[u8]) -> usize
    ensures { result ≡ separator.blanks bytes.now }
{
    bytes.iter().take_while(|byte| is_blank(**byte)).count()
}

// Returns the same number for a text, which may be cut after them.
fn skip_blanks(text: &str) -> usize
    ensures value { result ≡ separator.blanks text.now }
    ensures boundary { IsCharBoundary text.now result }
{
    count_blanks(text.as_bytes())
}

// Returns the length in bytes of the line ending that the text begins with and the line prefix after it; 0 if there is
// no line ending, or the text may not continue after it.
fn skip_line_break<R: LineRule>(text: &str, rule: &R) -> usize
    ensures value { result ≡ separator.line_break (R.skipped rule.now) text.now }
    ensures boundary { IsCharBoundary text.now result }
{
    let bytes = text.as_bytes();
    let Some(ending) = scan_line_ending(bytes) else {
        return 0;
    };
    match rule.skip(&bytes[ending..]) {
        Some(prefix) => ending + prefix,
        None => 0,
    }
}

/// Returns the length in bytes of the separator that the text begins with: white space other than line endings, at most
/// one line ending with the line prefix after it, and again such white space. A separator may be empty.
pub fn scan_separator<R: LineRule>(text: &str, rule: &R) -> usize
    ensures value { result ≡ separator.separator (R.skipped rule.now) text.now }
    ensures within { result ≤ length text.now }
    ensures boundary { IsCharBoundary text.now result }
{
    let first = skip_blanks(text);
    let rest = &text[first..];
    let line = skip_line_break(rest, rule);
    let last = skip_blanks(&rest[line..]);
    first + line + last
}
