//! Which characters a backslash escapes (CommonMark 2.4), and which backslashes escape a pipe in a table.
ghost use Rattle.std.specs.Prelude.{◌≡◌};
ghost use Rattle.markdown_scan.specs.Backslash as backslash;

/// Returns whether the byte is the punctuation character `what` and is not escaped.
pub(crate) fn is_bare(escaped: bool, byte: u8, what: u8) -> bool
    ensures { result ≡ backslash.is_bare escaped byte what }
{
    !escaped && byte == what
}

/// Returns whether, in a table, the byte is a backslash directly before a pipe.
pub(crate) fn escapes_pipe(in_table: bool, byte: u8, next: &[u8]) -> bool
    ensures { result ≡ backslash.escapes_pipe in_table byte next.now }
{
    byte == b'\\' && in_table && next.first() == Some(&b'|')
}
