//! The kinds of bytes that tags consist of.
ghost use Rattle.std.specs.Prelude.{◌≡◌};
ghost use Rattle.markdown_raw_html.specs.ByteKinds.{in_kind};

/// A kind of byte.
#[derive(Clone, Copy, Debug, Drop)]
pub(crate) enum ByteKind {
    /// A space or a tab.
    Blank,
    /// An ASCII letter.
    Letter,
    /// A byte of a tag's name after its first letter.
    InTagName,
    /// The first byte of an attribute's name.
    BeginsAttribute,
    /// A byte of an attribute's name after the first one.
    InAttribute,
    /// A byte of a value without quotes.
    Unquoted,
    /// The given byte.
    Only(u8),
    /// Any byte except the given one.
    Except(u8),
}

/// Returns whether the byte is of the kind.
pub(crate) fn is_in_kind(kind: ByteKind, byte: u8) -> bool
    ensures { result ≡ in_kind kind byte }
{
    match kind {
        ByteKind::Blank => b" \t".contains(&byte),
        ByteKind::Letter => byte.is_ascii_alphabetic(),
        ByteKind::InTagName => byte.is_ascii_alphanumeric() || b"-".contains(&byte),
        ByteKind::BeginsAttribute => byte.is_ascii_alphabetic() || b"_:".contains(&byte),
        ByteKind::InAttribute => byte.is_ascii_alphanumeric() || b"_.:-".contains(&byte),
        ByteKind::Unquoted => !b" \t\n\r\"'=<>`".contains(&byte),
        ByteKind::Only(mark) => byte == mark,
        ByteKind::Except(mark) => byte != mark,
    }
}
