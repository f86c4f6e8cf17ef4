//! Metadata blocks: the lines that open them, and the lines that close them.
ghost use Rattle.std.specs.Prelude.{◌≡◌, ◌==◌, true, Some, IfSome, if◌then◌else◌, None};
ghost use Rattle.markdown_lines.specs.MetadataBlocks.{closes_metadata, is_three_of, line_opens};

use crate::bytes::{bytes_from, is_white, run_length};
use markdown_base::tag::MetadataBlockKind;

/// Returns whether a line's content is exactly three times a byte, and then spaces and tabs.
fn is_three_of(content: &[u8], byte: u8) -> bool
    ensures { result ≡ is_three_of byte content.now }
{
    run_length(content, byte) == 3 && is_white(bytes_from(content, 3))
}

/// Returns the kind of metadata that a line of this content opens.
pub fn line_opens(content: &[u8]) -> Option<MetadataBlockKind>
    ensures { result ≡ line_opens content.now }
{
    if is_three_of(content, b'-') {
        Some(MetadataBlockKind::YamlStyle)
    } else if is_three_of(content, b'+') {
        Some(MetadataBlockKind::PlusesStyle)
    } else {
        None
    }
}

/// Returns whether a line of this content closes metadata of a kind.
pub fn closes_metadata(kind: MetadataBlockKind, content: &[u8]) -> bool
    ensures { result ≡ closes_metadata kind content.now }
{
    match kind {
        MetadataBlockKind::YamlStyle => is_three_of(content, b'-') || is_three_of(content, b'.'),
        MetadataBlockKind::PlusesStyle => is_three_of(content, b'+'),
    }
}
