//! Alerts: block quotes whose first line names a kind, such as `> [!NOTE]`.
ghost use Rattle.std.specs.Prelude.{◌≡◌};
ghost use Rattle.markdown_lines.specs.Alerts.{alert_kind, alert_read, is_alert_marker};
ghost use Rattle.markdown_lines.specs.Positions.{left_from};

use crate::bytes::{bytes_from, bytes_of, is_white};
use crate::html_kind::begins_with;
use crate::position::Position;
use markdown_base::syntax::Syntax;
use markdown_base::tag::BlockQuoteKind;

/// Returns whether bytes are an alert's marker, in either case, and then spaces and tabs alone.
fn is_alert_marker(bytes: &[u8], marker: &[u8]) -> bool
    ensures { result ≡ is_alert_marker bytes.now marker.now }
{
    begins_with(bytes, marker) && is_white(bytes_from(bytes, marker.len()))
}

/// Returns the kind that bytes name, or `None` where they name none.
fn alert_kind(bytes: &[u8]) -> Option<BlockQuoteKind>
    ensures { result ≡ alert_kind bytes.now }
{
    if is_alert_marker(bytes, b"[!note]") {
        Some(BlockQuoteKind::Note)
    } else if is_alert_marker(bytes, b"[!tip]") {
        Some(BlockQuoteKind::Tip)
    } else if is_alert_marker(bytes, b"[!important]") {
        Some(BlockQuoteKind::Important)
    } else if is_alert_marker(bytes, b"[!warning]") {
        Some(BlockQuoteKind::Warning)
    } else if is_alert_marker(bytes, b"[!caution]") {
        Some(BlockQuoteKind::Caution)
    } else {
        None
    }
}

/// Returns the kind of the alert that a block quote is, from the place after its marker and at most one column of space
/// on, in a line whose content ends before byte offset `stop`; `None` where it is none, or alerts are not read.
pub fn alert_read(
    text: &str,
    inside: Position,
    stop: usize,
    syntax: Syntax,
) -> Option<BlockQuoteKind>
    ensures { result ≡ alert_read syntax (left_from text.now inside stop) }
{
    if syntax.alerts && inside.owed == 0 {
        alert_kind(bytes_of(text, inside.at, stop))
    } else {
        None
    }
}
