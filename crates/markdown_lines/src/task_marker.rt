//! Task markers, `[ ]` and `[x]`: how the first paragraph of a list item may begin.
ghost use Rattle.std.specs.Prelude.{◌≡◌, ◌≤◌, drop, length, slice_range};
ghost use Rattle.std.specs.List.{prefix_len};
ghost use Rattle.markdown_lines.specs.TaskMarkers as spec;

use crate::bytes::{byte_or_zero, bytes_from, bytes_of};
use crate::line::is_space_or_tab;
use markdown_base::syntax::Syntax;

/// Returns whether a byte is white space in a task marker, and after it.
fn is_task_space(byte: u8) -> bool
    ensures { result ≡ spec.is_task_space byte }
{
    is_space_or_tab(byte) || byte == b'\x0b' || byte == b'\x0c'
}

/// Returns whether a task is done, by the byte between the brackets.
fn is_task_done(byte: u8) -> Option<bool>
    ensures { result ≡ spec.is_task_done byte }
{
    if is_task_space(byte) {
        Some(false)
    } else if byte == b'x' || byte == b'X' {
        Some(true)
    } else {
        None
    }
}

/// Returns whether the task is done whose marker bytes begin with; `None` where they begin with none.
fn task_marker(bytes: &[u8]) -> Option<bool>
    ensures { result ≡ spec.task_marker bytes.now }
{
    let stands = byte_or_zero(bytes, 0) == b'['
        && byte_or_zero(bytes, 2) == b']'
        && is_task_space(byte_or_zero(bytes, 3));
    if stands {
        is_task_done(byte_or_zero(bytes, 1))
    } else {
        None
    }
}

/// Returns the number of bytes at the beginning that are white space as after a task marker.
fn task_space(bytes: &[u8]) -> usize
    ensures value { result ≡ prefix_len spec.is_task_space bytes.now }
    ensures within { result ≤ length bytes.now }
{
    for at in 0..bytes.len() {
        if !is_task_space(bytes[at]) {
            return at;
        }
    }
    bytes.len()
}

/// Returns whether the task is done whose marker is at byte offset `start` in a line whose content ends before `stop`;
/// `None` where there is none, or task lists are not read.
pub fn task_read(text: &str, start: usize, stop: usize, syntax: Syntax) -> Option<bool>
    ensures { result ≡ spec.task_read syntax (slice_range text.now start stop) }
{
    if syntax.tasks {
        task_marker(bytes_of(text, start, stop))
    } else {
        None
    }
}

/// Returns the number of bytes of the task marker that a line begins with, and of all white space after it.
pub fn task_length(line: &[u8]) -> usize
    ensures { result ≡ spec.task_length line.now }
{
    3 + task_space(bytes_from(line, 3))
}
