//! Lines that are held back: those of a paragraph until it ends, and the blank lines of an indented code block until it
//! continues.

/// The content of a line, by byte offsets: from the first byte after its prefix up to its line ending, which ends
/// before `next`; and the columns that are still owed of a tab before it.
#[derive(Clone, Copy, Drop)]
pub struct HeldLine {
    pub start: usize,
    pub stop: usize,
    pub next: usize,
    pub owed: usize,
}
