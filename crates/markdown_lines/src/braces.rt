//! Braces at the end of a heading's content.

/// Braces around attributes: the byte offsets of the `{` and of the `}`.
#[derive(Clone, Copy, Drop)]
pub struct Braces {
    pub opening: usize,
    pub closing: usize,
}
