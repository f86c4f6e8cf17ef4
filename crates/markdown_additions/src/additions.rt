//! What is added to the events of a text.

/// What is added to the events of a text.
#[derive(Clone, Copy, Debug, Drop)]
pub struct Additions<'p> {
    /// Whether bare addresses become links.
    pub autolinks: bool,
    /// The ids of headings.
    pub ids: Ids<'p>,
}

/// The ids of headings that events have.
#[derive(Clone, Copy, Debug, Drop)]
pub enum Ids<'p> {
    /// Those of their attributes alone.
    Own,
    /// These, and one for each heading without one.
    All,
    /// The same, and then this text before each id of a heading and each name of a footnote, and in links to them.
    Prefixed(&'p str),
}
