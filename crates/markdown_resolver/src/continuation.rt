//! What is left of a chain once an item of it was read.

/// Where a chain continues after an item was read, and how many items after that one have left it.
#[derive(Clone, Copy, Drop)]
pub struct Continuation {
    /// The number of a node; `None` where nothing is left of the chain.
    pub next: Option<usize>,
    pub passed: usize,
}
