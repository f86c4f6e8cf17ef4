//! The nodes of a tree as contracts describe them.

/// An item with the numbers of its first child and its next sibling.
#[derive(Debug, Drop)]
pub struct Node<T> {
    pub item: T,
    pub child: Option<usize>,
    pub next: Option<usize>,
}
