//! An open block, whose end is not known yet.
use markdown_base::item::ItemBody;

/// An open block, which starts at byte offset `start` and contains what comes next.
#[derive(Clone, Copy, Debug, PartialEq, Eq, Drop)]
pub struct OpenBlock {
    pub start: usize,
    pub body: ItemBody,
}
