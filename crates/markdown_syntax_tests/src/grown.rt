//! A text and the items of a paragraph over it, which are built together.
use crate::rows::{counted, events_of_tree, tree_gives, tree_shows};
use markdown_base::item::{Item, ItemBody};
use markdown_base::tree::Tree;
use markdown_document::work::Work;
use markdown_test_helpers::trees::{item, text};
use std::alloc::{AllocError, Global};
use std::test::Fail;

/// One value, since each end of a scope with both would drop each of them.
#[derive(Drop)]
pub struct Grown {
    source: String,
    tree: Tree<Item>,
}

/// Returns a tree with an empty paragraph over this number of bytes.
fn paragraph_of(alloc: Global, bytes: usize) -> Result<Tree<Item>, AllocError> {
    let mut tree = Tree::new(alloc)?;
    tree.append(item(0, bytes, ItemBody::Paragraph))?;
    tree.push()?;
    Ok(tree)
}

/// Appends the event of an item that stays a text.
fn push_text(
    alloc: Global,
    events: &mut String,
    source: &str,
    item: &Item,
) -> Result<(), AllocError> {
    let Some(words) = source.get(item.start..item.end) else {
        return events.push_str("no text");
    };
    let event = format!(in alloc; "[{words}]{}..{} ", item.start, item.end)?;
    events.push_str(event.as_str())
}

impl Grown {
    /// Returns an empty text, and a paragraph that will have this number of bytes.
    pub fn new(alloc: Global, bytes: usize) -> Result<Grown, AllocError> {
        let tree = paragraph_of(alloc, bytes)?;
        Ok(Grown {
            source: String::new(alloc),
            tree,
        })
    }

    /// Appends an item over its text.
    pub fn append(&mut self, mark: &str, body: ItemBody) -> Result<(), AllocError> {
        let start = self.source.len();
        self.source.push_str(mark)?;
        self.tree.append(item(start, self.source.len(), body))?;
        Ok(())
    }

    /// Appends the text `a`.
    pub fn append_a(&mut self) -> Result<(), AllocError> {
        let start = self.source.len();
        self.source.push_str("a")?;
        self.tree.append(text(start, self.source.len()))?;
        Ok(())
    }

    /// Checks its HTML.
    pub fn shows(self, alloc: Global, row: &str, wanted: &str) -> Result<(), Fail> {
        let Grown { source, tree } = self;
        tree_shows(alloc, row, source.as_str(), tree, wanted)
    }

    /// Returns its events, each with its range.
    pub fn events(self, alloc: Global) -> Result<String, Fail> {
        let Grown { source, tree } = self;
        events_of_tree(alloc, source.as_str(), tree)
    }

    /// Checks its events, each with its range.
    pub fn gives(self, alloc: Global, row: &str, wanted: &str) -> Result<(), Fail> {
        let Grown { source, tree } = self;
        tree_gives(alloc, row, source.as_str(), tree, wanted)
    }

    /// Returns the counts of the work.
    pub fn counted(self, alloc: Global) -> Result<Work, Fail> {
        let Grown { source, tree } = self;
        counted(alloc, source.as_str(), tree)
    }

    /// Returns the events where each item stays a text, each with its range.
    pub fn texts(&self, alloc: Global) -> Result<String, AllocError> {
        let bytes = self.source.len();
        let mut events = format!(in alloc; "<p>0..{bytes} ")?;
        for ix in 2..self.tree.len() {
            push_text(alloc, &mut events, self.source.as_str(), self.tree.item(ix))?;
        }
        let end = format!(in alloc; "</p>0..{bytes} ")?;
        events.push_str(end.as_str())?;
        Ok(events)
    }
}
