//! The block pass on small texts.
use markdown_base::block_parts::BlockParts;
use markdown_base::item::{Item, ItemBody};
use markdown_base::options::Options;
use markdown_base::syntax::Syntax;
use markdown_base::tree::Tree;
use markdown_plain::blocks;
use markdown_test_helpers::documents::random_text;
use markdown_test_helpers::rows::{Rows, gives};
use markdown_test_helpers::trees::push_items;
use std::alloc::{AllocError, Global};
use std::test::Fail;

/// Returns the name of a body that the block pass makes.
fn name_of(alloc: Global, body: ItemBody) -> Result<String, AllocError> {
    let name = match body {
        ItemBody::Paragraph => "Paragraph",
        ItemBody::Text { .. } => "Text",
        ItemBody::SoftBreak => "SoftBreak",
        ItemBody::HardBreak(true) => "HardBreak(true)",
        ItemBody::HardBreak(false) => "HardBreak(false)",
        _ => "another",
    };
    String::from_str(alloc, name)
}

/// Returns the items of a text's blocks.
fn listed(alloc: Global, text: &str) -> Result<String, AllocError> {
    let (mut tree, parts) = blocks(alloc, text, Syntax::profile(Options::empty()))?;
    let mut list = String::new(alloc);
    let done = push_items(alloc, &mut list, &mut tree, name_of);
    drop(tree);
    drop(parts);
    done?;
    Ok(list)
}

#[test]
fn paragraphs(rt: HostRuntime) -> Result<(), Fail> {
    let mut rows = Rows::new();
    for &(text, want) in &[
        ("", ""),
        (" \t\r\n\n  \r \t", ""),
        ("hello world", "0 Paragraph 0..11;1 Text 0..11;"),
        ("  hello \t\n", "0 Paragraph 2..10;1 Text 2..7;"),
        ("é\n", "0 Paragraph 0..3;1 Text 0..2;"),
        (
            "a\n  \t\nb",
            "0 Paragraph 0..2;1 Text 0..1;0 Paragraph 6..7;1 Text 6..7;",
        ),
    ] {
        rows.gives_text(text, listed(rt.alloc(), text)?, want);
    }
    rows.end()
}

#[test]
fn breaks(rt: HostRuntime) -> Result<(), Fail> {
    let mut rows = Rows::new();
    for &(text, want) in &[
        (
            "a\nb",
            "0 Paragraph 0..3;1 Text 0..1;1 SoftBreak 1..2;1 Text 2..3;",
        ),
        (
            "a  \nb",
            "0 Paragraph 0..5;1 Text 0..1;1 HardBreak(false) 1..4;1 Text 4..5;",
        ),
        (
            "a\t \n b",
            "0 Paragraph 0..6;1 Text 0..1;1 SoftBreak 3..4;1 Text 5..6;",
        ),
        (
            "a\\\nb",
            "0 Paragraph 0..4;1 Text 0..1;1 HardBreak(true) 1..3;1 Text 3..4;",
        ),
        (
            "a\\\\\nb",
            "0 Paragraph 0..5;1 Text 0..1;1 Text 2..3;1 SoftBreak 3..4;1 Text 4..5;",
        ),
        (
            "\\\nb",
            "0 Paragraph 0..3;1 HardBreak(true) 0..2;1 Text 2..3;",
        ),
        ("a\\", "0 Paragraph 0..2;1 Text 0..2;"),
        (
            "a\rb\r",
            "0 Paragraph 0..4;1 Text 0..1;1 SoftBreak 1..2;1 Text 2..3;",
        ),
        (
            "a\r\nb\r\n",
            "0 Paragraph 0..6;1 Text 0..1;1 SoftBreak 1..3;1 Text 3..4;",
        ),
    ] {
        rows.gives_text(text, listed(rt.alloc(), text)?, want);
    }
    rows.end()
}

#[test]
fn nothing_is_named(rt: HostRuntime) -> Result<(), Fail> {
    let text = "a  \nb\\\n\nc";
    let (tree, parts) = blocks(rt.alloc(), text, Syntax::profile(Options::empty()))?;
    let nodes = tree.len();
    let named = [
        parts.definitions.len(),
        parts.footnotes.len(),
        parts.cows.len(),
        parts.alignments.len(),
        parts.headings.len(),
    ];
    drop(tree);
    drop(parts);
    gives("nodes, and each kind of part", (nodes, named), (7, [0; 5]))
}

/// Returns how many letters `é` are in the bytes from `start` to `end` of a text.
fn count_in(text: &str, start: usize, end: usize) -> usize {
    match text.get(start..end) {
        Some(part) => part.matches('é').count(),
        None => 0,
    }
}

/// Returns how many are in the inline items of a tree. The walk ends after 10,000 steps.
fn count_in_items(text: &str, tree: &mut Tree<Item>) -> usize {
    let mut count = 0usize;
    tree.reset();
    for _ in 0..10000 {
        if let Some(ix) = tree.cur() {
            let item = *tree.item(ix);
            if item.body.is_inline() {
                count = count.saturating_add(count_in(text, item.start, item.end));
            }
            if tree.push().is_err() {
                return count;
            }
        } else if let Some(ix) = tree.pop() {
            tree.next_sibling(ix);
        } else {
            return count;
        }
    }
    count
}

/// Returns how many are in the info strings and in the ranges of the definitions.
fn count_in_parts(text: &str, parts: &BlockParts<'_>) -> usize {
    let mut count = 0usize;
    for info in &parts.cows {
        count = count.saturating_add(info.as_str().matches('é').count());
    }
    for (_, link) in &parts.definitions {
        count = count.saturating_add(count_in(text, link.span.start, link.span.end));
    }
    count
}

/// Checks that each letter `é` of a text is in an item, in an info string or in a definition, and in only one.
fn keeps_letters(alloc: Global, text: &str, options: Options) -> Result<(), Fail> {
    let (mut tree, parts) = blocks(alloc, text, Syntax::profile(options))?;
    let in_items = count_in_items(text, &mut tree);
    let in_parts = count_in_parts(text, &parts);
    drop(tree);
    drop(parts);
    let found = in_items.saturating_add(in_parts);
    gives((text, options), found, text.matches('é').count())
}

/// Checks the same without footnotes and with those of each style.
fn keeps_letters_with_footnotes(alloc: Global, text: &str) -> Result<(), Fail> {
    keeps_letters(alloc, text, Options::empty())?;
    keeps_letters(alloc, text, Options::ENABLE_FOOTNOTES)?;
    keeps_letters(alloc, text, Options::ENABLE_OLD_FOOTNOTES)
}

#[test]
fn no_letter_is_lost(rt: HostRuntime) -> Result<(), Fail> {
    let mut seed = 1;
    for _ in 0..1000 {
        let text = random_text(rt.alloc(), &mut seed)?;
        keeps_letters_with_footnotes(rt.alloc(), text.as_str())?;
    }
    Ok(())
}
