//! Block results: empty, large and deep ones; the parts of one, and the caller's options; and the blocks of a text.
use crate::block_rules::is_well_formed;
use bitflags::Flags;
use markdown_base::block_parts::BlockParts;
use markdown_base::cow_str::CowStr;
use markdown_base::item::{Item, ItemBody};
use markdown_base::options::Options;
use markdown_base::tree::Tree;
use markdown_blocks::Blocks;
use markdown_test_helpers::parts::{no_parts, one_text};
use markdown_test_helpers::rows::{Rows, gives};
use markdown_test_helpers::trees::{item, nested, push_items, text, tree_of};
use std::alloc::{AllocError, Global};
use std::test::Fail;

/// Returns a tree of `count` rules side by side.
fn wide(alloc: Global, count: u32) -> Result<Tree<Item>, AllocError> {
    let mut tree = Tree::new(alloc)?;
    for _ in 0..count {
        tree.append(item(0, 1, ItemBody::Rule))?;
    }
    Ok(tree)
}

#[test]
fn empty_large_and_deep(rt: HostRuntime) -> Result<(), Fail> {
    let alloc = rt.alloc();
    let empty = is_well_formed(alloc, "", Tree::new(alloc)?)?;
    let large = is_well_formed(alloc, "a", wide(alloc, 100_000)?)?;
    let quote = item(0, 1, ItemBody::BlockQuote(None));
    let deep = is_well_formed(alloc, "a", nested(alloc, quote, 10_000)?)?;
    gives("empty, large and deep", [empty, large, deep], [true; 3])
}

#[test]
fn what_was_checked_comes_back(rt: HostRuntime) -> Result<(), Fail> {
    let alloc = rt.alloc();
    let tree = tree_of(
        alloc,
        &[(0, item(0, 1, ItemBody::Paragraph)), (1, text(0, 1))],
    )?;
    let blocks = Blocks::checked(alloc, "a", Options::ENABLE_MATH, tree, one_text(alloc)?)?;
    let (source, options, tree, parts) = blocks.into_parts();
    let held = listed(alloc, tree, parts);
    gives("source", source, "a")?;
    gives("options", options, Options::ENABLE_MATH)?;
    gives(
        "items and texts",
        held?.as_str(),
        "0 Paragraph 0..1;1 Text { backslash_escaped: false } 0..1;x;",
    )
}

/// Returns whether entities are read in full, as they are by the full reading alone, and the options.
fn reading_and_options(blocks: Blocks<'_>) -> (bool, Options) {
    let full = blocks.syntax().entities;
    let (_, options, tree, parts) = blocks.into_parts();
    drop(tree);
    drop(parts);
    (full, options)
}

#[test]
fn a_reading_and_all_options_come_back(rt: HostRuntime) -> Result<(), Fail> {
    let alloc = rt.alloc();
    let all = Options::from_bits_retain(u32::MAX);
    let text = Blocks::of_text(alloc, "a", all)?;
    gives("of_text", reading_and_options(text), (false, all))?;
    let extended = Blocks::of_extended(alloc, "a", all)?;
    gives("of_extended", reading_and_options(extended), (true, all))?;
    let made = Blocks::checked(alloc, "a", all, Tree::new(alloc)?, no_parts(alloc))?;
    gives("checked", reading_and_options(made), (false, all))?;
    let made = Blocks::checked_extended(alloc, "a", all, Tree::new(alloc)?, no_parts(alloc))?;
    gives("checked_extended", reading_and_options(made), (true, all))
}

/// Returns a body as `Debug` prints it.
fn print_body(alloc: Global, body: ItemBody) -> Result<String, AllocError> {
    format!(in alloc; "{body:?}")
}

/// Appends texts, one after another.
fn push_texts(list: &mut String, texts: &[CowStr<'_>]) -> Result<(), AllocError> {
    for text in texts {
        list.push_str(text.as_str())?;
        list.push_str(";")?;
    }
    Ok(())
}

/// Returns the items of a tree, and then the texts that they refer to.
fn listed(alloc: Global, tree: Tree<Item>, parts: BlockParts<'_>) -> Result<String, AllocError> {
    let mut tree = tree;
    let mut list = String::new(alloc);
    let items_done = push_items(alloc, &mut list, &mut tree, print_body);
    let texts_done = push_texts(&mut list, &parts.cows);
    drop(tree);
    drop(parts);
    items_done?;
    texts_done?;
    Ok(list)
}

/// Checks the items of the blocks of a text, and that the text and the options are returned.
fn has_items(alloc: Global, rows: &mut Rows, source: &str, items: &str) -> Result<(), Fail> {
    let blocks = Blocks::of_text(alloc, source, Options::ENABLE_MATH)?;
    let (text, options, tree, parts) = blocks.into_parts();
    let held = listed(alloc, tree, parts);
    rows.gives(source, text, source);
    rows.gives(source, options, Options::ENABLE_MATH);
    rows.gives_text(source, held?, items);
    Ok(())
}

#[test]
fn a_text_has_blocks_of_its_own(rt: HostRuntime) -> Result<(), Fail> {
    let table = &[
        ("", ""),
        (" \t\n", ""),
        (
            "hello world",
            "0 Paragraph 0..11;1 Text { backslash_escaped: false } 0..11;",
        ),
        (
            "a\nb",
            "0 Paragraph 0..3;1 Text { backslash_escaped: false } 0..1;1 SoftBreak 1..2;\
            1 Text { backslash_escaped: false } 2..3;",
        ),
        (
            "a\r\n\r\né",
            "0 Paragraph 0..3;1 Text { backslash_escaped: false } 0..1;\
            0 Paragraph 5..7;1 Text { backslash_escaped: false } 5..7;",
        ),
        (
            "&lt;",
            "0 Paragraph 0..4;1 SynthesizeText(CowIndex(0)) 0..4;<;",
        ),
    ];
    let mut rows = Rows::new();
    for &(source, items) in table {
        has_items(rt.alloc(), &mut rows, source, items)?;
    }
    rows.end()
}
