//! What the calls of the block builder make: a tight list, a paragraph that becomes a heading, parts by number,
//! delimiter runs.
ghost use Rattle.std.specs.Prelude.{◌≡◌, false};
ghost use Rattle.std.specs.Str.{IsCharBoundary};

use crate::block_rules::is_well_formed;
use markdown_base::block_parts::{BlockParts, LinkDef};
use markdown_base::cow_str::CowStr;
use markdown_base::item::{Item, ItemBody};
use markdown_base::tag::HeadingLevel;
use markdown_base::tree::Tree;
use markdown_builder::builder::Builder;
use markdown_builder::run_end;
use markdown_test_helpers::rows::gives;
use markdown_test_helpers::trees::{TEXT, push_items};
use std::alloc::{AllocError, Global};
use std::test::Fail;

/// Closes the innermost block, which is no row of a table.
fn close_block(builder: &mut Builder<'_>) {
    if !builder.is_in_row() {
        builder.close();
    }
}

/// Closes `count` blocks.
fn close_blocks(builder: &mut Builder<'_>, count: u8) {
    for _ in 0..count {
        close_block(builder);
    }
}

/// Opens a tight list with an item that contains a paragraph, up to the end of the text.
fn open_tight_list(builder: &mut Builder<'_>) -> Result<(), AllocError>
    requires outside { builder.old.leaf ≡ false }
    requires fresh { builder.old.at ≡ 0 }
    requires last { IsCharBoundary builder.old.text 4 }
{
    builder.open(ItemBody::List(true, b'-', 0))?;
    builder.open(ItemBody::ListItem(2))?;
    builder.open(ItemBody::Paragraph)?;
    builder.skip(4);
    Ok(())
}

/// Returns a body as `Debug` prints it.
fn print_body(alloc: Global, body: ItemBody) -> Result<String, AllocError> {
    format!(in alloc; "{body:?}")
}

/// Returns the items of a tree in preorder.
fn listed(alloc: Global, tree: &mut Tree<Item>) -> Result<String, AllocError> {
    let mut list = String::new(alloc);
    push_items(alloc, &mut list, tree, print_body)?;
    Ok(list)
}

/// Returns the tree that was built, or None where a block is open or text is left.
pub fn finished(builder: Builder<'_>) -> Option<Tree<Item>> {
    if !builder.open_blocks().is_empty() || builder.at() != builder.text().as_bytes().len() {
        drop(builder);
        return None;
    }
    let (tree, parts) = builder.finish();
    drop(parts);
    Some(tree)
}

/// Checks the items of what was built, and that their tree is well-formed.
fn has_items(alloc: Global, builder: Builder<'static>, wanted: &str) -> Result<(), Fail> {
    let over = builder.text();
    let Some(mut tree) = finished(builder) else {
        return gives(over, "open", "closed");
    };
    let list = listed(alloc, &mut tree);
    let is_formed = is_well_formed(alloc, over, tree);
    gives(over, list?.as_str(), wanted)?;
    gives(over, is_formed?, true)
}

#[test]
fn paragraphs_of_a_tight_list_are_tight(rt: HostRuntime) -> Result<(), Fail> {
    let mut builder = Builder::new(rt.alloc(), "- a\n")?;
    open_tight_list(&mut builder)?;
    close_blocks(&mut builder, 3);
    has_items(
        rt.alloc(),
        builder,
        "0 List(true, 45, 0) 0..4;1 ListItem(2) 0..4;2 TightParagraph 0..4;",
    )
}

#[test]
fn a_paragraph_becomes_a_heading(rt: HostRuntime) -> Result<(), Fail> {
    let mut builder = Builder::new(rt.alloc(), "a\n=\n")?;
    builder.open(ItemBody::Paragraph)?;
    builder.skip(4);
    builder.change(ItemBody::Heading(HeadingLevel::H1, None));
    close_block(&mut builder);
    has_items(rt.alloc(), builder, "0 Heading(H1, None) 0..4;")
}

/// Appends a row that was made.
fn push_row(list: &mut String, row: Result<String, AllocError>) -> Result<(), AllocError> {
    let row = row?;
    list.push_str(row.as_str())
}

/// Returns a definition: its label, its destination and its range.
fn definition_row(
    alloc: Global,
    label: &CowStr<'_>,
    link: &LinkDef<'_>,
) -> Result<String, AllocError> {
    let span = &link.span;
    format!(in alloc; "[{label}]: {} {}..{}; ", link.dest, span.start, span.end)
}

/// Returns the definitions, footnotes and texts of parts.
fn name_parts(alloc: Global, parts: &BlockParts<'_>) -> Result<String, AllocError> {
    let mut list = String::new(alloc);
    for (label, link) in &parts.definitions {
        push_row(&mut list, definition_row(alloc, label, link))?;
    }
    for name in &parts.footnotes {
        push_row(&mut list, format!(in alloc; "[^{name}]; "))?;
    }
    for text in &parts.cows {
        push_row(&mut list, format!(in alloc; "{text}; "))?;
    }
    Ok(list)
}

#[test]
fn definitions_and_footnotes_are_kept(rt: HostRuntime) -> Result<(), Fail> {
    let mut builder = Builder::new(rt.alloc(), "[a]: b\n")?;
    builder.define(CowStr::Borrowed("a"), CowStr::Borrowed("b"), None, 6)?;
    builder.open_footnote(CowStr::Borrowed("n"), CowStr::Borrowed("n"))?;
    builder.skip(7);
    if builder.is_in_row() {
        return gives("innermost", "a row", "a footnote definition");
    }
    builder.close();
    let (_tree, parts) = builder.finish();
    let held = name_parts(rt.alloc(), &parts);
    drop(parts);
    gives("parts", held?.as_str(), "[a]: b 0..6; [^n]; n; ")
}

/// Returns a paragraph with a run of two `*` that can open, a letter, and a `*` that can close; or nothing, where the runs
/// do not end at 2 and 4.
fn runs(alloc: Global) -> Result<Builder<'static>, AllocError> {
    let over = "**a*";
    let first = run_end(over, 0, b'*');
    let second = run_end(over, 3, b'*');
    let mut builder = Builder::new(alloc, over)?;
    if first == 2 && second == 4 {
        builder.open(ItemBody::Paragraph)?;
        builder.run(b'*', first, true, false)?;
        builder.inline(TEXT, 3)?;
        builder.run(b'*', second, false, true)?;
        close_block(&mut builder);
    }
    Ok(builder)
}

#[test]
fn delimiter_runs_are_whole(rt: HostRuntime) -> Result<(), Fail> {
    has_items(
        rt.alloc(),
        runs(rt.alloc())?,
        "0 Paragraph 0..4;1 MaybeEmphasis(2, true, false) 0..1;1 MaybeEmphasis(1, true, false) 1..2;\
        1 Text { backslash_escaped: false } 2..3;1 MaybeEmphasis(1, false, true) 3..4;",
    )
}
