//! Comparisons for tests of the block pass: small texts with their items and definitions. Each call of the block pass
//! also has to fit.
use markdown_base::block_parts::LinkDef;
use markdown_base::cow_str::CowStr;
use markdown_base::item::ItemBody;
use markdown_base::options::Options;
use markdown_base::syntax::Syntax;
use markdown_plain::blocks;
use markdown_test_helpers::rows::Rows;
use markdown_test_helpers::trees::push_items;
use std::alloc::{AllocError, Global};
use std::test::Fail;

/// Returns a body as `Debug` prints it.
fn print_body(alloc: Global, body: ItemBody) -> Result<String, AllocError> {
    format!(in alloc; "{body:?}")
}

/// Appends a definition: its label, its destination, its title, if it has one, and its range.
fn push_definition(
    alloc: Global,
    list: &mut String,
    label: &str,
    link: &LinkDef<'_>,
) -> Result<(), AllocError> {
    let title = match &link.title {
        Some(title) => format!(in alloc; "\"{}\" ", title.as_str())?,
        None => String::new(alloc),
    };
    let row = format!(in alloc;
        "[{}]: <{}> {}{}..{};",
        label,
        link.dest.as_str(),
        title.as_str(),
        link.span.start,
        link.span.end
    )?;
    drop(title);
    list.push_str(row.as_str())
}

/// Appends definitions.
fn push_definitions(
    alloc: Global,
    list: &mut String,
    definitions: &[(CowStr<'_>, LinkDef<'_>)],
) -> Result<(), AllocError> {
    for (label, link) in definitions {
        push_definition(alloc, list, label.as_str(), link)?;
    }
    Ok(())
}

/// Returns the items of a text's blocks, and then the definitions.
fn listed(alloc: Global, text: &str, options: Options) -> Result<String, AllocError> {
    let (mut tree, parts) = blocks(alloc, text, Syntax::profile(options))?;
    let mut list = String::new(alloc);
    let items_done = push_items(alloc, &mut list, &mut tree, print_body);
    let definitions_done = push_definitions(alloc, &mut list, &parts.definitions);
    drop(tree);
    drop(parts);
    items_done?;
    definitions_done?;
    Ok(list)
}

const TEXT: &str = "Text { backslash_escaped: false }";

/// Returns the items of a text's blocks, with `T` for a Text, and then the definitions.
pub fn shown(alloc: Global, text: &str, options: Options) -> Result<String, AllocError> {
    let list = listed(alloc, text, options)?;
    let short = list.as_str().replace(alloc, TEXT, "T");
    drop(list);
    short
}

/// Checks the items and the definitions of each text, read with no options.
pub fn compare(alloc: Global, table: &[(&str, &str)]) -> Result<(), Fail> {
    let mut rows = Rows::new();
    for (text, want) in table {
        rows.gives_text(text, shown(alloc, text, Options::empty())?, want);
    }
    rows.end()
}
