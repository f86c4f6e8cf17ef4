//! How many cells are added to the rows of a table, by the full reading.
use markdown_base::options::Options;
use markdown_test_parsers::html::parser_shows;
use markdown_test_parsers::parsers::extended_parser;
use std::alloc::{AllocError, Global};
use std::test::Fail;

/// Appends a text a number of times.
fn push_times(text: &mut String, part: &str, count: usize) -> Result<(), AllocError> {
    for _ in 0..count {
        text.push_str(part)?;
    }
    Ok(())
}

/// Returns a table of 40 columns whose rows lack 39 cells each, and the HTML of the first 25 of its rows, with what
/// follows them: two lines of a paragraph.
fn wide_table(alloc: Global, rows: usize) -> Result<(String, String), AllocError> {
    let mut text = String::new(alloc);
    push_times(&mut text, "|a", 40)?;
    text.push_str("|\n")?;
    push_times(&mut text, "|-", 40)?;
    text.push_str("|\n")?;
    push_times(&mut text, "a\n", rows)?;
    let mut html = String::new(alloc);
    html.push_str("<table><thead><tr>")?;
    push_times(&mut html, "<th>a</th>", 40)?;
    html.push_str("</tr></thead><tbody>\n")?;
    for _ in 0..25 {
        html.push_str("<tr><td>a</td>")?;
        push_times(&mut html, "<td></td>", 39)?;
        html.push_str("</tr>\n")?;
    }
    html.push_str("</tbody></table>\n<p>a\na</p>\n")?;
    Ok((text, html))
}

/// 25 rows add 975 cells; one more would add more than 1,000, so that it is no row.
#[test]
fn added_cells(rt: HostRuntime) -> Result<(), Fail> {
    let (text, html) = wide_table(rt.alloc(), 27)?;
    let parser = extended_parser(rt.alloc(), text.as_str(), Options::ENABLE_TABLES)?;
    parser_shows(rt.alloc(), "added cells", parser, html.as_str())
}
