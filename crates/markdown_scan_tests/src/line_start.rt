//! Line endings, and white space by columns: the examples of CommonMark 2.2, and the bounds.
use markdown_scan::line_end::scan_line_ending;
use markdown_scan::line_start::LineStart;
use markdown_test_helpers::rows::{Rows, gives};
use std::test::Fail;

#[test]
fn line_endings() -> Result<(), Fail> {
    let mut rows = Rows::new();
    for &(text, length) in &[
        ("\n", Some(1)),
        ("\n\r", Some(1)),
        ("\r", Some(1)),
        ("\ra", Some(1)),
        ("\r\n", Some(2)),
        ("\r\n\n", Some(2)),
        ("", None),
        ("a\n", None),
        ("\u{b}", None),
        ("\u{85}", None),
        ("\u{2028}", None),
    ] {
        rows.gives(text, scan_line_ending(text.as_bytes()), length);
    }
    rows.end()
}

// Scans at most `most` columns of space of a line. Returns their number, and the bytes scanned.
fn space_of(line: &str, most: usize) -> (usize, usize) {
    let mut start = LineStart::new(line.as_bytes());
    let columns = start.scan_space_upto(most);
    (columns, start.bytes_scanned())
}

#[test]
fn a_tab_goes_to_the_next_stop() -> Result<(), Fail> {
    let mut rows = Rows::new();
    for &(line, columns, bytes) in &[
        ("", 0, 0),
        ("a", 0, 0),
        (" a", 1, 1),
        ("\ta", 4, 1),
        (" \ta", 4, 2),
        ("  \tfoo", 4, 3),
        ("   \ta", 4, 4),
        ("    \ta", 8, 5),
        ("\t\ta", 8, 2),
        ("\t \ta", 8, 3),
        ("\n", 0, 0),
    ] {
        rows.gives(line, space_of(line, 100), (columns, bytes));
    }
    rows.end()
}

// Returns the bytes scanned, and the columns that remain of the last tab.
fn state_of(start: &LineStart<'_>) -> (usize, usize) {
    (start.bytes_scanned(), start.remaining_space())
}

// Scans at most `most` columns of space. Returns their number and the state.
fn space_upto(start: &mut LineStart<'_>, most: usize) -> (usize, (usize, usize)) {
    (start.scan_space_upto(most), state_of(start))
}

// Scans this many columns of space, if there are so many. Returns whether there are, and the state.
fn space_whole(start: &mut LineStart<'_>, columns: usize) -> (bool, (usize, usize)) {
    (start.scan_space(columns), state_of(start))
}

#[test]
fn a_cut_tab_owes_its_other_columns() -> Result<(), Fail> {
    let mut start = LineStart::new(" \t\tfoo".as_bytes());
    let upto = [space_upto(&mut start, 2), space_upto(&mut start, 1)];
    let whole = [space_whole(&mut start, 6), space_whole(&mut start, 5)];
    let is_at_eol = start.is_at_eol();
    gives("up to 2, up to 1", upto, [(2, (2, 2)), (1, (2, 1))])?;
    gives("6, 5", whole, [(false, (2, 1)), (true, (3, 0))])?;
    gives("is at the end", is_at_eol, false)
}

// `>\t\tfoo` is a block quote with the indented code `  foo`.
#[test]
fn a_marker_takes_one_column_of_a_tab() -> Result<(), Fail> {
    let mut start = LineStart::new(">\t\tfoo".as_bytes());
    let marker = (start.scan_blockquote_marker(), state_of(&start));
    let whole = space_whole(&mut start, 4);
    let rest = start.scan_space_upto(100);
    gives(
        "marker and 4",
        [marker, whole],
        [(true, (2, 2)), (true, (3, 2))],
    )?;
    gives("up to 100", rest, 2)
}

// Returns whether there is a block quote marker after this number of columns of space, and the bytes scanned.
fn marker_of(line: &str, spaces: usize) -> (bool, usize) {
    let mut start = LineStart::new(line.as_bytes());
    start.scan_space_upto(spaces);
    (start.scan_blockquote_marker(), start.bytes_scanned())
}

#[test]
fn markers() -> Result<(), Fail> {
    let mut rows = Rows::new();
    for &(line, spaces, is_marker, bytes) in &[
        ("> a", 0, true, 2),
        (">a", 0, true, 1),
        (">  a", 0, true, 2),
        (">", 0, true, 1),
        ("   > a", 3, true, 5),
        (" > a", 0, false, 0),
        ("a", 0, false, 0),
        ("", 0, false, 0),
        ("\t> a", 3, false, 1),
        ("\t> a", 4, true, 3),
    ] {
        rows.gives(line, marker_of(line, spaces), (is_marker, bytes));
    }
    rows.end()
}

// Returns whether the space of a line extends to its end, and then no column remains.
fn is_blank(line: &str) -> bool {
    let mut start = LineStart::new(line.as_bytes());
    start.scan_all_space();
    start.is_at_eol() && start.remaining_space() == 0
}

#[test]
fn blank_lines() -> Result<(), Fail> {
    let mut rows = Rows::new();
    for &(line, blank) in &[
        ("", true),
        ("\n", true),
        ("\r\n", true),
        (" \t \ra", true),
        ("  a", false),
        ("\u{b}", false),
    ] {
        rows.gives(line, is_blank(line), blank);
    }
    rows.end()
}
