//! The pipe of a wikilink.
use markdown_scan::wikilink_pipe::scan_wikilink_pipe;
use markdown_test_helpers::rows::gives;
use std::test::Fail;

#[test]
fn pipes() -> Result<(), Fail> {
    let text = "[[aé|b|c]] |";
    let pipes = [
        scan_wikilink_pipe(text, 2, 7),
        scan_wikilink_pipe(text, 6, 3),
        scan_wikilink_pipe(text, 2, 3),
        scan_wikilink_pipe(text, 5, 1),
        scan_wikilink_pipe(text, 0, 0),
        scan_wikilink_pipe("", 0, 0),
    ];
    let wanted = [
        Some((6, "aé")),
        Some((8, "b")),
        None,
        Some((6, "")),
        None,
        None,
    ];
    gives(text, pipes, wanted)
}
