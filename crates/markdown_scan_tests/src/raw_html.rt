//! Comments, CDATA sections, declarations and processing instructions: the examples of CommonMark
//! 6.6 that one scan decides, each from its `<` on, with the length of the raw HTML.
use markdown_raw_html::raw_html::RawHtmlScanner;
use markdown_test_helpers::rows::{Rows, gives};
use std::test::Fail;

#[derive(Clone, Copy, Drop)]
enum Kind {
    Comment,
    CdataSection,
    Declaration,
    Instruction,
}

// Returns the end of the raw HTML that a text begins with, if it is of this kind. Each kind begins with two bytes.
fn end_of(kind: Kind, text: &str) -> Option<usize> {
    let mut scanner = RawHtmlScanner::new(text.as_bytes());
    if scanner.text.len() < 2 {
        return None;
    }
    match kind {
        Kind::Comment => scanner.scan_comment(2),
        Kind::CdataSection => scanner.scan_cdata_section(2),
        Kind::Declaration => scanner.scan_declaration(2),
        Kind::Instruction => scanner.scan_processing_instruction(2),
    }
}

/// Texts, and where the raw HTML of a kind that each begins with ends.
static TEXTS: [(Kind, &str, Option<usize>); 39] = [
    (
        Kind::Comment,
        "<!-- this is a --\ncomment - with hyphens -->",
        Some(44),
    ),
    (Kind::Comment, "<!--> foo -->", Some(5)),
    (Kind::Comment, "<!---> foo -->", Some(6)),
    (Kind::Comment, "<!---->", Some(7)),
    (Kind::Comment, "<!----->", Some(8)),
    (Kind::Comment, "<!-- a -- b --> c -->", Some(15)),
    (Kind::Comment, "<!-- a --->", Some(11)),
    (Kind::Comment, "<!-- é -->", Some(11)),
    (Kind::Comment, "<!-- a -- >", None),
    (Kind::Comment, "<!--", None),
    (Kind::Comment, "<!---", None),
    (Kind::Comment, "<!-", None),
    (Kind::Comment, "<!", None),
    (Kind::Comment, "<!- a -->", None),
    (Kind::Comment, "<!-- a", None),
    (Kind::CdataSection, "<![CDATA[>&<]]>", Some(15)),
    (Kind::CdataSection, "<![CDATA[]]>", Some(12)),
    (Kind::CdataSection, "<![CDATA[]]]>", Some(13)),
    (Kind::CdataSection, "<![CDATA[ a ]> ]] > ]]> ]]>", Some(23)),
    (Kind::CdataSection, "<![CDATA[ a ]>", None),
    (Kind::CdataSection, "<![cdata[]]>", None),
    (Kind::CdataSection, "<![CDATA]]>", None),
    (Kind::CdataSection, "<![CDATA[", None),
    (Kind::CdataSection, "<!", None),
    (Kind::Declaration, "<!ELEMENT br EMPTY>", Some(19)),
    (Kind::Declaration, "<!a>", Some(4)),
    (Kind::Declaration, "<!Z \">\">", Some(6)),
    (Kind::Declaration, "<!>", None),
    (Kind::Declaration, "<! a>", None),
    (Kind::Declaration, "<!1>", None),
    (Kind::Declaration, "<!é>", None),
    (Kind::Declaration, "<!ELEMENT", None),
    (Kind::Declaration, "<!", None),
    (Kind::Instruction, "<?php echo $a; ?>", Some(17)),
    (Kind::Instruction, "<??>", Some(4)),
    (Kind::Instruction, "<?a > b ?> c ?>", Some(10)),
    (Kind::Instruction, "<?>", None),
    (Kind::Instruction, "<?a>", None),
    (Kind::Instruction, "<?", None),
];

#[test]
fn kinds() -> Result<(), Fail> {
    let mut rows = Rows::new();
    for &(kind, text, end) in &TEXTS {
        rows.gives(text, end_of(kind, text), end);
    }
    rows.end()
}

#[test]
fn a_scan_that_failed_changes_no_other() -> Result<(), Fail> {
    let mut scanner = RawHtmlScanner::new(b"<!-- a --> <!-- b <!-- c <!a> <?x");
    let ends = [
        scanner.scan_comment(13),
        scanner.scan_comment(20),
        scanner.scan_comment(13),
        scanner.scan_comment(2),
        scanner.scan_declaration(27),
        scanner.scan_processing_instruction(32),
        scanner.scan_cdata_section(2),
        scanner.scan_comment(33),
    ];
    let wanted = [None, None, None, Some(10), Some(29), None, None, None];
    gives("the ends", ends, wanted)
}
