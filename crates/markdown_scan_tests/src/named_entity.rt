//! Named entities: the examples of CommonMark 2.5, and the ends of the table.
use markdown_entities::named_entity::scan_named_entity;
use markdown_test_helpers::rows::Rows;
use std::test::Fail;

/// Texts, and the length of the entity that each begins with, and its characters.
static TEXTS: [(&str, Option<(usize, &str)>); 51] = [
    ("&amp;", Some((5, "&"))),
    ("&AMP;", Some((5, "&"))),
    ("&lt;b", Some((4, "<"))),
    ("&quot;", Some((6, "\""))),
    ("&nbsp; ", Some((6, "\u{a0}"))),
    ("&AElig;", Some((7, "\u{c6}"))),
    ("&zwnj;", Some((6, "\u{200c}"))),
    ("&copy;", Some((6, "\u{a9}"))),
    ("&auml;", Some((6, "\u{e4}"))),
    ("&Auml;", Some((6, "\u{c4}"))),
    ("&Dcaron;", Some((8, "\u{10e}"))),
    ("&frac34;", Some((8, "\u{be}"))),
    ("&HilbertSpace;", Some((14, "\u{210b}"))),
    ("&DifferentialD;", Some((15, "\u{2146}"))),
    ("&bsol;", Some((6, "\\"))),
    ("&semi;", Some((6, ";"))),
    ("&there4;", Some((8, "\u{2234}"))),
    // the longest and the shortest names
    ("&CounterClockwiseContourIntegral;", Some((33, "\u{2233}"))),
    ("&GT;", Some((4, ">"))),
    ("&gg;", Some((4, "\u{226b}"))),
    // white space
    ("&Tab;a", Some((5, "\t"))),
    ("&NewLine;", Some((9, "\n"))),
    // two characters
    ("&ngE;", Some((5, "\u{2267}\u{338}"))),
    ("&NotEqualTilde;", Some((15, "\u{2242}\u{338}"))),
    ("&fjlig;", Some((7, "fj"))),
    ("&ThickSpace;", Some((12, "\u{205f}\u{200a}"))),
    ("&bne;", Some((5, "=\u{20e5}"))),
    // names of which one begins as another
    ("&sup;", Some((5, "\u{2283}"))),
    ("&sup1;", Some((6, "\u{b9}"))),
    ("&supe;", Some((6, "\u{2287}"))),
    // other texts
    ("", None),
    ("&", None),
    ("&;", None),
    ("&copy", None),
    ("&copy ", None),
    ("&bad;", None),
    ("&Copy;", None),
    ("&COPY", None),
    ("&nbsp ;", None),
    ("& nbsp;", None),
    ("copy;", None),
    (" &copy;", None),
    ("\\&copy;", None),
    ("&#38;", None),
    ("&&amp;", None),
    ("&amp&", None),
    ("&ThisIsNotDefined;", None),
    ("&MadeUpEntity;", None),
    ("&1a;", None),
    ("&aé;", None),
    ("&CounterClockwiseContourIntegrals;", None),
];

#[test]
fn names() -> Result<(), Fail> {
    let mut rows = Rows::new();
    for &(text, wanted) in &TEXTS {
        rows.gives(text, scan_named_entity(text.as_bytes()), wanted);
    }
    rows.end()
}
