//! Escapes and entities: the examples of CommonMark 2.4 and 2.5 that a text alone decides.
use markdown_base::cow_str::CowStr;
use markdown_scan::entity::EntityNames;
use markdown_scan::unescape::unescape;
use markdown_test_helpers::rows::Rows;
use std::alloc::{AllocError, Global};
use std::test::Fail;

// Returns whether a text is this one, and a slice of the source where it should be.
fn is_read(made: &CowStr<'_>, as_slice: bool, text: &str) -> bool {
    let is_slice = matches!(made, CowStr::Borrowed(_));
    made.as_str() == text && is_slice == as_slice
}

// Returns whether the text is unescaped to this one, as a slice of the source where it is the same.
fn stands_for(
    alloc: Global,
    text: &str,
    in_table: bool,
    names: EntityNames,
    expected: &str,
) -> Result<bool, AllocError> {
    let made = unescape(alloc, text, in_table, names)?;
    let is_same = is_read(&made, text == expected, expected);
    drop(made);
    Ok(is_same)
}

// Checks that the text is unescaped to this one, with either set of names.
fn reads(
    alloc: Global,
    rows: &mut Rows,
    text: &str,
    in_table: bool,
    expected: &str,
) -> Result<(), Fail> {
    for names in [EntityNames::Basic, EntityNames::Html] {
        rows.gives(
            (text, in_table),
            stands_for(alloc, text, in_table, names, expected)?,
            true,
        );
    }
    Ok(())
}

#[test]
fn escapes_and_entities(rt: HostRuntime) -> Result<(), Fail> {
    let mut rows = Rows::new();
    for &(text, expected) in &[
        // escaped punctuation, each of its 32 characters
        (
            "\\!\\\"\\#\\$\\%\\&\\'\\(\\)\\*\\+\\,\\-\\.\\/\\:\\;\\<\\=\\>\\?\\@\\[\\\\\\]\\^\\_\\`\\{\\|\\}\\~",
            "!\"#$%&'()*+,-./:;<=>?@[\\]^_`{|}~",
        ),
        ("\\*not emphasized*", "*not emphasized*"),
        (
            "\\&ouml; not a character entity",
            "&ouml; not a character entity",
        ),
        ("\\\\*emphasis*", "\\*emphasis*"),
        ("foo\\+bar", "foo+bar"),
        ("/bar\\*", "/bar*"),
        ("ti\\*tle", "ti*tle"),
        ("\\\\\\\\", "\\\\"),
        ("\\&amp;", "&amp;"),
        ("\\\\&amp;", "\\&"),
        // entities
        ("a &amp; b &lt;c&gt; &quot;d&quot;", "a & b <c> \"d\""),
        ("&#35; &#1234; &#992; &#0;", "# Ӓ Ϡ \u{FFFD}"),
        ("&#X22; &#XD06; &#xcab;", "\" ആ ಫ"),
        ("&#42;foo&#42;", "*foo*"),
        ("foo&#10;&#10;bar", "foo\n\nbar"),
        ("&#9;foo", "\tfoo"),
        // the replacement of an entity is not read again
        ("&amp;amp;", "&amp;"),
        ("&#92;*", "\\*"),
        ("é\\*é&lt;é", "é*é<é"),
        ("a\\", "a\\"),
        ("\\*a\\", "*a\\"),
    ] {
        reads(rt.alloc(), &mut rows, text, false, expected)?;
    }
    rows.end()
}

#[test]
fn texts_that_stay(rt: HostRuntime) -> Result<(), Fail> {
    let mut rows = Rows::new();
    for &text in &[
        "",
        "a",
        "é",
        "\\",
        "\\a",
        "\\\t\\A\\a\\ \\3\\φ\\«",
        "&nbsp &x; &#; &#x; &#87654321;",
        "&#abcdef0; &ThisIsNotDefined; &hi?;",
        "&copy",
        "&MadeUpEntity;",
        "a\r\nb\rc",
        "\\\n",
        "a | b",
    ] {
        reads(rt.alloc(), &mut rows, text, false, text)?;
        reads(rt.alloc(), &mut rows, text, true, text)?;
    }
    rows.end()
}

// Texts, and what each becomes with the names of HTML.
static NAMED: [(&str, &str); 10] = [
    ("/&auml;&ngE;", "/ä≧\u{338}"),
    ("&hellip;", "…"),
    ("&quot;&rarr;", "\"→"),
    ("f&ouml;&ouml;", "föö"),
    (
        "&copy &bad; &Copy; & &; &nbsp ;",
        "&copy &bad; &Copy; & &; &nbsp ;",
    ),
    ("\\&copy; &amp;copy; &#169; &#xA9;", "&copy; &copy; © ©"),
    // what replaces a name can be longer than the name
    ("&nGt;", "≫\u{20d2}"),
    ("&amp;&nLt;", "&≪\u{20d2}"),
    ("a&fjlig;b", "afjb"),
    ("&AMP;lt;", "&lt;"),
];

#[test]
fn names_of_html(rt: HostRuntime) -> Result<(), Fail> {
    let mut rows = Rows::new();
    for &(text, expected) in &NAMED {
        let read = stands_for(rt.alloc(), text, false, EntityNames::Html, expected)?;
        rows.gives(text, read, true);
    }
    rows.end()
}

// Texts that have no name but HTML's stay without these.
#[test]
fn other_names_stay(rt: HostRuntime) -> Result<(), Fail> {
    let mut rows = Rows::new();
    for &text in &["&copy;", "/&auml;&ngE;", "&AMP;", "&apos;", "&nGt;"] {
        let read = stands_for(rt.alloc(), text, false, EntityNames::Basic, text)?;
        rows.gives(text, read, true);
    }
    rows.end()
}

#[test]
fn pipes_in_a_table(rt: HostRuntime) -> Result<(), Fail> {
    let mut rows = Rows::new();
    for &(text, inside, outside) in &[
        ("\\\\|", "|", "\\|"),
        ("\\|", "|", "|"),
        ("a\\\\|b", "a|b", "a\\|b"),
        ("\\\\\\\\|", "\\|", "\\\\|"),
        ("\\\\\\|", "\\|", "\\|"),
        ("\\\\*", "\\*", "\\*"),
    ] {
        reads(rt.alloc(), &mut rows, text, true, inside)?;
        reads(rt.alloc(), &mut rows, text, false, outside)?;
    }
    rows.end()
}
