//! Titles of metadata, of headings and of files.
use markdown_base::tag::MetadataBlockKind;
use markdown_page::{file_title, heading_title, metadata_title};
use markdown_test_helpers::rows::Rows;
use std::alloc::Global;
use std::test::Fail;

/// Metadata in YAML, and the title of each.
static YAML: [(&str, Option<&str>); 44] = [
    ("title: A *b* # c\n", Some("A *b*")),
    (
        "title: \"A \\\"b\\\" \\\\\"  # c\nlang: x\n",
        Some("A \"b\" \\"),
    ),
    ("x: 1\ntitle: 'A ''b'': c'\n", Some("A 'b': c")),
    ("title: A & B\n", Some("A & B")),
    ("title: A", Some("A")),
    // line endings
    ("x: 1\r\ntitle: A\r\ny: 2\r\n", Some("A")),
    ("x: 1\rtitle: A\ry: 2\r", Some("A")),
    // the first line that fits decides, also if it is not read
    ("title: A\ntitle: B\n", Some("A")),
    ("title:\ntitle: B\n", None),
    ("title: >\n  A\n", None),
    ("title: |\n  A\n", None),
    // lines that do not fit
    (" title: A\nTitle: B\n- title: C\n", None),
    ("title:A\ntitle : B\ntitle: C\n", Some("C")),
    ("titles: A\n", None),
    ("[x]\ntitle: A\n", Some("A")),
    ("", None),
    // white space
    ("title:\t A \t\n", Some("A")),
    ("title: \u{a0}A\u{a0}\n", Some("A")),
    ("title: '  A  '\n", Some("A")),
    ("title: '  '\n", None),
    ("title: \"\"\n", None),
    // quotes
    ("title: \"A \\u0041\"\n", None),
    ("title: \"A\n", None),
    ("title: 'A\n", None),
    ("title: 'A\\'\n", Some("A\\")),
    ("title: 'A' b\n", None),
    ("title: 'A'#b\n", None),
    ("title: \"A\" #b\n", Some("A")),
    ("title: 'ä'''\n", Some("ä'")),
    // comments
    ("title: A#b\n", Some("A#b")),
    ("title: A  \t# b # c\n", Some("A")),
    ("title: # A\n", None),
    // without quotes
    ("title: ~\n", None),
    ("title: null # A\n", None),
    ("title: Null\n", None),
    ("title: nUll\n", Some("nUll")),
    ("title: A: b\n", None),
    ("title: A:\n", None),
    ("title: A:b\n", Some("A:b")),
    ("title: - A\n", None),
    ("title: -A ? b\n", Some("-A ? b")),
    ("title: ?\n", None),
    ("title: [A]\n", None),
    ("title: @A\n", None),
];

/// Metadata in TOML, and the title of each.
static TOML: [(&str, Option<&str>); 17] = [
    ("title = 'A \"b\"'\n", Some("A \"b\"")),
    ("[x]\ntitle = \"A\"\n", None),
    ("title=\"A\"\n", Some("A")),
    ("title\t=\t\"A\"\t\n", Some("A")),
    ("x = 1\r\ntitle = \"A\" # b\r\n", Some("A")),
    ("title = \"A\"#b\n", Some("A")),
    ("title = \"A\" b\n", None),
    ("title = 'A''b'\n", None),
    ("title = ''\n", None),
    ("title = 'A\\b'\n", Some("A\\b")),
    ("title = \"A\\tb\"\n", None),
    ("title = A\n", None),
    ("title =\n", None),
    ("title: \"A\"\n", None),
    (" [x]\ntitle = \"A\"\n", Some("A")),
    ("titles = \"B\"\ntitle = \"A\"\n", Some("A")),
    ("\"title\" = \"A\"\n", None),
];

/// Texts of headings, and the title of each.
static HEADINGS: [(&str, Option<&str>); 5] = [
    ("D e", Some("D e")),
    (" \t</title> & \"a\" ", Some("</title> & \"a\"")),
    ("\u{2003}D\u{a0}", Some("D")),
    (" \u{3000} ", None),
    ("", None),
];

/// Names of files, and the title of each.
static FILES: [(&str, &str); 10] = [
    ("d.md", "d"),
    ("sub.d/x y.z.md", "x y.z"),
    (".notes", ".notes"),
    ("-", "Untitled"),
    ("<img src=x onerror=\"y\">.md", "<img src=x onerror=\"y\">"),
    ("a/.b.md", ".b"),
    ("a.b/c", "c"),
    ("./-", "-"),
    ("a.", "a"),
    ("ä/ö.ü", "ö"),
];

/// Checks the titles of metadata of a kind.
fn reads(
    alloc: Global,
    kind: MetadataBlockKind,
    texts: &[(&'static str, Option<&'static str>)],
) -> Result<(), Fail> {
    let mut rows = Rows::new();
    for &(text, wanted) in texts {
        let title = metadata_title(alloc, kind, text)?;
        match title {
            Some(title) => rows.gives(text, Some(title.as_str()), wanted),
            None => rows.gives(text, None, wanted),
        }
    }
    rows.end()
}

#[test]
fn titles_in_yaml(rt: HostRuntime) -> Result<(), Fail> {
    reads(rt.alloc(), MetadataBlockKind::YamlStyle, &YAML)
}

#[test]
fn titles_in_toml(rt: HostRuntime) -> Result<(), Fail> {
    reads(rt.alloc(), MetadataBlockKind::PlusesStyle, &TOML)
}

#[test]
fn titles_of_headings() -> Result<(), Fail> {
    let mut rows = Rows::new();
    for &(text, wanted) in &HEADINGS {
        rows.gives(text, heading_title(text), wanted);
    }
    rows.end()
}

#[test]
fn titles_of_files() -> Result<(), Fail> {
    let mut rows = Rows::new();
    for &(name, wanted) in &FILES {
        rows.gives(name, file_title(name), wanted);
    }
    rows.end()
}
