//! The lines of JSON of links and of references without a definition, and those with lines and columns.
use markdown_base::options::Options;
use markdown_base::syntax::Syntax;
use markdown_defs::DefaultBrokenLinkCallback;
use markdown_inline::walk::Parser;
use markdown_links::links_source;
use markdown_lint_json::{
    broken_source, links_json_source, push_broken, push_broken_with_places, push_json_with_places,
    push_links_with_places, push_outline_with_places,
};
use markdown_outline::outline_source;
use markdown_positions::Positions;
use markdown_test_helpers::rows::gives;
use markdown_test_parsers::faults::or_fail;
use std::test::Fail;

/// Links and images of each kind, and an image in a link.
const LINKS: &str =
    "[a](b \"c\") ![d *e*](f) <gg:h> <i@j.k> [l] [m][l] [[n]] [![o](p)](q)\n\n[l]: r\n";

/// Links after each kind of line ending, a tab, and characters of two and of four bytes.
const LINES: &str = "ä\tb [c](x)\r\n[d](x)\r[e](x)\n\n𝒳 [f](x)";

#[test]
fn links(rt: HostRuntime) -> Result<(), Fail> {
    let syntax = Syntax::full(Options::ENABLE_WIKILINKS);
    let json = or_fail(links_json_source(rt.alloc(), LINKS, syntax))?;
    gives(
        "links",
        json.as_str(),
        "{\"kind\":\"link\",\"link_type\":\"Inline\",\"dest_url\":\"b\",\"title\":\"c\",\"id\":\"\",\
        \"text\":\"a\",\"range\":{\"start\":0,\"end\":10}}\n\
        {\"kind\":\"image\",\"link_type\":\"Inline\",\"dest_url\":\"f\",\"title\":\"\",\"id\":\"\",\
        \"text\":\"d e\",\"range\":{\"start\":11,\"end\":22}}\n\
        {\"kind\":\"link\",\"link_type\":\"Autolink\",\"dest_url\":\"gg:h\",\"title\":\"\",\"id\":\"\",\
        \"text\":\"gg:h\",\"range\":{\"start\":23,\"end\":29}}\n\
        {\"kind\":\"link\",\"link_type\":\"Email\",\"dest_url\":\"i@j.k\",\"title\":\"\",\"id\":\"\",\
        \"text\":\"i@j.k\",\"range\":{\"start\":30,\"end\":37}}\n\
        {\"kind\":\"link\",\"link_type\":\"Shortcut\",\"dest_url\":\"r\",\"title\":\"\",\"id\":\"l\",\
        \"text\":\"l\",\"range\":{\"start\":38,\"end\":41}}\n\
        {\"kind\":\"link\",\"link_type\":\"Reference\",\"dest_url\":\"r\",\"title\":\"\",\"id\":\"l\",\
        \"text\":\"m\",\"range\":{\"start\":42,\"end\":48}}\n\
        {\"kind\":\"link\",\"link_type\":{\"WikiLink\":{\"has_pothole\":false}},\"dest_url\":\"n\",\
        \"title\":\"\",\"id\":\"\",\"text\":\"n\",\"range\":{\"start\":49,\"end\":54}}\n\
        {\"kind\":\"link\",\"link_type\":\"Inline\",\"dest_url\":\"q\",\"title\":\"\",\"id\":\"\",\
        \"text\":\"o\",\"range\":{\"start\":55,\"end\":67}}\n\
        {\"kind\":\"image\",\"link_type\":\"Inline\",\"dest_url\":\"p\",\"title\":\"\",\"id\":\"\",\
        \"text\":\"o\",\"range\":{\"start\":56,\"end\":63}}\n",
    )
}

#[test]
fn places_of_links(rt: HostRuntime) -> Result<(), Fail> {
    let list = or_fail(links_source(rt.alloc(), LINES, Syntax::full(Options::empty())))?;
    let mut json = String::new(rt.alloc());
    push_links_with_places(&mut json, &list, &Positions::new(rt.alloc(), LINES)?)?;
    gives(
        "places of links",
        json.as_str(),
        "{\"kind\":\"link\",\"link_type\":\"Inline\",\"dest_url\":\"x\",\"title\":\"\",\"id\":\"\",\
        \"text\":\"c\",\"range\":{\"start\":5,\"end\":11},\
        \"line\":1,\"column\":5,\"end_line\":1,\"end_column\":11}\n\
        {\"kind\":\"link\",\"link_type\":\"Inline\",\"dest_url\":\"x\",\"title\":\"\",\"id\":\"\",\
        \"text\":\"d\",\"range\":{\"start\":13,\"end\":19},\
        \"line\":2,\"column\":1,\"end_line\":2,\"end_column\":7}\n\
        {\"kind\":\"link\",\"link_type\":\"Inline\",\"dest_url\":\"x\",\"title\":\"\",\"id\":\"\",\
        \"text\":\"e\",\"range\":{\"start\":20,\"end\":26},\
        \"line\":3,\"column\":1,\"end_line\":3,\"end_column\":7}\n\
        {\"kind\":\"link\",\"link_type\":\"Inline\",\"dest_url\":\"x\",\"title\":\"\",\"id\":\"\",\
        \"text\":\"f\",\"range\":{\"start\":33,\"end\":39},\
        \"line\":5,\"column\":3,\"end_line\":5,\"end_column\":9}\n",
    )
}

#[test]
fn places_of_headings(rt: HostRuntime) -> Result<(), Fail> {
    let text = "# A {#a}\n\n## B\n";
    let syntax = Syntax::full(Options::ENABLE_HEADING_ATTRIBUTES);
    let entries = or_fail(outline_source(rt.alloc(), text, syntax))?;
    let positions = Positions::new(rt.alloc(), text)?;
    let mut json = String::new(rt.alloc());
    push_outline_with_places(&mut json, entries.as_slice(), true, &positions)?;
    push_outline_with_places(&mut json, entries.as_slice(), false, &positions)?;
    gives(
        "places of headings",
        json.as_str(),
        "{\"level\":1,\"text\":\"A\",\"range\":{\"start\":0,\"end\":9},\"id\":\"a\",\
        \"line\":1,\"column\":1,\"end_line\":2,\"end_column\":1}\n\
        {\"level\":2,\"text\":\"B\",\"range\":{\"start\":10,\"end\":15},\
        \"line\":3,\"column\":1,\"end_line\":4,\"end_column\":1}\n\
        {\"level\":1,\"text\":\"A\",\"range\":{\"start\":0,\"end\":9},\
        \"line\":1,\"column\":1,\"end_line\":2,\"end_column\":1}\n\
        {\"level\":2,\"text\":\"B\",\"range\":{\"start\":10,\"end\":15},\
        \"line\":3,\"column\":1,\"end_line\":4,\"end_column\":1}\n",
    )
}

/// References of each form without a definition, and brackets that are none.
const BROKEN: &str = "[a][b] [c] [d][] ![e][f] ![g]\n[^h] [ ] \\[i] [j\\] [k][l](m) [n](o\n";

/// References after each kind of line ending, a tab, and characters of two and of four bytes.
const BROKEN_LINES: &str = "ä\tb [c]\r\n[d]\r[e]\n\n𝒳 [f]";

#[test]
fn broken_references(rt: HostRuntime) -> Result<(), Fail> {
    let syntax = Syntax::full(Options::ENABLE_FOOTNOTES);
    let links = or_fail(broken_source(rt.alloc(), BROKEN, syntax))?;
    let mut json = String::new(rt.alloc());
    push_broken(&mut json, BROKEN, links.as_slice())?;
    gives(
        "broken references",
        json.as_str(),
        "{\"link_type\":\"Reference\",\"image\":false,\"reference\":\"b\",\"range\":{\"start\":0,\"end\":6}}\n\
        {\"link_type\":\"Shortcut\",\"image\":false,\"reference\":\"c\",\"range\":{\"start\":7,\"end\":10}}\n\
        {\"link_type\":\"Collapsed\",\"image\":false,\"reference\":\"d\",\"range\":{\"start\":11,\"end\":14}}\n\
        {\"link_type\":\"Reference\",\"image\":true,\"reference\":\"f\",\"range\":{\"start\":17,\"end\":24}}\n\
        {\"link_type\":\"Shortcut\",\"image\":true,\"reference\":\"g\",\"range\":{\"start\":25,\"end\":29}}\n\
        {\"link_type\":\"Reference\",\"image\":false,\"reference\":\"l\",\"range\":{\"start\":49,\"end\":55}}\n\
        {\"link_type\":\"Shortcut\",\"image\":false,\"reference\":\"n\",\"range\":{\"start\":59,\"end\":62}}\n",
    )
}

#[test]
fn places_of_broken_references(rt: HostRuntime) -> Result<(), Fail> {
    let syntax = Syntax::full(Options::empty());
    let links = or_fail(broken_source(rt.alloc(), BROKEN_LINES, syntax))?;
    let positions = Positions::new(rt.alloc(), BROKEN_LINES)?;
    let mut json = String::new(rt.alloc());
    push_broken_with_places(&mut json, BROKEN_LINES, links.as_slice(), &positions)?;
    gives(
        "places of broken references",
        json.as_str(),
        "{\"link_type\":\"Shortcut\",\"image\":false,\"reference\":\"c\",\"range\":{\"start\":5,\"end\":8},\
        \"line\":1,\"column\":5,\"end_line\":1,\"end_column\":8}\n\
        {\"link_type\":\"Shortcut\",\"image\":false,\"reference\":\"d\",\"range\":{\"start\":10,\"end\":13},\
        \"line\":2,\"column\":1,\"end_line\":2,\"end_column\":4}\n\
        {\"link_type\":\"Shortcut\",\"image\":false,\"reference\":\"e\",\"range\":{\"start\":14,\"end\":17},\
        \"line\":3,\"column\":1,\"end_line\":3,\"end_column\":4}\n\
        {\"link_type\":\"Shortcut\",\"image\":false,\"reference\":\"f\",\"range\":{\"start\":24,\"end\":27},\
        \"line\":5,\"column\":3,\"end_line\":5,\"end_column\":6}\n",
    )
}

#[test]
fn places_of_events(rt: HostRuntime) -> Result<(), Fail> {
    let text = "ä\n\nb *a*";
    let none: Option<DefaultBrokenLinkCallback> = None;
    let syntax = Syntax::full(Options::empty());
    let parser = or_fail(Parser::of_source(rt.alloc(), text, syntax, none))?;
    let positions = Positions::new(rt.alloc(), text)?;
    let mut json = String::new(rt.alloc());
    or_fail(push_json_with_places(&mut json, parser.into_offset_iter(), &positions))?;
    gives(
        "places of events",
        json.as_str(),
        "[{\"Start\":\"Paragraph\"},{\"start\":0,\"end\":3},{\"line\":1,\"column\":1,\"end_line\":2,\"end_column\":1}]\n\
        [{\"Text\":\"ä\"},{\"start\":0,\"end\":2},{\"line\":1,\"column\":1,\"end_line\":1,\"end_column\":2}]\n\
        [{\"End\":\"Paragraph\"},{\"start\":0,\"end\":3},{\"line\":1,\"column\":1,\"end_line\":2,\"end_column\":1}]\n\
        [{\"Start\":\"Paragraph\"},{\"start\":4,\"end\":9},{\"line\":3,\"column\":1,\"end_line\":3,\"end_column\":6}]\n\
        [{\"Text\":\"b \"},{\"start\":4,\"end\":6},{\"line\":3,\"column\":1,\"end_line\":3,\"end_column\":3}]\n\
        [{\"Start\":\"Emphasis\"},{\"start\":6,\"end\":9},{\"line\":3,\"column\":3,\"end_line\":3,\"end_column\":6}]\n\
        [{\"Text\":\"a\"},{\"start\":7,\"end\":8},{\"line\":3,\"column\":4,\"end_line\":3,\"end_column\":5}]\n\
        [{\"End\":\"Emphasis\"},{\"start\":6,\"end\":9},{\"line\":3,\"column\":3,\"end_line\":3,\"end_column\":6}]\n\
        [{\"End\":\"Paragraph\"},{\"start\":4,\"end\":9},{\"line\":3,\"column\":1,\"end_line\":3,\"end_column\":6}]\n",
    )
}
