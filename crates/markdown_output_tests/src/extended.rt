//! The calls of the full reading, each once.
use markdown_base::options::Options;
use markdown_defs::DefaultBrokenLinkCallback;
use markdown_render::render_extended;
use markdown_safe::safe_html_extended;
use markdown_test_helpers::rows::gives;
use markdown_test_parsers::faults::or_fail;
use markdown_test_parsers::parsers::{extended_parser, parser_gives};
use markdown_text_json::{outline_json_extended, text_json_extended};
use std::alloc::Global;
use std::test::Fail;

/// A text with raw HTML, strikethrough and a heading.
const TEXT: &str = "# a ~~b~~ <c>\n";

const OPTIONS: Options = Options::ENABLE_STRIKETHROUGH;

#[test]
fn events(rt: HostRuntime) -> Result<(), Fail> {
    let parser = extended_parser(rt.alloc(), TEXT, OPTIONS)?;
    parser_gives(
        rt.alloc(),
        TEXT,
        parser,
        "<h1>0..14 [a ]2..4 <del>4..9 [b]6..7 </del>4..9 [ ]9..10 (<c>)10..13 </h1>0..14 ",
    )
}

/// Checks the HTML of the text, with its raw HTML and made safe.
fn shows(alloc: Global, html: &str, safe: &str) -> Result<(), Fail> {
    let nobody = None::<DefaultBrokenLinkCallback>;
    let found = or_fail(render_extended(alloc, TEXT, OPTIONS, nobody))?;
    gives("HTML", found.as_str(), html)?;
    let nobody = None::<DefaultBrokenLinkCallback>;
    let found = or_fail(safe_html_extended(alloc, TEXT, OPTIONS, nobody))?;
    gives("safe HTML", found.as_str(), safe)
}

#[test]
fn html(rt: HostRuntime) -> Result<(), Fail> {
    shows(
        rt.alloc(),
        "<h1>a <del>b</del> <c></h1>\n",
        "<h1>a <del>b</del> &lt;c&gt;</h1>\n",
    )
}

#[test]
fn json(rt: HostRuntime) -> Result<(), Fail> {
    let events = or_fail(text_json_extended(rt.alloc(), "a", OPTIONS))?;
    gives(
        "events",
        events.as_str(),
        "[{\"Start\":\"Paragraph\"},{\"start\":0,\"end\":1}]\n\
        [{\"Text\":\"a\"},{\"start\":0,\"end\":1}]\n\
        [{\"End\":\"Paragraph\"},{\"start\":0,\"end\":1}]\n",
    )?;
    let headings = or_fail(outline_json_extended(rt.alloc(), TEXT, OPTIONS))?;
    gives(
        "headings",
        headings.as_str(),
        "{\"level\":1,\"text\":\"a b \",\"range\":{\"start\":0,\"end\":14}}\n",
    )
}
