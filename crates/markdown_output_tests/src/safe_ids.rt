//! The events of a text with ids of its headings, made safe.
use crate::safe::rules_of;
use markdown_base::options::Options;
use markdown_blocks::Blocks;
use markdown_heading_ids::{HeadingIds, Taken};
use markdown_inline::walk::Parser;
use markdown_json::push_json;
use markdown_safe::{Images, SafeRules, SafeWithOffset};
use markdown_test_helpers::rows::gives;
use markdown_test_parsers::faults::or_fail;
use std::alloc::Global;
use std::test::Fail;

/// An id of the author, one that is given, links to both, to the beginning, to another page and to a footnote.
const TEXT: &str =
    "# A *b* {#c .d e=f}\n\n## g\n\n[h](#c) [i](#g) [j](#user-content-g) [k](#) [l](x#g) [^1]\n\n[^1]: m\n";

/// All ids begin with the prefix of safe HTML, and so do the links to them.
const EVENTS: &str =
    "[{\"Start\":{\"Heading\":{\"level\":\"H1\",\"id\":\"user-content-c\",\"classes\":[],\"attrs\":[]}}},{\"start\":0,\"end\":20}]\n\
    [{\"Text\":\"A \"},{\"start\":2,\"end\":4}]\n\
    [{\"Start\":\"Emphasis\"},{\"start\":4,\"end\":7}]\n\
    [{\"Text\":\"b\"},{\"start\":5,\"end\":6}]\n\
    [{\"End\":\"Emphasis\"},{\"start\":4,\"end\":7}]\n\
    [{\"End\":{\"Heading\":\"H1\"}},{\"start\":0,\"end\":20}]\n\
    [{\"Start\":{\"Heading\":{\"level\":\"H2\",\"id\":\"user-content-g\",\"classes\":[],\"attrs\":[]}}},{\"start\":21,\"end\":26}]\n\
    [{\"Text\":\"g\"},{\"start\":24,\"end\":25}]\n\
    [{\"End\":{\"Heading\":\"H2\"}},{\"start\":21,\"end\":26}]\n\
    [{\"Start\":\"Paragraph\"},{\"start\":27,\"end\":85}]\n\
    [{\"Start\":{\"Link\":{\"link_type\":\"Inline\",\"dest_url\":\"#user-content-c\",\"title\":\"\",\"id\":\"\"}}},{\"start\":27,\"end\":34}]\n\
    [{\"Text\":\"h\"},{\"start\":28,\"end\":29}]\n\
    [{\"End\":\"Link\"},{\"start\":27,\"end\":34}]\n\
    [{\"Text\":\" \"},{\"start\":34,\"end\":35}]\n\
    [{\"Start\":{\"Link\":{\"link_type\":\"Inline\",\"dest_url\":\"#user-content-g\",\"title\":\"\",\"id\":\"\"}}},{\"start\":35,\"end\":42}]\n\
    [{\"Text\":\"i\"},{\"start\":36,\"end\":37}]\n\
    [{\"End\":\"Link\"},{\"start\":35,\"end\":42}]\n\
    [{\"Text\":\" \"},{\"start\":42,\"end\":43}]\n\
    [{\"Start\":{\"Link\":{\"link_type\":\"Inline\",\"dest_url\":\"#user-content-g\",\"title\":\"\",\"id\":\"\"}}},{\"start\":43,\"end\":63}]\n\
    [{\"Text\":\"j\"},{\"start\":44,\"end\":45}]\n\
    [{\"End\":\"Link\"},{\"start\":43,\"end\":63}]\n\
    [{\"Text\":\" \"},{\"start\":63,\"end\":64}]\n\
    [{\"Start\":{\"Link\":{\"link_type\":\"Inline\",\"dest_url\":\"#\",\"title\":\"\",\"id\":\"\"}}},{\"start\":64,\"end\":70}]\n\
    [{\"Text\":\"k\"},{\"start\":65,\"end\":66}]\n\
    [{\"End\":\"Link\"},{\"start\":64,\"end\":70}]\n\
    [{\"Text\":\" \"},{\"start\":70,\"end\":71}]\n\
    [{\"Start\":{\"Link\":{\"link_type\":\"Inline\",\"dest_url\":\"x#g\",\"title\":\"\",\"id\":\"\"}}},{\"start\":71,\"end\":79}]\n\
    [{\"Text\":\"l\"},{\"start\":72,\"end\":73}]\n\
    [{\"End\":\"Link\"},{\"start\":71,\"end\":79}]\n\
    [{\"Text\":\" \"},{\"start\":79,\"end\":80}]\n\
    [{\"FootnoteReference\":\"user-content-1\"},{\"start\":80,\"end\":84}]\n\
    [{\"End\":\"Paragraph\"},{\"start\":27,\"end\":85}]\n\
    [{\"Start\":{\"FootnoteDefinition\":\"user-content-1\"}},{\"start\":86,\"end\":94}]\n\
    [{\"Start\":\"Paragraph\"},{\"start\":92,\"end\":94}]\n\
    [{\"Text\":\"m\"},{\"start\":92,\"end\":93}]\n\
    [{\"End\":\"Paragraph\"},{\"start\":92,\"end\":94}]\n\
    [{\"End\":\"FootnoteDefinition\"},{\"start\":86,\"end\":94}]\n";

/// Returns the lines of the events of a text with ids of its headings, made safe.
fn safe_lines(alloc: Global, text: &str, options: Options) -> Result<String, Fail> {
    let blocks = or_fail(Blocks::of_extended(alloc, text, options))?;
    let taken = or_fail(Taken::of_blocks(alloc, &blocks))?;
    let parser: Parser<'_> = or_fail(Parser::from_blocks(alloc, blocks, None))?;
    let with_ids = HeadingIds::new(alloc, taken, parser.into_offset_iter());
    let mut lines = String::new(alloc);
    push_json(alloc, &mut lines, SafeWithOffset::new(alloc, with_ids))?;
    Ok(lines)
}

#[test]
fn ids_and_links_to_them(rt: HostRuntime) -> Result<(), Fail> {
    let options = Options::ENABLE_HEADING_ATTRIBUTES | Options::ENABLE_FOOTNOTES;
    let lines = safe_lines(rt.alloc(), TEXT, options)?;
    gives("events", lines.as_str(), EVENTS)
}

/// A heading, a link to it, a comment, and a link in a link.
const MARKUP: &str = "# a\n\n[b](#a) <!-- c --> [d <ee:f>](g)\n";

/// Each event has the range that it had, also where nothing is left of it.
const MARKUP_EVENTS: &str =
    "[{\"Start\":{\"Heading\":{\"level\":\"H1\",\"id\":\"user-content-17-a\",\"classes\":[],\"attrs\":[]}}},{\"start\":0,\"end\":4}]\n\
    [{\"Text\":\"a\"},{\"start\":2,\"end\":3}]\n\
    [{\"End\":{\"Heading\":\"H1\"}},{\"start\":0,\"end\":4}]\n\
    [{\"Start\":\"Paragraph\"},{\"start\":5,\"end\":38}]\n\
    [{\"Start\":{\"Link\":{\"link_type\":\"Inline\",\"dest_url\":\"#user-content-17-a\",\"title\":\"\",\"id\":\"\"}}},{\"start\":5,\"end\":12}]\n\
    [{\"Text\":\"b\"},{\"start\":6,\"end\":7}]\n\
    [{\"End\":\"Link\"},{\"start\":5,\"end\":12}]\n\
    [{\"Text\":\" \"},{\"start\":12,\"end\":13}]\n\
    [{\"InlineHtml\":\"\"},{\"start\":13,\"end\":23}]\n\
    [{\"Text\":\" \"},{\"start\":23,\"end\":24}]\n\
    [{\"Start\":{\"Link\":{\"link_type\":\"Inline\",\"dest_url\":\"g\",\"title\":\"\",\"id\":\"\"}}},{\"start\":24,\"end\":37}]\n\
    [{\"Text\":\"d \"},{\"start\":25,\"end\":27}]\n\
    [{\"Text\":\"\"},{\"start\":27,\"end\":33}]\n\
    [{\"Text\":\"ee:f\"},{\"start\":28,\"end\":32}]\n\
    [{\"Text\":\"\"},{\"start\":27,\"end\":33}]\n\
    [{\"End\":\"Link\"},{\"start\":24,\"end\":37}]\n\
    [{\"End\":\"Paragraph\"},{\"start\":5,\"end\":38}]\n";

/// Returns the same lines, by these rules.
fn lines_by(alloc: Global, text: &str, rules: SafeRules<'static>) -> Result<String, Fail> {
    let blocks = or_fail(Blocks::of_extended(alloc, text, Options::empty()))?;
    let taken = or_fail(Taken::of_blocks(alloc, &blocks))?;
    let parser: Parser<'_> = or_fail(Parser::from_blocks(alloc, blocks, None))?;
    let with_ids = HeadingIds::new(alloc, taken, parser.into_offset_iter());
    let mut lines = String::new(alloc);
    let safe = SafeWithOffset::with_rules(alloc, with_ids, rules);
    push_json(alloc, &mut lines, safe)?;
    Ok(lines)
}

#[test]
fn events_by_rules(rt: HostRuntime) -> Result<(), Fail> {
    let rules = rules_of("17-", Images::Shown, true);
    let lines = lines_by(rt.alloc(), MARKUP, rules)?;
    gives("events", lines.as_str(), MARKUP_EVENTS)
}
