//! Whole runs with a callback: the HTML of a text, all events in a list, and the callback that is returned.
use markdown_base::options::Options;
use markdown_defs::BrokenLinkCallback;
use markdown_render::{merged_html, render};
use markdown_test_helpers::rows::{Rows, gives};
use markdown_test_parsers::callbacks::{Recording, Reply};
use markdown_test_parsers::faults::or_fail;
use markdown_test_parsers::parsers::{all_noted, parser_asking};
use std::alloc::Global;
use std::test::Fail;

/// A text with a link label without a definition, and its HTML where a callback answers.
const ASKING: (&str, &str) = (
    "Hello world, check out [my website][].",
    "<p>Hello world, check out <a href=\"http://example.com\" title=\"my example website\">my website</a>.</p>\n",
);

const WEBSITE: Reply = Reply::Target("http://example.com", "my example website");

#[test]
fn html_with_a_callback(rt: HostRuntime) -> Result<(), Fail> {
    let (source, wanted) = ASKING;
    let callback = Recording::replying(rt.alloc(), WEBSITE);
    let html = or_fail(render(rt.alloc(), source, Options::empty(), Some(callback)))?;
    gives(source, html.as_str(), wanted)
}

#[test]
fn merged_html_with_a_callback(rt: HostRuntime) -> Result<(), Fail> {
    let (source, wanted) = ASKING;
    let callback = Recording::replying(rt.alloc(), WEBSITE);
    let html = merged_with(rt.alloc(), source, callback)?;
    gives(source, html.as_str(), wanted)
}

/// Returns the HTML of the merge of a text, with a callback.
fn merged_with<'a, F: BrokenLinkCallback<'a>>(
    alloc: Global,
    source: &'a str,
    callback: F,
) -> Result<String, Fail>
    requires { F.can_ask callback }
{
    or_fail(merged_html(alloc, parser_asking(alloc, source, callback)?))
}

/// Returns the events of a text, and the number of questions to a callback that answers, if it is returned.
fn given_and_asked(alloc: Global, source: &str) -> Result<(String, Option<u64>), Fail> {
    let callback = Recording::replying(alloc, Reply::Target("YOLO", "SWAG"));
    let (events, callback) = or_fail(all_noted(alloc, parser_asking(alloc, source, callback)?))?;
    let asked = match &callback {
        Some(recording) => Some(recording.replying.asked),
        None => None,
    };
    drop(callback);
    Ok((events, asked))
}

#[test]
fn callbacks_come_back(rt: HostRuntime) -> Result<(), Fail> {
    let table = &[
        (
            "This is a link w/o def: [hello][world]",
            "<p>0..38 [This is a link w/o def: ]0..24 <a ReferenceUnknown (YOLO) (SWAG) (world)>24..38 \
            [hello]25..30 </a>24..38 </p>0..38 ",
            1,
        ),
        (
            "[a]\n\n[a]: /u",
            "<p>0..4 <a Shortcut (/u) () (a)>0..3 [a]1..2 </a>0..3 </p>0..4 ",
            0,
        ),
        ("a", "<p>0..1 [a]0..1 </p>0..1 ", 0),
    ];
    let mut rows = Rows::new();
    for &(source, events, asked) in table {
        let (found, counted) = given_and_asked(rt.alloc(), source)?;
        rows.gives(source, (found.as_str(), counted), (events, Some(asked)));
    }
    rows.end()
}
