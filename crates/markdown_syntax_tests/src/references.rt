//! References: where their labels end, what they expand to, and the questions for those without a definition.
ghost use Rattle.std.specs.Prelude.{◌≡◌, ◌+◌, ◌%◌, ◌^◌};

use crate::rows::Given;
use markdown_base::cow_str::CowStr;
use markdown_base::item::ItemBody;
use markdown_base::options::Options;
use markdown_defs::{BoxedCallback, BrokenLink, BrokenLinkCallback, Closure};
use markdown_render::render;
use markdown_test_helpers::parts::defining;
use markdown_test_helpers::rows::Rows;
use markdown_test_helpers::trees::{item, text, tree_of};
use markdown_test_parsers::callbacks::{Recording, Reply, Replying, questions_in};
use markdown_test_parsers::faults::or_fail;
use markdown_test_parsers::parsers::{all_noted, parser_asking, parser_gives, parser_of};
use std::alloc::Global;
use std::test::Fail;

/// Checks the events of a paragraph over the first bytes of `[a]`, whose items extend to the end, where `a` is defined.
fn block_gives(alloc: Global, end: usize, wanted: &str) -> Result<(), Fail> {
    let outline = [
        (0, item(0, end, ItemBody::Paragraph)),
        (1, item(0, 1, ItemBody::MaybeLinkOpen)),
        (1, text(1, 2)),
        (1, item(2, 3, ItemBody::MaybeLinkClose(true))),
    ];
    let tree = tree_of(alloc, &outline)?;
    let parts = defining(alloc, &[("a", "/u")])?;
    let parser = parser_of(alloc, "[a]", Options::empty(), tree, parts)?;
    parser_gives(alloc, "[a]", parser, wanted)
}

#[test]
fn labels_end_in_their_block(rt: HostRuntime) -> Result<(), Fail> {
    block_gives(
        rt.alloc(),
        3,
        "<p>0..3 <a Shortcut (/u) () (a)>0..3 [a]1..2 </a>0..3 </p>0..3 ",
    )?;
    block_gives(rt.alloc(), 2, "<p>0..2 [[]0..1 [a]1..2 []]2..3 </p>0..2 ")
}

/// Two labels without a definition, each in a paragraph.
const TWO_LABELS: &str = "[a]\n\n[b]";

/// Each bracket asks once, directly before the next event: a text, the number of events that are taken,
/// and that of the questions.
const QUESTIONS: &[(&str, usize, u64)] = &[
    ("See also [`g()`][crate::g].", usize::MAX, 1),
    ("See also [`g()`][crate::g][].", usize::MAX, 1),
    ("[brokenlink1] some other node [brokenlink2]", usize::MAX, 2),
    ("[a](b) [c]: d", usize::MAX, 1),
    ("[a]: /u\n\n[a]", usize::MAX, 0),
    (TWO_LABELS, 0, 0),
    (TWO_LABELS, 1, 0),
    (TWO_LABELS, 2, 1),
    (TWO_LABELS, 6, 1),
    (TWO_LABELS, 7, 2),
    (TWO_LABELS, 20, 2),
];

#[test]
fn questions(rt: HostRuntime) -> Result<(), Fail> {
    let mut rows = Rows::new();
    for &(source, events, questions) in QUESTIONS {
        let (_, asked) = questions_in(rt.alloc(), source, events)?;
        rows.gives((source, events), asked, questions);
    }
    rows.end()
}

/// Returns the events of a text, and the questions, with a callback that has these answers.
fn asked_of(alloc: Global, source: &str, reply: Reply) -> Result<(String, String), Fail> {
    let parser = parser_asking(alloc, source, Recording::replying(alloc, reply))?;
    let (events, callback) = or_fail(all_noted(alloc, parser))?;
    let questions = match callback {
        Some(recording) => recording.into_questions(),
        None => String::new(alloc),
    };
    Ok((events, questions))
}

/// Checks the events of a text, and the questions.
fn is_answered(rows: &mut Rows, source: &str, found: (String, String), wanted: (&str, &str)) {
    let (events, questions) = found;
    rows.gives(source, (events.as_str(), questions.as_str()), wanted);
}

#[test]
fn answers(rt: HostRuntime) -> Result<(), Fail> {
    let alloc = rt.alloc();
    let mut rows = Rows::new();
    for &(source, reply, events, questions) in &[
        (
            "[a] [b]",
            Reply::Number,
            "<p>0..7 <a ShortcutUnknown +(/1) () (a)>0..3 [a]1..2 </a>0..3 [ ]3..4 \
            <a ShortcutUnknown +(/2) () (b)>4..7 [b]5..6 </a>4..7 </p>0..7 ",
            "0..3 Shortcut (a) 4..7 Shortcut (b) ",
        ),
        (
            "[a] [b]",
            Reply::Nothing,
            "<p>0..7 [[]0..1 [a]1..2 []]2..3 [ ]3..4 [[]4..5 [b]5..6 []]6..7 </p>0..7 ",
            "0..3 Shortcut (a) 4..7 Shortcut (b) ",
        ),
        (
            "This is a link w/o def: [hello][world]",
            Reply::Target("YOLO", "SWAG"),
            "<p>0..38 [This is a link w/o def: ]0..24 <a ReferenceUnknown (YOLO) (SWAG) (world)>24..38 \
            [hello]25..30 </a>24..38 </p>0..38 ",
            "24..38 Reference (world) ",
        ),
        (
            "[a]",
            Reply::Target("", ""),
            "<p>0..3 <a ShortcutUnknown () () (a)>0..3 [a]1..2 </a>0..3 </p>0..3 ",
            "0..3 Shortcut (a) ",
        ),
        (
            "Hello world, check out [my website][].",
            Reply::Target("http://example.com", "my example website"),
            "<p>0..38 [Hello world, check out ]0..23 \
            <a CollapsedUnknown (http://example.com) (my example website) (my website)>23..35 [my website]24..34 \
            </a>23..35 [.]37..38 </p>0..38 ",
            "23..35 Collapsed (my website) ",
        ),
    ] {
        let found = asked_of(alloc, source, reply)?;
        is_answered(&mut rows, source, found, (events, questions));
    }
    rows.end()
}

/// Checks the rendering of a text with a callback, or its events.
fn is_given<'a, F: BrokenLinkCallback<'a>>(
    alloc: Global,
    rows: &mut Rows,
    source: &'a str,
    callback: F,
    given: Given<'_>,
) -> Result<(), Fail>
    requires { F.can_ask callback }
{
    match given {
        Given::Html(wanted) => {
            let options = Options::empty();
            let html = or_fail(render(alloc, source, options, Some(callback)))?;
            rows.gives_text(source, html, wanted);
        }
        Given::Events(wanted) => {
            let parser = parser_asking(alloc, source, callback)?;
            let (events, callback) = or_fail(all_noted(alloc, parser))?;
            drop(callback);
            rows.gives_text(source, events, wanted);
        }
    }
    Ok(())
}

/// Two labels without a definition, and what is given for them where each answer has the number of its question.
const NUMBERED: (&str, [Given<'static>; 2]) = (
    "[a] [b]",
    [
        Given::Html("<p><a href=\"/1\">a</a> <a href=\"/2\">b</a></p>\n"),
        Given::Events(
            "<p>0..7 <a ShortcutUnknown +(/1) () (a)>0..3 [a]1..2 </a>0..3 [ ]3..4 \
            <a ShortcutUnknown +(/2) () (b)>4..7 [b]5..6 </a>4..7 </p>0..7 ",
        ),
    ],
);

/// Checks what is given for a text with a boxed callback that has these answers.
fn is_given_with(
    alloc: Global,
    rows: &mut Rows,
    source: &str,
    reply: Reply,
    given: Given<'_>,
) -> Result<(), Fail> {
    let boxed: Box<dyn BoxedCallback> = Box::new(alloc, Replying::new(alloc, reply))?;
    is_given(alloc, rows, source, boxed, given)
}

#[test]
fn boxed_callbacks(rt: HostRuntime) -> Result<(), Fail> {
    let (numbered, [html, events]) = NUMBERED;
    let mut rows = Rows::new();
    for (source, reply, given) in [
        (numbered, Reply::Number, html),
        (numbered, Reply::Number, events),
        (
            "[a]",
            Reply::Target("", ""),
            Given::Html("<p><a href=\"\">a</a></p>\n"),
        ),
        ("[a]", Reply::Nothing, Given::Html("<p>[a]</p>\n")),
    ] {
        is_given_with(rt.alloc(), &mut rows, source, reply, given)?;
    }
    rows.end()
}

/// Checks what is given with a closure that counts its questions, and that there are two.
fn is_given_with_a_closure(
    alloc: Global,
    rows: &mut Rows,
    source: &str,
    given: Given<'_>,
) -> Result<(), Fail> {
    let mut asked = 0u64;
    let numbering = |link: BrokenLink| -> Option<(CowStr, CowStr)>
        ensures counted { asked.exit ≡ (asked.entry + 1) % 2 ^ 64 }
    {
        asked = asked.wrapping_add(1);
        drop(link);
        let destination = format!(in alloc; "/{asked}").ok()?;
        Some((CowStr::from(destination), CowStr::Borrowed("")))
    };
    is_given(alloc, rows, source, Closure::new(numbering), given)?;
    rows.gives("questions", asked, 2);
    Ok(())
}

#[test]
fn closures_that_count(rt: HostRuntime) -> Result<(), Fail> {
    let (source, [html, events]) = NUMBERED;
    let mut rows = Rows::new();
    is_given_with_a_closure(rt.alloc(), &mut rows, source, html)?;
    is_given_with_a_closure(rt.alloc(), &mut rows, source, events)?;
    rows.end()
}

/// Returns the events of a text, with `X` for the answer, and the questions, with a callback that answers with this
/// number of bytes `x`.
fn asked_by_bytes(alloc: Global, source: &str, bytes: usize) -> Result<(String, String), Fail> {
    let (events, questions) = asked_of(alloc, source, Reply::Bytes(bytes))?;
    let answer = "x".repeat(alloc, bytes)?;
    let short = events.as_str().replace(alloc, answer.as_str(), "X")?;
    Ok((short, questions))
}

#[test]
fn references_expand_up_to_a_limit(rt: HostRuntime) -> Result<(), Fail> {
    let mut rows = Rows::new();
    for &(source, bytes, events, questions) in &[
        (
            "[a] [b]",
            200_000,
            "<p>0..7 <a ShortcutUnknown +(X) () (a)>0..3 [a]1..2 </a>0..3 [ ]3..4 [[]4..5 [b]5..6 []]6..7 </p>0..7 ",
            "0..3 Shortcut (a) ",
        ),
        (
            "[a] [b] [c] [d]",
            60_000,
            "<p>0..15 <a ShortcutUnknown +(X) () (a)>0..3 [a]1..2 </a>0..3 [ ]3..4 \
            <a ShortcutUnknown +(X) () (b)>4..7 [b]5..6 </a>4..7 [ ]7..8 [[]8..9 [c]9..10 []]10..11 [ ]11..12 \
            [[]12..13 [d]13..14 []]14..15 </p>0..15 ",
            "0..3 Shortcut (a) 4..7 Shortcut (b) ",
        ),
    ] {
        let found = asked_by_bytes(rt.alloc(), source, bytes)?;
        is_answered(&mut rows, source, found, (events, questions));
    }
    rows.end()
}
