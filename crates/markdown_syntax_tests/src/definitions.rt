//! The definitions of a text, as `reference_definitions` of its parser returns them.
use markdown_base::fault::Fault;
use markdown_defs::RefDefs;
use markdown_test_helpers::rows::Rows;
use markdown_test_parsers::parsers::{ask_for, plain_parser};
use std::alloc::{AllocError, Global};
use std::test::Fail;

/// Returns the label, the destination and the span of each definition, in order.
fn listed(alloc: Global, definitions: &RefDefs<'_>) -> Result<String, AllocError> {
    let mut list = String::new(alloc);
    for (label, definition) in definitions.iter() {
        let span = &definition.span;
        let row = format!(in alloc;
            "[{label}] ({}) {}..{} ",
            definition.dest, span.start, span.end
        )?;
        list.push_str(row.as_str())?;
    }
    Ok(list)
}

/// Returns the definitions of a text.
fn defined_in(alloc: Global, source: &str) -> Result<String, Fail> {
    let parser = plain_parser(alloc, source)?;
    let list = listed(alloc, parser.reference_definitions());
    drop(parser);
    Ok(list?)
}

#[test]
fn the_first_of_each_label_is_listed(rt: HostRuntime) -> Result<(), Fail> {
    let mut rows = Rows::new();
    for &(source, wanted) in &[
        (
            "[a B c]: http://example.com\n[ß]: /u\n",
            "[a B c] (http://example.com) 0..27 [ß] (/u) 28..36 ",
        ),
        ("[a]: /1\n[A]: /2\n\n[a]", "[a] (/1) 0..7 "),
        ("text", ""),
    ] {
        rows.gives_text(source, defined_in(rt.alloc(), source)?, wanted);
    }
    rows.end()
}

/// Returns the span of the definition that a key finds.
fn span_of(definitions: &RefDefs<'_>, key: &str) -> Result<Option<(usize, usize)>, Fault> {
    match definitions.get(key)? {
        Some(definition) => Ok(Some((definition.span.start, definition.span.end))),
        None => Ok(None),
    }
}

/// Returns the span of the definition that a key finds in a text, after this number of events.
fn span_in(
    alloc: Global,
    source: &str,
    events: u64,
    key: &str,
) -> Result<Option<(usize, usize)>, Fail> {
    let mut parser = plain_parser(alloc, source)?;
    ask_for(&mut parser, events);
    let found = span_of(parser.reference_definitions(), key);
    drop(parser);
    Ok(found?)
}

#[test]
fn keys_find_definitions(rt: HostRuntime) -> Result<(), Fail> {
    let two = "[a B c]: http://example.com\n[ß]: /u\n";
    let three = "[a B c]: http://example.com\n[another]: https://google.com\n\ntext\n\n\
        [final ONE]: http://wikipedia.org\n";
    let mut rows = Rows::new();
    for &(source, events, key, span) in &[
        (two, 0, "A b C", Some((0, 27))),
        (two, 0, "SS", Some((28, 36))),
        (two, 0, "a  b c", None),
        (three, 0, "a b c", Some((0, 27))),
        (three, 0, "nope", None),
        (three, 1, "final one", Some((65, 98))),
    ] {
        rows.gives(key, span_in(rt.alloc(), source, events, key)?, span);
    }
    rows.end()
}
