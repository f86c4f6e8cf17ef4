//! What the two programs print for texts, with arguments and without.
use crate::runs::{Given, Input, Printed, Program, words_of};
use markdown_test_helpers::rows::Rows;
use std::alloc::Global;
use std::test::Fail;

/// Returns what a program prints for a text, with these arguments.
fn output_of(
    alloc: Global,
    program: Program,
    words: &[&str],
    input: &str,
) -> Result<Printed, Fail> {
    let words = words_of(alloc, words)?;
    let given = Given {
        words: &words,
        input: Input::Bytes(input.as_bytes()),
        out: None,
        err: None,
    };
    program.output_on(alloc, given)
}

/// Checks that a program has succeeded with this text on standard output, and nothing on standard error.
fn has_printed(rows: &mut Rows, row: (&[&str], &str), found: Printed, wanted: &str) {
    rows.gives(
        row,
        (found.status, found.message.as_str(), found.text.as_str()),
        (0, "", wanted),
    );
}

/// Arguments, a text, and what is printed.
type Row = (&'static [&'static str], &'static str, &'static str);

/// Checks what a program prints for each row.
fn prints(alloc: Global, rows: &mut Rows, program: Program, table: &[Row]) -> Result<(), Fail> {
    for &(words, input, wanted) in table {
        let found = output_of(alloc, program, words, input)?;
        has_printed(rows, (words, input), found, wanted);
    }
    Ok(())
}

const HTML: &[Row] = &[
    (&[], "", ""),
    (&[], "~~a~~\nb", "<p>~~a~~\nb</p>\n"),
    (&["strikethrough"], "~~a~~\nb", "<p><del>a</del>\nb</p>\n"),
    (
        &["smart", "strikethrough", "smart"],
        "~~'a'~~",
        "<p><del>‘a’</del></p>\n",
    ),
];

const EVENTS: &[Row] = &[
    (&[], "", ""),
    (
        &[],
        "hello world",
        "[{\"Start\":\"Paragraph\"},{\"start\":0,\"end\":11}]\n\
        [{\"Text\":\"hello world\"},{\"start\":0,\"end\":11}]\n\
        [{\"End\":\"Paragraph\"},{\"start\":0,\"end\":11}]\n",
    ),
    (
        &[],
        "é\n\"",
        "[{\"Start\":\"Paragraph\"},{\"start\":0,\"end\":4}]\n\
        [{\"Text\":\"é\"},{\"start\":0,\"end\":2}]\n\
        [\"SoftBreak\",{\"start\":2,\"end\":3}]\n\
        [{\"Text\":\"\\\"\"},{\"start\":3,\"end\":4}]\n\
        [{\"End\":\"Paragraph\"},{\"start\":0,\"end\":4}]\n",
    ),
    (
        &["tables", "strikethrough"],
        "~~a~~",
        "[{\"Start\":\"Paragraph\"},{\"start\":0,\"end\":5}]\n\
        [{\"Start\":\"Strikethrough\"},{\"start\":0,\"end\":5}]\n\
        [{\"Text\":\"a\"},{\"start\":2,\"end\":3}]\n\
        [{\"End\":\"Strikethrough\"},{\"start\":0,\"end\":5}]\n\
        [{\"End\":\"Paragraph\"},{\"start\":0,\"end\":5}]\n",
    ),
];

#[test]
fn texts(rt: HostRuntime) -> Result<(), Fail> {
    let mut rows = Rows::new();
    prints(rt.alloc(), &mut rows, Program::Html, HTML)?;
    prints(rt.alloc(), &mut rows, Program::Events, EVENTS)?;
    rows.end()
}
