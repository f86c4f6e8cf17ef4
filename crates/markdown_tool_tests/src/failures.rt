//! What is said where a file cannot be read or written, and that nothing is written then.
use crate::shelf::after_run;
use markdown_test_helpers::rows::Rows;
use std::alloc::Global;
use std::io::ErrorKind;
use std::test::Fail;

/// Words, how each write fails, how many files are read, and what is said.
type Row = (
    &'static [&'static str],
    Option<ErrorKind>,
    usize,
    &'static str,
);

const FAILURES: &[Row] = &[
    (
        &["none.md", "a.md"],
        None,
        1,
        "markdown: none.md: entity not found\n",
    ),
    (
        &["a.md", "none.md"],
        None,
        2,
        "markdown: none.md: entity not found\n",
    ),
    (
        &["-o", "a.md", "a.md", "-", "none.md"],
        None,
        3,
        "markdown: none.md: entity not found\n",
    ),
    (
        &["a.md", "bad.md"],
        None,
        2,
        "markdown: bad.md:2: not UTF-8 at byte 3\n",
    ),
    (
        &["-o", "a.md", "cut.md"],
        None,
        1,
        "markdown: cut.md:3: not UTF-8 at byte 8\n",
    ),
    (
        &["-o", "c.html", "a.md"],
        Some(ErrorKind::PermissionDenied),
        1,
        "markdown: c.html: permission denied\n",
    ),
    (
        &["--limit", "8", "a.md"],
        None,
        1,
        "markdown: nothing is written, since it would be more than 8 bytes\n",
    ),
    (&["a.md"], Some(ErrorKind::BrokenPipe), 1, ""),
    (
        &["a.md"],
        Some(ErrorKind::OutOfMemory),
        1,
        "markdown: out of memory\n",
    ),
];

#[test]
fn failing_calls(rt: HostRuntime) -> Result<(), Fail> {
    let mut rows = Rows::new();
    for (words, write_fails, reads, said) in FAILURES {
        let left = after_run(rt.alloc(), words, *write_fails)?;
        rows.gives(
            *words,
            (
                left.status,
                left.reads,
                left.message.as_str(),
                left.written.as_str(),
            ),
            (1, *reads, *said, ""),
        );
    }
    rows.end()
}
