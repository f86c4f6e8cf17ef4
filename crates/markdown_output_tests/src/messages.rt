//! The message of each of the programs where something fails, and its status.
use crate::runs::{Given, Input, Program, report_of, words_of};
use markdown_base::fault::Fault;
use markdown_render::run::Failure;
use markdown_test_helpers::rows::Rows;
use std::alloc::Global;
use std::io::ErrorKind;
use std::test::Fail;

/// Arguments, input, the errors of writes to standard output and to standard error; and the status and the message.
type Row = (
    &'static [&'static str],
    Input<'static>,
    Option<ErrorKind>,
    Option<ErrorKind>,
    (u8, &'static str),
);

/// Two arguments, of which the second is unknown.
const UNKNOWN: &[&str] = &["tables", "nosuch"];

const UNREAD: Input<'static> = Input::Failing(ErrorKind::PermissionDenied);

const NO_TEXT: Input<'static> = Input::Bytes(&[255]);

const BROKEN: Option<ErrorKind> = Some(ErrorKind::BrokenPipe);

const MEMORY: Option<ErrorKind> = Some(ErrorKind::OutOfMemory);

/// Checks the status and the message of a program, and that it prints nothing.
fn is_said(alloc: Global, rows: &mut Rows, program: Program, row: Row) -> Result<(), Fail> {
    let (words, input, out, err, wanted) = row;
    let words = words_of(alloc, words)?;
    let given = Given {
        words: &words,
        input,
        out,
        err,
    };
    let found = program.output_on(alloc, given)?;
    let (status, message) = wanted;
    rows.gives(
        (program, wanted),
        (found.status, found.message.as_str(), found.text.as_str()),
        (status, message, ""),
    );
    Ok(())
}

#[test]
fn messages(rt: HostRuntime) -> Result<(), Fail> {
    let table: &[Row] = &[
        (&[], NO_TEXT, None, None, (1, "input is not UTF-8\n")),
        (&[], UNREAD, None, None, (1, "read failed\n")),
        (
            &[],
            Input::Failing(ErrorKind::OutOfMemory),
            None,
            None,
            (1, "out of memory\n"),
        ),
        (&[], Input::Bytes(b"a"), BROKEN, None, (1, "write failed\n")),
        (
            &[],
            Input::Bytes(b"a"),
            MEMORY,
            None,
            (1, "out of memory\n"),
        ),
        (UNKNOWN, UNREAD, None, None, (2, "unknown option: nosuch\n")),
        // where no message can be written the status is the same
        (UNKNOWN, UNREAD, None, BROKEN, (2, "")),
        (&[], NO_TEXT, None, BROKEN, (1, "")),
    ];
    let mut rows = Rows::new();
    for row in table {
        is_said(rt.alloc(), &mut rows, Program::Html, *row)?;
        is_said(rt.alloc(), &mut rows, Program::Events, *row)?;
    }
    rows.end()
}

/// No text makes a program fail by these.
#[test]
fn messages_of_faults(rt: HostRuntime) -> Result<(), Fail> {
    let mut rows = Rows::new();
    for (fault, wanted) in [
        (Fault::Memory, "out of memory\n"),
        (Fault::Blocks, "bad block result\n"),
        (Fault::Depth, "image nested too deeply\n"),
    ] {
        let (status, message) = report_of(rt.alloc(), Failure::Fault(fault))?;
        rows.gives(wanted, (status, message.as_str()), (1, wanted));
    }
    rows.end()
}
