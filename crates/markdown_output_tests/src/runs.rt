//! Runs of the two programs, over one reader and one writer, so that each program is proved for one type of each.
use markdown_render::run::{Failure, report, run as run_html};
use markdown_text_json::run::run as run_events;
use std::alloc::{AllocError, Global};
use std::io::{self, ErrorKind, Read, Write};
use std::test::Fail;

/// Standard input: bytes, or a reader of which each call fails.
#[derive(Clone, Copy, Drop)]
pub enum Input<'i> {
    Bytes(&'i [u8]),
    Failing(ErrorKind),
}

impl Read for Input<'_> {
    fn read(&mut self, buf: &mut [u8]) -> io::Result<usize> {
        match self {
            Input::Bytes(rest) => rest.read(buf),
            Input::Failing(kind) => Err(io::Error::from(*kind)),
        }
    }
}

/// Standard output or standard error: what was written, and the error of each write, if it fails.
#[derive(Drop)]
struct Output {
    written: Vec<u8>,
    error: Option<ErrorKind>,
}

impl Write for Output {
    fn write(&mut self, buf: &[u8]) -> io::Result<usize> {
        match self.error {
            Some(kind) => Err(io::Error::from(kind)),
            None => self.written.write(buf),
        }
    }

    fn flush(&mut self) -> io::Result<()> {
        Ok(())
    }
}

/// A program.
#[derive(Clone, Copy, Debug, Drop)]
pub enum Program {
    Html,
    Events,
}

/// What a program is given: its arguments, its input, and the errors of its writes to standard output and to standard
/// error.
#[derive(Clone, Copy, Drop)]
pub struct Given<'i> {
    pub words: &'i [String],
    pub input: Input<'i>,
    pub out: Option<ErrorKind>,
    pub err: Option<ErrorKind>,
}

/// The status of a program, and what it wrote to standard error and to standard output.
#[derive(Drop)]
pub struct Printed {
    pub status: u8,
    pub message: String,
    pub text: String,
}

/// Returns the message for a failure, with the status.
pub fn report_of(alloc: Global, failure: Failure) -> Result<(u8, String), Fail> {
    let mut err = Output {
        written: Vec::new(alloc),
        error: None,
    };
    let status = report(Err(failure), &mut err);
    let Output { written, .. } = err;
    Ok((status, String::from_utf8(written)?))
}

impl Program {
    /// Runs the program, and returns its status.
    fn run(self, alloc: Global, given: Given<'_>, out: &mut Output, err: &mut Output) -> u8 {
        let mut input = given.input;
        match self {
            Program::Html => run_html(alloc, given.words, &mut input, out, err),
            Program::Events => run_events(alloc, given.words, &mut input, out, err),
        }
    }

    /// Runs the program, and returns its status with what it wrote.
    pub fn output_on(self, alloc: Global, given: Given<'_>) -> Result<Printed, Fail> {
        let mut out = Output {
            written: Vec::new(alloc),
            error: given.out,
        };
        let mut err = Output {
            written: Vec::new(alloc),
            error: given.err,
        };
        let status = self.run(alloc, given, &mut out, &mut err);
        let Output { written: said, .. } = err;
        let message = String::from_utf8(said)?;
        let Output { written, .. } = out;
        let text = String::from_utf8(written)?;
        Ok(Printed {
            status,
            message,
            text,
        })
    }
}

/// Returns the arguments of a program.
pub fn words_of(alloc: Global, list: &[&str]) -> Result<Vec<String>, AllocError> {
    let mut words = Vec::new(alloc);
    for word in list {
        words.push(String::from_str(alloc, word)?)?;
    }
    Ok(words)
}
