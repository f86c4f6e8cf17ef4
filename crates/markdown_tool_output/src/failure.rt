//! What fails, and what is said of it.
use crate::text::NotText;
use markdown_base::fault::Fault;
use std::alloc::{AllocError, AllocFailed};
use std::io::{self, ErrorKind, Write};

/// What failed.
#[derive(Debug, Drop)]
pub enum Failure<'a> {
    /// A file cannot be read.
    Read(&'a str, io::Error),
    /// A file is not UTF-8.
    NotText(&'a str, NotText),
    /// An allocation was refused, or rendering failed.
    Fault(Fault),
    /// What is to be written has more bytes than this.
    OverLimit(usize),
    /// A file cannot be written.
    Write(&'a str, io::Error),
}

impl<'a> From<Fault> for Failure<'a> {
    fn from(fault: Fault) -> Failure<'a> {
        Failure::Fault(fault)
    }
}

impl<'a, T: Drop> From<AllocFailed<T>> for Failure<'a> {
    fn from(refused: AllocFailed<T>) -> Failure<'a> {
        drop(refused);
        Failure::Fault(Fault::Memory)
    }
}

impl<'a> From<AllocError> for Failure<'a> {
    fn from(_refused: AllocError) -> Failure<'a> {
        Failure::Fault(Fault::Memory)
    }
}

/// Returns the failure of reading a file.
pub fn read_failure<'a>(name: &'a str, error: io::Error) -> Failure<'a> {
    if error.kind() == ErrorKind::OutOfMemory {
        Failure::Fault(Fault::Memory)
    } else {
        Failure::Read(name, error)
    }
}

/// Returns the failure of writing a file.
pub fn write_failure<'a>(name: &'a str, error: io::Error) -> Failure<'a> {
    if error.kind() == ErrorKind::OutOfMemory {
        Failure::Fault(Fault::Memory)
    } else {
        Failure::Write(name, error)
    }
}

/// Returns what is said of a fault.
fn fault_text(fault: &Fault) -> &'static str {
    match fault {
        Fault::Memory => "out of memory",
        Fault::Blocks => "bad block result",
        Fault::Depth => "image nested too deeply",
    }
}

/// Writes to `err`, in one line, what failed. Says nothing where a pipe is closed: whoever reads the output wants no more of
/// it.
pub fn say<E: Write>(failure: &Failure<'_>, err: &mut E) {
    let _ = match failure {
        Failure::Write(_, error) if error.kind() == ErrorKind::BrokenPipe => Ok(()),
        Failure::Read(name, error) | Failure::Write(name, error) => {
            writeln!(err, "markdown: {name}: {error}")
        }
        Failure::NotText(name, at) => {
            let line = at.line;
            let offset = at.offset;
            writeln!(err, "markdown: {name}:{line}: not UTF-8 at byte {offset}")
        }
        Failure::OverLimit(limit) => {
            writeln!(
                err,
                "markdown: nothing is written, since it would be more than {limit} bytes"
            )
        }
        Failure::Fault(fault) => {
            let text = fault_text(fault);
            writeln!(err, "markdown: {text}")
        }
    };
}
