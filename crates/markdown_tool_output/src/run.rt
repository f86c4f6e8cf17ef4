//! The program over any files: reads those that the words name, and writes what is made of them.
ghost use Rattle.std.specs.Prelude.{◌≡◌, ◌⊎◌, ◌∷◌, ◌<◌, ℕ, List, [], IfOk, MatchOption, OnOk, OnErr, Some, length, map};
ghost use Rattle.std.specs.Prelude.{string_bytes};
ghost use Rattle.clap.specs.Words.{kind_of};
ghost use Rattle.markdown_tool_command.specs.Requests.{standard};
ghost use Rattle.markdown_tool_output.specs.Conversion.{Converts, EndsWithout, IsWithin, RunEnds, exit_status};
ghost use Rattle.markdown_tool_output.specs.FileText.{file_text};
ghost use Rattle.markdown_tool_output.specs.Steps.{ReadsAlone, ReadsFile, ReadsFiles, Takes, writes};

use crate::failure::{Failure, read_failure, say, write_failure};
use crate::files::Files;
use crate::output::output_of;
use crate::text::text_of;
use clap::Error;
use clap::error::ErrorKind;
use markdown_tool_command::{Request, STANDARD, request_of};
use std::alloc::{AllocError, Global};
use std::io::Write;

/// Returns the text of the bytes of a file. If `lossy` is set, what is not UTF-8 in them becomes U+FFFD.
fn text_in<'a>(
    alloc: Global,
    name: &'a str,
    bytes: Vec<u8>,
    lossy: bool,
) -> Result<String, Failure<'a>>
    ensures { IfOk result (λ text. string_bytes text ≡ file_text lossy bytes.items) }
{
    if lossy {
        return Ok(String::from_utf8_lossy(alloc, bytes.as_slice())?);
    }
    match text_of(bytes) {
        Ok(text) => Ok(text),
        Err(at) => Err(Failure::NotText(name, at)),
    }
}

/// Returns the text of a file. If `lossy` is set, what is not UTF-8 in it becomes U+FFFD.
fn read_text<'a, F: Files>(
    alloc: Global,
    name: &'a str,
    lossy: bool,
    files: &mut F,
) -> Result<String, Failure<'a>>
    ensures read { IfOk result (λ text. ReadsFile lossy (F.steps files.old) (F.steps files.new)
        name.now (string_bytes text)) }
    ensures failed { OnErr result (ReadsAlone (F.steps files.old) (F.steps files.new)) }
{
    let bytes = match files.read(alloc, name) {
        Ok(bytes) => bytes,
        Err(error) => return Err(read_failure(name, error)),
    };
    text_in(alloc, name, bytes, lossy)
}

/// Returns the texts of files, in order. If `lossy` is set, what is not UTF-8 in them becomes U+FFFD.
fn read_texts<'a, F: Files>(
    alloc: Global,
    names: &'a [String],
    lossy: bool,
    files: &mut F,
) -> Result<Vec<String>, Failure<'a>>
    ensures read { IfOk result (λ texts. ReadsFiles lossy (F.steps files.old) (F.steps files.new)
        (map string_bytes names.now) (map string_bytes texts.items)) }
    ensures failed { OnErr result (ReadsAlone (F.steps files.old) (F.steps files.new)) }
{
    let mut texts = Vec::new(alloc);
    'names: for name in names {
        texts.push(read_text(alloc, name.as_str(), lossy, files)?)?;
    }
    Ok(texts)
}

/// Returns the limit, if an output has more bytes.
fn exceeded(limit: Option<usize>, output: &str) -> Option<usize>
    ensures { MatchOption result (IsWithin limit (length output.now))
        (λ most. (limit ≡ Some most) × (most < length output.now)) }
{
    match limit {
        Some(most) if output.len() > most => Some(most),
        Some(_) | None => None,
    }
}

/// Reads all files of a request, makes the whole output, and then writes it.
///
/// # Errors
///
/// What failed first. Before the output is written no file has changed.
pub fn convert<'a, F: Files>(
    alloc: Global,
    request: &'a Request,
    files: &mut F,
) -> Result<(), Failure<'a>>
    ensures ok { OnOk result (Converts request.now (F.steps files.old) (F.steps files.new)) }
    ensures err { OnErr result (Converts request.now (F.steps files.old) (F.steps files.new)
        ⊎ ReadsAlone (F.steps files.old) (F.steps files.new)) }
{
    let texts = read_texts(alloc, request.inputs.as_slice(), request.lossy, files)?;
    let output = output_of(alloc, request, texts.as_slice())?;
    if let Some(limit) = exceeded(request.limit, output.as_str()) {
        return Err(Failure::OverLimit(limit));
    }
    match files.write(request.output.as_str(), output.as_str()) {
        Ok(()) => Ok(()),
        Err(error) => Err(write_failure(request.output.as_str(), error)),
    }
}

/// Returns the exit status of an outcome, and writes to `err`, in one line, what failed.
fn report<E: Write>(outcome: Result<(), Failure<'_>>, err: &mut E) -> u8
    ensures { result ≡ exit_status outcome.entry }
{
    match outcome {
        Ok(()) => 0,
        Err(failure) => {
            say(&failure, err);
            1
        }
    }
}

/// Writes the text of an error, which is the help or the version, to standard output.
fn show<F: Files>(alloc: Global, error: &Error, files: &mut F) -> Result<(), Failure<'static>>
    ensures ok { OnOk result ((text : List ℕ)
        × Takes (F.steps files.old) (F.steps files.new) (writes standard text ∷ [])) }
    ensures err { OnErr result ((F.steps files.new ≡ F.steps files.old) ⊎ ((text : List ℕ)
        × Takes (F.steps files.old) (F.steps files.new) (writes standard text ∷ []))) }
{
    let text: Result<String, AllocError> = format!(in alloc; "{error}");
    match files.write(STANDARD, text?.as_str()) {
        Ok(()) => Ok(()),
        Err(error) => Err(write_failure(STANDARD, error)),
    }
}

/// Says why the words make no request, or shows what they ask for, help or the version. Returns the exit status.
fn answer<F: Files, E: Write>(alloc: Global, error: &Error, files: &mut F, err: &mut E) -> u8
    ensures { EndsWithout (kind_of error.now) result (F.steps files.old) (F.steps files.new) }
{
    match error.kind() {
        ErrorKind::DisplayHelp | ErrorKind::DisplayVersion => {
            report(show(alloc, error, files), err)
        }
        ErrorKind::OutOfMemory => {
            let _ = writeln!(err, "markdown: out of memory");
            1
        }
        _ => {
            let _ = write!(err, "{error}");
            2
        }
    }
}

/// Runs the program on the words of its command line, of which the first names it. Writes to `err` what fails. Returns the
/// exit status: 0 where all was written, 2 where the command line is wrong, and then no file is used, otherwise 1.
pub fn run_tool<F: Files, E: Write>(
    alloc: Global,
    words: &[String],
    files: &mut F,
    err: &mut E,
) -> u8
    ensures ends { RunEnds (map string_bytes words.now) result (F.steps files.old)
        (F.steps files.new) }
{
    match request_of(alloc, words) {
        Ok(request) => report(convert(alloc, &request, files), err),
        Err(error) => answer(alloc, &error, files, err),
    }
}
