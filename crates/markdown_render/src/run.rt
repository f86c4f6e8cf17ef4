//! The program, over any reader and two writers.
ghost use Rattle.std.specs.Prelude.{◌≡◌, ◌≢◌, ◌≤◌, ◌⊎◌, ℕ, map, None, string_bytes};
ghost use Rattle.std.specs.Prelude.{Result, IfOk, IfErr, IfSome, OnErr, OnOk};
ghost use Rattle.std.specs.Str.{IsUtf8};
ghost use Rattle.std.specs.IoError.{error_kind};
ghost use Rattle.std.specs.Io.KnownBytes.{Appends, IsAtEnd};
ghost use Rattle.markdown_base.specs.EnabledOptions.{no_options};
ghost use Rattle.markdown_base.specs.Source.{source_as};
ghost use Rattle.markdown_base.specs.Syntax.{profile_syntax};
ghost use Rattle.markdown_render.specs.HtmlOfText.{IsTextTooDeep, html_of_text};
ghost use Rattle.markdown_render.specs.Words.{turned_on};
ghost use Rattle.markdown_render.specs.Outcome.{status_of, AppendsKnownPrefix, LeavesHtml};
ghost use Rattle.markdown_render.specs.declared.run.Failure.{Failure};

use crate::rendering::render;
use crate::words::options_of;
use markdown_base::options::Options;
use markdown_blocks::Fault;
use markdown_defs::DefaultBrokenLinkCallback;
use std::alloc::Global;
use std::io::{self, ErrorKind, Read, Write};

/// What failed.
#[derive(Debug, Drop)]
pub enum Failure {
    /// A call of the reader.
    ReadFailed,
    /// The input is not UTF-8.
    NotText,
    /// Rendering; or an allocation failed, in whatever call.
    Fault(Fault),
    /// A call of the output writer.
    WriteFailed,
}

impl Failure {
    /// Returns the message for the error writer.
    fn text(&self) -> &'static str {
        match self {
            Failure::ReadFailed => "read failed",
            Failure::NotText => "input is not UTF-8",
            Failure::Fault(Fault::Memory) => "out of memory",
            Failure::Fault(Fault::Blocks) => "bad block result",
            Failure::Fault(Fault::Depth) => "image nested too deeply",
            Failure::WriteFailed => "write failed",
        }
    }
}

impl From<Fault> for Failure {
    ghost use Rattle.markdown_render.specs.declared.run.Failure.{Failure};

    ghost from_gives = { λ fault failure. failure ≡ Failure.Fault fault };

    fn from(fault: Fault) -> Failure {
        Failure::Fault(fault)
    }
}

/// Returns the failure of a call of the reader or the writer: `Fault(Memory)` if an allocation failed in it,
/// otherwise `attempted`.
fn failure_of(error: io::Error, attempted: Failure) -> Failure
    ensures memory { error_kind error ≡ ErrorKind.OutOfMemory
        → result ≡ Failure.Fault Fault.Memory }
    ensures other { error_kind error ≢ ErrorKind.OutOfMemory → result ≡ attempted }
{
    if error.kind() == ErrorKind::OutOfMemory {
        Failure::Fault(Fault::Memory)
    } else {
        attempted
    }
}

/// Reads all of the input, and returns it as text.
///
/// # Errors
///
/// `ReadFailed` where a call of the reader fails, `NotText` where the input is not UTF-8, and `Fault(Memory)`
/// if an allocation fails.
pub fn read_text<R: Read>(alloc: Global, input: &mut R) -> Result<String, Failure>
    ensures text { IfOk result (λ text. IfSome (R.remaining input.old) (λ bytes. string_bytes text
        ≡ bytes)) }
    ensures all_read { OnOk result (IsAtEnd (R.remaining input.new)) }
    ensures not_text { IfErr result (λ failure. failure ≡ Failure.NotText
        → IfSome (R.remaining input.old) (λ bytes. IsUtf8 bytes → ⊥)) }
    ensures failed { IfErr result (λ failure.
        (failure ≡ Failure.NotText) ⊎ (failure ≡ Failure.ReadFailed)
        ⊎ (failure ≡ Failure.Fault Fault.Memory)) }
{
    let mut bytes = Vec::new(alloc);
    match input.read_to_end(&mut bytes) {
        Ok(_) => String::from_utf8(bytes).map_err(|_| Failure::NotText),
        Err(error) => Err(failure_of(error, Failure::ReadFailed)),
    }
}

/// Returns the HTML of a text with these options, without a callback.
fn html_of(alloc: Global, text: &str, options: Options) -> Result<String, Failure>
    ensures html { IfOk result (λ html.
        string_bytes html ≡ html_of_text (source_as (profile_syntax options) text.now)) }
    ensures failed { IfErr result (λ failure. (failure ≡ Failure.Fault Fault.Memory)
        ⊎ ((failure ≡ Failure.Fault Fault.Depth)
        × IsTextTooDeep (source_as (profile_syntax options) text.now))) }
{
    Ok(render(alloc, text, options, None::<DefaultBrokenLinkCallback>)?)
}

/// Writes all of the bytes; where it fails, a prefix of them has been written. `write_all` does not tell what it wrote
/// before it failed, so this is its loop.
fn write_whole<W: Write>(out: &mut W, bytes: &[u8]) -> Result<(), Failure>
    ensures written { OnOk result (Appends (W.contents out.old) (W.contents out.new) bytes.now) }
    ensures cut { OnErr result
        (AppendsKnownPrefix (W.contents out.old) (W.contents out.new) bytes.now) }
    ensures failed { IfErr result (λ failure.
        (failure ≡ Failure.WriteFailed) ⊎ (failure ≡ Failure.Fault Fault.Memory)) }
{
    let mut rest = bytes;
    // The bound makes it end where every call is interrupted.
    'writing: for _ in 0..u64::MAX {
        if rest.is_empty() {
            return Ok(());
        }
        match out.write(rest) {
            Ok(0) => return Err(Failure::WriteFailed),
            Ok(count) => rest = &rest[count..],
            Err(error) => {
                if error.kind() != ErrorKind::Interrupted {
                    return Err(failure_of(error, Failure::WriteFailed));
                }
            }
        }
    }
    Err(Failure::WriteFailed)
}

/// Writes all of the HTML, and flushes the writer.
///
/// # Errors
///
/// `WriteFailed` where a call of the writer fails, and `Fault(Memory)` if an allocation fails. A prefix of the
/// HTML, or all of it, has then been written.
pub fn print<W: Write>(out: &mut W, html: &str) -> Result<(), Failure>
    ensures written { OnOk result (Appends (W.contents out.old) (W.contents out.new) html.now) }
    ensures cut { OnErr result
        (AppendsKnownPrefix (W.contents out.old) (W.contents out.new) html.now) }
    ensures failed { IfErr result (λ failure.
        (failure ≡ Failure.WriteFailed) ⊎ (failure ≡ Failure.Fault Fault.Memory)) }
{
    write_whole(out, html.as_bytes())?;
    out.flush()
        .map_err(|error| failure_of(error, Failure::WriteFailed))
}

/// Reads all of `input`, renders it with these options and writes the HTML to `out`.
///
/// # Errors
///
/// What failed first. Where writing failed, a prefix of the HTML has been written; where it had not begun, nothing.
pub fn convert<R: Read, W: Write>(
    alloc: Global,
    options: Options,
    input: &mut R,
    out: &mut W,
) -> Result<(), Failure>
    ensures leaves { LeavesHtml W.contents options (R.remaining input.old) (R.remaining input.new)
        out.old out.new result }
    ensures not_text { IfSome (R.remaining input.old) (λ bytes.
        (IsUtf8 bytes → ⊥) → (result ≢ Ok tt) × (out.new ≡ out.old)) }
{
    let text = read_text(alloc, input)?;
    let html = html_of(alloc, text.as_str(), options)?;
    print(out, html.as_str())
}

/// Writes to `err`, in one line, what failed, and returns the exit status: 0 where nothing failed, otherwise 1, whether
/// or not the line can be written.
pub fn report<E: Write>(outcome: Result<(), Failure>, err: &mut E) -> u8
    ensures status { result ≡ status_of outcome }
    ensures quiet { OnOk outcome (err.new ≡ err.old) }
{
    match outcome {
        Ok(()) => 0,
        Err(failure) => {
            let text = failure.text();
            let _ = writeln!(err, "{text}");
            1
        }
    }
}

/// Reads all of `input` as Markdown and writes its HTML to `out`, as `convert` does. Each word enables an option.
/// Writes to `err`, in one line, what failed, and returns the exit status, whether or not that line can be written: 0
/// where everything was written; 2 where a word is unknown, and then `input` and `out` are not used; otherwise 1.
pub fn run<R: Read, W: Write, E: Write>(
    alloc: Global,
    words: &[String],
    input: &mut R,
    out: &mut W,
    err: &mut E,
) -> u8
    // An unknown word is found before anything else.
    ensures words { turned_on (map string_bytes words.now) no_options ≡ None
        → (result ≡ 2) × (out.new ≡ out.old) × (input.new ≡ input.old) }

    // Without one, the status follows from the outcome of reading, rendering and writing; and nothing is written but a
    // prefix of the HTML, and that only where everything was read.
    ensures outcome { IfSome (turned_on (map string_bytes words.now) no_options)
        (λ options. (outcome : Result (Unit {0}) Failure)
        × (result ≡ status_of outcome)
        × LeavesHtml W.contents options (R.remaining input.old) (R.remaining input.new) out.old
        out.new outcome) }
    ensures status { IfSome (turned_on (map string_bytes words.now) no_options) (λ options. result
        ≤ 1) }
    ensures not_text { IfSome (turned_on (map string_bytes words.now) no_options) (λ options.
        IfSome (R.remaining input.old) (λ bytes. (IsUtf8 bytes → ⊥)
        → (result ≡ 1) × (out.new ≡ out.old))) }
    ensures printed { result ≡ 0
        → IfSome (turned_on (map string_bytes words.now) no_options) (λ options.
        IfSome (R.remaining input.old) (λ bytes.
        IsUtf8 bytes × Appends (W.contents out.old) (W.contents out.new)
        (html_of_text (source_as (profile_syntax options) bytes)))) }
    ensures quiet { result ≡ 0 → err.new ≡ err.old }
{
    match options_of(words) {
        Ok(options) => report(convert(alloc, options, input, out), err),
        Err(word) => {
            let _ = writeln!(err, "unknown option: {word}");
            2
        }
    }
}
