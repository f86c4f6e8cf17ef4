//! The program that prints events, over any reader and two writers.
ghost use Rattle.std.specs.Prelude.{◌≡◌, ◌≢◌, ◌≤◌, map, None, string_bytes};
ghost use Rattle.std.specs.Prelude.{Result, IfOk, IfErr, IfSome};
ghost use Rattle.std.specs.Str.{IsUtf8};
ghost use Rattle.std.specs.Io.KnownBytes.{Appends};
ghost use Rattle.markdown_base.specs.EnabledOptions.{no_options};
ghost use Rattle.markdown_base.specs.Source.{source_as};
ghost use Rattle.markdown_base.specs.Syntax.{profile_syntax};
ghost use Rattle.markdown_base.specs.declared.fault.Fault.TheVariants.{Memory};
ghost use Rattle.markdown_render.specs.Outcome.{status_of};
ghost use Rattle.markdown_render.specs.Words.{turned_on};
ghost use Rattle.markdown_render.specs.declared.run.Failure.{Failure};
ghost use Rattle.markdown_text_json.specs.TextJson.{json_of_text};
ghost use Rattle.markdown_text_json.specs.JsonOutcome.{LeavesJson};

use crate::text::text_json;
use markdown_base::options::Options;
use markdown_render::run::{Failure, print, read_text, report};
use markdown_render::words::options_of;
use std::alloc::Global;
use std::io::{Read, Write};

/// Returns the lines of the events of a text with these options.
fn lines(alloc: Global, text: &str, options: Options) -> Result<String, Failure>
    ensures json { IfOk result (λ json.
        string_bytes json ≡ json_of_text (source_as (profile_syntax options) text.now)) }
    ensures refused { IfErr result (λ failure. failure ≡ Failure.Fault Memory) }
{
    Ok(text_json(alloc, text, options)?)
}

/// Reads all of `input` as Markdown with these options and writes the lines of its events to `out`.
///
/// # Errors
///
/// What failed first. Where writing failed, a prefix of the lines has been written; where it had not begun, nothing.
pub fn convert<R: Read, W: Write>(
    alloc: Global,
    options: Options,
    input: &mut R,
    out: &mut W,
) -> Result<(), Failure>
    ensures leaves { LeavesJson W.contents options (R.remaining input.old) (R.remaining input.new)
        out.old out.new
        result }
    ensures not_text { IfSome (R.remaining input.old) (λ bytes.
        (IsUtf8 bytes → ⊥) → (result ≢ Ok tt) × (out.new ≡ out.old)) }
{
    let text = read_text(alloc, input)?;
    let json = lines(alloc, text.as_str(), options)?;
    print(out, json.as_str())
}

/// Reads all of `input` as Markdown and writes the lines of its events to `out`, as `convert` does. Each word enables an
/// option. Writes to `err`, in one line, what failed, and returns the exit status, whether or not that line can be
/// written: 0 where everything was written; 2 where a word is unknown, and then `input` and `out` are not used;
/// otherwise 1.
pub fn run<R: Read, W: Write, E: Write>(
    alloc: Global,
    words: &[String],
    input: &mut R,
    out: &mut W,
    err: &mut E,
) -> u8
    // An unknown word is found before anything else.
    ensures words { turned_on (map string_bytes words.now) no_options ≡ None
        → (result ≡ 2) × (out.new ≡ out.old) × (input.new ≡ input.old) }

    // Without one, the status follows from the outcome of reading, parsing and writing; and nothing is written but a
    // prefix of the lines, and that only where everything was read.
    ensures outcome { IfSome (turned_on (map string_bytes words.now) no_options)
        (λ options. (outcome : Result (Unit {0}) Failure)
        × (result ≡ status_of outcome)
        × LeavesJson W.contents options (R.remaining input.old) (R.remaining input.new) out.old
        out.new outcome) }
    ensures status { IfSome (turned_on (map string_bytes words.now) no_options) (λ options. result
        ≤ 1) }
    ensures not_text { IfSome (turned_on (map string_bytes words.now) no_options) (λ options.
        IfSome (R.remaining input.old) (λ bytes. (IsUtf8 bytes → ⊥)
        → (result ≡ 1) × (out.new ≡ out.old))) }
    ensures printed { result ≡ 0
        → IfSome (turned_on (map string_bytes words.now) no_options) (λ options.
        IfSome (R.remaining input.old) (λ bytes.
        IsUtf8 bytes × Appends (W.contents out.old) (W.contents out.new)
        (json_of_text (source_as (profile_syntax options) bytes)))) }
    ensures quiet { result ≡ 0 → err.new ≡ err.old }
{
    match options_of(words) {
        Ok(options) => report(convert(alloc, options, input, out), err),
        Err(word) => {
            let _ = writeln!(err, "unknown option: {word}");
            2
        }
    }
}
