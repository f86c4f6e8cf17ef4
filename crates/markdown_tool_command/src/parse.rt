//! The words of the command line, parsed.
ghost use Rattle.std.specs.Prelude.{◌≡◌, IfOk, IfErr, false, codes, map, string_bytes};
ghost use Rattle.clap.specs.Words.{app_of, new_app, rule_of};
ghost use Rattle.clap.specs.declared.builder.value_parser.ValueParser.TheVariants.{Names};
ghost use Rattle.markdown_tool_command.specs.CommandLine.{IsRefusedBy, IsRequestBy, IsRefusedFor, IsRequestFor};
ghost use Rattle.markdown_tool_command.specs.CommandLine.{flag, tool, valued, versioned};
ghost use Rattle.markdown_tool_command.specs.CommandLine.{extension_rule, file_rule, output_rule, to_rule};
ghost use Rattle.markdown_tool_command.specs.CommandLine.{with_bound_rules, with_contents_rules, with_extension_rules};
ghost use Rattle.markdown_tool_command.specs.CommandLine.{with_file_rules, with_page_rules, with_safe_rules};

use crate::choices::FORMATS;
use crate::request::{Refusal, Request, STANDARD, WrongValue, request_asked};
use clap::error::ErrorKind;
use clap::{Arg, ArgAction, Command, Error};
use std::alloc::{AllocError, Global};

/// The version of the program, which is that of the repository.
pub const VERSION: &str = "0.10.0";

/// Returns an argument with a value, by its name, where help calls the value `value`.
fn option_with_value<'a>(alloc: Global, name: &'a str, value: &'a str) -> Arg<'a>
    ensures rule { rule_of result ≡ valued name.entry.now }
    ensures local { result.global ≡ false }
{
    Arg::new(alloc, name).long(name).value_name(value)
}

/// Returns an argument without a value, by its name.
fn flag<'a>(alloc: Global, name: &'a str) -> Arg<'a>
    ensures rule { rule_of result ≡ flag name.entry.now }
    ensures local { result.global ≡ false }
{
    Arg::new(alloc, name).long(name).action(ArgAction::SetTrue)
}

/// Returns the argument for the format, which is one of these names.
fn to<'a>(alloc: Global, names: &'a [&'a str]) -> Arg<'a>
    ensures rule { rule_of result ≡ to_rule (Names names.entry) }
    ensures local { result.global ≡ false }
{
    option_with_value(alloc, "to", "FORMAT")
        .short('t')
        .value_parser(names)
        .default_value("html")
        .help("What to write")
}

/// Returns the argument for lists of extensions.
fn extension<'a>(alloc: Global) -> Arg<'a>
    ensures rule { rule_of result ≡ extension_rule }
    ensures local { result.global ≡ false }
{
    option_with_value(alloc, "extension", "LIST")
        .short('e')
        .action(ArgAction::Append)
        .help("Enable extensions, with commas between; no-NAME disables one; may be repeated")
}

/// Returns the argument for the file that is written.
fn output<'a>(alloc: Global) -> Arg<'a>
    ensures rule { rule_of result ≡ output_rule }
    ensures local { result.global ≡ false }
{
    option_with_value(alloc, "output", "FILE")
        .short('o')
        .default_value(STANDARD)
        .help("The file to write; - is standard output")
}

/// Returns the argument for the files that are read.
fn file<'a>(alloc: Global) -> Arg<'a>
    ensures rule { rule_of result ≡ file_rule }
    ensures local { result.global ≡ false }
{
    Arg::new(alloc, "file")
        .value_name("FILE")
        .action(ArgAction::Append)
        .help("The files to read; - or none is standard input")
}

/// Adds the arguments for safe HTML, for what becomes of images in it, and for a prefix of its ids.
fn with_safe<'a>(alloc: Global, command: Command<'a>) -> Result<Command<'a>, AllocError>
    ensures { IfOk result (λ made. app_of made ≡ with_safe_rules (app_of command.entry)) }
{
    let with_safe = command.arg(flag(alloc, "safe").help(
        "Write safe HTML, for texts of strangers",
    ))?;
    let with_images = with_safe.arg(option_with_value(alloc, "images", "KIND").help(
        "What images become in safe HTML: shown, links or text [default: shown]",
    ))?;
    with_images.arg(option_with_value(alloc, "id-prefix", "TEXT").help(
        "What follows user-content- in the ids of safe HTML",
    ))
}

/// Adds the arguments for links to other sites, and for nesting.
fn with_bounds<'a>(alloc: Global, command: Command<'a>) -> Result<Command<'a>, AllocError>
    ensures { IfOk result (λ made. app_of made ≡ with_bound_rules (app_of command.entry)) }
{
    let with_rel = command.arg(flag(alloc, "no-rel").help(
        "Leave the rel of links to other sites out of safe HTML",
    ))?;
    with_rel.arg(option_with_value(alloc, "nesting", "NUMBER").help(
        "How many tags may stand in one another in safe HTML [default: 128]",
    ))
}

/// Adds the arguments for extensions.
fn with_extensions<'a>(alloc: Global, command: Command<'a>) -> Result<Command<'a>, AllocError>
    ensures { IfOk result (λ made. app_of made ≡ with_extension_rules (app_of command.entry)) }
{
    let named = command.arg(extension(alloc))?;
    let with_all = named.arg(
        flag(alloc, "all-extensions")
            .short('a')
            .help("Enable all extensions but old-footnotes"),
    )?;
    with_all.arg(flag(alloc, "gfm").help(
        "Enable the extensions of GitHub, which are marked with a *",
    ))
}

/// Adds the arguments for a page, its title and its style sheet.
fn with_page<'a>(alloc: Global, command: Command<'a>) -> Result<Command<'a>, AllocError>
    ensures { IfOk result (λ made. app_of made ≡ with_page_rules (app_of command.entry)) }
{
    let paged = command.arg(
        flag(alloc, "full-page")
            .short('f')
            .help("Write a whole page of HTML, with heading-ids"),
    )?;
    let titled = paged.arg(option_with_value(alloc, "title", "TITLE").help(
        "The title of the page [default: that of the text, or the name of the first file]",
    ))?;
    titled.arg(option_with_value(alloc, "css", "URL").help(
        "The style sheet of the page, in place of the default style; '' for none",
    ))
}

/// Adds the arguments for the language and the contents of a page.
fn with_contents<'a>(alloc: Global, command: Command<'a>) -> Result<Command<'a>, AllocError>
    ensures { IfOk result (λ made. app_of made ≡ with_contents_rules (app_of command.entry)) }
{
    let with_lang = command.arg(option_with_value(alloc, "lang", "TAG").help(
        "The language of the page",
    ))?;
    with_lang.arg(flag(alloc, "toc").help("Begin the page with a table of contents"))
}

/// Adds the arguments for files.
fn with_files<'a>(alloc: Global, command: Command<'a>) -> Result<Command<'a>, AllocError>
    ensures { IfOk result (λ made. app_of made ≡ with_file_rules (app_of command.entry)) }
{
    let with_lossy = command.arg(flag(alloc, "lossy").help(
        "Read bytes that are not UTF-8 as U+FFFD",
    ))?;
    let with_limit = with_lossy.arg(option_with_value(alloc, "limit", "BYTES").help(
        "Write nothing, and fail, if it would be more bytes",
    ))?;
    with_limit.arg(output(alloc))?.arg(file(alloc))
}

/// The end of the help: the extensions, in the order of their table, and the exit statuses. A star marks those that `--gfm`
/// enables.
const AFTER_HELP: &str =
    "Extensions: alerts*, autolinks*, footnotes*, heading-attributes, heading-ids*, math, old-footnotes, pluses, \
    smart,\nstrikethrough*, subscript, superscript, tables*, tasklists*, wikilinks, yaml.\n\n\
    Exit status: 0 if all was written, 1 if something failed, 2 if the command line is wrong.";

/// Returns the command without its arguments.
fn bare<'a>(alloc: Global) -> Result<Command<'a>, AllocError>
    ensures { IfOk result (λ made. app_of made ≡ versioned (new_app (codes "markdown"))) }
{
    Command::new(alloc, "markdown")
        .version(VERSION)
        .about(
            "Turn Markdown into HTML, events, an outline, a table of contents or lists of links.",
        )
        .after_help(AFTER_HELP)
        .bin_name("markdown")
}

/// Returns the command, where these formats are offered.
fn command<'a>(alloc: Global, formats: &'a [&'a str]) -> Result<Command<'a>, AllocError>
    ensures { IfOk result (λ made. app_of made ≡ tool (Names formats.entry)) }
{
    let bare = bare(alloc)?;
    let with_formats = bare.arg(to(alloc, formats))?;
    let with_safe = with_safe(alloc, with_formats)?;
    let bounded = with_bounds(alloc, with_safe)?;
    let extended = with_extensions(alloc, bounded)?;
    let paged = with_page(alloc, extended)?;
    let with_contents = with_contents(alloc, paged)?;
    let with_positions = with_contents.arg(flag(alloc, "positions").help(
        "Add lines and columns to lines of JSON",
    ))?;
    with_files(alloc, with_positions)
}

/// Returns the message about a value that is none of those that it may be.
fn wrong_text(alloc: Global, value: WrongValue<'_>) -> Result<String, AllocError> {
    match value {
        WrongValue::Extension(part) => {
            format!(in alloc; "'{part}' is no extension; see --help for their names")
        }
        WrongValue::Images(name) => {
            format!(in alloc; "'{name}' is none of what images become: shown, links or text")
        }
        WrongValue::Number(text) => format!(in alloc; "'{text}' is no number below 2^64"),
    }
}

/// Returns the request of these words, where these formats are offered.
fn request_with<'a>(
    alloc: Global,
    formats: &'a [&'a str],
    words: &'a [String],
) -> Result<Request, Error>
    ensures request { IfOk result
        (IsRequestBy (Names formats.entry) (map string_bytes words.now)) }
    ensures refused { IfErr result
        (IsRefusedBy (Names formats.entry) (map string_bytes words.now)) }
{
    let mut command = command(alloc, formats)?;
    let matches = command.try_get_matches_from_mut(words)?;
    match request_asked(alloc, &matches) {
        Ok(request) => Ok(request),
        Err(Refusal::Memory) => Err(Error::from(AllocError)),
        Err(Refusal::Misuse(misuse)) => {
            Err(command.error(ErrorKind::ArgumentConflict, misuse.text())?)
        }
        Err(Refusal::WrongValue(value)) => {
            let text = wrong_text(alloc, value)?;
            Err(command.error(ErrorKind::InvalidValue, text.as_str())?)
        }
    }
}

/// Returns the request of the words of a command line, of which the first names the program.
///
/// # Errors
///
/// What is wrong with the words, or that help or the version is asked for, or that an allocation failed.
pub fn request_of(alloc: Global, words: &[String]) -> Result<Request, Error>
    ensures request { IfOk result (IsRequestFor (map string_bytes words.now)) }
    ensures refused { IfErr result (IsRefusedFor (map string_bytes words.now)) }
{
    request_with(alloc, FORMATS.as_slice(), words)
}
