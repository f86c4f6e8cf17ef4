//! What a command line asks for.
ghost use Rattle.std.specs.Prelude.{◌≡◌, IfOk, IfErr, codes, map, option_map, string_bytes};
ghost use Rattle.clap.specs.Words.{found_of, rows_of};
ghost use Rattle.markdown_tool_command.specs.Requests.{AreEnabledBy, IsRefusal, IsRequestOf, IsValueRefusal};
ghost use Rattle.markdown_tool_command.specs.Requests.{asks_part, asks_rule, choices_asked, format_asked, named_format};
ghost use Rattle.markdown_tool_command.specs.Requests.{or_standard, page_asked, page_view, parts_asked, sets_asked};
ghost use Rattle.markdown_tool_command.specs.Requests.{values_given};

use crate::choices::{Choices, Format, Misuse, checked_format, format_named};
use crate::extensions::{Enabled, Sets, all_enabled, unknown_part};
use crate::lists::list_parts;
use crate::rules::{Rules, limit_asked, rules_asked};
use crate::values::{is_given, value_of, values_of};
use clap::ArgMatches;
use std::alloc::{AllocError, AllocFailed, Global};

/// The page that HTML stands in.
#[derive(Debug, Drop)]
pub struct Page {
    /// Its title, where one is given.
    pub title: Option<String>,
    /// The address of its style sheet, where one is given in place of the default style; an empty one is for none.
    pub style: Option<String>,
    /// The tag of its language, where one is given.
    pub language: Option<String>,
    /// Whether it begins with a table of contents.
    pub contents: bool,
}

/// What a command line asks for.
#[derive(Debug, Drop)]
pub struct Request {
    pub format: Format,
    /// The extensions.
    pub enabled: Enabled,
    /// The rules of safe HTML, for where that is the format.
    pub rules: Rules,
    /// The page that is asked for, where one is; then the format is HTML, safe or not.
    pub page: Option<Page>,
    /// Whether lines of JSON have the lines and columns of their ranges; then the format is one of lines.
    pub positions: bool,
    /// Whether files that are not UTF-8 are read too, with U+FFFD for what is none.
    pub lossy: bool,
    /// The number of bytes that may be written, where it is limited.
    pub limit: Option<usize>,
    /// The file that is written. `-` is standard output.
    pub output: String,
    /// The files that are read, in order, at least one. `-` is standard input.
    pub inputs: Vec<String>,
}

/// The name of standard input, and of standard output.
pub const STANDARD: &str = "-";

/// Why words that clap takes give no request.
#[derive(Debug, Drop)]
pub enum Refusal<'a> {
    /// An allocation failed.
    Memory,
    /// Choices that do not go together.
    Misuse(Misuse),
    /// A value is none of those that it may be.
    WrongValue(WrongValue<'a>),
}

/// A value that is none of those that it may be.
#[derive(Clone, Copy, Debug, Drop)]
pub enum WrongValue<'a> {
    /// A part of a list of extensions that names none that is offered.
    Extension(&'a str),
    /// What images become, which has another name.
    Images(&'a str),
    /// What has to be a number below 2^64.
    Number(&'a str),
}

impl<'a, T: Drop> From<AllocFailed<T>> for Refusal<'a> {
    ghost use Rattle.std.specs.Prelude.{◌≡◌};
    ghost use Rattle.markdown_tool_command.specs.declared.request.Refusal.{Refusal};

    ghost from_gives = { λ _ refusal. refusal ≡ Refusal.Memory };

    fn from(refused: AllocFailed<T>) -> Refusal<'a> {
        drop(refused);
        Refusal::Memory
    }
}

impl<'a> From<AllocError> for Refusal<'a> {
    ghost use Rattle.std.specs.Prelude.{◌≡◌};
    ghost use Rattle.markdown_tool_command.specs.declared.request.Refusal.{Refusal};

    ghost from_gives = { λ _ refusal. refusal ≡ Refusal.Memory };

    fn from(_refused: AllocError) -> Refusal<'a> {
        Refusal::Memory
    }
}

/// Returns a text of its own, where there is one.
fn copy_of(alloc: Global, text: Option<&str>) -> Result<Option<String>, AllocError>
    ensures { IfOk result (λ copy.
        option_map string_bytes copy ≡ option_map (λ t. t.now) text.entry) }
{
    match text {
        Some(text) => Ok(Some(String::from_str(alloc, text)?)),
        None => Ok(None),
    }
}

/// Returns copies of the names, or that of standard input where there is none.
fn inputs_of(alloc: Global, names: &[&str]) -> Result<Vec<String>, AllocError>
    ensures { IfOk result (λ inputs. map string_bytes inputs.items
        ≡ or_standard (map (λ name. name.now) names.now)) }
{
    let mut inputs = Vec::new(alloc);
    if names.is_empty() {
        inputs.push(String::from_str(alloc, STANDARD)?)?;
        return Ok(inputs);
    }
    'names: for name in names {
        inputs.push(String::from_str(alloc, name)?)?;
    }
    Ok(inputs)
}

/// Returns the parts of the lists of extensions that are asked for.
fn parts_asked<'a>(alloc: Global, matches: &ArgMatches<'a>) -> Result<Vec<&'a str>, AllocError>
    ensures { IfOk result (λ parts. map (λ part. part.now) parts.items
        ≡ parts_asked (rows_of (found_of matches.now))) }
{
    match values_of(matches, "extension") {
        Some(lists) => list_parts(alloc, lists),
        None => list_parts(alloc, &[]),
    }
}

/// Returns the sets of extensions that are asked for.
fn sets_asked(matches: &ArgMatches<'_>) -> Sets
    ensures { result ≡ sets_asked (rows_of (found_of matches.now)) }
{
    Sets {
        all: is_given(matches, "all-extensions"),
        gfm: is_given(matches, "gfm"),
        page: is_given(matches, "full-page"),
    }
}

/// Returns what is enabled.
///
/// # Errors
///
/// `Memory` if an allocation fails, and `WrongValue` at the first part of a list that neither enables nor disables an
/// extension that is offered.
fn enabled_by<'a>(alloc: Global, matches: &ArgMatches<'a>) -> Result<Enabled, Refusal<'a>>
    ensures enabled { IfOk result (AreEnabledBy (rows_of (found_of matches.now))) }
    ensures refused { IfErr result (IsValueRefusal (rows_of (found_of matches.now))) }
{
    let parts = parts_asked(alloc, matches)?;
    match unknown_part(parts.as_slice()) {
        Some(part) => Err(Refusal::WrongValue(WrongValue::Extension(part))),
        None => Ok(all_enabled(sets_asked(matches), parts.as_slice())),
    }
}

/// Returns whether a part of a page is asked for: its title, its style sheet, its language or its contents.
fn asks_part(matches: &ArgMatches<'_>) -> bool
    ensures { result ≡ asks_part (rows_of (found_of matches.now)) }
{
    value_of(matches, "title").is_some()
        || value_of(matches, "css").is_some()
        || value_of(matches, "lang").is_some()
        || is_given(matches, "toc")
}

/// Returns whether a rule of safe HTML is asked for.
fn asks_rule(matches: &ArgMatches<'_>) -> bool
    ensures { result ≡ asks_rule (rows_of (found_of matches.now)) }
{
    value_of(matches, "images").is_some()
        || value_of(matches, "id-prefix").is_some()
        || is_given(matches, "no-rel")
        || value_of(matches, "nesting").is_some()
}

/// Returns the format that is named, or `None` where it is not offered.
fn named_format(matches: &ArgMatches<'_>) -> Option<Format>
    ensures { result ≡ named_format (rows_of (found_of matches.now)) }
{
    match value_of(matches, "to") {
        Some(name) => format_named(name),
        None => Some(Format::Html),
    }
}

/// Returns what is chosen beside the format.
fn choices_asked(matches: &ArgMatches<'_>) -> Choices
    ensures { result ≡ choices_asked (rows_of (found_of matches.now)) }
{
    Choices {
        safe: is_given(matches, "safe"),
        page: is_given(matches, "full-page"),
        part: asks_part(matches),
        rule: asks_rule(matches),
        positions: is_given(matches, "positions"),
    }
}

/// Returns the format that is asked for, or what does not go together with it.
fn format_asked(matches: &ArgMatches<'_>) -> Result<Format, Misuse>
    ensures { result ≡ format_asked (rows_of (found_of matches.now)) }
{
    match named_format(matches) {
        Some(named) => checked_format(named, choices_asked(matches)),
        None => Err(Misuse::UnknownFormat),
    }
}

/// Returns the page that is asked for, if one is.
fn page_asked(alloc: Global, matches: &ArgMatches<'_>) -> Result<Option<Page>, AllocError>
    ensures { IfOk result (λ page. option_map page_view page
        ≡ page_asked (rows_of (found_of matches.now))) }
{
    if !is_given(matches, "full-page") {
        return Ok(None);
    }
    let title = copy_of(alloc, value_of(matches, "title"))?;
    let style = copy_of(alloc, value_of(matches, "css"))?;
    let language = copy_of(alloc, value_of(matches, "lang"))?;
    Ok(Some(Page {
        title,
        style,
        language,
        contents: is_given(matches, "toc"),
    }))
}

/// Returns the names of the files that are asked for.
fn inputs_asked(alloc: Global, matches: &ArgMatches<'_>) -> Result<Vec<String>, AllocError>
    ensures { IfOk result (λ inputs. map string_bytes inputs.items
        ≡ or_standard (values_given (codes "file") (rows_of (found_of matches.now)))) }
{
    match values_of(matches, "file") {
        Some(names) => inputs_of(alloc, names),
        None => inputs_of(alloc, &[]),
    }
}

/// Returns what the matches of a command line ask for.
///
/// # Errors
///
/// `Memory` if an allocation fails, `Misuse` where choices do not go together, and otherwise `WrongValue`, at a list of
/// extensions, at a rule of safe HTML or at the limit.
pub(crate) fn request_asked<'a>(
    alloc: Global,
    matches: &ArgMatches<'a>,
) -> Result<Request, Refusal<'a>>
    ensures request { IfOk result (IsRequestOf (rows_of (found_of matches.now))) }
    ensures refused { IfErr result (IsRefusal (rows_of (found_of matches.now))) }
{
    let format = match format_asked(matches) {
        Ok(format) => format,
        Err(misuse) => return Err(Refusal::Misuse(misuse)),
    };
    let enabled = enabled_by(alloc, matches)?;
    let rules = rules_asked(alloc, matches)?;
    let limit = limit_asked(matches)?;
    let page = page_asked(alloc, matches)?;
    let output = String::from_str(alloc, value_of(matches, "output").unwrap_or(STANDARD))?;
    let inputs = inputs_asked(alloc, matches)?;
    Ok(Request {
        format,
        enabled,
        rules,
        page,
        positions: is_given(matches, "positions"),
        lossy: is_given(matches, "lossy"),
        limit,
        output,
        inputs,
    })
}
