//! The page that a request asks for.
ghost use Rattle.std.specs.Prelude.{◌≡◌, IfErr, IfOk, map, string_bytes};
ghost use Rattle.markdown_tool_command.specs.Requests.{page_view};
ghost use Rattle.markdown_tool_output.specs.Files.{asked_view, file_view};
ghost use Rattle.markdown_tool_output.specs.Outputs.{contents_asked, contents_of_files, in_page, title_of_file};
ghost use Rattle.markdown_tool_output.specs.Outputs.{title_of_files, title_of_headings, title_shown};
ghost use Rattle.std.specs.Prelude.{Some};

use crate::file::{Asked, File};
use crate::headings::{first_title, headings_of_file};
use crate::metadata::title_in_metadata;
use crate::text::without_mark;
use markdown_base::fault::Fault;
use markdown_base::syntax::Syntax;
use markdown_contents::html_list_of;
use markdown_page::{Style, file_title, page_html};
use markdown_tool_command::Page;
use std::alloc::Global;

/// Returns the title that the headings of a file give a page, or otherwise its name.
fn title_of_headings(alloc: Global, asked: Asked<'_>, file: File<'_>) -> Result<String, Fault>
    ensures title { IfOk result (λ title.
        string_bytes title ≡ title_of_headings (asked_view asked.entry) (file_view file.entry)) }
    ensures refused { IfErr result (λ fault. fault ≡ Fault.Memory) }
{
    let headings = headings_of_file(alloc, asked, file)?;
    match first_title(headings.as_slice()) {
        Some(title) => Ok(String::from_str(alloc, title)?),
        None => Ok(String::from_str(alloc, file_title(file.name))?),
    }
}

/// Returns the title that a file gives a page: that in its metadata, or of its headings.
fn title_of_file(alloc: Global, asked: Asked<'_>, file: File<'_>) -> Result<String, Fault>
    ensures title { IfOk result (λ title.
        string_bytes title ≡ title_of_file (asked_view asked.entry) (file_view file.entry)) }
    ensures refused { IfErr result (λ fault. fault ≡ Fault.Memory) }
{
    let syntax = Syntax::full(asked.enabled.options);
    match title_in_metadata(alloc, without_mark(file.text), syntax)? {
        Some(title) => Ok(title),
        None => title_of_headings(alloc, asked, file),
    }
}

/// Returns the title that the first of some files gives a page.
fn title_of_files(alloc: Global, asked: Asked<'_>, files: &[File<'_>]) -> Result<String, Fault>
    ensures title { IfOk result (λ title.
        string_bytes title ≡ title_of_files (asked_view asked.entry) (map file_view files.now)) }
    ensures refused { IfErr result (λ fault. fault ≡ Fault.Memory) }
{
    match files.first() {
        Some(file) => title_of_file(alloc, asked, *file),
        None => Ok(String::new(alloc)),
    }
}

/// Returns the title of a page, its own or that of its files.
fn title_shown(
    alloc: Global,
    page: &Page,
    asked: Asked<'_>,
    files: &[File<'_>],
) -> Result<String, Fault>
    ensures title { IfOk result (λ title. string_bytes title
        ≡ title_shown (page_view page.now) (asked_view asked.entry) (map file_view files.now)) }
    ensures refused { IfErr result (λ fault. fault ≡ Fault.Memory) }
{
    match &page.title {
        Some(title) => Ok(String::from_str(alloc, title.as_str())?),
        None => title_of_files(alloc, asked, files),
    }
}

/// Returns the lists of the headings of files, one after another.
fn contents_of_files(alloc: Global, asked: Asked<'_>, files: &[File<'_>]) -> Result<String, Fault>
    ensures contents { IfOk result (λ contents.
        string_bytes contents
        ≡ contents_of_files (asked_view asked.entry) (map file_view files.now)) }
    ensures refused { IfErr result (λ fault. fault ≡ Fault.Memory) }
{
    let mut contents = String::new(alloc);
    'files: for file in files {
        let headings = headings_of_file(alloc, asked, *file)?;
        let list = html_list_of(alloc, headings.as_slice())?;
        contents.push_str(list.as_str())?;
    }
    Ok(contents)
}

/// Returns the contents of a page, where they are asked for.
fn contents_asked(
    alloc: Global,
    page: &Page,
    asked: Asked<'_>,
    files: &[File<'_>],
) -> Result<String, Fault>
    ensures contents { IfOk result (λ contents. string_bytes contents
        ≡ contents_asked (page_view page.now) (asked_view asked.entry) (map file_view files.now)) }
    ensures refused { IfErr result (λ fault. fault ≡ Fault.Memory) }
{
    if page.contents {
        contents_of_files(alloc, asked, files)
    } else {
        Ok(String::new(alloc))
    }
}

/// What becomes a page.
#[derive(Clone, Copy, Drop)]
pub(crate) struct Inside<'a> {
    pub asked: Asked<'a>,
    pub files: &'a [File<'a>],
    /// The HTML of the files.
    pub html: &'a str,
}

/// Returns a page with this in it.
pub(crate) fn page_of(alloc: Global, page: &Page, inside: Inside<'_>) -> Result<String, Fault>
    ensures html { let i = inside.entry in let files = map file_view i.files.now in IfOk result
        (λ html. string_bytes html
        ≡ in_page (Some (page_view page.now)) (asked_view i.asked) files i.html.now) }
    ensures refused { IfErr result (λ fault. fault ≡ Fault.Memory) }
{
    let title = title_shown(alloc, page, inside.asked, inside.files)?;
    let contents = contents_asked(alloc, page, inside.asked, inside.files)?;
    let whole = markdown_page::Page {
        language: page.language.as_deref(),
        title: title.as_str(),
        style: Style::of(page.style.as_deref()),
        contents: contents.as_str(),
        html: inside.html,
    };
    page_html(alloc, &whole)
}
