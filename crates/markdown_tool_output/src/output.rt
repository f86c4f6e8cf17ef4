//! What is written for a request: a function of the request and of the texts alone.
ghost use Rattle.std.specs.Prelude.{◌≡◌, ◌++◌, IfErr, IfOk, OnOk, map, string_bytes};
ghost use Rattle.markdown_additions.specs.Written.{IsFaultOfWritingText, as_lines, view_of_form};
ghost use Rattle.markdown_tool_output.specs.Files.{asked_view, file_view};
ghost use Rattle.markdown_tool_output.specs.Outputs.{IsFaultOfFile, IsFaultOfFiles, IsFaultOfHtml, IsFaultOfOutput};
ghost use Rattle.markdown_tool_output.specs.Outputs.{events_of_file, file_line, file_source, html_of_file, line_additions};
ghost use Rattle.markdown_tool_output.specs.Outputs.{named_line, output_of, output_of_file, outputs_of};

use crate::additions::line_additions;
use crate::file::{Asked, File, asked_of, file_prefix, files_of};
use crate::headings::{contents_of_file, outline_of_file};
use crate::lint::{broken_of_file, links_of_file};
use crate::page::{Inside, page_of};
use crate::text::without_mark;
use markdown_additions::{Additions, Form, Ids, placed_lines_source, written_source};
use markdown_base::fault::Fault;
use markdown_base::syntax::Syntax;
use markdown_json::{Piece, push_pieces};
use markdown_tool_command::extensions::Enabled;
use markdown_tool_command::{Format, Request};
use std::alloc::{AllocError, Global};

/// Returns the HTML of a file, safe or not.
fn html_of_file<'f>(
    alloc: Global,
    form: Form<'f>,
    enabled: Enabled,
    file: File<'f>,
) -> Result<String, Fault>
    ensures html { let f = file_view file.entry in IfOk result (λ html. string_bytes html
        ≡ html_of_file (view_of_form form.entry) enabled f) }
    ensures faults { IfErr result
        (IsFaultOfHtml (view_of_form form.entry) enabled (file_view file.entry)) }
{
    let syntax = Syntax::full(enabled.options);
    let text = without_mark(file.text);
    if !enabled.heading_ids || !file.several {
        return written_source(alloc, text, syntax, line_additions(enabled), form);
    }
    let prefix = file_prefix(alloc, file.number)?;
    let additions = Additions {
        autolinks: enabled.autolinks,
        ids: Ids::Prefixed(prefix.as_str()),
    };
    written_source(alloc, text, syntax, additions, form)
}

/// Returns the lines of the events of a file, with the places of their ranges if `positions` is set.
fn events_of_file(
    alloc: Global,
    positions: bool,
    enabled: Enabled,
    file: File<'_>,
) -> Result<String, Fault>
    ensures lines { IfOk result (λ lines.
        string_bytes lines ≡ events_of_file positions enabled (file_view file.entry)) }
    ensures faults { let f = file_view file.entry in IfErr result
        (IsFaultOfWritingText as_lines (line_additions enabled) (file_source enabled f)) }
{
    let syntax = Syntax::full(enabled.options);
    let text = without_mark(file.text);
    let additions = line_additions(enabled);
    if positions {
        Ok(placed_lines_source(alloc, text, syntax, additions)?)
    } else {
        written_source(alloc, text, syntax, additions, Form::Lines)
    }
}

/// Returns what is written for a file.
fn output_of_file<'f>(alloc: Global, asked: Asked<'f>, file: File<'f>) -> Result<String, Fault>
    ensures output { IfOk result (λ output.
        string_bytes output ≡ output_of_file (asked_view asked.entry) (file_view file.entry)) }
    ensures faults { IfErr result
        (IsFaultOfFile (asked_view asked.entry) (file_view file.entry)) }
{
    let enabled = asked.enabled;
    let positions = asked.positions;
    match asked.format {
        Format::Html => html_of_file(alloc, Form::Html, enabled, file),
        Format::SafeHtml => html_of_file(alloc, Form::SafeHtml(asked.rules), enabled, file),
        Format::Events => events_of_file(alloc, positions, enabled, file),
        Format::Outline => outline_of_file(alloc, positions, enabled, file),
        Format::Links => links_of_file(alloc, positions, enabled, file),
        Format::Broken => broken_of_file(alloc, positions, enabled, file),
        Format::Contents => contents_of_file(alloc, enabled, file),
    }
}

/// Appends the line that names one of several files.
fn push_named_line(outputs: &mut String, file: File<'_>) -> Result<(), AllocError>
    ensures { OnOk result (string_bytes outputs.new
        ≡ string_bytes outputs.old ++ named_line (file_view file.entry)) }
{
    if !file.several {
        return Ok(());
    }
    push_pieces(
        outputs,
        &[
            Piece::Raw("{\"file\":"),
            Piece::Text(file.name),
            Piece::Raw("}\n"),
        ],
    )
}

/// Appends the line that names one of several files, in a format of lines.
fn push_file_line(outputs: &mut String, format: Format, file: File<'_>) -> Result<(), AllocError>
    ensures { OnOk result (string_bytes outputs.new
        ≡ string_bytes outputs.old ++ file_line format (file_view file.entry)) }
{
    match format {
        Format::Html | Format::SafeHtml | Format::Contents => Ok(()),
        Format::Events | Format::Outline | Format::Links | Format::Broken => {
            push_named_line(outputs, file)
        }
    }
}

/// Returns what is written for files, one after another.
fn outputs_of(alloc: Global, asked: Asked<'_>, files: &[File<'_>]) -> Result<String, Fault>
    ensures outputs { IfOk result (λ outputs. string_bytes outputs
        ≡ outputs_of (asked_view asked.entry) (map file_view files.now)) }
    ensures faults { IfErr result
        (IsFaultOfFiles (asked_view asked.entry) (map file_view files.now)) }
{
    let mut outputs = String::new(alloc);
    'files: for file in files {
        push_file_line(&mut outputs, asked.format, *file)?;
        let output = output_of_file(alloc, asked, *file)?;
        outputs.push_str(output.as_str())?;
    }
    Ok(outputs)
}

/// Returns what is written for a request whose files hold these texts: what is written for each text, one after another,
/// in a page where one is asked for.
///
/// # Errors
///
/// `Memory` if an allocation fails, and `Depth` where in a text more than 2^64 - 1 Starts are open in one image.
pub fn output_of(alloc: Global, request: &Request, texts: &[String]) -> Result<String, Fault>
    ensures output { IfOk result (λ output.
        string_bytes output ≡ output_of request.now (map string_bytes texts.now)) }
    ensures faults { IfErr result (IsFaultOfOutput request.now (map string_bytes texts.now)) }
{
    let files = files_of(alloc, request, texts)?;
    let asked = asked_of(request);
    let outputs = outputs_of(alloc, asked, files.as_slice())?;
    match &request.page {
        Some(page) => {
            let inside = Inside {
                asked,
                files: files.as_slice(),
                html: outputs.as_str(),
            };
            page_of(alloc, page, inside)
        }
        None => Ok(outputs),
    }
}
