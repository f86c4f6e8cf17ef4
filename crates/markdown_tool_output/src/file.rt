//! The files that are read, and what is asked for of each.
ghost use Rattle.std.specs.Prelude.{◌≡◌, IfErr, IfOk, map, slice_get, string_bytes, unwrap_or};
ghost use Rattle.markdown_tool_command.specs.Requests.{standard};
ghost use Rattle.markdown_tool_output.specs.Files.{asked_view, file_view};
ghost use Rattle.markdown_tool_output.specs.Outputs.{asked_of, file_prefix, files_of, link_name};

use markdown_base::fault::Fault;
use markdown_safe::SafeRules;
use markdown_tool_command::extensions::Enabled;
use markdown_tool_command::{Format, Request, STANDARD};
use std::alloc::Global;

/// One of the files that are read.
#[derive(Clone, Copy, Debug, Drop)]
pub(crate) struct File<'a> {
    pub name: &'a str,
    /// Its place among the files, from 1.
    pub number: usize,
    /// Whether there are several.
    pub several: bool,
    pub text: &'a str,
}

/// What is asked for of each file.
#[derive(Clone, Copy, Debug, Drop)]
pub(crate) struct Asked<'r> {
    pub format: Format,
    /// Whether lines of JSON have the lines and columns of their ranges.
    pub positions: bool,
    pub enabled: Enabled,
    /// The rules by which HTML is made safe.
    pub rules: SafeRules<'r>,
}

/// Returns what a request asks for of each file.
pub(crate) fn asked_of(request: &Request) -> Asked<'_>
    ensures { asked_view result ≡ asked_of request.now }
{
    Asked {
        format: request.format,
        positions: request.positions,
        enabled: request.enabled,
        rules: request.rules.as_safe(),
    }
}

/// Returns the name of the file after this number of others.
fn name_after(request: &Request, before: usize) -> &str
    ensures { result.now
        ≡ unwrap_or (slice_get (map string_bytes request.now.inputs.items) before) standard }
{
    match request.inputs.as_slice().get(before) {
        Some(name) => name.as_str(),
        None => STANDARD,
    }
}

/// Returns the files of a request whose files hold these texts.
pub(crate) fn files_of<'a>(
    alloc: Global,
    request: &'a Request,
    texts: &'a [String],
) -> Result<Vec<File<'a>>, Fault>
    ensures files { IfOk result (λ files.
        map file_view files.items ≡ files_of request.now (map string_bytes texts.now)) }
    ensures refused { IfErr result (λ fault. fault ≡ Fault.Memory) }
{
    let several = texts.len() > 1;
    let mut files = Vec::new(alloc);
    for before in 0..texts.len() {
        files.push(File {
            name: name_after(request, before),
            number: before + 1,
            several,
            text: texts[before].as_str(),
        })?;
    }
    Ok(files)
}

/// Returns what begins all ids of the file with this number, where there are several.
pub(crate) fn file_prefix(alloc: Global, number: usize) -> Result<String, Fault>
    ensures prefix { IfOk result (λ prefix. string_bytes prefix ≡ file_prefix number) }
    ensures refused { IfErr result (λ fault. fault ≡ Fault.Memory) }
{
    Ok(format!(in alloc; "f{number}-")?)
}

/// Returns the name by which links lead to a file: none if it is the only one, or standard input.
pub(crate) fn link_name<'a>(file: File<'a>) -> &'a str
    ensures { result.now ≡ link_name (file_view file.entry) }
{
    if file.several && file.name != STANDARD {
        file.name
    } else {
        ""
    }
}
