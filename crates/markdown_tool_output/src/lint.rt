//! The lines of a file that linters and link checkers read: of its links, and of references whose label no definition has.
ghost use Rattle.std.specs.Prelude.{◌≡◌, IfErr, IfOk, string_bytes};
ghost use Rattle.markdown_tool_output.specs.Files.{file_view};
ghost use Rattle.markdown_tool_output.specs.Outputs.{broken_of_file, links_of_file};

use crate::additions::line_additions;
use crate::file::File;
use crate::text::without_mark;
use markdown_additions::links_source;
use markdown_base::fault::Fault;
use markdown_base::syntax::Syntax;
use markdown_lint_json::{
    broken_source, push_broken, push_broken_with_places, push_links, push_links_with_places,
};
use markdown_positions::Positions;
use markdown_tool_command::extensions::Enabled;
use std::alloc::Global;

/// Returns the lines of the links and images of a file, with the places of their ranges if `positions` is set.
pub(crate) fn links_of_file(
    alloc: Global,
    positions: bool,
    enabled: Enabled,
    file: File<'_>,
) -> Result<String, Fault>
    ensures lines { IfOk result (λ lines.
        string_bytes lines ≡ links_of_file positions enabled (file_view file.entry)) }
    ensures refused { IfErr result (λ fault. fault ≡ Fault.Memory) }
{
    let text = without_mark(file.text);
    let syntax = Syntax::full(enabled.options);
    let list = links_source(alloc, text, syntax, line_additions(enabled))?;
    let mut lines = String::new(alloc);
    if positions {
        let places = Positions::new(alloc, text)?;
        push_links_with_places(&mut lines, &list, &places)?;
    } else {
        push_links(&mut lines, &list)?;
    }
    Ok(lines)
}

/// Returns the lines of the references of a file whose link label no definition has, with the places of their ranges if
/// `positions` is set.
pub(crate) fn broken_of_file(
    alloc: Global,
    positions: bool,
    enabled: Enabled,
    file: File<'_>,
) -> Result<String, Fault>
    ensures lines { IfOk result (λ lines.
        string_bytes lines ≡ broken_of_file positions enabled (file_view file.entry)) }
    ensures refused { IfErr result (λ fault. fault ≡ Fault.Memory) }
{
    let text = without_mark(file.text);
    let links = broken_source(alloc, text, Syntax::full(enabled.options))?;
    let mut lines = String::new(alloc);
    if positions {
        let places = Positions::new(alloc, text)?;
        push_broken_with_places(&mut lines, text, links.as_slice(), &places)?;
    } else {
        push_broken(&mut lines, text, links.as_slice())?;
    }
    Ok(lines)
}
