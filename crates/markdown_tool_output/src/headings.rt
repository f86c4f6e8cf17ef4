//! The headings of a file: its outline, its table of contents, and what a page has of them.
ghost use Rattle.std.specs.Prelude.{◌≡◌, IfErr, IfOk, None, map, option_copied, string_bytes};
ghost use Rattle.std.specs.Option.{option_map};
ghost use Rattle.markdown_additions.specs.Written.{headings_of_text};
ghost use Rattle.markdown_contents.specs.Contents.{contents_in_file};
ghost use Rattle.markdown_lint_json.specs.PlacedOutline.{placed_outline_lines};
ghost use Rattle.markdown_outline.specs.Outline.{entry_view};
ghost use Rattle.markdown_safe.specs.SafeRules.{rules_view};
ghost use Rattle.markdown_tool_output.specs.FileText.{without_mark};
ghost use Rattle.markdown_tool_output.specs.Files.{asked_view, file_view};
ghost use Rattle.markdown_tool_output.specs.Outputs.{bare_outline, contents_additions, file_source, first_title};
ghost use Rattle.markdown_tool_output.specs.Outputs.{headings_of_file, line_headings, link_name};
ghost use Rattle.markdown_tool_output.specs.Outputs.{outline_of_file, safe_in};

use crate::additions::{contents_additions, line_additions};
use crate::file::{Asked, File, file_prefix, link_name};
use crate::text::without_mark;
use markdown_additions::{Additions, Ids, headings_source};
use markdown_base::fault::Fault;
use markdown_base::syntax::Syntax;
use markdown_contents::list_in;
use markdown_lint_json::push_outline_with_places;
use markdown_outline::Entry;
use markdown_page::heading_title;
use markdown_positions::Positions;
use markdown_safe::SafeRules;
use markdown_text_json::{push_outline, push_outline_with_ids};
use markdown_tool_command::Format;
use markdown_tool_command::extensions::Enabled;
use std::alloc::Global;

/// Returns the headings of a file, with ids where those are enabled.
fn line_headings(alloc: Global, enabled: Enabled, file: File<'_>) -> Result<Vec<Entry>, Fault>
    ensures headings { IfOk result (λ headings.
        map entry_view headings.items ≡ line_headings enabled (file_view file.entry)) }
    ensures refused { IfErr result (λ fault. fault ≡ Fault.Memory) }
{
    let syntax = Syntax::full(enabled.options);
    let text = without_mark(file.text);
    headings_source(alloc, text, syntax, line_additions(enabled), None)
}

/// Returns the lines of the headings of a file without places, with their ids where those are enabled.
fn bare_outline(alloc: Global, enabled: Enabled, file: File<'_>) -> Result<String, Fault>
    ensures lines { IfOk result (λ lines.
        string_bytes lines ≡ bare_outline enabled (file_view file.entry)) }
    ensures refused { IfErr result (λ fault. fault ≡ Fault.Memory) }
{
    let headings = line_headings(alloc, enabled, file)?;
    let mut lines = String::new(alloc);
    if enabled.heading_ids {
        push_outline_with_ids(&mut lines, headings.as_slice())?;
    } else {
        push_outline(&mut lines, headings.as_slice())?;
    }
    Ok(lines)
}

/// Returns the lines of the headings of a file with the places of their ranges, and with their ids where those are enabled.
fn placed_outline(alloc: Global, enabled: Enabled, file: File<'_>) -> Result<String, Fault>
    ensures lines { let f = file_view file.entry in IfOk result (λ lines. string_bytes lines
        ≡ placed_outline_lines (without_mark f.text) enabled.heading_ids
        (line_headings enabled f)) }
    ensures refused { IfErr result (λ fault. fault ≡ Fault.Memory) }
{
    let headings = line_headings(alloc, enabled, file)?;
    let positions = Positions::new(alloc, without_mark(file.text))?;
    let mut lines = String::new(alloc);
    push_outline_with_places(
        &mut lines,
        headings.as_slice(),
        enabled.heading_ids,
        &positions,
    )?;
    Ok(lines)
}

/// Returns the lines of the headings of a file, with the places of their ranges if `positions` is set, and with their ids
/// where those are enabled.
pub(crate) fn outline_of_file(
    alloc: Global,
    positions: bool,
    enabled: Enabled,
    file: File<'_>,
) -> Result<String, Fault>
    ensures lines { IfOk result (λ lines.
        string_bytes lines ≡ outline_of_file positions enabled (file_view file.entry)) }
    ensures refused { IfErr result (λ fault. fault ≡ Fault.Memory) }
{
    if positions {
        placed_outline(alloc, enabled, file)
    } else {
        bare_outline(alloc, enabled, file)
    }
}

/// Returns the table of contents of a file.
pub(crate) fn contents_of_file(
    alloc: Global,
    enabled: Enabled,
    file: File<'_>,
) -> Result<String, Fault>
    ensures list { IfOk result (λ list. string_bytes list
        ≡ contents_in_file (link_name (file_view file.entry))
        (headings_of_text None (contents_additions enabled)
        (file_source enabled (file_view file.entry)))) }
    ensures refused { IfErr result (λ fault. fault ≡ Fault.Memory) }
{
    let syntax = Syntax::full(enabled.options);
    let text = without_mark(file.text);
    let additions = contents_additions(enabled);
    let headings = headings_source(alloc, text, syntax, additions, None)?;
    list_in(alloc, link_name(file), headings.as_slice())
}

/// Returns the rules by which the events of a file are made safe, if they are.
fn safe_in<'r>(asked: Asked<'r>) -> Option<SafeRules<'r>>
    ensures { option_map rules_view result
        ≡ safe_in asked.entry.format (rules_view asked.entry.rules) }
{
    match asked.format {
        Format::SafeHtml => Some(asked.rules),
        _ => None,
    }
}

/// Returns the headings of a file as its HTML shows them.
pub(crate) fn headings_of_file<'f>(
    alloc: Global,
    asked: Asked<'f>,
    file: File<'f>,
) -> Result<Vec<Entry>, Fault>
    ensures headings { IfOk result (λ headings. map entry_view headings.items
        ≡ headings_of_file (asked_view asked.entry) (file_view file.entry)) }
    ensures refused { IfErr result (λ fault. fault ≡ Fault.Memory) }
{
    let enabled = asked.enabled;
    let syntax = Syntax::full(enabled.options);
    let text = without_mark(file.text);
    let safe = safe_in(asked);
    if !enabled.heading_ids || !file.several {
        return headings_source(alloc, text, syntax, line_additions(enabled), safe);
    }
    let prefix = file_prefix(alloc, file.number)?;
    let additions = Additions {
        autolinks: enabled.autolinks,
        ids: Ids::Prefixed(prefix.as_str()),
    };
    headings_source(alloc, text, syntax, additions, safe)
}

/// Returns the title of the first heading of level 1 that has one.
pub(crate) fn first_title(headings: &[Entry]) -> Option<&str>
    ensures { option_copied result ≡ first_title (map entry_view headings.now) }
{
    'headings: for heading in headings {
        if heading.level == 1 {
            if let Some(title) = heading_title(heading.text.as_str()) {
                return Some(title);
            }
        }
    }
    None
}
