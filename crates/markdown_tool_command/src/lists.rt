//! The lists of extensions in a command line: commas separate their parts, each of which enables or disables an extension.
ghost use Rattle.std.specs.Prelude.{◌≡◌, ◌==◌, IfOk, map};
ghost use Rattle.std.specs.List.{slice_split};
ghost use Rattle.markdown_tool_command.specs.Lists.{comma, disables, enables, list_parts, offered_name};

use std::alloc::{AllocError, Global};

/// Returns the parts of a list.
fn cut_list<'a>(alloc: Global, list: &'a str) -> Result<Vec<&'a str>, AllocError>
    ensures { IfOk result (λ parts. map (λ part. part.now) parts.items
        ≡ slice_split (λ b. b == comma) list.now) }
{
    list.split(',').collect(alloc)
}

/// Returns the parts of lists, in order.
pub(crate) fn list_parts<'a>(alloc: Global, lists: &[&'a str]) -> Result<Vec<&'a str>, AllocError>
    ensures { IfOk result (λ parts. map (λ part. part.now) parts.items
        ≡ list_parts (map (λ list. list.now) lists.now)) }
{
    let mut parts = Vec::new(alloc);
    'lists: for list in lists {
        let more = cut_list(alloc, list)?;
        parts.extend_from_slice(more.as_slice())?;
    }
    Ok(parts)
}

/// Returns the name by which an extension is offered: `gfm` is another name of `alerts`.
fn offered_name(name: &str) -> &str
    ensures { result.now ≡ offered_name name.now }
{
    match name {
        "gfm" => "alerts",
        _ => name,
    }
}

/// Returns whether a part enables the extension that is offered by a name.
pub(crate) fn enables(name: &str, part: &str) -> bool
    ensures { result ≡ enables name.now part.now }
{
    offered_name(part) == name
}

/// Returns whether a part disables the extension that is offered by a name: whether it is `no-` and a name of it.
pub(crate) fn disables(name: &str, part: &str) -> bool
    ensures { result ≡ disables name.now part.now }
{
    match part.strip_prefix("no-") {
        Some(disabled) => enables(name, disabled),
        None => false,
    }
}
