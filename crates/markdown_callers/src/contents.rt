//! A table of contents: a nested Markdown list of links to the headings of a text.
ghost use Rattle.std.specs.Prelude.{◌≡◌, IfOk, IfErr, map, string_bytes};
ghost use Rattle.markdown.specs.OutlineWords.{entry_view};
ghost use Rattle.markdown_callers.specs.ContentsOfText.{contents_in, headings_in};

use markdown::outline::Entry;
use markdown::{Fault, Options, Syntax};
use markdown_additions::{Additions, Ids, headings_source};
use markdown_contents::list_of;
use std::alloc::Global;

/// Returns the headings of a text, each with an id. The only error is `Fault::Memory`.
pub fn headings(alloc: Global, source: &str) -> Result<Vec<Entry>, Fault>
    ensures headings { IfOk result (λ headings.
        map entry_view headings.items ≡ headings_in source.now) }
    ensures refused { IfErr result (λ fault. fault ≡ Fault.Memory) }
{
    let syntax = Syntax::profile(Options::empty());
    let additions = Additions {
        autolinks: false,
        ids: Ids::All,
    };
    headings_source(alloc, source, syntax, additions, None)
}

/// Returns the table of contents of a text: a line for each heading, below the nearest heading of a lower level, with a
/// link to its id. The only error is `Fault::Memory`.
pub fn contents(alloc: Global, source: &str) -> Result<String, Fault>
    ensures contents { IfOk result (λ list. string_bytes list ≡ contents_in source.now) }
    ensures refused { IfErr result (λ fault. fault ≡ Fault.Memory) }
{
    let headings = headings(alloc, source)?;
    list_of(alloc, headings.as_slice())
}
