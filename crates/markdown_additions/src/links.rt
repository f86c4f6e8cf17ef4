//! The links and images of a text, with what is added to its events.
ghost use Rattle.std.specs.Prelude.{◌≡◌, IfErr, IfOk};
ghost use Rattle.markdown_additions.specs.Additions.{AdditionsView, additions_view};
ghost use Rattle.markdown_additions.specs.TextEvents.{IsNewAdded};
ghost use Rattle.markdown_additions.specs.Written.{links_with_additions};
ghost use Rattle.markdown_base.specs.Source.{Source, source_as};
ghost use Rattle.markdown_links.specs.LinkList.{list_entries};

use crate::additions::Additions;
use crate::events::{TextEvents, added_events};
use markdown_base::fault::Fault;
use markdown_base::syntax::Syntax;
use markdown_links::{LinkList, links};
use std::alloc::Global;

/// Returns the links and images of a text.
fn links_of(alloc: Global, events: TextEvents<'_>) -> Result<LinkList, Fault>
    ensures links { IfOk result (λ links. (a : AdditionsView) (s : Source)
        → IsNewAdded a s events.entry → list_entries links ≡ links_with_additions a s) }
    ensures refused { IfErr result (λ fault. (a : AdditionsView) (s : Source)
        → IsNewAdded a s events.entry → fault ≡ Fault.Memory) }
{
    links(alloc, events)
}

/// Returns the links and images of a text of which `syntax` is read, in the order of their Starts, with what is added to its
/// events. There is no callback: a link label without a reference definition stays text.
///
/// # Errors
///
/// `Memory` if an allocation fails; there is no other error.
pub fn links_source(
    alloc: Global,
    text: &str,
    syntax: Syntax,
    additions: Additions<'_>,
) -> Result<LinkList, Fault>
    ensures links { IfOk result (λ links. list_entries links
        ≡ links_with_additions (additions_view additions.entry) (source_as syntax text.now)) }
    ensures refused { IfErr result (λ fault. fault ≡ Fault.Memory) }
{
    let events = added_events(alloc, text, syntax, additions)?;
    links_of(alloc, events)
}
