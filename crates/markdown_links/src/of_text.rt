//! `links_source`: the links and images of a text.
ghost use Rattle.std.specs.Prelude.{◌≡◌, IfOk, IfErr};
ghost use Rattle.markdown_base.specs.Source.{source_as};
ghost use Rattle.markdown_base.specs.declared.fault.Fault.TheVariants.{Memory};
ghost use Rattle.markdown_links.specs.LinkList.{list_entries};
ghost use Rattle.markdown_links.specs.LinksOfText.{links_of_text};

use crate::list::LinkList;
use crate::read::links;
use markdown_base::fault::Fault;
use markdown_base::syntax::Syntax;
use markdown_defs::DefaultBrokenLinkCallback;
use markdown_inline::walk::Parser;
use std::alloc::Global;

/// Returns the links and images of a text of which `syntax` is read, in the order of their Starts. There is no callback: a
/// link label without a reference definition stays text.
///
/// # Errors
///
/// `Memory` if an allocation fails; there is no other error.
pub fn links_source(alloc: Global, text: &str, syntax: Syntax) -> Result<LinkList, Fault>
    ensures links { IfOk result (λ links.
        list_entries links ≡ links_of_text (source_as syntax text.now)) }
    ensures refused { IfErr result (λ fault. fault ≡ Memory) }
{
    let nobody: Option<DefaultBrokenLinkCallback> = None;
    let parser = Parser::of_source(alloc, text, syntax, nobody)?;
    links(alloc, parser.into_offset_iter())
}
