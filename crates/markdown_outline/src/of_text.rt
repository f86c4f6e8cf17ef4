//! `outline_source`: the outline of a text.
ghost use Rattle.std.specs.Prelude.{◌≡◌, IfOk, IfErr, map};
ghost use Rattle.markdown_base.specs.Source.{source_as};
ghost use Rattle.markdown_base.specs.declared.fault.Fault.TheVariants.{Memory};
ghost use Rattle.markdown_outline.specs.Outline.{entry_view};
ghost use Rattle.markdown_outline.specs.OutlineOfText.{outline_of_text};

use crate::entry::Entry;
use crate::read::outline;
use markdown_base::fault::Fault;
use markdown_base::syntax::Syntax;
use markdown_defs::DefaultBrokenLinkCallback;
use markdown_inline::walk::Parser;
use std::alloc::Global;

/// Returns an entry for each heading of a text of which `syntax` is read, in the order of their Starts. There is no
/// callback: a link label without a reference definition stays text.
///
/// # Errors
///
/// `Memory` if an allocation fails; there is no other error.
pub fn outline_source(alloc: Global, text: &str, syntax: Syntax) -> Result<Vec<Entry>, Fault>
    ensures entries { IfOk result (λ entries.
        map entry_view entries.items ≡ outline_of_text (source_as syntax text.now)) }
    ensures refused { IfErr result (λ fault. fault ≡ Memory) }
{
    let nobody: Option<DefaultBrokenLinkCallback> = None;
    let parser = Parser::of_source(alloc, text, syntax, nobody)?;
    outline(alloc, parser.into_offset_iter())
}
