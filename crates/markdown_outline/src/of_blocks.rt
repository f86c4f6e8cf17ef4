//! `outline_of`: the outline of a block result.
ghost use Rattle.std.specs.Prelude.{◌≡◌, IfOk, IfErr, map};
ghost use Rattle.markdown_base.specs.declared.fault.Fault.TheVariants.{Memory};
ghost use Rattle.markdown_base.specs.Source.{Source};
ghost use Rattle.markdown_blocks.specs.Blocks.{IsBlocksOf};
ghost use Rattle.markdown_outline.specs.Outline.{entry_view};
ghost use Rattle.markdown_outline.specs.OutlineOfText.{outline_of_text};
ghost use Rattle.markdown_outline.specs.TreeOutline.{AreEntriesOf, HeadingsApart};

use crate::entry::Entry;
use crate::read::outline;
use markdown_base::fault::Fault;
use markdown_blocks::Blocks;
use markdown_defs::DefaultBrokenLinkCallback;
use markdown_inline::walk::Parser;
use std::alloc::Global;

/// Returns an entry for each heading of a block result, in the order of their Starts.
///
/// In the block result of a text no heading contains another, as `laws::headings_of_texts_are_apart` states. There is
/// no callback: a link label without a reference definition stays text.
///
/// ```
/// let blocks = Blocks::of_text(alloc, "# A *b*", Options::empty())?;
/// let entries = outline_of(alloc, blocks)?;
/// // level 1, text "A b", range 0..7, no id
/// ```
///
/// # Errors
///
/// `Memory` if an allocation fails; there is no other error.
pub fn outline_of(alloc: Global, blocks: Blocks<'_>) -> Result<Vec<Entry>, Fault>
    ensures entries { IfOk result (λ entries.
        HeadingsApart blocks.entry → AreEntriesOf blocks.entry (map entry_view entries.items)) }
    ensures of_text { IfOk result (λ entries. (s : Source) → IsBlocksOf s blocks.entry
        → map entry_view entries.items ≡ outline_of_text s) }
    ensures refused { IfErr result (λ fault. fault ≡ Memory) }
{
    let nobody: Option<DefaultBrokenLinkCallback> = None;
    let parser = Parser::from_blocks(alloc, blocks, nobody)?;
    outline(alloc, parser.into_offset_iter())
}
