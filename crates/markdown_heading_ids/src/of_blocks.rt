//! `Taken::of_blocks`: the ids of a block result.
ghost use Rattle.std.specs.Prelude.{◌≡◌, ◌<◌, IfOk, IfErr, List, OnOk, Some, length};
ghost use Rattle.std.specs.List.{AllByRecursion};
ghost use Rattle.std.specs.Option.{option_map};
ghost use Rattle.markdown_base.specs.declared.item.ItemBody.TheVariants as body;
ghost use Rattle.markdown_base.specs.declared.tag.HeadingLevel.{HeadingLevel};
ghost use Rattle.markdown_heading_ids.specs.HeadingIds.{Id, own_ids};
ghost use Rattle.markdown_heading_ids.specs.IdsOfText.{taken_in_blocks, taken_in_text};
ghost use Rattle.markdown_heading_ids.specs.TakenBlocks.{ids_at, ids_of_body, taken_after};
ghost use Rattle.markdown_heading_ids.specs.TakenIds.{StandsFor};
ghost use Rattle.markdown_base.specs.Source.{Source};
ghost use Rattle.markdown_base.specs.declared.fault.Fault.{Fault};
ghost use Rattle.markdown_blocks.specs.Blocks.{IsBlocksOf, block_arena, block_parts};

use crate::taken::Taken;
use markdown_base::block_parts::BlockParts;
use markdown_base::fault::Fault;
use markdown_base::index::{CowIndex, HeadingIndex};
use markdown_base::item::ItemBody;
use markdown_blocks::Blocks;
use std::alloc::Global;

/// Returns the id of the attributes of a heading with this number.
fn id_of_attributes<'t>(parts: &'t BlockParts<'_>, ix: HeadingIndex) -> Option<&'t str>
    ensures { (level : HeadingLevel) → own_ids (option_map (λ id. id.now) result)
        ≡ ids_of_body parts.now (body.Heading level (Some ix)) }
{
    let number = (ix.0 as usize).saturating_sub(1);
    match parts.headings.as_slice().get(number) {
        Some(attributes) => match &attributes.id {
            Some(id) => Some(id.as_str()),
            None => None,
        },
        None => None,
    }
}

/// Returns the text with this number.
fn text_with_number<'t>(parts: &'t BlockParts<'_>, ix: CowIndex) -> Option<&'t str>
    ensures { own_ids (option_map (λ id. id.now) result)
        ≡ ids_of_body parts.now (body.FootnoteDefinition ix) }
{
    match parts.cows.as_slice().get(ix.0 as usize) {
        Some(text) => Some(text.as_str()),
        None => None,
    }
}

/// Returns the id that a block has: that of a heading's attributes, or the name of a footnote definition.
fn id_of_body<'t>(parts: &'t BlockParts<'_>, body: ItemBody) -> Option<&'t str>
    ensures { own_ids (option_map (λ id. id.now) result) ≡ ids_of_body parts.now body }
{
    match body {
        ItemBody::Heading(_, Some(ix)) => id_of_attributes(parts, ix),
        ItemBody::FootnoteDefinition(ix) => text_with_number(parts, ix),
        _ => None,
    }
}

impl Taken {
    /// Takes the ids of the nodes with these numbers.
    fn take_nodes(&mut self, blocks: &Blocks<'_>, order: &[usize]) -> Result<(), Fault>
        requires within { AllByRecursion (λ ix. ix < length (block_arena blocks.now).nodes)
            order.now }
        ensures taken { let ids = ids_at (block_parts blocks.now) (block_arena blocks.now).nodes in
            OnOk result ((taken : List Id) → StandsFor self.old taken
            → StandsFor self.new (taken_after ids order.now taken)) }
        ensures refused { IfErr result (λ fault. fault ≡ Fault.Memory) }
    {
        'order: for ix in order {
            let item = blocks.tree().item(*ix);
            self.take_id(id_of_body(blocks.parts(), item.body))?;
        }
        Ok(())
    }

    /// Returns what is taken on a page of a block result: the empty id, and the ids that its headings and footnote
    /// definitions have. Nothing is parsed for it.
    ///
    /// # Errors
    ///
    /// `Memory` if an allocation fails.
    pub fn of_blocks(alloc: Global, blocks: &Blocks<'_>) -> Result<Taken, Fault>
        ensures taken { IfOk result (λ taken. StandsFor taken (taken_in_blocks blocks.now)) }
        ensures of_text { IfOk result (λ taken. (s : Source) → IsBlocksOf s blocks.now
            → StandsFor taken (taken_in_text s)) }
        ensures refused { IfErr result (λ fault. fault ≡ Fault.Memory) }
    {
        let order = blocks.preorder(alloc)?;
        let mut taken = Taken::new(alloc)?;
        taken.take_nodes(blocks, order.as_slice())?;
        Ok(taken)
    }
}
