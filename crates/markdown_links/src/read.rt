//! `links`: the links and images of the events of an iterator.
ghost use Rattle.std.specs.Prelude.{◌≡◌, ◌⊎◌, IfOk, IfErr};
ghost use Rattle.std.specs.Iterator.{IsFinite};
ghost use Rattle.markdown_base.specs.declared.fault.Fault.TheVariants.{Memory};
ghost use Rattle.markdown_links.specs.LinkList.{list_entries};
ghost use Rattle.markdown_links.specs.LinksRead.{AreLinksOfAll, NeedsLinkMemory};
ghost use Rattle.markdown_outline.specs.OutlineRead.{MeetsError};

use crate::list::LinkList;
use crate::so_far::LinksSoFar;
use markdown_base::event::Event;
use markdown_base::fault::Fault;
use std::alloc::Global;
use std::ops::Range;

/// Returns the links and images among the events up to the first `None`, in the order of their Starts.
///
/// The text of one is that of the events up to its own End, or up to the last event.
///
/// ```
/// let list = links(alloc, Parser::new(alloc, "[a](b) ![*c*](d)")?.into_offset_iter())?;
/// // a link to "b" with text "a", range 0..6, and an image "d" with text "c", range 7..16
/// ```
///
/// # Errors
///
/// The error of the first item that is one, and `Memory` if an allocation fails.
pub fn links<'a, I>(alloc: Global, iter: I) -> Result<LinkList, Fault>
where
    I: Iterator<Item = Result<(Event<'a>, Range<usize>), Fault>>,
    requires can { I.can_next iter }
    requires ends { IsFinite (I.remaining iter) }
    ensures links { IfOk result (λ links. AreLinksOfAll I.next_gives iter (list_entries links)) }
    ensures fault { IfErr result (λ fault.
        MeetsError I.next_gives iter fault ⊎ (fault ≡ Memory) × NeedsLinkMemory I.next_gives iter) }
{
    let mut so_far = LinksSoFar::new(alloc);
    for item in iter {
        let (event, range) = item?;
        so_far.take_in(alloc, event, range)?;
    }
    Ok(so_far.finish())
}
