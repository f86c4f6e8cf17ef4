//! `outline`: the outline of the events of an iterator.
ghost use Rattle.std.specs.Prelude.{◌≡◌, ◌⊎◌, IfOk, IfErr, map};
ghost use Rattle.std.specs.Iterator.{IsFinite};
ghost use Rattle.markdown_base.specs.declared.fault.Fault.TheVariants.{Memory};
ghost use Rattle.markdown_outline.specs.Outline.{entry_view};
ghost use Rattle.markdown_outline.specs.OutlineRead.{IsOutlineOfAll, MeetsError, NeedsMemory};

use crate::entries::Entries;
use crate::entry::Entry;
use markdown_base::event::Event;
use markdown_base::fault::Fault;
use std::alloc::Global;
use std::ops::Range;

/// Returns an entry for each heading among the events up to the first `None`.
///
/// The Start of a heading opens an entry, whose text is that of the events up to the first End of a heading of any
/// level, or up to the last event. The Start of a heading inside a heading opens none.
///
/// ```
/// let entries = outline(alloc, Parser::new(alloc, "# A *b*")?.into_offset_iter())?;
/// // level 1, text "A b", range 0..7, no id
/// ```
///
/// # Errors
///
/// The error of the first item that is one, and `Memory` if an allocation fails.
pub fn outline<'a, I>(alloc: Global, iter: I) -> Result<Vec<Entry>, Fault>
where
    I: Iterator<Item = Result<(Event<'a>, Range<usize>), Fault>>,
    requires can { I.can_next iter }
    requires ends { IsFinite (I.remaining iter) }
    ensures entries { IfOk result (λ entries.
        IsOutlineOfAll I.next_gives iter (map entry_view entries.items)) }
    ensures fault { IfErr result (λ fault.
        MeetsError I.next_gives iter fault ⊎ (fault ≡ Memory) × NeedsMemory I.next_gives iter) }
{
    let mut entries = Entries::new(alloc);
    for item in iter {
        let (event, range) = item?;
        entries.take_in(alloc, event, range)?;
    }
    entries.finish()
}
