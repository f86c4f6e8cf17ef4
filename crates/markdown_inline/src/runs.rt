//! Whole runs of a parser: its items in a list, as a site generator or a link checker reads them. Proved only from what
//! `next` promises.
ghost use Rattle.std.specs.Prelude.{IfOk, IfSome};
ghost use Rattle.markdown_inline.specs.NextGives.{IsEventOf, IsPlacedOf};
ghost use Rattle.markdown_inline.specs.ParserLeft.{parser_callback, offset_parser};
ghost use Rattle.markdown_inline.specs.Runs.{IsRun};

use crate::walk::{OffsetIter, Parser};
use markdown_base::event::Event;
use markdown_blocks::Fault;
use markdown_defs::BrokenLinkCallback;
use std::alloc::{AllocError, Global};
use std::ops::Range;

/// Returns all events that are left, in a list. If an allocation of the parser fails, its error is the last item
/// of the list. Fails if an allocation for the list fails.
pub fn gather<'input, F: BrokenLinkCallback<'input>>(
    parser: Parser<'input, F>,
    alloc: Global,
) -> Result<Vec<Result<Event<'input>, Fault>>, AllocError>
    requires { IfSome (parser_callback parser) F.can_ask }
    ensures { IfOk result (λ all. IsRun IsEventOf F.answers parser.entry all.items) }
{
    parser.collect(alloc)
}

/// Returns the same as `gather`, with the range of each event.
pub fn gather_offsets<'input, F: BrokenLinkCallback<'input>>(
    iter: OffsetIter<'input, F>,
    alloc: Global,
) -> Result<Vec<Result<(Event<'input>, Range<usize>), Fault>>, AllocError>
    requires { IfSome (parser_callback (offset_parser iter)) F.can_ask }
    ensures { IfOk result (λ all. IsRun IsPlacedOf F.answers (offset_parser iter.entry) all.items) }
{
    iter.collect(alloc)
}
