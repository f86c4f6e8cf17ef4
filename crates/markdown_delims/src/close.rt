//! Closers: a closer pairs as long as it has characters left and finds an opener.
ghost use Rattle.std.specs.Prelude.{◌≡◌, ◌+◌, ◌^◌, ◌<◌, ◌≤◌, ℕ, Option, IfOk};
ghost use Rattle.markdown_document.specs.Counts.{comparisons_per_delimiter};
ghost use Rattle.markdown_delims.specs.declared.extensions.Extensions.{Extensions as MarksValue};
ghost use Rattle.markdown_delims.specs.ChainStanding.{CanRead, Keeps, ReadsRun};

use crate::extensions::Extensions;
use crate::open_runs::OpenRuns;
use crate::pair::pair;
use crate::run::Characters;
use markdown_base::item::Item;
use markdown_base::tree::Tree;
use std::alloc::AllocError;

/// Opens what is left of a run, if the run can open. Returns the number of the run's last node, and the link to what
/// follows that.
fn keep(
    tree: &Tree<Item>,
    openers: &mut OpenRuns,
    left: Characters,
) -> Result<(Option<usize>, Option<usize>), AllocError>
    requires some { 0 < left.count }
    requires room { openers.old.potential + comparisons_per_delimiter < 2 ^ 128 }
    requires stands { (m : MarksValue) × (last : Option ℕ)
        × CanRead m left last tree.now openers.old.runs }
    ensures ok { IfOk result (λ r.
        Keeps left tree.now openers.old.runs openers.new.runs r.0 r.1) }
    ensures paid { openers.new.potential ≤ openers.old.potential + comparisons_per_delimiter }
    ensures counted { openers.new.examined ≡ openers.old.examined }
{
    let ix = left.number + (left.count - 1);
    let next = tree.next(ix);
    if left.run.can_open {
        openers.push(left)?;
    }
    Ok((Some(ix), next))
}

/// Reads a delimiter run. If it can close, it pairs as long as it has characters left and finds an opener; what is left
/// of the run opens if it can. `last` is the node before the run. Returns the last node that was read, and the link to
/// what follows that. Fails only if an allocation fails.
pub fn read_run(
    tree: &mut Tree<Item>,
    openers: &mut OpenRuns,
    extensions: Extensions,
    met: Characters,
    last: Option<usize>,
) -> Result<(Option<usize>, Option<usize>), AllocError>
    requires some { 0 < met.count }
    requires room { openers.old.potential + comparisons_per_delimiter < 2 ^ 128 }
    requires stands { CanRead extensions met last tree.old openers.old.runs }
    ensures ok { IfOk result (λ r.
        ReadsRun extensions met last tree.old tree.new openers.old openers.new r.0 r.1) }
    ensures paid { openers.new.potential ≤ openers.old.potential + comparisons_per_delimiter }
{
    if !met.run.can_close {
        return keep(tree, openers, met);
    }
    let mut closer = met;
    let mut before = last;
    'turns: while let Some(opener) = openers.take_nearest(&closer.run) {
        let (root, rest) = pair(tree, extensions, opener, closer, before.unwrap());
        if closer.count < opener.count {
            let left = Characters {
                count: opener.count - closer.count,
                ..opener
            };
            openers.push(left)?;
            return Ok((Some(root), rest));
        }
        if closer.count == opener.count {
            return Ok((Some(root), rest));
        }
        before = Some(root);
        closer.number += opener.count;
        closer.count -= opener.count;
    }
    keep(tree, openers, closer)
}
