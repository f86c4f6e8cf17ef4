//! One step of a walk over a tree of items.
ghost use Rattle.std.specs.Prelude.{◌≡◌, ◌<◌, Bool, List, None, Some, MatchResult, OnOk, length, ℕ};
ghost use Rattle.markdown_defs.specs.Allocations.{Allocated};
ghost use Rattle.markdown_document.specs.Tables.{tables_of};
ghost use Rattle.markdown_resolver.specs.BlocksAbove.{IsKnownAt};
ghost use Rattle.markdown_inline.specs.WalkSteps.{StepGives, TreeStands, IsRefused};

use crate::bodies::{Visit, close_item, visit_of};
use markdown_base::item::Item;
use markdown_base::tag::TagEnd;
use markdown_base::tree::Tree;
use markdown_resolver::blocks_above::BlocksAbove;
use std::alloc::AllocError;

/// Where one step of a walk led.
#[derive(Clone, Copy, Drop)]
pub enum Step {
    /// Nowhere: the walk is over.
    Done,
    /// Into or out of a node, without an event.
    Skip,
    /// Past an item that is one event, which is not made yet.
    Leaf(Item),
    /// Into an item that begins with a Start, which is not made yet.
    Start(Item),
    /// Out of an item, which ends with this End.
    End(TagEnd, Item),
    /// Before an open item, with this number, from which on its chain has to be resolved.
    Chain(usize),
}

/// Moves out of the node that was entered last, to its next sibling. `above` are the blocks among
/// the entered nodes.
#[inline(always)]
pub fn step_out(tree: &mut Tree<Item>, above: &mut BlocksAbove) -> Step
    requires { tree.old.cursor ≡ None }
    ensures gives { (source : List ℕ) (held : Allocated)
        → TreeStands source (tables_of held) tree.old
        → StepGives source tree.old tree.new held result }
    ensures above { (gfm : Bool) → IsKnownAt gfm tree.old.nodes tree.old.spine above.old
        → IsKnownAt gfm tree.new.nodes tree.new.spine above.new }
    ensures style { above.new.gfm_footnotes ≡ above.old.gfm_footnotes }
{
    match tree.pop() {
        None => Step::Done,
        Some(ix) => {
            let item = *tree.item(ix);
            let outer = tree.walk_spine().len();
            tree.next_sibling(ix);
            // told apart first: what is left is then known at each end, and costs no test there
            match close_item(item.body) {
                None => {
                    above.leave(item, outer);
                    Step::Skip
                }
                Some(end) => {
                    above.leave(item, outer);
                    Step::End(end, item)
                }
            }
        }
    }
}

/// Takes a step at the node at the cursor. `above` are the blocks among the entered nodes. Returns
/// an error if an allocation fails; the tree is then unchanged.
#[inline(always)]
pub fn step_at(
    tree: &mut Tree<Item>,
    above: &mut BlocksAbove,
    ix: usize,
) -> Result<Step, AllocError>
    requires within { ix < length tree.old.nodes }
    requires at_ix { tree.old.cursor ≡ Some ix }
    ensures gives { (source : List ℕ) (held : Allocated)
        → TreeStands source (tables_of held) tree.old
        → MatchResult result (StepGives source tree.old tree.new held) (λ _.
        IsRefused tree.old tree.new) }
    ensures above { (gfm : Bool) → IsKnownAt gfm tree.old.nodes tree.old.spine above.old
        → OnOk result (IsKnownAt gfm tree.new.nodes tree.new.spine above.new) }
    ensures style { above.new.gfm_footnotes ≡ above.old.gfm_footnotes }
{
    let item = *tree.item(ix);
    match visit_of(item.body) {
        Visit::Open => Ok(Step::Chain(ix)),
        Visit::Leaf => {
            tree.next_sibling(ix);
            Ok(Step::Leaf(item))
        }
        Visit::Start => {
            above.enter(item)?;
            tree.push()?;
            Ok(Step::Start(item))
        }
        Visit::Plain => {
            above.enter(item)?;
            tree.push()?;
            Ok(Step::Skip)
        }
    }
}

/// Takes one step of the walk over a tree. `above` are the blocks among the entered nodes. Returns
/// an error if an allocation fails; the tree is then unchanged.
#[inline(always)]
pub fn take_step(tree: &mut Tree<Item>, above: &mut BlocksAbove) -> Result<Step, AllocError>
    ensures gives { (source : List ℕ) (held : Allocated)
        → TreeStands source (tables_of held) tree.old
        → MatchResult result (StepGives source tree.old tree.new held) (λ _.
        IsRefused tree.old tree.new) }
    ensures above { (gfm : Bool) → IsKnownAt gfm tree.old.nodes tree.old.spine above.old
        → OnOk result (IsKnownAt gfm tree.new.nodes tree.new.spine above.new) }
    ensures style { above.new.gfm_footnotes ≡ above.old.gfm_footnotes }
{
    match tree.cur() {
        None => Ok(step_out(tree, above)),
        Some(ix) => step_at(tree, above, ix),
    }
}
