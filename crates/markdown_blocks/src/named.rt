//! The parts of a block result that items refer to by number, of which each may be referred to only once.
ghost use Rattle.std.specs.Prelude.{◌≡◌, ◌↔◌, ◌<◌, length, IfOk, IsTrue};
ghost use Rattle.std.specs.List.{AllByRecursion};

use super::seen::insert;
use markdown_base::index::{AlignmentIndex, CowIndex};
use markdown_base::item::{Item, ItemBody};
use markdown_base::tree::Tree;
use std::alloc::{AllocError, Global};

/// A kind of parts that at most one item may refer to.
#[derive(Clone, Copy, Debug, PartialEq, Eq, Drop)]
pub enum NamedPart {
    Text,
    Alignments,
}

impl NamedPart {
    ghost use Rattle.markdown_blocks.specs.NodeRules.{part_named, names_of, AreNamedOnce};

    /// Returns the number by which a body refers to a part of this kind, if it does.
    pub fn number(self, body: ItemBody) -> Option<usize>
        ensures { result ≡ part_named self body }
    {
        match self {
            NamedPart::Text => {
                let CowIndex(ix) = body.text_named()?;
                Some(ix as usize)
            }
            NamedPart::Alignments => {
                let AlignmentIndex(ix) = body.alignments_named()?;
                Some(ix)
            }
        }
    }

    /// Returns whether the nodes of an order keep rule 8, parts are named, for parts of this kind, of which there are
    /// `size`: the parts that they refer to exist, and none is referred to twice. Fails if an allocation fails.
    pub fn named_once(
        self,
        alloc: Global,
        tree: &Tree<Item>,
        order: &[usize],
        size: usize,
    ) -> Result<bool, AllocError>
        requires { AllByRecursion (λ ix. ix < length tree.now.nodes) order.now }
        ensures { IfOk result (λ once.
            IsTrue once ↔ AreNamedOnce size (names_of self tree.now.nodes order.now)) }
    {
        let mut seen = vec![in alloc; false; size]?;
        'names: for ix in order {
            if let Some(name) = self.number(tree.item(*ix).body) {
                if !insert(&mut seen, name) {
                    return Ok(false);
                }
            }
        }
        Ok(true)
    }
}
