//! What waits for the closing brackets of a chain.
ghost use Rattle.std.specs.Prelude.{◌≡◌, ℕ, false, []};
ghost use Rattle.markdown_brackets.specs.SpentEnds.{is_spent};

use crate::chain_openers::ChainOpeners;
use crate::spent_ends::SpentEnds;
use std::alloc::Global;

/// The openers of a chain that wait for their `]`, and the ends of the `]` that can no longer be references.
#[derive(Drop)]
pub struct WaitingBrackets {
    pub openers: ChainOpeners,
    pub spent: SpentEnds,
}

impl WaitingBrackets {
    /// Returns no openers and no ends.
    pub fn new(alloc: Global) -> WaitingBrackets
        ensures brackets { result.openers.brackets ≡ [] }
        ensures wikilinks { result.openers.wikilinks ≡ [] }
        ensures spent { (end : ℕ) → is_spent result.spent end ≡ false }
    {
        WaitingBrackets {
            openers: ChainOpeners::new(alloc),
            spent: SpentEnds::new(alloc),
        }
    }

    /// Removes all openers and all ends, before the next chain.
    pub fn clear(&mut self)
        ensures brackets { self.new.openers.brackets ≡ [] }
        ensures wikilinks { self.new.openers.wikilinks ≡ [] }
        ensures spent { (end : ℕ) → is_spent self.new.spent end ≡ false }
    {
        self.openers.clear();
        self.spent.clear();
    }
}
