//! The ends of closing brackets that can no longer be references.
ghost use Rattle.std.specs.List.Sorted.{IsNonDecreasing};

use markdown_base::fault::Fault;
use std::alloc::Global;

/// For each `]` of a chain that ends the label of a full reference which was looked up, the byte offset after it.
/// They are in order, in a list that keeps its memory from chain to chain. A chain is read from left to right, so an end
/// is put last; looking one up halves the list.
#[derive(Drop)]
pub struct SpentEnds {
    ends: Vec<usize>,
    ghost sorted: { IsNonDecreasing ends.items },
}

impl SpentEnds {
    ghost use Rattle.std.specs.Prelude.{◌≡◌, ◌==◌, ◌<◌, ◌||◌, ℕ, false, true, IfErr, OnOk};
    ghost use Rattle.std.specs.List.{All};
    ghost use Rattle.markdown_base.specs.declared.fault.Fault.{Fault};
    ghost use Rattle.markdown_brackets.specs.SpentEnds.{is_spent};

    /// Returns an empty list.
    pub fn new(alloc: Global) -> SpentEnds
        ensures { (end : ℕ) → is_spent result end ≡ false }
    {
        SpentEnds {
            ends: Vec::new(alloc),
        }
    }

    /// Removes all ends, before the next chain. Their memory is kept.
    pub fn clear(&mut self)
        ensures { (end : ℕ) → is_spent self.new end ≡ false }
    {
        self.ends.clear();
    }

    /// Returns whether all ends are before the byte offset `end`, as they mostly are in a chain read from left to right.
    fn are_before(&self, end: usize) -> bool
        ensures { result ≡ true → All (λ one. one < end) self.now.ends.items }
    {
        match self.ends.last() {
            Some(last) => *last < end,
            None => true,
        }
    }

    /// Returns whether the `]` that ends at the byte offset `end` can no longer be a reference.
    pub fn contains(&self, end: usize) -> bool
        ensures { result ≡ is_spent self.now end }
    {
        !self.are_before(end) && self.ends.binary_search(&end).is_ok()
    }

    /// Adds the end of a `]` that can no longer be a reference. The only error is `Fault::Memory`.
    pub fn insert(&mut self, end: usize) -> Result<(), Fault>
        ensures put { OnOk result ((other : ℕ)
            → is_spent self.new other ≡ ((end == other) || is_spent self.old other)) }
        ensures refused { IfErr result (λ fault. fault ≡ Fault.Memory) }
    {
        if self.are_before(end) {
            self.ends.push(end)?;
        } else if let Err(at) = self.ends.binary_search(&end) {
            self.ends.insert(at, end)?;
        }
        Ok(())
    }
}
