//! The delimiter runs that are still open, and the search for the nearest one with which a closer may pair.
ghost use Rattle.std.specs.Prelude.{false, ◌≡◌, ℕ, ◌+◌, ◌^◌, ◌<◌, ◌≤◌, [], ◌∷◌, IfSome, IfNone, OnOk, OnErr};
ghost use Rattle.std.specs.Prelude.{slice_index_or, vec_len};
ghost use Rattle.markdown_document.specs.Counts.{comparisons_per_delimiter};
ghost use Rattle.markdown_delims.specs.MayPair.{may_pair};
ghost use Rattle.markdown_delims.specs.RunSearch.{nearest_run, dropped_by};
ghost use Rattle.markdown_delims.specs.declared.run.Characters.{Characters as CharactersValue};

use crate::bounds::LowerBounds;
use crate::run::{Characters, Run};
use std::alloc::{AllocError, Global};
use std::marker::Model;

/// The runs that are still open, the newest last, and the number of comparisons that were made.
#[derive(Drop)]
struct Stack {
    items: Vec<Characters>,
    examined: u128,
}

impl Stack {
    /// Returns whether the open run at the position `i` may pair with a closer, and counts the comparison. No other
    /// function compares runs.
    fn compare(&mut self, i: usize, closer: &Run) -> bool
        requires in_range { i < vec_len self.old.items }
        requires room { self.old.examined + 1 < 2 ^ 128 }
        ensures answer { (d : CharactersValue)
            → result ≡ may_pair (slice_index_or self.old.items.items i d).run closer.now }
        ensures counted { self.new ≡ record self.old { examined = self.old.examined + 1 } }
    {
        self.examined += 1;
        self.items[i].run.may_pair(closer)
    }
}

/// The open runs of a chain, with the lower bounds of its searches. Upstream: `InlineStack`.
#[derive(Drop)]
pub struct OpenRuns {
    stack: Stack,
    bounds: LowerBounds,
}

impl Model for OpenRuns {
    ghost use Rattle.markdown_delims.specs.OpenRuns.{Openers, openers_of, IsSound};

    ghost Value = { Openers };

    ghost view = { λ s. openers_of s.stack.items.items s.stack.examined s.bounds };

    ghost invariant = { λ s. IsSound s.stack.items.items s.stack.examined s.bounds };
}

impl OpenRuns {
    /// Returns no open runs, with no comparison made.
    #[tactic(auto, unfolding(crate::specs::OpenRuns::open_runs))]
    pub fn new(alloc: Global) -> OpenRuns
        ensures { result ≡ record { runs = []; examined = 0; potential = 0 } }
    {
        OpenRuns {
            stack: Stack {
                items: Vec::new(alloc),
                examined: 0,
            },
            bounds: LowerBounds::zero(),
        }
    }

    /// Returns the number of comparisons of open runs with closers since `new` or the last `clear`.
    pub fn comparisons(&self) -> u128
        ensures value { result ≡ self.now.examined }
        ensures within { self.now.examined ≤ self.now.potential }
    {
        self.stack.examined
    }

    /// Removes all runs, and resets the count of comparisons. The allocation is kept.
    #[tactic(auto, unfolding(crate::specs::OpenRuns::open_runs))]
    pub fn clear(&mut self)
        ensures { self.new ≡ record { runs = []; examined = 0; potential = 0 } }
    {
        self.stack.items.clear();
        self.stack.examined = 0;
        self.bounds = LowerBounds::zero();
    }

    /// Adds a run to the open ones. Fails only if an allocation fails, after which the open runs are unchanged.
    pub fn push(&mut self, opener: Characters) -> Result<(), AllocError>
        requires some { 0 < opener.count }
        requires room { self.old.potential + comparisons_per_delimiter < 2 ^ 128 }
        ensures ok { OnOk result (self.new
            ≡ record {
              runs = record { dropped = false; opener = opener } ∷ self.old.runs;
              examined = self.old.examined;
              potential = self.old.potential + comparisons_per_delimiter;
            }) }
        ensures err { OnErr result (self.new ≡ self.old) }
    {
        self.stack.items.push(opener)?;
        Ok(())
    }

    /// Removes the nearest open run with which a closer may pair, and all nearer ones, and returns that run. If there
    /// is none, returns `None`, and the open runs that the closer drops are dropped.
    pub fn take_nearest(&mut self, closer: &Run) -> Option<Characters>
        ensures found { IfSome result (λ opener. nearest_run closer.now self.old.runs
            ≡ Some (record { opener = opener; before = self.new.runs })) }
        ensures missed { IfNone result ((nearest_run closer.now self.old.runs ≡ None)
            × (self.new.runs ≡ dropped_by closer.now self.old.runs)) }
        ensures some { IfSome result (λ opener. 0 < opener.count) }
        ensures counted { IfSome result (λ _. self.old.examined < self.new.examined) }
        ensures rises { self.old.examined ≤ self.new.examined }
        ensures paid { self.new.potential ≤ self.old.potential }
    {
        let lowest = self.bounds.for_closer(closer);
        let len = self.stack.items.len();
        let mut i = len;
        while i > lowest {
            i -= 1;
            if self.stack.compare(i, closer) {
                let opener = self.stack.items[i];
                self.stack.items.truncate(i);
                self.bounds.lower(i);
                return Some(opener);
            }
        }
        self.bounds.raise_for(closer, len);
        None
    }
}
