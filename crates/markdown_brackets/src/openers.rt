//! Openers that wait for a `]`.
ghost use Rattle.std.specs.Prelude.{◌≡◌, ◌≤◌, ℕ, length, take};
ghost use Rattle.markdown_brackets.specs.Openers.{before};
ghost use Rattle.markdown_brackets.specs.OpenerStack.{waiting_openers};

use markdown_base::fault::Fault;
use std::alloc::Global;
use std::marker::Model;

/// An opener: the number of its node, and whether it is that of an image.
#[derive(Clone, Copy, Debug, PartialEq, Eq, Drop)]
pub struct Opener {
    pub node: usize,
    pub is_image: bool,
}

/// A stack of waiting openers, and which of them can still become links. Its allocation is kept when it is emptied.
/// Upstream: `LinkStack`.
#[derive(Drop)]
pub struct OpenerStack {
    /// In the order in which they were read.
    openers: Vec<Opener>,
    /// A `[` before this position can no longer become a link: a single number, so that a link need not change each
    /// opener of the stack.
    live_from: usize,
}

// Returns the number of openers before the nearest ones with node numbers of at least `node`.
fn count_before(openers: &[Opener], node: usize) -> usize
    ensures within { result ≤ length openers.now }
    ensures value { (n : ℕ)
        → before node (waiting_openers n openers.now)
        ≡ waiting_openers n (take result openers.now) }
{
    let mut left = openers.len();
    'openers: while left > 0 {
        if openers[left - 1].node < node {
            return left;
        }
        left -= 1;
    }
    0
}

impl Model for OpenerStack {
    ghost use Rattle.std.specs.Prelude.{List, length, ◌≤◌};
    ghost use Rattle.markdown_brackets.specs.Openers.{Waiting};
    ghost use Rattle.markdown_brackets.specs.OpenerStack.{waiting_openers};

    ghost Value = { List Waiting };

    ghost view = { λ s. waiting_openers s.live_from s.openers.items };

    ghost invariant = { λ s. s.live_from ≤ length s.openers.items };
}

impl OpenerStack {
    ghost use Rattle.std.specs.Prelude.{◌≡◌, ◌∷◌, [], map, OnOk, OnErr, IfErr, MatchOption};
    ghost use Rattle.markdown_base.specs.declared.fault.Fault.{Fault};
    ghost use Rattle.markdown_brackets.specs.Openers.{live_opener, disabled_opener, before, first_opener};

    /// Returns an empty stack.
    pub fn new(alloc: Global) -> OpenerStack
        ensures { result ≡ [] }
    {
        OpenerStack {
            openers: Vec::new(alloc),
            live_from: 0,
        }
    }

    /// Adds an opener as the nearest one. The only error is `Fault::Memory`, after which nothing has changed.
    pub fn push(&mut self, opener: Opener) -> Result<(), Fault>
        ensures put { OnOk result (self.new ≡ live_opener opener ∷ self.old) }
        ensures refused { IfErr result (λ fault. fault ≡ Fault.Memory) }
        ensures unchanged { OnErr result (self.new ≡ self.old) }
    {
        self.openers.push(opener)?;
        Ok(())
    }

    /// Returns the nearest opener.
    pub fn nearest(&self) -> Option<Opener>
        ensures { result ≡ first_opener self.now }
    {
        self.openers.last().copied()
    }

    /// Removes the nearest opener, and returns it and whether it can still become a link or an image.
    pub fn take_nearest(&mut self) -> Option<(Opener, bool)>
        ensures { MatchOption result ((self.old ≡ []) × (self.new ≡ []))
            (λ taken. self.old ≡ record { opener = taken.0; is_live = taken.1 } ∷ self.new) }
    {
        let opener = self.openers.pop()?;
        let left = self.openers.len();
        if self.live_from <= left {
            return Some((opener, true));
        }
        self.live_from = left;
        Some((opener, opener.is_image))
    }

    /// Prevents each `[` on the stack from becoming a link.
    pub fn disable_brackets(&mut self)
        ensures { self.new ≡ map disabled_opener self.old }
    {
        self.live_from = self.openers.len();
    }

    /// Removes the nearest openers, as long as their node numbers are at least `node`.
    pub fn drop_from(&mut self, node: usize)
        ensures { self.new ≡ before node self.old }
    {
        let left = count_before(&self.openers, node);
        self.openers.truncate(left);
        self.live_from = self.live_from.min(left);
    }

    /// Removes all openers.
    pub fn clear(&mut self)
        ensures { self.new ≡ [] }
    {
        self.openers.clear();
        self.live_from = 0;
    }
}
