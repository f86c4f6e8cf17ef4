//! Lower bounds of a search: the positions of the stack below which no open run pairs with a closer, as earlier
//! searches found.
ghost use Rattle.std.specs.Prelude.{◌≡◌};
ghost use Rattle.markdown_delims.specs.Bounds.{bound_for, raised_for, lowered, no_bounds, zero_bounds};
ghost use Rattle.markdown_delims.specs.Bounds.{character_bound_for, character_raised_for, character_lowered};

use crate::run::{Delimiter, Run};

/// The lower bounds for closers of one character: no run below the least bound that applies to a closer pairs with it.
#[derive(Clone, Copy)]
pub struct CharacterBounds {
    /// For closers that cannot also open.
    pub cannot_open: usize,
    /// For closers of a length with the remainder 0 modulo 3.
    pub remainder_zero: usize,
    /// The same for the remainder 1.
    pub remainder_one: usize,
    /// The same for the remainder 2.
    pub remainder_two: usize,
}

/// The lower bounds of a stack of open runs.
#[derive(Clone, Copy)]
pub struct LowerBounds {
    pub star: CharacterBounds,
    pub underscore: CharacterBounds,
    /// For `~`: each run of it below this position is dropped.
    pub tilde: usize,
    /// The same for `^`.
    pub caret: usize,
}

impl CharacterBounds {
    /// Returns the bounds before any search, which are 0.
    pub fn zero() -> CharacterBounds
        ensures { result ≡ no_bounds }
    {
        CharacterBounds {
            cannot_open: 0,
            remainder_zero: 0,
            remainder_one: 0,
            remainder_two: 0,
        }
    }

    fn for_closer(self, closer: &Run) -> usize
        ensures { result ≡ character_bound_for closer.now self }
    {
        let by_remainder = match closer.length % 3 {
            0 => self.remainder_zero,
            1 => self.remainder_one,
            _ => self.remainder_two,
        };
        if closer.is_both() || by_remainder < self.cannot_open {
            by_remainder
        } else {
            self.cannot_open
        }
    }

    fn raised_for(self, closer: &Run, len: usize) -> CharacterBounds
        ensures { result ≡ character_raised_for closer.now len self }
    {
        let mut bounds = self;
        match closer.length % 3 {
            0 => bounds.remainder_zero = len,
            1 => bounds.remainder_one = len,
            _ => bounds.remainder_two = len,
        }
        if !closer.is_both() {
            bounds.cannot_open = len;
        }
        bounds
    }

    fn lower_to(self, len: usize) -> CharacterBounds
        ensures { result ≡ character_lowered len self }
    {
        CharacterBounds {
            cannot_open: self.cannot_open.min(len),
            remainder_zero: self.remainder_zero.min(len),
            remainder_one: self.remainder_one.min(len),
            remainder_two: self.remainder_two.min(len),
        }
    }
}

impl LowerBounds {
    /// Returns the bounds before any search, which are 0.
    pub fn zero() -> LowerBounds
        ensures { result ≡ zero_bounds }
    {
        LowerBounds {
            star: CharacterBounds::zero(),
            underscore: CharacterBounds::zero(),
            tilde: 0,
            caret: 0,
        }
    }

    /// Returns the least of the bounds that apply to the closer.
    pub fn for_closer(&self, closer: &Run) -> usize
        ensures { result ≡ bound_for closer.now self.now }
    {
        match closer.delimiter {
            Delimiter::Star => self.star.for_closer(closer),
            Delimiter::Underscore => self.underscore.for_closer(closer),
            Delimiter::Tilde => self.tilde,
            Delimiter::Caret => self.caret,
        }
    }

    /// Sets the bounds that apply to the closer to `len`, the length of the stack in which its search found no run.
    pub fn raise_for(&mut self, closer: &Run, len: usize)
        ensures { self.new ≡ raised_for closer.now len self.old }
    {
        match closer.delimiter {
            Delimiter::Star => self.star = self.star.raised_for(closer, len),
            Delimiter::Underscore => self.underscore = self.underscore.raised_for(closer, len),
            Delimiter::Tilde => self.tilde = len,
            Delimiter::Caret => self.caret = len,
        }
    }

    /// Lowers to `len`, the new length of the stack, each bound that is greater.
    pub fn lower(&mut self, len: usize)
        ensures { self.new ≡ lowered len self.old }
    {
        self.star = self.star.lower_to(len);
        self.underscore = self.underscore.lower_to(len);
        self.tilde = self.tilde.min(len);
        self.caret = self.caret.min(len);
    }
}
