//! The cells that rows lack, which are added to them: how many were, and how many may be.
ghost use Rattle.std.specs.Prelude.{◌≤◌};

/// How many cells were added to the rows of a text's tables so far, and how many may be.
#[derive(Clone, Copy, Drop)]
pub struct Tables {
    added: usize,
    most: usize,
    ghost few: { added ≤ most },
}

impl Tables {
    ghost use Rattle.std.specs.Prelude.{◌≡◌, ◌+◌, max, nat_le, if◌then◌else◌};

    /// Returns the state before any table, for a text of a number of bytes. As many cells may be added as it has bytes,
    /// or 1,000.
    pub fn new(bytes: usize) -> Tables
        ensures added { result.added ≡ 0 }
        ensures most { result.most ≡ max bytes 1000 }
    {
        Tables {
            added: 0,
            most: bytes.max(1000),
        }
    }

    /// Returns whether this number of cells may still be added.
    pub fn may_add(&self, cells: usize) -> bool
        ensures { result ≡ nat_le (self.now.added + cells) self.now.most }
    {
        cells <= self.most - self.added
    }

    /// Counts this number of cells, if as many may still be added, and returns whether they may.
    pub fn add(&mut self, cells: usize) -> bool
        ensures fits { result ≡ nat_le (self.old.added + cells) self.old.most }
        ensures counts { self.new.added
            ≡ (if result then self.old.added + cells else self.old.added) }
        ensures most { self.new.most ≡ self.old.most }
    {
        if !self.may_add(cells) {
            return false;
        }
        self.added += cells;
        true
    }
}
