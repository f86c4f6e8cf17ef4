//! Counts of the work that resolving chains has taken.
ghost use Rattle.std.specs.Prelude.{◌≡◌, ◌+◌, ◌-◌, ◌^◌, min};

/// The work that has been done since a parser was made. A count that overflows stays at `u128::MAX`.
#[derive(Clone, Copy, Debug, Default, PartialEq, Eq, Drop)]
pub struct Work {
    /// The delimiter characters that were left in chains when pairing began.
    pub delimiters: u128,
    /// The open delimiter runs that were compared with a closer.
    pub examined: u128,
    /// The items of the chains that were resolved, from the first open item of each.
    pub items: u128,
    /// The items that searches for the closer of a code span examined.
    pub code_visits: u128,
    /// The items that searches for the closer of a math span examined.
    pub math_visits: u128,
}

impl Work {
    ghost use Rattle.std.specs.Prelude.{◌≡◌, ◌+◌, ◌-◌, ◌^◌, min};
    ghost use Rattle.markdown_document.specs.Counts.{risen};

    /// Returns counts of 0.
    pub fn none() -> Work
        ensures { result
            ≡ record { delimiters = 0; examined = 0; items = 0; code_visits = 0; math_visits = 0 } }
    {
        Work {
            delimiters: 0,
            examined: 0,
            items: 0,
            code_visits: 0,
            math_visits: 0,
        }
    }

    /// Counts one more item.
    pub fn count_item(&mut self)
        ensures { self.new ≡ record self.old { items = min (self.old.items + 1) (2 ^ 128 - 1) } }
    {
        self.items = self.items.saturating_add(1);
    }

    /// Counts the delimiter characters of a chain that is paired, and the comparisons of its open runs.
    pub fn count_pairing(&mut self, delimiters: u128, examined: u128)
        ensures { self.new ≡ record self.old {
          delimiters = risen delimiters self.old.delimiters;
          examined = risen examined self.old.examined;
        } }
    {
        self.delimiters = self.delimiters.saturating_add(delimiters);
        self.examined = self.examined.saturating_add(examined);
    }
}
