//! The items after a closing bracket.
ghost use Rattle.std.specs.Prelude.{◌≡◌, ◌≤◌, ℕ, Option};

/// The items after a `]`, which determine where the lines of a link's title continue.
pub trait ItemsAfter {
    /// The start of the first item that ends after a byte offset.
    ghost starts: { Self → ℕ → Option ℕ };

    /// Returns the start of the first item that ends after the byte offset `at`. The offsets of successive calls must
    /// rise, so that items that end earlier can be forgotten.
    fn start_of_first_past(&mut self, at: usize) -> Option<usize>
        ensures value { result ≡ starts self.old at }
        ensures later { (n : ℕ) → at ≤ n → starts self.new n ≡ starts self.old n };
}

/// The items after a `]` that is the last item: none.
#[derive(Debug, Drop)]
pub struct NoItems;

impl ItemsAfter for NoItems {
    ghost use Rattle.std.specs.Prelude.{None};

    ghost starts = { λ items at. None };

    fn start_of_first_past(&mut self, _at: usize) -> Option<usize> {
        None
    }
}
