//! Delimiter runs (CommonMark 6.2), and their characters that are not paired yet.
ghost use Rattle.std.specs.Prelude.{◌≡◌};
ghost use Rattle.markdown_delims.specs.MayPair.{may_pair, can_do_both, same_delimiter};

/// The character of a delimiter run: `*`, `_`, `~` or `^`.
#[derive(Clone, Copy)]
pub enum Delimiter {
    Star,
    Underscore,
    Tilde,
    Caret,
}

/// A delimiter run as it is read first, with its whole length in characters.
#[derive(Clone, Copy)]
pub struct Run {
    pub delimiter: Delimiter,
    pub length: usize,
    pub can_open: bool,
    pub can_close: bool,
}

/// The characters of a run that are not paired yet: the number of the first one's node, and their count.
#[derive(Clone, Copy)]
pub struct Characters {
    pub run: Run,
    pub number: usize,
    pub count: usize,
}

impl Delimiter {
    /// Returns whether both are the same character.
    pub fn is_same(self, other: Delimiter) -> bool
        ensures { result ≡ same_delimiter self other }
    {
        match (self, other) {
            (Delimiter::Star, Delimiter::Star)
            | (Delimiter::Underscore, Delimiter::Underscore)
            | (Delimiter::Tilde, Delimiter::Tilde)
            | (Delimiter::Caret, Delimiter::Caret) => true,
            _ => false,
        }
    }
}

impl Run {
    /// Returns whether the run can both open and close.
    pub fn is_both(&self) -> bool
        ensures { result ≡ can_do_both self.now }
    {
        self.can_open && self.can_close
    }

    /// Returns whether this run, as an opener, and a closer may pair.
    pub fn may_pair(&self, closer: &Run) -> bool
        ensures { result ≡ may_pair self.now closer.now }
    {
        let lengths_agree = (self.length % 3 + closer.length % 3) % 3 != 0
            || closer.length % 3 == 0;
        let rule_of_three = !self.is_both() && !closer.is_both() || lengths_agree;
        let equal_length = match closer.delimiter {
            Delimiter::Tilde => self.length == closer.length,
            _ => true,
        };
        self.delimiter.is_same(closer.delimiter) && rule_of_three && equal_length
    }
}
